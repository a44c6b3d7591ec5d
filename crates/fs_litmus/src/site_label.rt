//! What is told of a site label.

/// A site label. It stands right before the instruction of its hart before which `at` others stand, or at the end of
/// the hart's code where it has no more.
#[derive(Clone, Copy)]
pub struct SiteLabel<'a> {
    /// The hart's number, from 0 on.
    pub hart: usize,
    /// How many of the hart's instructions stand before the label.
    pub at: usize,
    /// The name of its site.
    pub name: &'a str,
    /// The line that it stands in, from 1 on.
    pub line: usize,
}
