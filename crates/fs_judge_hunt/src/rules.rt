//! In which runs of a hart a rule of preserved program order holds.

use crate::rows::Row;
use fs_kinds::OperationName;

/// The runs in which the rule of this number puts the one name before the other. Of rule 2 this is what it asks besides
/// sources; of rule 3, where the second returns from the first.
#[derive(Drop)]
pub struct Rule {
    pub first: u8,
    pub second: u8,
    pub number: u8,
    pub row: Row,
    /// Has the row all runs of the hart?
    pub is_whole: bool,
}

/// The runs in which rule 12 puts the first name before the second, where that returns from the store.
#[derive(Drop)]
pub struct Forwarded {
    pub first: u8,
    pub store: u8,
    pub second: u8,
    pub row: Row,
}

/// A name with its number.
#[derive(Clone, Copy)]
pub struct Numbered {
    pub number: u8,
    pub name: OperationName,
}
