//! What `check` prints.
use fs_app_io::Output;

/// What `check` prints.
#[derive(Drop)]
pub struct Checked {
    pub output: Output,
    /// The verdict as a JSON object, in a line, which may be printed in place of its lines.
    pub object: String,
}
