//! Of which file something is told.

use fs_app_why::Telling;
use fs_kinds::List;
use fs_model::Test;

/// A file, the test that it is, the lines in which its instructions stand, how much is to be told, and how many
/// inferences each hunt may make.
#[derive(Clone, Copy)]
pub(crate) struct Page<'a> {
    pub(crate) bytes: &'a [u8],
    pub(crate) test: &'a Test,
    pub(crate) lines: &'a [List<usize>],
    pub(crate) telling: Telling,
    pub(crate) inferences: usize,
}
