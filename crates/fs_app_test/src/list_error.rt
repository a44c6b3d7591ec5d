//! Why a list of what tests are expected to be isn't read.

use fs_kinds::Fault;
use std::alloc::{AllocError, AllocFailed};
use thiserror::Error;

/// Why a list isn't read: the line that is printed, with no line end.
#[derive(Clone, Copy, Debug, Error)]
pub enum ListError {
    /// It isn't UTF-8.
    #[error("error: what is expected isn't UTF-8")]
    NotUtf8,
    /// This line, counted from 1, isn't of the form.
    #[error("error: line {0} of what is expected isn't a name and `forbidden`, `allowed` or `vacuous`")]
    Line(usize),
    /// The name in this line stands in an earlier one, too.
    #[error("error: line {0} of what is expected has the name of an earlier line")]
    Twice(usize),
    /// Want of memory.
    #[error("{0}")]
    Fault(Fault),
}

impl From<AllocError> for ListError {
    fn from(_refused: AllocError) -> ListError {
        ListError::Fault(Fault::Memory)
    }
}

impl<T: Drop> From<AllocFailed<T>> for ListError {
    fn from(_refused: AllocFailed<T>) -> ListError {
        ListError::Fault(Fault::Memory)
    }
}
