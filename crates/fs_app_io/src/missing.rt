//! Why a FILE word has no bytes.
use crate::unread::Unread;
use fs_kinds::Fault;
use std::alloc::{AllocError, AllocFailed};
use thiserror::Error;

/// Why a file has no bytes, or a folder or a list no files. It reads as what is said of it.
#[derive(Clone, Copy, Debug, Error)]
pub enum Missing {
    #[error("{0}")]
    Unread(Unread),
    #[error("it names no file")]
    Empty,
    #[error("its names aren't UTF-8")]
    NotUtf8,
    #[error("it stands in 16 folders and lists, and no more are looked into")]
    TooDeep,
    #[error("1000000 names, or lists of 64 MiB, come before it")]
    TooMany,
}

impl Missing {
    /// The fault of a run that ends by it.
    pub fn fault(self) -> Fault {
        match self {
            Missing::Unread(why) => why.fault(),
            _ => Fault::ReadFault,
        }
    }
}

impl From<Unread> for Missing {
    fn from(why: Unread) -> Missing {
        Missing::Unread(why)
    }
}

impl From<AllocError> for Missing {
    fn from(_refused: AllocError) -> Missing {
        Missing::Unread(Unread::NoMemory)
    }
}

impl<T: Drop> From<AllocFailed<T>> for Missing {
    fn from(_refused: AllocFailed<T>) -> Missing {
        Missing::Unread(Unread::NoMemory)
    }
}
