//! Why a file isn't read.
ghost use Rattle.std.specs.Prelude.{◌≡◌, false};
ghost use Rattle.fs_app_io.specs.Unread.{fault_of, is_too_long};

use fs_kinds::Fault;
use std::io::ErrorKind;
use thiserror::Error;

/// Why a file, or standard input, isn't read whole. It reads as what is said of the file.
#[derive(Clone, Copy, Debug, Error)]
pub enum Unread {
    #[error("there is no such file")]
    Missing,
    #[error("it is a folder")]
    Folder,
    /// It has more bytes than so many.
    #[error("it has more than {0} bytes")]
    TooLong(usize),
    /// It can't be opened, or a read fails, for another cause.
    #[error("it can't be opened or read")]
    Failed,
    #[error("there is no memory for it")]
    NoMemory,
}

impl Unread {
    /// What an error of this kind tells, at opening or at a read.
    pub fn of(kind: ErrorKind) -> Unread
        ensures { is_too_long result ≡ false }
    {
        match kind {
            ErrorKind::NotFound => Unread::Missing,
            ErrorKind::IsADirectory => Unread::Folder,
            ErrorKind::OutOfMemory => Unread::NoMemory,
            _ => Unread::Failed,
        }
    }

    /// The fault of a run that ends by it.
    pub fn fault(self) -> Fault
        ensures { result ≡ fault_of self }
    {
        match self {
            Unread::NoMemory => Fault::Memory,
            _ => Fault::ReadFault,
        }
    }
}
