//! Test files, read, in the form that the reader takes.

use fs_app_io::Missing;
use fs_app_plain::{Forms, Plain, Unplain, plain_form};
use fs_kinds::Fault;
use std::alloc::Global;
use thiserror::Error;

/// Why a file has no text that is read as a test. It reads as what is said of it.
#[derive(Clone, Copy, Debug, Error)]
pub enum Unusable {
    #[error("{0}")]
    Missing(Missing),
    #[error("{0}")]
    Unplain(Unplain),
}

impl Unusable {
    /// The line of the file that it speaks of, where it speaks of one.
    pub(crate) fn line(self) -> Option<usize> {
        match self {
            Unusable::Unplain(Unplain::BothWidths { line }) => Some(line),
            _ => None,
        }
    }

    /// The fault of a run that ends by it.
    pub fn fault(self) -> Fault {
        match self {
            Unusable::Missing(why) => why.fault(),
            Unusable::Unplain(why) => why.fault(),
        }
    }
}

/// The file's text in the reader's form. The cost is that of `plain_form`.
pub fn plain_text(
    alloc: Global,
    file: Result<Vec<u8>, Missing>,
    forms: Forms,
) -> Result<Plain, Unusable> {
    match file {
        Ok(bytes) => match plain_form(alloc, &bytes, forms) {
            Ok(Some(plain)) => Ok(plain.of_file(bytes)),
            Ok(None) => Ok(Plain {
                text: bytes,
                file: None,
                turns: Vec::new(alloc),
                is_guarded: false,
                is_wide: false,
                is_hidden: false,
            }),
            Err(why) => Err(Unusable::Unplain(why)),
        },
        Err(why) => Err(Unusable::Missing(why)),
    }
}
