//! Why a run ends without an answer.
use fs_app_io::Status;
use fs_app_states::LogError;
use fs_app_test::ListError;
use fs_kinds::Fault;
use thiserror::Error;

/// Why a run ends without an answer. It reads as the lines that standard error gets, their ends included.
#[derive(Debug, Drop, Error)]
pub(crate) enum Failure {
    /// A word of the command line isn't text.
    #[error("error: a word of the command line is not UTF-8\n")]
    NotUtf8,
    /// The stack may not be large enough.
    #[error("error: a run may need a stack of 512 KiB, and there is less: see `ulimit -s`\n")]
    NoStack,
    /// The words make no request.
    #[error(transparent)]
    NoRequest(#[from] clap::Error),
    /// The request has no answer, or it can't be printed.
    #[error("{0}\n")]
    NoAnswer(#[from] Fault),
    /// A log isn't of its form, or doesn't fit a test.
    #[error("{0}\n")]
    BadLog(LogError),
    /// A list of what tests are expected to be isn't of its form.
    #[error("{0}\n")]
    BadList(ListError),
    /// `audit --write` or `audit --why` was given several files, or `audit -i` was, or standard input.
    #[error("error: `--write` and `--why` take one FILE, and `-i` one that isn't standard input\n")]
    OneTest,
    /// `audit -i` leaves the file as it is.
    #[error("note: the file stays as it is: FENCEs are changed where the outcome is forbidden, each in its place\n")]
    NotMended,
    /// `--why` was given a word that is no place.
    #[error("error: `--why` takes `all`, or a fence's place as `P1:6`\n")]
    NoPlace,
    /// The request has no answer, and a message explains the fault.
    #[error("{0}\n{1}")]
    Told(Fault, String),
}

impl Failure {
    pub(crate) fn status(&self) -> Status {
        match self {
            Failure::NotUtf8
            | Failure::NoStack
            | Failure::NoRequest(_)
            | Failure::BadLog(_)
            | Failure::BadList(_)
            | Failure::OneTest
            | Failure::NotMended
            | Failure::NoPlace => Status::Failure,
            Failure::NoAnswer(fault) | Failure::Told(fault, _) => Status::of_fault(*fault),
        }
    }
}
