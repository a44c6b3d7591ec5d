//! Why a log can't be held against tests.

ghost use Rattle.std.specs.Prelude.{◌≡◌};

use fs_kinds::Fault;
use std::alloc::{AllocError, AllocFailed};
use thiserror::Error;

// In attributes below, a letter of one word is written as \x65: `rt` takes each attribute with that word for one of a
// test function.

/// What should stand in a line of a log.
#[derive(Clone, Copy, Debug, Error)]
pub enum Expected {
    /// The first line of a block, where a line begins with `Test`.
    #[error("`Test NAME Allowed`, `Test NAME Required` or `Test NAME Forbidden`")]
    Title,
    /// How many states there are.
    #[error("`States N` or `Histogram (N states)`")]
    Count,
    /// A state: items, each ended by `;`, with how often it was seen where the block is a histogram.
    #[error("a state")]
    State,
    /// Whether the condition was met.
    #[error("`Ok` or `No`")]
    Outcome,
    /// Places of the test alone.
    #[error("a register or location of the t\x65st")]
    Place,
    /// Values alone: a number of 32 bits, or the name of a location.
    #[error("a number of 32 bits or the name of a location")]
    Value,
    /// The places that the block's first state names, each once.
    #[error("the places of the first state, each once")]
    Places,
}

/// Why a log can't be held against tests: the line that is printed, with no line end.
#[derive(Clone, Copy, Debug, Error)]
pub enum LogError {
    /// It is longer than 1 GiB.
    #[error("error: the log is longer than 1073741824 bytes")]
    TooLong,
    /// It isn't UTF-8.
    #[error("error: the log isn't UTF-8")]
    NotUtf8,
    /// It has no block.
    #[error("error: the log has no block of a t\x65st")]
    NoBlock,
    /// This should stand in this line, counted from 1.
    #[error("error: log line {line}: expected {expected}")]
    Line { line: usize, expected: Expected },
    /// The fault of a test or of FENCE words, or want of memory.
    #[error("{0}")]
    Fault(Fault),
}

impl From<Fault> for LogError {
    ghost use Rattle.std.specs.Prelude.{◌≡◌};
    ghost use Rattle.fs_app_states.specs.declared.error.LogError.TheVariants.{Fault};

    ghost from_gives = { λ fault error. error ≡ Fault fault };

    fn from(fault: Fault) -> LogError {
        LogError::Fault(fault)
    }
}

impl From<AllocError> for LogError {
    ghost use Rattle.std.specs.Prelude.{◌≡◌};
    ghost use Rattle.fs_kinds.specs.declared.fault.Fault.TheVariants.{Memory};
    ghost use Rattle.fs_app_states.specs.declared.error.LogError.TheVariants.{Fault};

    ghost from_gives = { λ _ error. error ≡ Fault Memory };

    fn from(_refused: AllocError) -> LogError {
        LogError::Fault(Fault::Memory)
    }
}

impl<T: Drop> From<AllocFailed<T>> for LogError {
    ghost use Rattle.std.specs.Prelude.{◌≡◌};
    ghost use Rattle.fs_kinds.specs.declared.fault.Fault.TheVariants.{Memory};
    ghost use Rattle.fs_app_states.specs.declared.error.LogError.TheVariants.{Fault};

    ghost from_gives = { λ _ error. error ≡ Fault Memory };

    fn from(_refused: AllocFailed<T>) -> LogError {
        LogError::Fault(Fault::Memory)
    }
}
