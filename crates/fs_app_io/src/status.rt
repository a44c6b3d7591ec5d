//! What a run answers, and how the program ends.
ghost use Rattle.std.specs.Prelude.{◌≡◌};
ghost use Rattle.fs_app_io.specs.Status.{code, status_of};

use fs_kinds::Fault;

/// How the program ends.
#[derive(Clone, Copy, PartialEq, Eq)]
pub enum Status {
    /// The test was placed, fences were found, the answer is yes, or each outcome is forbidden.
    Success,
    /// The answer is none, or no, or an outcome is allowed.
    Denied,
    /// A fault, or a bad command line.
    Failure,
    /// Memory ran out.
    OutOfMemory,
    /// An outcome is vacuous, and nothing is worse.
    Vacuous,
}

impl Status {
    /// The exit status of the process: 0 to 4.
    pub fn code(self) -> u8
        ensures { result ≡ code self }
    {
        match self {
            Status::Success => 0,
            Status::Denied => 1,
            Status::Failure => 2,
            Status::OutOfMemory => 3,
            Status::Vacuous => 4,
        }
    }

    /// The status of a run that a fault ended.
    pub fn of_fault(fault: Fault) -> Status
        ensures { result ≡ status_of fault }
    {
        match fault {
            Fault::Memory => Status::OutOfMemory,
            _ => Status::Failure,
        }
    }
}

/// What a run that met no fault prints on standard output, and how it ends.
#[derive(Drop)]
pub struct Output {
    pub text: String,
    pub status: Status,
}
