//! The FENCE that stands for a kind.

ghost use Rattle.std.specs.Prelude.{◌≡◌};
ghost use Rattle.fs_model.specs.Fenced.{fence_of};
ghost use Rattle.fs_model_laws.specs.InPlace.{fence_for};

use fs_instr::{Instr, Letters};
use fs_kinds::Kind;

const READ: Letters = Letters {
    input: false,
    output: false,
    reads: true,
    writes: false,
};

const WRITE: Letters = Letters {
    input: false,
    output: false,
    reads: false,
    writes: true,
};

const BOTH: Letters = Letters {
    input: false,
    output: false,
    reads: true,
    writes: true,
};

const DEVICES: Letters = Letters {
    input: true,
    output: true,
    reads: false,
    writes: false,
};

/// The FENCE of a kind.
fn fence_of(kind: Kind) -> Instr
    ensures { result ≡ fence_of kind }
{
    let (before, after) = match kind {
        Kind::RR => (READ, READ),
        Kind::RW => (READ, WRITE),
        Kind::RRw => (READ, BOTH),
        Kind::WR => (WRITE, READ),
        Kind::WW => (WRITE, WRITE),
        Kind::WRw => (WRITE, BOTH),
        Kind::RwR => (BOTH, READ),
        Kind::RwW => (BOTH, WRITE),
        Kind::RwRw => (BOTH, BOTH),
        Kind::Tso => return Instr::FenceTso,
    };
    Instr::Fence { before, after }
}

/// The FENCE of a kind; for none `fence io,io`.
pub(crate) fn fence_for(kind: Option<Kind>) -> Instr
    ensures { result ≡ fence_for kind }
{
    match kind {
        Some(kind) => fence_of(kind),
        None => Instr::Fence {
            before: DEVICES,
            after: DEVICES,
        },
    }
}
