//! The FENCEs that order memory, and those that name devices.

ghost use Rattle.std.specs.Prelude.{◌≡◌};
ghost use Rattle.fs_model_laws.specs.InPlace.{is_fence, kind_of_sides, memory_kind};
ghost use Rattle.fs_app_file_text.specs.Fences.{names_devices};

use fs_instr::{Instr, Letters};
use fs_kinds::Kind;

fn kind_of_sides(before: Letters, after: Letters) -> Option<Kind>
    ensures { result ≡ kind_of_sides before.reads before.writes after.reads after.writes }
{
    match (before.reads, before.writes, after.reads, after.writes) {
        (true, false, true, false) => Some(Kind::RR),
        (true, false, false, true) => Some(Kind::RW),
        (true, false, true, true) => Some(Kind::RRw),
        (false, true, true, false) => Some(Kind::WR),
        (false, true, false, true) => Some(Kind::WW),
        (false, true, true, true) => Some(Kind::WRw),
        (true, true, true, false) => Some(Kind::RwR),
        (true, true, false, true) => Some(Kind::RwW),
        (true, true, true, true) => Some(Kind::RwRw),
        _ => None,
    }
}

/// The kind of a FENCE by its letters r and w; none where it orders no memory, or is no FENCE.
pub fn memory_kind(instr: Instr) -> Option<Kind>
    ensures { result ≡ memory_kind instr }
{
    match instr {
        Instr::Fence { before, after } => kind_of_sides(before, after),
        Instr::FenceTso => Some(Kind::Tso),
        _ => None,
    }
}

/// Is it a FENCE that orders memory?
pub fn is_fence(instr: Instr) -> bool
    ensures { result ≡ is_fence instr }
{
    memory_kind(instr).is_some()
}

/// Is it a FENCE that has i or o among its letters?
pub fn names_devices(instr: Instr) -> bool
    ensures { result ≡ names_devices instr }
{
    match instr {
        Instr::Fence { before, after } => {
            (before.input || before.output) || (after.input || after.output)
        }
        _ => false,
    }
}
