//! The steps of a run, by their places in it.

ghost use Rattle.std.specs.Prelude.{◌≡◌, None};
ghost use Rattle.std.specs.List.{slice_index_or};
ghost use Rattle.fs_instr.specs.Instructions.{sources_of, address_of, data_of};
ghost use Rattle.fs_model.specs.Operations.{instr_at};
ghost use Rattle.fs_model.specs.Dependencies.{writes};

use crate::numbered::is_same_number;
use fs_instr::{Instr, Reg};
use fs_model::Step;

/// The instruction of step k; past the last step it is a nop.
pub(crate) fn instr_at(steps: &[Step], k: usize) -> Instr
    ensures { result ≡ instr_at steps.now k }
{
    if k < steps.len() {
        steps[k].instr
    } else {
        Instr::NOP
    }
}

/// The register's number.
fn number_of(register: Option<Reg>) -> Option<u8>
    ensures { result ≡ register }
{
    match register {
        Some(register) => Some(register.number()),
        None => None,
    }
}

/// Is the register of this number the destination of step i?
pub(crate) fn writes(steps: &[Step], i: usize, register: Option<u8>) -> bool
    ensures { result ≡ writes steps.now i register }
{
    is_same_number(number_of(instr_at(steps, i).dest()), register)
}

/// The number of the first source of step k, where it has one.
pub(crate) fn first_source(steps: &[Step], k: usize) -> Option<u8>
    ensures { result ≡ slice_index_or (sources_of (instr_at steps.now k)) 0 None }
{
    number_of(instr_at(steps, k).sources()[0])
}

/// The number of the second source of step k, where it has one.
pub(crate) fn second_source(steps: &[Step], k: usize) -> Option<u8>
    ensures { result ≡ slice_index_or (sources_of (instr_at steps.now k)) 1 None }
{
    number_of(instr_at(steps, k).sources()[1])
}

/// The number of the address source of step k, where it has one.
pub(crate) fn address_source(steps: &[Step], k: usize) -> Option<u8>
    ensures { result ≡ address_of (instr_at steps.now k) }
{
    number_of(instr_at(steps, k).address_source())
}

/// The number of the data source of step k, where it has one.
pub(crate) fn data_source(steps: &[Step], k: usize) -> Option<u8>
    ensures { result ≡ data_of (instr_at steps.now k) }
{
    number_of(instr_at(steps, k).data_source())
}
