//! At which access of its hart a FENCE stands, and for which kind.

ghost use Rattle.std.specs.Prelude.{◌≡◌, ◌&&◌, drop, length, nat_lt, take};
ghost use Rattle.std.specs.List.{find, list_any};
ghost use Rattle.fs_instr.specs.Instructions.{is_memory, target_of};
ghost use Rattle.fs_model.specs.Numbers.{numbers_below};
ghost use Rattle.fs_model.specs.Printed.{goes_to, is_target};
ghost use Rattle.fs_model.specs.Slots.{is_memory_at};
ghost use Rattle.fs_app_audit.specs.Standing.{is_at, is_fence_at, leads_on, is_stop, reached, access_after, stands_at};
ghost use Rattle.fs_app_audit.specs.Standing.{is_between_accesses, covers, is_of, first_at, answering};
ghost use Rattle.fs_app_audit.specs.Unfenced.{memory_kind};

use crate::slices::{before, from};
use crate::{is_fence, memory_kind};
use fs_instr::Instr;
use fs_kinds::Kind;

pub(crate) fn is_fence_at(code: &[Instr], at: usize) -> bool
    ensures { result ≡ is_fence_at code.now at }
{
    match code.get(at) {
        Some(instr) => is_fence(*instr),
        None => false,
    }
}

pub(crate) fn is_memory_at(code: &[Instr], at: usize) -> bool
    ensures { result ≡ is_memory_at code.now at }
{
    match code.get(at) {
        Some(instr) => instr.is_memory(),
        None => false,
    }
}

fn has_access(code: &[Instr]) -> bool
    ensures { result ≡ list_any is_memory code.now }
{
    code.iter().any(|instr| instr.is_memory())
}

/// Does it go to where an access is still to come?
fn leads_on(code: &[Instr], instr: Instr) -> bool
    ensures { result ≡ leads_on code.now instr }
{
    match instr.target() {
        Some(target) => has_access(from(code, usize::from(target))),
        None => false,
    }
}

fn leads_on_at(code: &[Instr], at: usize) -> bool
    ensures { result ≡ is_at (leads_on code.now) code.now at }
{
    match code.get(at) {
        Some(instr) => leads_on(code, *instr),
        None => false,
    }
}

fn goes_to(instr: &Instr, at: usize) -> bool
    ensures { result ≡ goes_to at (target_of instr.now) }
{
    match instr.target() {
        Some(target) => usize::from(target) == at,
        None => false,
    }
}

/// Does a label stand there?
fn is_target(code: &[Instr], at: usize) -> bool
    ensures { result ≡ is_target code.now at }
{
    code.iter().any(|instr| goes_to(instr, at))
}

/// Does an access stand there, or a label, or a branch to where an access is still to come?
fn is_stop(code: &[Instr], at: usize) -> bool
    ensures { result ≡ is_stop code.now at }
{
    is_target(code, at) || (is_memory_at(code, at) || leads_on_at(code, at))
}

/// The access there, where there is one and no label.
fn reached(code: &[Instr], at: usize) -> Option<usize>
    ensures { result ≡ reached code.now at }
{
    if is_memory_at(code, at) && !is_target(code, at) {
        Some(at)
    } else {
        None
    }
}

/// The first stop behind it.
fn next_stop(code: &[Instr], at: usize) -> Option<usize>
    ensures { result ≡ find (λ n. nat_lt at n && is_stop code.now n) (numbers_below (length code.now)) }
{
    (0..code.len()).find(|other| at < *other && is_stop(code, *other))
}

/// The access at which a FENCE at `at` stands, if there is one. The square of the code's length at most.
pub(crate) fn access_after(code: &[Instr], at: usize) -> Option<usize>
    ensures { result ≡ access_after code.now at }
{
    match next_stop(code, at) {
        Some(next) => reached(code, next),
        None => None,
    }
}

/// Does a FENCE at `at` stand at this access?
fn stands_at(code: &[Instr], access: usize, at: usize) -> bool
    ensures { result ≡ stands_at code.now access at }
{
    is_fence_at(code, at) && access_after(code, at).is_some_and(|found| found == access)
}

/// Does an access stand before instruction `at`, and one behind it?
pub(crate) fn is_between_accesses(code: &[Instr], at: usize) -> bool
    ensures { result ≡ is_between_accesses code.now at }
{
    has_access(before(code, at)) && has_access(from(code, at))
}

/// Does the FENCE of this kind order all that the first kind orders?
pub(crate) fn covers(kind: Kind, own: Option<Kind>) -> bool
    ensures { result ≡ covers kind own }
{
    match own {
        Some(own) => kind.no_stronger(own),
        None => false,
    }
}

/// Does it order that and no more?
pub(crate) fn is_of(kind: Kind, own: Option<Kind>) -> bool
    ensures { result ≡ is_of kind own }
{
    match own {
        Some(own) => kind.no_stronger(own) && own.no_stronger(kind),
        None => false,
    }
}

/// Is a FENCE there of which one of these is so?
fn is_of_at(code: &[Instr], kind: Kind, at: usize) -> bool
    ensures { result ≡ is_at (λ i. is_of kind (memory_kind i)) code.now at }
{
    match code.get(at) {
        Some(instr) => is_of(kind, memory_kind(*instr)),
        None => false,
    }
}

fn covers_at(code: &[Instr], kind: Kind, at: usize) -> bool
    ensures { result ≡ is_at (λ i. covers kind (memory_kind i)) code.now at }
{
    match code.get(at) {
        Some(instr) => covers(kind, memory_kind(*instr)),
        None => false,
    }
}

/// The first FENCE of the kind at the access.
fn first_of(code: &[Instr], access: usize, kind: Kind) -> Option<usize>
    ensures { result ≡ first_at (is_of kind) code.now access }
{
    (0..access).find(|at| stands_at(code, access, *at) && is_of_at(code, kind, *at))
}

/// The first that orders all that the kind orders.
fn first_covering(code: &[Instr], access: usize, kind: Kind) -> Option<usize>
    ensures { result ≡ first_at (covers kind) code.now access }
{
    (0..access).find(|at| stands_at(code, access, *at) && covers_at(code, kind, *at))
}

/// The first.
fn first(code: &[Instr], access: usize) -> Option<usize>
    ensures { result ≡ find (stands_at code.now access) (numbers_below access) }
{
    (0..access).find(|at| stands_at(code, access, *at))
}

/// Of the FENCEs at the access the first of this kind, or else the first that covers it, or else the first. The cube of
/// the code's length at most.
pub(crate) fn answering(code: &[Instr], access: usize, kind: Kind) -> Option<usize>
    ensures { result ≡ answering code.now access kind }
{
    if let Some(at) = first_of(code, access, kind) {
        return Some(at);
    }
    match first_covering(code, access, kind) {
        Some(at) => Some(at),
        None => first(code, access),
    }
}
