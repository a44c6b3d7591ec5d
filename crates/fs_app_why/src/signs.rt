//! What is explained above the contradictions, where one that is told has it.

ghost use Rattle.std.specs.Prelude.{◌≡◌};
ghost use Rattle.fs_app_why.specs.Told.{told_chain};
ghost use Rattle.fs_app_why.specs.Signs.{halves_amo, halves_by, has_sign, has_sign_there, is_cycle, is_told_with};
ghost use Rattle.fs_app_why.specs.Signs.{lacks_by, lacks_known, lacks_word, some_told};

use crate::arrows::{counts_before, counts_behind, if_amo};
use crate::chain::{Chain, ChainLink, Shape};
use crate::fences::Fence;
use crate::instruction_words::instr_named;
use crate::kinds::ChainKind;
use crate::known::Known;
use crate::telling::{Telling, is_told, told_place};
use crate::words::{loads, stores};
use fs_instr::Instr;
use fs_model::Test;

/// What a contradiction has that is explained.
#[derive(Clone, Copy)]
pub(crate) enum Sign {
    /// It is a cycle.
    Cycle,
    /// Of an operation a location or a word isn't known.
    Unsaid,
    /// A fence orders an AMO by one of its halves.
    Halves,
}

fn is_cycle(shape: Shape) -> bool
    ensures { result ≡ is_cycle shape }
{
    match shape {
        Shape::Cycle => true,
        Shape::Stale | Shape::NotAtomic => false,
    }
}

fn lacks_known(known: Known, instr: &Instr) -> bool
    ensures { result ≡ lacks_known known instr.now }
{
    !known.address.is_some()
        || (loads(instr) && !known.loaded.is_some() || stores(instr) && !known.stored.is_some())
}

fn lacks_by(known: Known, instr: Option<Instr>) -> bool
    ensures { result ≡ lacks_by known instr }
{
    match instr {
        Some(instr) => lacks_known(known, &instr),
        None => false,
    }
}

/// Isn't the location known of one of its operations, or a word that this loads or stores?
fn lacks_word(test: &Test, chain: &Chain) -> bool
    ensures { result ≡ lacks_word test.now chain.now }
{
    chain
        .links
        .iter()
        .any(|link| lacks_by(link.known, instr_named(test, link.name)))
}

fn halves_by(test: &Test, link: &ChainLink, fence: Option<Fence>) -> bool
    ensures { result ≡ halves_by test.now link.now fence }
{
    match fence {
        Some(fence) => {
            !if_amo(instr_named(test, link.name), counts_before(test, fence)).is_empty()
                || !if_amo(instr_named(test, link.next), counts_behind(test, fence)).is_empty()
        }
        None => false,
    }
}

/// Does a fence of the chain order an AMO by one of its halves?
fn halves_amo(test: &Test, chain: &Chain) -> bool
    ensures { result ≡ halves_amo test.now chain.now }
{
    chain
        .links
        .iter()
        .any(|link| halves_by(test, link, link.fence))
}

fn has_sign(test: &Test, sign: Sign, chain: &Chain) -> bool
    ensures { result ≡ has_sign test.now sign chain.now }
{
    match sign {
        Sign::Cycle => is_cycle(chain.shape),
        Sign::Unsaid => lacks_word(test, chain),
        Sign::Halves => halves_amo(test, chain),
    }
}

/// Has it the chain of the kind that is told?
fn has_sign_there(test: &Test, telling: Telling, sign: Sign, kind: &ChainKind) -> bool
    ensures { result ≡ has_sign_there test.now sign (told_chain telling kind.now) }
{
    match kind.instances.get(told_place(telling, kind)) {
        Some(chain) => has_sign(test, sign, chain),
        None => false,
    }
}

fn is_told_with(
    test: &Test,
    telling: Telling,
    kinds: &[ChainKind],
    sign: Sign,
    number: usize,
) -> bool
    ensures { result ≡ is_told_with test.now telling kinds.now sign number }
{
    number < kinds.len()
        && (is_told(telling, kinds, number) && has_sign_there(test, telling, sign, &kinds[number]))
}

/// Has it one that is told? The square of the kinds, times that of the fences in each.
pub(crate) fn some_told(test: &Test, telling: Telling, kinds: &[ChainKind], sign: Sign) -> bool
    ensures { result ≡ some_told test.now telling kinds.now sign }
{
    (0..kinds.len()).any(|number| is_told_with(test, telling, kinds, sign, number))
}
