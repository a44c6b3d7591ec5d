//! The placement that FENCE words name.

ghost use Rattle.std.specs.Prelude.{◌≡◌, ◌≢◌, ◌⊎◌, map, string_bytes, Any, IfOk, IfErr, IsErrOf, Some, None};
ghost use Rattle.std.specs.Prelude.{option_copied};
ghost use Rattle.fs_kinds.specs.declared.fault.Fault.TheVariants.{BadFence, Memory};
ghost use Rattle.fs_model.specs.Placed.{word_of, IsNoFence, is_offered, placed, IsPlaced};
ghost use Rattle.fs_model.specs.Slots.{slots};
ghost use Rattle.fs_model.specs.Test.{IsBounded};

use crate::accesses::slots;
use crate::test::Test;
use fs_kinds::{Fault, Kind, Placement, Prices, Slot, read_fence};
use std::alloc::Global;

/// The placement of FENCE words over the slots of the test: the kinds of the words at their slots, and
/// none elsewhere. A word is `P`, the hart, `:`, the number of the instruction, `=` and the kind, as
/// `P0:3=w,w`, its numbers in decimal without leading zeros. F12 where a word has another form, names no
/// slot of the test or one that an earlier word names, or a kind that has no price in given prices;
/// else F19.
pub fn read_fences(
    alloc: Global,
    test: &Test,
    prices: Option<&Prices>,
    words: &[String],
) -> Result<Placement, Fault>
    requires { IsBounded test.now }
    ensures ok { IfOk result
        (λ p. IsPlaced (option_copied prices.entry) (slots test.now) (map string_bytes words.now) (Some p)) }
    ensures bad_fence { IsErrOf result BadFence → Any IsNoFence (map string_bytes words.now)
        ⊎ IsPlaced (option_copied prices.entry) (slots test.now) (map string_bytes words.now) None }
    ensures err { IfErr result (λ fault. (fault ≡ BadFence) ⊎ (fault ≡ Memory)) }
{
    let slots = slots(alloc, test)?;
    let fences = read_words(alloc, words)?;
    let bottom = Placement::bottom(alloc, &slots)?;
    match place(bottom, &fences, prices) {
        Some(placement) => Ok(placement),
        None => Err(Fault::BadFence),
    }
}

/// The slots and kinds of the words.
fn read_words(alloc: Global, words: &[String]) -> Result<Vec<(Slot, Kind)>, Fault>
    ensures ok { IfOk result (λ fences. map word_of fences.items ≡ map string_bytes words.now) }
    ensures bad_fence { IsErrOf result BadFence → Any IsNoFence (map string_bytes words.now) }
    ensures err { IfErr result (λ fault. (fault ≡ BadFence) ⊎ (fault ≡ Memory)) }
{
    let mut fences = Vec::new(alloc);
    for word in words {
        let Some(fence) = read_fence(word.as_str()) else {
            return Err(Fault::BadFence);
        };
        fences.push(fence)?;
    }
    Ok(fences)
}

/// The placement with the fences put at their slots, unless one doesn't fit.
fn place(
    mut placement: Placement,
    fences: &[(Slot, Kind)],
    prices: Option<&Prices>,
) -> Option<Placement>
    ensures { result ≡ placed (option_copied prices.entry) placement fences.now }
{
    for (slot, kind) in fences {
        if !is_offered(prices, *kind) || placement.get(*slot).is_some() {
            return None;
        }
        placement.with(*slot, Some(*kind)).ok()?;
    }
    Some(placement)
}

/// Have given prices one for the kind?
fn is_offered(prices: Option<&Prices>, kind: Kind) -> bool
    ensures { result ≡ is_offered (option_copied prices.entry) kind }
{
    match prices {
        Some(prices) => prices.of(kind).is_some(),
        None => true,
    }
}
