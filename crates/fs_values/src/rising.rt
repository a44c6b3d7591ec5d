//! Sets of words as lists that rise.

ghost use Rattle.std.specs.Prelude.{◌↔◌, ℕ, IfOk};
ghost use Rattle.std.specs.List.{Contains};
ghost use Rattle.std.specs.List.Sorted.{IsStrictlyIncreasing};

use fs_hart::Words;
use std::alloc::AllocError;

/// The set of these words. The time is that of a sort.
pub(crate) fn rising(mut words: Vec<u32>) -> Result<Words, AllocError>
    ensures rising { IfOk result IsStrictlyIncreasing }
    ensures same { IfOk result (λ set. (word : ℕ) → Contains set word ↔ Contains words.items word) }
{
    words.sort()?;
    words.dedup();
    Ok(Words::new(words))
}
