//! Numbers of things in words.

ghost use Rattle.std.specs.Prelude.{◌≡◌, ◌==◌, [], codes, if◌then◌else◌, IfOk, string_bytes};
ghost use Rattle.fs_app_test.specs.Words.{counted};

use std::alloc::{AllocError, Global};

/// What follows a word that so many things have.
fn ending(count: usize) -> &'static str
    ensures { result.now ≡ (if count == 1 then [] else codes "s") }
{
    if count == 1 { "" } else { "s" }
}

/// The number and the word, as `1 test` or `2 tests`. Fails only for want of memory.
pub fn counted(alloc: Global, count: usize, word: &str) -> Result<String, AllocError>
    ensures { IfOk result (λ text. string_bytes text ≡ counted count word.now) }
{
    let ending = ending(count);
    format!(in alloc; "{} {}{}", count, word, ending)
}
