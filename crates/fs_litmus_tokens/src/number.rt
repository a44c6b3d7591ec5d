//! Numbers.

ghost use Rattle.std.specs.Prelude.{◌≡◌, ◌≤◌};
ghost use Rattle.fs_litmus_tokens.specs.Numbers.{begins_with_plus, numeral, number_of};

fn begins_with_plus(digits: &str) -> bool
    ensures { result ≡ begins_with_plus digits.now }
{
    match digits.as_bytes().first() {
        Some(byte) => *byte == b'+',
        None => false,
    }
}

fn numeral(radix: u32, digits: &str) -> Option<u32>
    requires low { 2 ≤ radix }
    requires high { radix ≤ 36 }
    ensures { result ≡ numeral radix digits.now }
{
    if begins_with_plus(digits) {
        return None;
    }
    u32::from_str_radix(digits, radix).ok()
}

/// The number that a word of decimal digits, or of `0x` and hexadecimal digits, writes; nothing for any other word, and
/// for a number past 2^32 - 1. Linear in the word.
#[tactic(auto, unfolding(crate::specs::Numbers::number_of))]
pub fn number_of(word: &str) -> Option<u32>
    ensures { result ≡ number_of word.now }
{
    match word.strip_prefix("0x") {
        Some(digits) => numeral(16, digits),
        None => numeral(10, word),
    }
}
