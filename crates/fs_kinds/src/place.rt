//! Names such as `P0:3`, of slots and of operations.
ghost use Rattle.std.specs.Prelude.{◌≡◌, ℕ, IfSome, IfNone};
ghost use Rattle.std.specs.Char.{is_ascii_digit};
ghost use Rattle.std.specs.List.{list_all};
ghost use Rattle.fs_kinds.specs.PlaceNames.{is_numeral, is_padded, Writes, IsOperationName, byte_of};
ghost use Rattle.fs_kinds.specs.declared.reason.OperationName.{OperationName};

/// The numbers of a name such as `P0:3`: `P`, the hart's number, `:`, the instruction's number, both in decimal without
/// leading zeros and of any length. Each is none where it passes 255. None where the text is no such name.
pub fn read_place(text: &str) -> Option<(Option<u8>, Option<u8>)>
    ensures some { IfSome result (λ found. (name : OperationName) × IsOperationName text.now name
        × (found.0 ≡ byte_of name.hart) × (found.1 ≡ byte_of name.at)) }
    ensures none { IfNone result ((name : OperationName) → ¬ IsOperationName text.now name) }
{
    let (hart, at) = text.strip_prefix('P')?.split_once(':')?;
    let hart = read_number(hart)?;
    let at = read_number(at)?;
    Some((hart, at))
}

/// The number that the digits write, without leading zeros: none where it passes 255. None where the text is no such
/// number.
fn read_number(digits: &str) -> Option<Option<u8>>
    ensures some { IfSome result (λ found. (n : ℕ) × Writes digits.now n × (found ≡ byte_of n)) }
    ensures none { IfNone result ((n : ℕ) → ¬ Writes digits.now n) }
{
    if is_numeral(digits) {
        Some(digits.parse().ok())
    } else {
        None
    }
}

/// Is the text made of decimal digits, at least one, without leading zeros?
fn is_numeral(text: &str) -> bool
    ensures { result ≡ is_numeral text.now }
{
    !text.is_empty() && !is_padded(text) && are_digits(text.as_bytes())
}

/// Does the text begin with a zero before something else?
fn is_padded(text: &str) -> bool
    ensures { result ≡ is_padded text.now }
{
    matches!(text.as_bytes(), [b'0', _, ..])
}

/// Is each byte a decimal digit?
fn are_digits(bytes: &[u8]) -> bool
    ensures { result ≡ list_all is_ascii_digit bytes.now }
{
    bytes.iter().all(|byte| byte.is_ascii_digit())
}
