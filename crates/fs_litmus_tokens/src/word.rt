//! Words, and what they may be read as.

ghost use Rattle.std.specs.Prelude.{◌≡◌};
ghost use Rattle.std.specs.Char.{is_ascii_digit, is_ascii_hexdigit};
ghost use Rattle.std.specs.List.{list_all};
ghost use Rattle.fs_litmus_tokens.specs.Words.{is_digits, is_hexadecimal, is_number, is_name, begins_name, has_dot};
ghost use Rattle.fs_litmus_tokens.specs.Words.{keyword_of, class_of};

/// What a word may be read as, by its spelling alone (herd7's format of litmus tests). Each class but `Number` and
/// `Other` has names only: a word that begins with a letter or `_` and has no `.`, so a keyword may name a location
/// too.
#[derive(Clone, Copy)]
pub enum Class {
    /// Decimal digits, or `0x` and hexadecimal digits.
    Number,
    /// `locations`.
    LocationsWord,
    /// `exists`.
    ExistsWord,
    /// `forall`.
    ForallWord,
    /// `not`.
    NotWord,
    /// `true`.
    TrueWord,
    /// `false`.
    FalseWord,
    /// Any other name.
    Name,
    /// Neither a number nor a name.
    Other,
}

impl Class {
    /// May it name a location, a label or a register?
    pub fn is_name(self) -> bool
        ensures { result ≡ is_name self }
    {
        !matches!(self, Class::Number | Class::Other)
    }
}

fn all_digits(bytes: &[u8]) -> bool
    ensures { result ≡ list_all is_ascii_digit bytes.now }
{
    bytes.iter().all(|b| b.is_ascii_digit())
}

fn all_hexadecimal(bytes: &[u8]) -> bool
    ensures { result ≡ list_all is_ascii_hexdigit bytes.now }
{
    bytes.iter().all(|b| b.is_ascii_hexdigit())
}

fn is_digits(word: &str) -> bool
    ensures { result ≡ is_digits word.now }
{
    !word.is_empty() && all_digits(word.as_bytes())
}

fn is_hexadecimal(digits: &str) -> bool
    ensures { result ≡ is_hexadecimal digits.now }
{
    !digits.is_empty() && all_hexadecimal(digits.as_bytes())
}

#[tactic(auto, unfolding(crate::specs::Words::is_number))]
fn is_number(word: &str) -> bool
    ensures { result ≡ is_number word.now }
{
    match word.strip_prefix("0x") {
        Some(digits) => is_hexadecimal(digits),
        None => is_digits(word),
    }
}

fn begins_name(word: &str) -> bool
    ensures { result ≡ begins_name word.now }
{
    match word.as_bytes().first() {
        Some(byte) => byte.is_ascii_alphabetic() || *byte == b'_',
        None => false,
    }
}

fn has_dot(word: &str) -> bool
    ensures { result ≡ has_dot word.now }
{
    word.as_bytes().iter().any(|byte| *byte == b'.')
}

#[tactic(auto, unfolding(crate::specs::Words::keyword_of))]
fn keyword_of(word: &str) -> Option<Class>
    ensures { result ≡ keyword_of word.now }
{
    match word {
        "locations" => Some(Class::LocationsWord),
        "exists" => Some(Class::ExistsWord),
        "forall" => Some(Class::ForallWord),
        "not" => Some(Class::NotWord),
        "true" => Some(Class::TrueWord),
        "false" => Some(Class::FalseWord),
        _ => None,
    }
}

/// What the word may be read as.
#[tactic(auto, unfolding(crate::specs::Words::class_of))]
pub fn class_of(word: &str) -> Class
    ensures { result ≡ class_of word.now }
{
    if let Some(class) = keyword_of(word) {
        return class;
    }
    if is_number(word) {
        return Class::Number;
    }
    if begins_name(word) && !has_dot(word) {
        return Class::Name;
    }
    Class::Other
}
