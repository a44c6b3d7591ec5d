//! Whether two tests are the same but for their instructions.

ghost use Rattle.std.specs.Prelude.{◌≡◌, IsTrue};
ghost use Rattle.fs_model.specs.Condition.{condition_of};

use fs_model::{Codes, Location, Name, Outcome, Quantifier, Starts, Test};

/// Are these the same codes?
pub(crate) fn are_same_codes(codes: &Codes, others: &Codes) -> bool
    ensures { IsTrue result → codes.now ≡ others.now }
{
    codes == others
}

fn is_same_name(name: &Name, other: &Name) -> bool
    ensures { IsTrue result → name.now ≡ other.now }
{
    name.as_str() == other.as_str()
}

fn are_same_starts(starts: &Starts, others: &Starts) -> bool
    ensures { IsTrue result → starts.now ≡ others.now }
{
    starts == others
}

fn is_same_location(location: &Location, other: &Location) -> bool
    ensures { IsTrue result → location.now ≡ other.now }
{
    location.word == other.word && is_same_name(&location.name, &other.name)
}

/// Are these the same locations?
fn are_same_locations(locations: &[Location], others: &[Location]) -> bool
    ensures { IsTrue result → locations.now ≡ others.now }
{
    if locations.len() != others.len() {
        return false;
    }
    for i in 0..locations.len() {
        if !is_same_location(&locations[i], &others[i]) {
            return false;
        }
    }
    true
}

/// Are these the same conditions?
fn is_same_condition(condition: &Outcome, other: &Outcome) -> bool
    ensures { IsTrue result → condition_of condition.now ≡ condition_of other.now }
{
    match (condition, other) {
        (Outcome::Always, Outcome::Always) => true,
        (Outcome::Never, Outcome::Never) => true,
        (
            Outcome::RegisterIs { hart, reg, word },
            Outcome::RegisterIs {
                hart: other_hart,
                reg: other_reg,
                word: other_word,
            },
        ) => *hart == *other_hart && *reg == *other_reg && *word == *other_word,
        (
            Outcome::LocationIs { location, word },
            Outcome::LocationIs {
                location: other_location,
                word: other_word,
            },
        ) => *location == *other_location && *word == *other_word,
        (Outcome::Deny(denied), Outcome::Deny(other_denied)) => is_same_condition(
            denied,
            other_denied,
        ),
        (Outcome::Both(left, right), Outcome::Both(other_left, other_right)) => is_same_condition(
            left, other_left,
        ) && is_same_condition(right, other_right),
        (Outcome::Either(left, right), Outcome::Either(other_left, other_right)) =>
            is_same_condition(left, other_left) && is_same_condition(right, other_right),
        _ => false,
    }
}

fn is_same_quantifier(quantifier: Quantifier, other: Quantifier) -> bool
    ensures { IsTrue result → quantifier ≡ other }
{
    match (quantifier, other) {
        (Quantifier::Exists, Quantifier::Exists) => true,
        (Quantifier::NotExists, Quantifier::NotExists) => true,
        (Quantifier::Forall, Quantifier::Forall) => true,
        _ => false,
    }
}

/// Are the tests the same but for their instructions?
pub(crate) fn is_same_rest(test: &Test, other: &Test) -> bool
    ensures name { IsTrue result → test.now.name ≡ other.now.name }
    ensures starts { IsTrue result → test.now.starts ≡ other.now.starts }
    ensures locations { IsTrue result → test.now.locations ≡ other.now.locations }
    ensures quantifier { IsTrue result → test.now.quantifier ≡ other.now.quantifier }
    ensures condition { IsTrue result → condition_of test.now.condition ≡ condition_of other.now.condition }
{
    is_same_name(&test.name, &other.name)
        && are_same_starts(&test.starts, &other.starts)
        && are_same_locations(test.locations.as_slice(), other.locations.as_slice())
        && is_same_quantifier(test.quantifier, other.quantifier)
        && is_same_condition(&test.condition, &other.condition)
}
