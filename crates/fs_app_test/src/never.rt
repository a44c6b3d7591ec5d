//! What nothing makes true in a vacuous test.

ghost use Rattle.std.specs.Prelude.{◌≡◌, ◌≤◌, ◌++◌, [], ℕ, List, Some, None, true, codes, decimal, length, map};
ghost use Rattle.std.specs.Prelude.{slice_get, option_map, if◌then◌else◌, min, IfOk, string_bytes};
ghost use Rattle.std.specs.List.{list_any, slice_index_or};
ghost use Rattle.fs_kinds.specs.Limits.{most_locations};
ghost use Rattle.fs_model.specs.Condition.{condition_of};
ghost use Rattle.fs_model.specs.Execution.{initial_words};
ghost use Rattle.fs_model.specs.Numbers.{is_same};
ghost use Rattle.fs_model.specs.declared.step.Step.{Step as Steps};
ghost use Rattle.fs_model.specs.Printed.{name_of, value_text};
ghost use Rattle.fs_model.specs.Shows.{is_outcome};
ghost use Rattle.fs_cert_evidence.specs.Trees.{AreItsRuns};
ghost use Rattle.fs_region_refutation.specs.Runs.{runs_over, AreOfEach};
ghost use Rattle.fs_app_test.specs.inner.Parts.{ends_with};
ghost use Rattle.fs_app_test.specs.Words.{stores_word, ends_as, is_stored, can_have, of_two, first_never};
ghost use Rattle.fs_app_test.specs.Words.{atoms, never_in_outcome, never_words};

use fs_instr::Reg;
use fs_kinds::List;
use fs_model::{Location, Outcome, Quantifier, Step, Test};
use fs_region_refutation::{Basis, Lone};
use fs_report::{name_of, value_text};
use std::alloc::{AllocError, Global};

/// So many atoms has a condition at most of which one is named.
const MOST_NAMED: u32 = 100;

/// Does the step store the word at the location?
fn stores_word(step: &Step, location: u8, word: u32) -> bool
    ensures { result ≡ stores_word location word step.now }
{
    step.address
        .is_some_and(|address| address == Location::address(location))
        && step.stored.is_some_and(|stored| stored == word)
}

/// Does the run?
fn run_stores(run: &Lone, location: u8, word: u32) -> bool
    ensures { result ≡ list_any (stores_word location word) run.now.steps }
{
    run.steps()
        .iter()
        .any(|step| stores_word(step, location, word))
}

/// Does one of the runs?
fn some_stores(runs: &[Lone], location: u8, word: u32) -> bool
    ensures { result ≡ list_any (list_any (stores_word location word)) (map (λ run. run.steps) runs.now) }
{
    runs.iter().any(|run| run_stores(run, location, word))
}

/// The runs of the hart; none where it is no hart.
fn runs_of(listed: &[List<Lone>], hart: u8) -> &[Lone]
    ensures { result.now ≡ slice_index_or listed.now hart [] }
{
    if usize::from(hart) < listed.len() {
        listed[usize::from(hart)].as_slice()
    } else {
        &[]
    }
}

/// Does some run of the hart store the word at the location?
fn hart_stores(listed: &[List<Lone>], hart: u8, location: u8, word: u32) -> bool
    ensures { result ≡ list_any (list_any (stores_word location word)) (runs_over listed.now hart) }
{
    some_stores(runs_of(listed, hart), location, word)
}

/// Does some run of some hart?
fn is_stored(basis: &Basis, listed: &[List<Lone>], location: u8, word: u32) -> bool
    ensures { result ≡ is_stored basis.now (runs_over listed.now) location word }
{
    let harts = basis.test().codes.len() as u8;
    (0..harts).any(|hart| hart_stores(listed, hart, location, word))
}

/// Does the location begin with the word?
fn begins_as(basis: &Basis, location: u8, word: u32) -> bool
    ensures { result ≡ is_same (slice_get (initial_words basis.now) location) (Some word) }
{
    match basis.test().locations.get(usize::from(location)) {
        Some(location) => location.word == word,
        None => false,
    }
}

/// Does it, or does some run store it there?
fn can_have(basis: &Basis, listed: &[List<Lone>], location: u8, word: u32) -> bool
    ensures { result ≡ can_have basis.now (runs_over listed.now) location word }
{
    begins_as(basis, location, word) || is_stored(basis, listed, location, word)
}

/// Does one of the runs end with the word in the register?
fn some_ends(runs: &[Lone], register: Reg, word: u32) -> bool
    ensures { result ≡ list_any (ends_with register word) runs.now }
{
    runs.iter().any(|run| run.final_register(register) == word)
}

/// Does some run of the hart?
fn ends_as(basis: &Basis, listed: &[List<Lone>], hart: u8, register: Reg, word: u32) -> bool
    requires { AreOfEach basis.now listed.now }
    ensures { result ≡ ends_as basis.now (runs_over listed.now) hart register word }
{
    let _ = basis;
    some_ends(runs_of(listed, hart), register, word)
}

/// The atom to blame of two parts, both of which are needed or one of which is enough.
fn of_two<'a>(
    both: bool,
    left: Option<&'a Outcome>,
    right: Option<&'a Outcome>,
) -> Option<&'a Outcome>
    ensures { option_map (λ atom. condition_of atom.now) result ≡ of_two both
        (option_map (λ atom. condition_of atom.now) left.entry) (option_map (λ atom. condition_of atom.now) right.entry) }
{
    if both {
        left.or(right)
    } else if right.is_some() {
        left
    } else {
        None
    }
}

/// The first atom that must be true, where the condition is to have this truth value, and that nothing makes true. Its
/// depth is bounded by that of the test's condition.
fn first_never<'a>(
    basis: &Basis,
    listed: &[List<Lone>],
    condition: &'a Outcome,
    truth: bool,
) -> Option<&'a Outcome>
    requires { AreOfEach basis.now listed.now }
    ensures { option_map (λ atom. condition_of atom.now) result
        ≡ first_never basis.now (runs_over listed.now) (condition_of condition.now) truth }
{
    match condition {
        Outcome::Always | Outcome::Never => None,
        Outcome::RegisterIs { hart, reg, word } => {
            where_so(
                truth && !ends_as(basis, listed, *hart, *reg, *word),
                condition,
            )
        }
        Outcome::LocationIs { location, word } => {
            where_so(
                truth && !can_have(basis, listed, *location, *word),
                condition,
            )
        }
        Outcome::Deny(denied) => first_never(basis, listed, denied, !truth),
        Outcome::Both(left, right) => {
            let left = first_never(basis, listed, left, truth);
            let right = first_never(basis, listed, right, truth);
            of_two(truth, left, right)
        }
        Outcome::Either(left, right) => {
            let left = first_never(basis, listed, left, truth);
            let right = first_never(basis, listed, right, truth);
            of_two(!truth, left, right)
        }
    }
}

/// The atom, where something is so.
fn where_so(is_so: bool, atom: &Outcome) -> Option<&Outcome>
    ensures { option_map (λ atom. condition_of atom.now) result
        ≡ (if is_so then Some (condition_of atom.now) else None) }
{
    if is_so { Some(atom) } else { None }
}

/// How many atoms the condition has, or one more than may be named.
fn atoms_in(condition: &Outcome) -> u32
    ensures { result ≡ min (atoms (condition_of condition.now)) 101 }
{
    match condition {
        Outcome::Always | Outcome::Never => 0,
        Outcome::RegisterIs { .. } | Outcome::LocationIs { .. } => 1,
        Outcome::Deny(denied) => atoms_in(denied),
        Outcome::Both(left, right) | Outcome::Either(left, right) => {
            (atoms_in(left) + atoms_in(right)).min(MOST_NAMED + 1)
        }
    }
}

/// The first atom that the outcome needs to be true, and that nothing makes true. Each atom may cost the time of all
/// runs, so of a condition with many none is named.
fn never_in_outcome<'a>(basis: &'a Basis, listed: &[List<Lone>]) -> Option<&'a Outcome>
    requires { AreOfEach basis.now listed.now }
    ensures { option_map (λ atom. condition_of atom.now) result ≡ never_in_outcome basis.now (runs_over listed.now) }
{
    let test = basis.test();
    if atoms_in(&test.condition) > MOST_NAMED {
        return None;
    }
    first_never(basis, listed, &test.condition, is_outcome(test.quantifier))
}

/// Is it the condition that is to be true, and not its denial?
fn is_outcome(quantifier: Quantifier) -> bool
    ensures { result ≡ is_outcome quantifier true }
{
    match quantifier {
        Quantifier::Exists | Quantifier::NotExists => true,
        Quantifier::Forall => false,
    }
}

/// That nothing stores the word at the location.
fn stored_text(
    alloc: Global,
    locations: &[Location],
    location: u8,
    word: u32,
) -> Result<String, AllocError>
    requires { length locations.now ≤ most_locations }
    ensures { IfOk result (λ text. string_bytes text ≡ codes "nothing stores "
        ++ (value_text locations.now word ++ (codes " to " ++ name_of locations.now location))) }
{
    let value = value_text(alloc, locations, word)?;
    format!(in alloc;
        "nothing stores {} to {}",
        value.as_str(),
        name_of(locations, location)
    )
}

/// That the register never ends as the word.
fn ending_text(
    alloc: Global,
    locations: &[Location],
    hart: u8,
    register: Reg,
    word: u32,
) -> Result<String, AllocError>
    requires { length locations.now ≤ most_locations }
    ensures { IfOk result (λ text. string_bytes text ≡ codes "x"
        ++ (decimal register ++ (codes " of P" ++ (decimal hart ++ (codes " never ends as " ++ value_text locations.now word))))) }
{
    let value = value_text(alloc, locations, word)?;
    format!(in alloc;
        "x{} of P{} never ends as {}",
        register.number(),
        hart,
        value.as_str()
    )
}

/// The words for the atom that nothing makes true, if there is one.
fn never_words(alloc: Global, test: &Test, atom: Option<&Outcome>) -> Result<String, AllocError>
    requires { length test.now.locations ≤ most_locations }
    ensures { IfOk result (λ text.
        string_bytes text ≡ never_words test.now (option_map (λ atom. condition_of atom.now) atom.entry)) }
{
    let locations = test.locations.as_slice();
    match atom {
        Some(Outcome::LocationIs { location, word }) => {
            stored_text(alloc, locations, *location, *word)
        }
        Some(Outcome::RegisterIs { hart, reg, word }) => {
            ending_text(alloc, locations, *hart, *reg, *word)
        }
        _ => format!(in alloc; "no runs end so"),
    }
}

/// Why the test is vacuous, as it is.
pub(crate) fn vacuous_text(alloc: Global, basis: &Basis) -> Result<String, AllocError>
    ensures { IfOk result (λ text. (runs : ℕ → List (List Steps)) × AreItsRuns basis.now runs
        × (string_bytes text ≡ never_words basis.now (never_in_outcome basis.now runs))) }
{
    let atom = never_in_outcome(basis, basis.runs());
    never_words(alloc, basis.test(), atom)
}
