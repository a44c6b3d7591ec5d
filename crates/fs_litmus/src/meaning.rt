//! What a form and its condition mean, as a test.

ghost use Rattle.std.specs.Prelude.{◌≡◌, ◌≢◌, ◌≤◌, ◌<◌, List, [], Some, true, All, length, map, sum_by, count_by, IfOk};
ghost use Rattle.std.specs.Prelude.{IfErr};
ghost use Rattle.fs_kinds.specs.Limits.{most_harts, most_instructions, most_accesses, most_locations, most_depth};
ghost use Rattle.fs_litmus_syntax.specs.Body.{cells_of, flatten};
ghost use Rattle.fs_litmus_syntax.specs.Form.{form_of};
ghost use Rattle.fs_instr.specs.Instructions.{is_memory};
ghost use Rattle.fs_instr.specs.declared.instr.Instr.{Instr};
ghost use Rattle.fs_litmus_syntax.specs.Codes.{AreCodes, AreKept, IsFault};
ghost use Rattle.fs_kinds.specs.FaultOrder.{IsFirst};
ghost use Rattle.fs_model.specs.Condition.{condition_of, SpeaksOf};
ghost use Rattle.fs_model.specs.Test.{IsBounded};
ghost use Rattle.fs_litmus_syntax.specs.Answer.{Means};
ghost use Rattle.fs_litmus_syntax.specs.Grammar.{Syntax};
ghost use Rattle.fs_litmus_syntax.specs.Meaning.{atoms_of, depth_of};
ghost use Rattle.fs_litmus_syntax.specs.Views.{atom_of};
ghost use Rattle.fs_litmus.specs.Settings.{are_there, settings_after, entry_bindings};
ghost use Rattle.fs_litmus.specs.Starts.{starts_of, AreLocations};
ghost use Rattle.fs_litmus.specs.Reads.{names_in, IsOutcome, MeanTest, IsWithinLimits, quantifier_of};
ghost use Rattle.fs_litmus.specs.Faults.{IsFormFault};
ghost use Rattle.fs_litmus.specs.Checks.{IsBindingFault, IsCodeLimit};
ghost use Rattle.fs_litmus.specs.Rising.{Rising, entry_lines};

use crate::atoms::outcome_of;
use crate::declared::declared_names;
use crate::entries::read_settings;
use crate::limits::{has_few_accesses, short_codes};
use crate::names::Names;
use crate::settings::{Setting, setting_of};
use crate::starts::{locations_of, starts_of};
use fs_kinds::{Fault, Limit, MOST_HARTS, MOST_LOCATIONS};
use fs_litmus_syntax::{Atom, Condition, Form, HartCode, read_codes};
use fs_model::{Code, Codes, Name, Outcome, Quantifier, Test};
use std::alloc::{AllocError, Global};

fn quantifier_of(asked: fs_litmus_syntax::Quantifier) -> Quantifier
    ensures { result ≡ quantifier_of asked }
{
    match asked {
        fs_litmus_syntax::Quantifier::Exists => Quantifier::Exists,
        fs_litmus_syntax::Quantifier::NotExists => Quantifier::NotExists,
        fs_litmus_syntax::Quantifier::Forall => Quantifier::Forall,
    }
}

/// Does each atom speak of a hart and a register that are there, with a number in range?
fn atoms_are_there(columns: usize, names: &Names, atoms: &[Atom]) -> bool
    ensures { result ≡ are_there columns names.now (map atom_of atoms.now) }
{
    for atom in atoms {
        if setting_of(columns, names, atom.target, atom.value).is_none() {
            return false;
        }
    }
    true
}

// The names of locations, and what is set before the test begins.
#[derive(Drop)]
struct Bindings<'a> {
    names: &'a Names<'a>,
    settings: &'a [Setting],
}

/// The test of a form with these codes, bindings and condition.
fn build(
    alloc: Global,
    title: &str,
    form: &Form,
    codes: Vec<Code>,
    bindings: &Bindings,
    condition: Outcome,
) -> Result<Test, AllocError>
    requires { form.now.columns ≤ most_harts }
    ensures name { IfOk result (λ t. t.name ≡ title.now) }
    ensures codes { IfOk result (λ t. t.codes ≡ codes.items) }
    ensures starts { IfOk result (λ t. t.starts ≡ starts_of form.now.columns bindings.now.settings.now) }
    ensures locations { IfOk result (λ t. AreLocations bindings.now.names.now bindings.now.settings.now t.locations) }
    ensures quantifier { IfOk result (λ t. t.quantifier ≡ quantifier_of form.now.quantifier) }
    ensures condition { IfOk result (λ t. condition_of t.condition ≡ condition_of condition) }
{
    Ok(Test {
        name: Name::new(String::from_str(alloc, title)?),
        codes: Codes::new(codes),
        starts: starts_of(alloc, form.columns as u32, bindings.settings)?,
        locations: locations_of(alloc, bindings.names, bindings.settings)?,
        quantifier: quantifier_of(form.quantifier),
        condition,
    })
}

/// The codes of a form, where they are within the limits.
fn read_short_codes(alloc: Global, kept: &[HartCode]) -> Result<Vec<Code>, Fault>
    ensures codes { IfOk result (λ v. (codes : List (List Instr)) → AreKept codes kept.now → v.items ≡ codes) }
    ensures within { IfOk result (λ v. (codes : List (List Instr)) → AreKept codes kept.now
        → All (λ code. length code ≤ most_instructions) codes) }
    ensures accesses { IfOk result (λ v. sum_by (count_by is_memory) v.items ≤ most_accesses) }
    ensures clean { IfOk result (λ v. (codes : List (List Instr)) → AreKept codes kept.now → (f : Fault)
        → ¬ IsCodeLimit codes f) }
    ensures first { IfErr result (λ f. f ≢ Fault.Memory → (codes : List (List Instr)) → AreKept codes kept.now
        → IsFirst (IsCodeLimit codes) f) }
{
    let Some(codes) = short_codes(alloc, kept)? else {
        return Err(Fault::TooBig {
            what: Limit::Instructions,
        });
    };
    if !has_few_accesses(&codes) {
        return Err(Fault::TooBig {
            what: Limit::Accesses,
        });
    }
    Ok(codes)
}

/// The locations of a form and its condition.
fn read_names<'a>(
    alloc: Global,
    form: &Form<'_, 'a>,
    condition: &Condition<'a>,
) -> Result<Names<'a>, AllocError>
    ensures { IfOk result (λ n. (s : Syntax) → Means condition.now s → n ≡ names_in (form_of form.now) s) }
{
    Ok(declared_names(alloc, &form.entries, &condition.atoms)?)
}

/// The settings of a form whose atoms are all of what is there.
fn read_bindings(
    alloc: Global,
    names: &Names,
    form: &Form,
    condition: &Condition,
) -> Result<Vec<Setting>, Fault>
    requires named { (s : Syntax) → Means condition.now s → names.now ≡ names_in (form_of form.now) s }
    requires rising { Rising 0 (entry_lines (form_of form.now).entries) }
    ensures ok { IfOk result (λ v. settings_after form.now.columns names.now []
        (entry_bindings (form_of form.now).entries) ≡ Some v.items) }
    ensures there { IfOk result (λ v. (s : Syntax) → Means condition.now s
        → are_there form.now.columns names.now (atoms_of s) ≡ true) }
    ensures clean { IfOk result (λ v. (s : Syntax) → Means condition.now s → (f : Fault)
        → ¬ IsBindingFault (form_of form.now) s f) }
    ensures first { IfErr result (λ f. f ≢ Fault.Memory → (s : Syntax) → Means condition.now s
        → IsFirst (IsBindingFault (form_of form.now) s) f) }
{
    let settings = read_settings(alloc, form.columns, names, &form.entries)?;
    if !atoms_are_there(form.columns, names, &condition.atoms) {
        return Err(Fault::BadCondition);
    }
    Ok(settings)
}

/// The condition, where it isn't too deep.
fn read_outcome(
    alloc: Global,
    columns: usize,
    names: &Names,
    condition: &Condition,
) -> Result<Outcome, Fault>
    requires harts { columns ≤ most_harts }
    requires locations { length names.now ≤ most_locations }
    ensures value { IfOk result (λ o. (s : Syntax) → Means condition.now s → IsOutcome columns names.now s o) }
    ensures there { IfOk result (λ o. SpeaksOf columns (length names.now) (condition_of o)) }
    ensures deep { IfErr result (λ f. f ≢ Fault.Memory → (s : Syntax) → Means condition.now s
        → are_there columns names.now (atoms_of s) ≡ true → (f
        ≡ Fault.TooBig Limit.Depth) × (most_depth < depth_of s)) }
{
    let Some(tree) = &condition.tree else {
        return Err(Fault::TooBig { what: Limit::Depth });
    };
    match outcome_of(alloc, columns, names, tree)? {
        Some(outcome) => Ok(outcome),
        None => Err(Fault::BadCondition),
    }
}

/// The harts' codes, as the form's cells mean them.
fn read_kept(alloc: Global, form: &Form) -> Result<Vec<HartCode>, Fault>
    requires { cells_of form.now.cells.items ≡ flatten (form_of form.now).rows }
    ensures codes { IfOk result (λ kept. (codes : List (List Instr))
        × AreCodes form.now.columns (flatten (form_of form.now).rows) codes × AreKept codes kept.items) }
    ensures only { IfOk result (λ kept. (codes : List (List Instr))
        → AreCodes form.now.columns (flatten (form_of form.now).rows) codes → AreKept codes kept.items) }
    ensures clean { IfOk result (λ kept. (f : Fault) → ¬ IsFault form.now.columns (flatten (form_of form.now).rows) f) }
    ensures first { IfErr result (λ f. f ≢ Fault.Memory
        → IsFirst (IsFault form.now.columns (flatten (form_of form.now).rows)) f) }
{
    read_codes(alloc, form.columns, &form.cells)
}

/// The test of what was read, where it is within the limits.
fn within_limits(
    alloc: Global,
    title: &str,
    form: &Form,
    condition: &Condition,
    kept: &[HartCode],
    bindings: &Bindings,
) -> Result<Test, Fault>
    requires codes { (codes : List (List Instr))
        × AreCodes form.now.columns (flatten (form_of form.now).rows) codes × AreKept codes kept.now }
    requires only { (codes : List (List Instr))
        → AreCodes form.now.columns (flatten (form_of form.now).rows) codes → AreKept codes kept.now }
    requires sound { (f : Fault) → ¬ IsFault form.now.columns (flatten (form_of form.now).rows) f }
    requires named { (s : Syntax) → Means condition.now s → bindings.now.names.now ≡ names_in (form_of form.now) s }
    requires set { settings_after form.now.columns bindings.now.names.now []
        (entry_bindings (form_of form.now).entries) ≡ Some bindings.now.settings.now }
    requires there { (s : Syntax) → Means condition.now s
        → are_there form.now.columns bindings.now.names.now (atoms_of s) ≡ true }
    requires bound { (s : Syntax) → Means condition.now s → (f : Fault) → ¬ IsBindingFault (form_of form.now) s f }
    ensures name { IfOk result (λ t. t.name ≡ title.now) }
    ensures means { IfOk result (λ t. (s : Syntax) → Means condition.now s → MeanTest (form_of form.now) s t) }
    ensures limits { IfOk result (λ t. (s : Syntax) → Means condition.now s → IsWithinLimits (form_of form.now) s t) }
    ensures bounded { IfOk result (λ t. (s : Syntax) → Means condition.now s → IsBounded t) }
    ensures clean { IfOk result (λ t. (s : Syntax) → Means condition.now s → (f : Fault)
        → ¬ IsFormFault (form_of form.now) s f) }
    ensures first { IfErr result (λ f. f ≢ Fault.Memory → (s : Syntax) → Means condition.now s
        → IsFirst (IsFormFault (form_of form.now) s) f) }
{
    if form.columns > MOST_HARTS {
        return Err(Fault::TooBig { what: Limit::Harts });
    }
    let codes = read_short_codes(alloc, kept)?;
    if bindings.names.len() > MOST_LOCATIONS {
        return Err(Fault::TooBig {
            what: Limit::Locations,
        });
    }
    let outcome = read_outcome(alloc, form.columns, bindings.names, condition)?;
    Ok(build(alloc, title, form, codes, bindings, outcome)?)
}

/// The test that a form and its condition mean.
pub fn interpret<'a>(
    alloc: Global,
    title: &str,
    form: &Form<'_, 'a>,
    condition: &Condition<'a>,
) -> Result<Test, Fault>
    requires cells { cells_of form.now.cells.items ≡ flatten (form_of form.now).rows }
    requires rising { Rising 0 (entry_lines (form_of form.now).entries) }
    ensures name { IfOk result (λ t. t.name ≡ title.now) }
    ensures means { IfOk result (λ t. (s : Syntax) → Means condition.now s → MeanTest (form_of form.now) s t) }
    ensures limits { IfOk result (λ t. (s : Syntax) → Means condition.now s → IsWithinLimits (form_of form.now) s t) }
    ensures bounded { IfOk result (λ t. (s : Syntax) → Means condition.now s → IsBounded t) }
    ensures clean { IfOk result (λ t. (s : Syntax) → Means condition.now s → (f : Fault)
        → ¬ IsFormFault (form_of form.now) s f) }
    ensures first { IfErr result (λ f. f ≢ Fault.Memory → (s : Syntax) → Means condition.now s
        → IsFirst (IsFormFault (form_of form.now) s) f) }
{
    let kept = read_kept(alloc, form)?;
    let names = read_names(alloc, form, condition)?;
    let settings = read_bindings(alloc, &names, form, condition)?;
    let bindings = Bindings {
        names: &names,
        settings: &settings,
    };
    within_limits(alloc, title, form, condition, &kept, &bindings)
}
