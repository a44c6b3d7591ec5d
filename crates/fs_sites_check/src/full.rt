//! An execution that even `rw,rw` at each site leaves.

ghost use Rattle.std.specs.Prelude.{◌≡◌, Some, map, IfOk, IfSome, IsOkUnless};
ghost use Rattle.fs_kinds.specs.declared.fault.Fault.TheVariants.{Memory};
ghost use Rattle.fs_model.specs.Witness.{Witness as Said};
ghost use Rattle.fs_cert_evidence.specs.WitnessFile.{KeepsWitness};
ghost use Rattle.fs_sites.specs.Questions.{IsPart, image, top};
ghost use Rattle.fs_sites_check.specs.Valid.{IsShownAs};
ghost use Rattle.fs_sites_check.specs.Verdicts.{IsShownFully};

use crate::widths::{is_shown, widths_at};
use fs_board_offers::Offers;
use fs_cert_evidence::{ChoiceLists, Pairs, Witness, WitnessFile};
use fs_kinds::{Fault, List, OperationName, Placement};
use fs_model::Choice;
use fs_sites::{Part, image};
use std::alloc::{AllocError, Global};

/// The names, where each is there.
fn names_of(
    alloc: Global,
    names: &[Option<OperationName>],
) -> Result<Option<Vec<OperationName>>, AllocError>
    ensures { IfOk result (λ found. IfSome found (λ kept. names.now ≡ map (λ name. Some name) kept.items)) }
{
    let mut kept = Vec::new(alloc);
    for name in names {
        let Some(name) = *name else {
            return Ok(None);
        };
        kept.push(name)?;
    }
    Ok(Some(kept))
}

/// The same choices.
fn same_choices(alloc: Global, lists: &[List<Choice>]) -> Result<Vec<List<Choice>>, AllocError>
    ensures { IfOk result (λ same. same.items ≡ lists.now) }
{
    let mut same = Vec::new(alloc);
    for list in lists {
        same.push(List::new(Vec::from_slice(alloc, list.as_slice())?))?;
    }
    Ok(same)
}

/// The witness that the file says, where each name is in range, with these widths.
fn witness_of(
    alloc: Global,
    file: &WitnessFile,
    widths: Vec<Pairs>,
) -> Result<Option<Witness>, AllocError>
    ensures choices { IfOk result (λ found. IfSome found (λ w. w.witness.choices ≡ file.now.choices)) }
    ensures order { IfOk result (λ found. IfSome found (λ w. file.now.order
        ≡ map (λ name. Some name) w.witness.order)) }
    ensures widths { IfOk result (λ found. IfSome found (λ w. w.widths ≡ widths.items)) }
{
    let Some(order) = names_of(alloc, &file.order)? else {
        return Ok(None);
    };
    let choices = same_choices(alloc, &file.choices)?;
    Ok(Some(Witness {
        choices: ChoiceLists::new(choices),
        order: List::new(order),
        widths: List::new(widths),
    }))
}

/// Does the witness give an execution that shows the outcome of this test with `rw,rw` at each site?
fn is_shown_with_top(
    alloc: Global,
    part: &Part,
    offers: &Offers,
    file: &WitnessFile,
) -> Result<bool, Fault>
    requires { IsPart part.now }
    ensures ok { (w : Said) → KeepsWitness file.now w
        → IfOk result (IsShownAs part.now.test (image part.now.places (top offers.now)) w) }
    ensures err { IsOkUnless result Memory }
{
    let sites = offers.slots(alloc)?;
    let top = Placement::top(alloc, &sites)?;
    let fences = image(alloc, &part.places, &top)?;
    is_shown(alloc, &part.test, &fences, file)
}

/// The witness that the file says, with its widths at the test's places, where it gives an execution that shows the
/// outcome of the test with `rw,rw` at each site. It costs what `widths_at` costs. The error is F19.
pub(crate) fn shown_fully(
    alloc: Global,
    part: &Part,
    offers: &Offers,
    file: &WitnessFile,
) -> Result<Option<Witness>, Fault>
    requires part { IsPart part.now }
    requires said { (w : Said) × KeepsWitness file.now w }
    ensures ok { IfOk result (λ found. IfSome found (IsShownFully part.now offers.now file.now)) }
    ensures err { IsOkUnless result Memory }
{
    if !is_shown_with_top(alloc, part, offers, file)? {
        return Ok(None);
    }
    let unfenced = Placement::bottom(alloc, &[])?;
    if !is_shown(alloc, &part.test, &unfenced, file)? {
        return Ok(None);
    }
    let widths = widths_at(alloc, &part.test, &part.places, file)?;
    Ok(witness_of(alloc, file, widths)?)
}
