//! The bars of the executions that witnesses give.

ghost use Rattle.std.specs.Prelude.{All, IfOk, IfSome, IsOkUnless};
ghost use Rattle.std.specs.List.{AllZip};
ghost use Rattle.fs_kinds.specs.declared.fault.Fault.TheVariants.{Memory};
ghost use Rattle.fs_sites.specs.Questions.{IsPart};
ghost use Rattle.fs_sites_check.specs.Valid.{IsBarBy, IsSaid};

use crate::certificate::SitesWitness;
use crate::widths::{is_shown, widths_at};
use fs_cert_evidence::{Pairs, WitnessFile};
use fs_kinds::{Fault, List, Placement};
use fs_sites::{Part, bar_of};
use std::alloc::Global;

/// The bar of the execution that the witness gives, over so many sites; none where it isn't of a test, or gives no
/// execution that shows the outcome of its test without placed fences. The error is F19.
fn bar_by(
    alloc: Global,
    parts: &[Part],
    sites: usize,
    witness: &SitesWitness,
) -> Result<Option<List<Pairs>>, Fault>
    requires parts { All IsPart parts.now }
    requires said { IsSaid witness.now }
    ensures ok { IfOk result (λ found. IfSome found (IsBarBy parts.now sites witness.now)) }
    ensures err { IsOkUnless result Memory }
{
    let Some(part) = parts.get(witness.test) else {
        return Ok(None);
    };
    let unfenced = Placement::bottom(alloc, &[])?;
    if !is_shown(alloc, &part.test, &unfenced, &witness.file)? {
        return Ok(None);
    }
    let widths = widths_at(alloc, &part.test, &part.places, &witness.file)?;
    Ok(Some(bar_of(alloc, &part.places, &widths, sites)?))
}

/// The bars of all witnesses, or the number of the first that has none. For each witness it costs what `shown_by`
/// costs, four times for each place of its test, and the sites times these places. The error is F19.
pub(crate) fn bars_by(
    alloc: Global,
    parts: &[Part],
    sites: usize,
    witnesses: &[SitesWitness],
) -> Result<Result<Vec<List<Pairs>>, usize>, Fault>
    requires parts { All IsPart parts.now }
    requires said { All IsSaid witnesses.now }
    ensures ok { IfOk result (λ found. IfOk found (λ bars.
        AllZip (IsBarBy parts.now sites) witnesses.now bars.items)) }
    ensures err { IsOkUnless result Memory }
{
    let mut bars = Vec::new(alloc);
    for (index, witness) in witnesses.iter().enumerate() {
        let Some(bar) = bar_by(alloc, parts, sites, witness)? else {
            return Ok(Err(index));
        };
        bars.push(bar)?;
    }
    Ok(Ok(bars))
}
