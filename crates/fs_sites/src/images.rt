//! What stands in a test with fences of sites.

ghost use Rattle.std.specs.Prelude.{◌≡◌, true, None, map, IfOk, IsOkUnless};
ghost use Rattle.fs_kinds.specs.declared.fault.Fault.TheVariants.{Memory};
ghost use Rattle.fs_kinds.specs.Placement.{all_with};
ghost use Rattle.fs_kinds.specs.Slot.{is_rising};
ghost use Rattle.fs_sites.specs.Questions.{image, kind_of, slots_at};
ghost use Rattle.fs_sites.specs.inner.Fills.{put_at};

use crate::question::Place;
use fs_kinds::{Fault, Kind, Placement, Slot};
use std::alloc::{AllocError, Global};

/// The slots of the places.
fn slots_at(alloc: Global, places: &[Place]) -> Result<Vec<Slot>, AllocError>
    ensures { IfOk result (λ slots. slots.items ≡ slots_at places.now) }
{
    places.iter().map(|place| place.slot).collect(alloc)
}

/// The fence of the site; none past the last site.
fn kind_of(site: usize, placement: &Placement) -> Option<Kind>
    ensures { result ≡ kind_of site placement.now }
{
    placement.as_slice().get(site)?.kind
}

/// Puts the fence of the place's site there. Nothing changes where its slot is none of these.
#[tactic(auto, using(crate::proofs::Filling::put_nowhere))]
fn put(place: Place, placement: &Placement, fences: &mut Placement)
    ensures { fences.new ≡ put_at placement.now place fences.old }
{
    let kind = kind_of(place.site, placement);
    match fences.with(place.slot, kind) {
        Ok(()) | Err(_) => {}
    }
}

/// Puts the fence of each place's site there.
#[tactic(auto, using(crate::proofs::Filling::put_drop))]
fn fill(places: &[Place], placement: &Placement, fences: &mut Placement)
    requires rising { is_rising (slots_at places.now) ≡ true }
    requires empty { fences.old ≡ all_with None (slots_at places.now) }
    ensures { fences.new ≡ image places.now placement.now }
{
    for place in places {
        put(*place, placement, fences);
    }
}

/// What stands in a test with these places: at each the fence of its site. It takes time of places squared. The error
/// is F19.
pub fn image(alloc: Global, places: &[Place], placement: &Placement) -> Result<Placement, Fault>
    requires { is_rising (slots_at places.now) ≡ true }
    ensures ok { IfOk result (λ fences. fences ≡ image places.now placement.now) }
    ensures err { IsOkUnless result Memory }
{
    let slots = slots_at(alloc, places)?;
    let mut fences = Placement::bottom(alloc, &slots)?;
    fill(places, placement, &mut fences);
    Ok(fences)
}
