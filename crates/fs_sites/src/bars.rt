//! What an execution keeps at the sites.

ghost use Rattle.std.specs.Prelude.{◌≡◌, ◌&&◌, IfOk, length};
ghost use Rattle.fs_kinds.specs.Kind.{Pair};
ghost use Rattle.fs_cert_evidence.specs.Evidence.{keeps};
ghost use Rattle.fs_sites.specs.inner.Bars.{AreKept, IsBar};

use crate::question::Place;
use fs_cert_evidence::Pairs;
use fs_kinds::List;
use std::alloc::{AllocError, Global};

/// All pairs.
const ALL: Pairs = Pairs {
    read_read: true,
    read_write: true,
    write_read: true,
    write_write: true,
};

/// The pairs of both.
fn both(one: Pairs, other: Pairs) -> Pairs
    ensures { (pair : Pair) → keeps result pair ≡ (keeps one pair && keeps other pair) }
{
    Pairs {
        read_read: one.read_read && other.read_read,
        read_write: one.read_write && other.read_write,
        write_read: one.write_read && other.write_read,
        write_write: one.write_write && other.write_write,
    }
}

/// The pairs that are kept at all places of the site; all where it has none here.
fn kept_at(places: &[Place], widths: &[Pairs], site: usize) -> Pairs
    ensures { AreKept places.now widths.now site result }
{
    let mut kept = ALL;
    for k in 0..places.len().min(widths.len()) {
        if places[k].site == site {
            kept = both(kept, widths[k]);
        }
    }
    kept
}

/// The bar of an execution of a test with these places, by the pairs that its order keeps at each: for each of so many
/// sites those that are kept at all its places. It takes time of sites times places.
pub fn bar_of(
    alloc: Global,
    places: &[Place],
    widths: &[Pairs],
    sites: usize,
) -> Result<List<Pairs>, AllocError>
    ensures bar { IfOk result (IsBar places.now widths.now) }
    ensures sites { IfOk result (λ bar. length bar ≡ sites) }
{
    let mut bar = Vec::new(alloc);
    for site in 0..sites {
        bar.push(kept_at(places, widths, site))?;
    }
    Ok(List::new(bar))
}
