//! Which bars a placement breaks.

ghost use Rattle.std.specs.Prelude.{◌≡◌, option_map};
ghost use Rattle.fs_board_offers.specs.Breaks.{fits};
ghost use Rattle.fs_sites.specs.Plans.{is_within, breaks_all};
ghost use Rattle.fs_sites.specs.Sinking.{unbroken_rest};

use fs_cert_evidence::Pairs;
use fs_kinds::{Entry, Kind, List};

/// Does the kind, or none, order only these pairs?
pub(crate) fn fits(pairs: Pairs, kind: Option<Kind>) -> bool
    ensures { result ≡ fits pairs kind }
{
    let Some(kind) = kind else {
        return true;
    };
    match kind {
        Kind::RR => pairs.read_read,
        Kind::RW => pairs.read_write,
        Kind::RRw => pairs.read_read && pairs.read_write,
        Kind::WR => pairs.write_read,
        Kind::WW => pairs.write_write,
        Kind::WRw => pairs.write_read && pairs.write_write,
        Kind::RwR => pairs.read_read && pairs.write_read,
        Kind::RwW => pairs.read_write && pairs.write_write,
        Kind::RwRw => {
            pairs.read_read && pairs.read_write && pairs.write_read && pairs.write_write
        }
        Kind::Tso => pairs.read_read && pairs.read_write && pairs.write_write,
    }
}

/// Does each of these fences order only pairs that the bar keeps at its site? It calls itself once for each site.
fn is_within(bar: &[Pairs], entries: &[Entry]) -> bool
    ensures { result ≡ is_within bar.now entries.now }
{
    let [pairs, bar @ ..] = bar else {
        return true;
    };
    let [entry, entries @ ..] = entries else {
        return true;
    };
    fits(*pairs, entry.kind) && is_within(bar, entries)
}

/// Do these fences break all bars?
pub(crate) fn breaks_all(bars: &[List<Pairs>], entries: &[Entry]) -> bool
    ensures { result ≡ breaks_all bars.now entries.now }
{
    bars.iter().all(|bar| !is_within(bar.as_slice(), entries))
}

/// What is left of the bar behind the sites of these fences; none where they break it. It calls itself once for each of
/// them.
pub(crate) fn unbroken_rest<'a>(bar: &'a [Pairs], entries: &[Entry]) -> Option<&'a [Pairs]>
    ensures { option_map (λ rest. rest.now) result ≡ unbroken_rest bar.now entries.now }
{
    let [entry, entries @ ..] = entries else {
        return Some(bar);
    };
    let [pairs, rest @ ..] = bar else {
        return Some(bar);
    };
    if fits(*pairs, entry.kind) {
        unbroken_rest(rest, entries)
    } else {
        None
    }
}
