//! The question that files and prices ask.

ghost use Rattle.std.specs.Prelude.{◌≡◌, ◌≤◌, ◌<◌, map, length, string_bytes, IfOk, IsOkUnless};
ghost use Rattle.serde_json.specs.View.{view};
ghost use Rattle.fs_kinds.specs.declared.fault.Fault.TheVariants.{Memory};
ghost use Rattle.fs_app_sites.specs.Sites.{copy_value, key, offer_of, offers_of, part_of, place_of, question_of};
ghost use Rattle.fs_app_sites.specs.Sites.{most_sites, places_of};

use crate::content::{Content, SiteCopy};
use crate::names::number_of;
use crate::prices::SitePrices;
use fs_board_offers::{Offer, Offers};
use fs_kinds::{Fault, Kind, List, Slot};
use fs_sites::{Part, Place, Question};
use std::alloc::{AllocError, Global};
use std::sync::Arc;

/// So many sites have a key of their own.
pub const MOST_SITES: usize = 65_536;

/// The key of a site by its number, which is a name only: keys rise as numbers do.
pub fn key(number: usize) -> Slot
    requires { number < most_sites }
    ensures { result ≡ key number }
{
    Slot {
        hart: (number / 256) as u8,
        at: (number % 256) as u8,
    }
}

/// At a site of this number and name each kind that has a price, for its price times the site's weight.
fn offer_of(prices: &SitePrices, number: usize, name: &str) -> Offer
    requires { number < most_sites }
    ensures { result ≡ offer_of (view prices.now) (number, name.now) }
{
    Offer {
        slot: key(number),
        costs: [
            prices.cost_at(name, Kind::RR),
            prices.cost_at(name, Kind::RW),
            prices.cost_at(name, Kind::RRw),
            prices.cost_at(name, Kind::WR),
            prices.cost_at(name, Kind::WW),
            prices.cost_at(name, Kind::WRw),
            prices.cost_at(name, Kind::RwR),
            prices.cost_at(name, Kind::RwW),
            prices.cost_at(name, Kind::RwRw),
            prices.cost_at(name, Kind::Tso),
        ],
        written: None,
    }
}

/// What may stand at the sites of these names.
fn offer_list(
    alloc: Global,
    prices: &SitePrices,
    names: &[String],
) -> Result<Vec<Offer>, AllocError>
    requires { length names.now ≤ most_sites }
    ensures { IfOk result (λ offers. offers.items ≡ offers_of (view prices.now) (map string_bytes names.now)) }
{
    let mut offers = Vec::new(alloc);
    for (number, name) in names.iter().enumerate() {
        offers.push(offer_of(prices, number, name.as_str()))?;
    }
    Ok(offers)
}

/// What may stand at the sites of these names, in the order of their keys, and what it costs there, once for all
/// copies. Fails only for want of memory.
pub fn offers_of(alloc: Global, prices: &SitePrices, names: &[String]) -> Result<Offers, AllocError>
    requires { length names.now ≤ most_sites }
    ensures { IfOk result (λ offers. offers ≡ offers_of (view prices.now) (map string_bytes names.now)) }
{
    let offers = offer_list(alloc, prices, names)?;
    Ok(Offers::new(offers))
}

/// The place of a copy, whose site has one of these names.
fn place_of(names: &[String], copy: &SiteCopy) -> Place
    ensures { result ≡ place_of (map string_bytes names.now) (copy_value copy.now) }
{
    Place {
        slot: copy.slot,
        site: number_of(names, copy.name.as_str()).unwrap_or(0),
    }
}

/// The places of copies, whose sites have some of these names: those of the sites of one question. Fails only for want
/// of memory. Each copy's name is looked for in all names.
pub fn places_of(
    alloc: Global,
    names: &[String],
    copies: &[SiteCopy],
) -> Result<Vec<Place>, AllocError>
    ensures { IfOk result (λ places. places.items
        ≡ places_of (map string_bytes names.now) (map copy_value copies.now)) }
{
    let mut places = Vec::new(alloc);
    for copy in copies {
        places.push(place_of(names, copy))?;
    }
    Ok(places)
}

/// The part of a file in the question.
fn part_of(alloc: Global, names: &[String], content: &Content) -> Result<Part, AllocError>
    ensures { IfOk result (λ part. part ≡ part_of (map string_bytes names.now) content.now) }
{
    Ok(Part {
        test: Arc::try_clone(&content.test)?,
        places: List::new(places_of(alloc, names, &content.copies)?),
    })
}

/// The parts of all files.
fn parts_of(alloc: Global, names: &[String], contents: &[Content]) -> Result<Vec<Part>, AllocError>
    ensures { IfOk result (λ parts. parts.items ≡ map (part_of (map string_bytes names.now)) contents.now) }
{
    let mut parts = Vec::new(alloc);
    for content in contents {
        parts.push(part_of(alloc, names, content)?)?;
    }
    Ok(parts)
}

/// The question of files that hold this, with sites of these names, at these prices. The error is F19.
pub(crate) fn question_of(
    alloc: Global,
    contents: &[Content],
    names: &[String],
    prices: &SitePrices,
) -> Result<Question, Fault>
    requires { length names.now ≤ most_sites }
    ensures value { IfOk result (λ q. q ≡ question_of (view prices.now) (map string_bytes names.now) contents.now) }
    ensures err { IsOkUnless result Memory }
{
    let parts = parts_of(alloc, names, contents)?;
    let offers = offers_of(alloc, prices, names)?;
    Ok(Question {
        parts: List::new(parts),
        offers,
    })
}
