//! What `place --sites` answers.

ghost use Rattle.std.specs.Prelude.{◌≡◌, ◌≢◌, ◌++◌, ◌≤◌, Bool, ℕ, List, Option, IfOk, IfErr, IsOkUnless, length};
ghost use Rattle.std.specs.Prelude.{map, option_map, string_bytes, true};
ghost use Rattle.std.specs.Option.{option_copied};
ghost use Rattle.serde_json.specs.View.{view};
ghost use Rattle.fs_kinds.specs.Slot.{is_rising};
ghost use Rattle.fs_kinds.specs.declared.fault.Fault.TheVariants.{Memory, TooBig};
ghost use Rattle.fs_kinds.specs.declared.fault.Limit.TheVariants.{Instructions};
ghost use Rattle.fs_litmus.specs.Fence.{IsShort};
ghost use Rattle.fs_model.specs.Printed.{printed};
ghost use Rattle.fs_model.specs.Test.{IsTest};
ghost use Rattle.fs_board_offers.specs.Offers.{are_offered as all_offered};
ghost use Rattle.fs_sites.specs.Questions.{slots_at};
ghost use Rattle.fs_app_sites.specs.Sites.{most_sites};
ghost use Rattle.fs_app_sites.specs.Place.{AreGivenPrices, IsFirstSitesPlaceFault, IsGivenPricesFault};
ghost use Rattle.fs_app_sites.specs.Place.{IsPlaceAsked, IsSitesText, are_offered, cost_line, fenced_at};
ghost use Rattle.fs_app_sites.specs.Place.{offers_given};

use crate::fenced::write_fenced;
use crate::sited::{Sites, read_sited};
use crate::words::read_kinds;
use crate::{SitePrices, offers_of, read_site_prices};
use fs_app_io::{Output, Status};
use fs_board_offers::Offers;
use fs_kinds::{Entry, Fault, Placement};
use fs_litmus::Test;
use fs_sites::{Place, image};
use std::alloc::Global;

/// What `place --sites` prints for a test file: the test in the printed form of herd7's format, with the fences that
/// the words name at all copies of each site, and where prices are given, their cost on a last line. Each site costs
/// the price of its kind times its weight, once. With `is_free` each slot at which no label names a site is a site of
/// its own, such as `P0:3`. A copy behind which no instruction of its hart stands gets no FENCE. The files are bytes as
/// they were read. Linear in the bytes; each instruction and each slot is looked for in all copies, each copy's name and
/// each word in the names of all sites, and each fence of a site in all offers.
///
/// The first fault in this order: `BadPrices` and `NoTop`; those of a test file by number and then line; `BadLabel` of
/// a second site label at a place; `NodeLimit` where there are more than 65,536 sites; `BadFence`; `TooBig` where a hart
/// has too many instructions with its fences. `Memory` may come in place of any answer.
pub fn run_place_sites(
    alloc: Global,
    test: &[u8],
    prices: Option<&[u8]>,
    words: &[String],
    is_free: bool,
) -> Result<Output, Fault>
    ensures text { IfOk result (λ output. IsSitesText is_free test.now (option_copied prices.entry)
        (map string_bytes words.now) (string_bytes output.text)) }
    ensures status { IfOk result (λ output. output.status ≡ Status.Success) }
    ensures fault { IfErr result
        (IsFirstSitesPlaceFault is_free test.now (option_copied prices.entry) (map string_bytes words.now)) }
{
    let prices = given_prices(alloc, prices)?;
    place_priced(alloc, test, prices.as_ref(), words, is_free)
}

/// The prices that the file holds, where one is given.
fn given_prices(alloc: Global, bytes: Option<&[u8]>) -> Result<Option<SitePrices>, Fault>
    ensures ok { IfOk result (λ prices. AreGivenPrices (option_copied bytes.entry) (option_map view prices)) }
    ensures err { IfErr result (λ f. f ≢ Memory → IsGivenPricesFault (option_copied bytes.entry) f) }
{
    match bytes {
        Some(bytes) => Ok(Some(read_site_prices(alloc, bytes)?)),
        None => Ok(None),
    }
}

/// What is printed with these prices.
fn place_priced(
    alloc: Global,
    test: &[u8],
    prices: Option<&SitePrices>,
    words: &[String],
    is_free: bool,
) -> Result<Output, Fault>
    ensures text { IfOk result (λ output. (given : Option (List ℕ))
        → AreGivenPrices given (option_map view (option_copied prices.entry))
        → IsSitesText is_free test.now given (map string_bytes words.now) (string_bytes output.text)) }
    ensures status { IfOk result (λ output. output.status ≡ Status.Success) }
    ensures fault { IfErr result (λ f. (given : Option (List ℕ))
        → AreGivenPrices given (option_map view (option_copied prices.entry))
        → IsFirstSitesPlaceFault is_free test.now given (map string_bytes words.now) f) }
{
    let (test, sites) = read_sited(alloc, test, is_free)?;
    let offers = offers_given(alloc, prices, &sites.names)?;
    place_words(alloc, test, &sites, offers.as_ref(), words)
}

/// What the prices offer at sites of these names, where any are given.
fn offers_given(
    alloc: Global,
    prices: Option<&SitePrices>,
    names: &[String],
) -> Result<Option<Offers>, Fault>
    requires { length names.now ≤ most_sites }
    ensures ok { IfOk result (λ offers. offers
        ≡ offers_given (option_map view (option_copied prices.entry)) (map string_bytes names.now)) }
    ensures err { IsOkUnless result Memory }
{
    match prices {
        Some(prices) => Ok(Some(offers_of(alloc, prices, names)?)),
        None => Ok(None),
    }
}

/// What is printed of a test that was read, with its sites, and what is offered there.
fn place_words(
    alloc: Global,
    test: Test,
    sites: &Sites,
    offers: Option<&Offers>,
    words: &[String],
) -> Result<Output, Fault>
    requires test { IsTest test }
    requires rising { is_rising (slots_at sites.now.places) ≡ true }
    requires few { length sites.now.names ≤ most_sites }
    ensures text { IfOk result (λ output. (is_free : Bool) (bytes : List ℕ) (prices : Option (List ℕ))
        → IsPlaceAsked is_free bytes prices test sites.now.places (map string_bytes sites.now.names)
        (option_copied offers.entry)
        → IsSitesText is_free bytes prices (map string_bytes words.now) (string_bytes output.text)) }
    ensures status { IfOk result (λ output. output.status ≡ Status.Success) }
    ensures fault { IfErr result (λ f. (is_free : Bool) (bytes : List ℕ) (prices : Option (List ℕ))
        → IsPlaceAsked is_free bytes prices test sites.now.places (map string_bytes sites.now.names)
        (option_copied offers.entry)
        → IsFirstSitesPlaceFault is_free bytes prices (map string_bytes words.now) f) }
{
    let kinds = read_kinds(alloc, &sites.names, words)?;
    if !are_offered(offers, &kinds) {
        return Err(Fault::BadFence);
    }
    let text = placed_text(alloc, test, &sites.places, &kinds, offers)?;
    Ok(Output {
        text,
        status: Status::Success,
    })
}

/// Is each kind offered at its site? Without prices any is.
fn are_offered(offers: Option<&Offers>, kinds: &Placement) -> bool
    ensures { result ≡ are_offered (option_copied offers.entry) kinds.now }
{
    match offers {
        Some(offers) => all_offered(offers, kinds.as_slice()),
        None => true,
    }
}

/// Do these offers have each entry's kind at its slot?
fn all_offered(offers: &Offers, entries: &[Entry]) -> bool
    ensures { result ≡ all_offered offers.now entries.now }
{
    for entry in entries {
        if !offers.is_offered(entry.slot, entry.kind) {
            return false;
        }
    }
    true
}

/// The test with the fence of each site at all its copies in print, and where prices are given, the line with the cost.
fn placed_text(
    alloc: Global,
    test: Test,
    places: &[Place],
    kinds: &Placement,
    offers: Option<&Offers>,
) -> Result<String, Fault>
    requires test { IsTest test }
    requires rising { is_rising (slots_at places.now) ≡ true }
    ensures ok { IfOk result (λ text. string_bytes text
        ≡ printed (fenced_at test places.now kinds.now) ++ cost_line (option_copied offers.entry) kinds.now) }
    ensures short { IfOk result (λ text. IsShort (fenced_at test places.now kinds.now)) }
    ensures err { IfErr result (λ f. f ≢ Memory
        → (f ≡ TooBig Instructions) × ¬ IsShort (fenced_at test places.now kinds.now)) }
{
    let fences = image(alloc, places, kinds)?;
    let mut text = write_fenced(alloc, test, &fences)?;
    if let Some(offers) = offers {
        writeln!(text, "(* cost {} *)", offers.cost(kinds))?;
    }
    Ok(text)
}
