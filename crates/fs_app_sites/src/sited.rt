//! The sites of one file.

ghost use Rattle.std.specs.Prelude.{◌≡◌, ◌≢◌, ◌≤◌, ◌<◌, [], map, string_bytes, length, true, IfOk, IfErr};
ghost use Rattle.fs_kinds.specs.Slot.{is_rising};
ghost use Rattle.fs_kinds.specs.declared.fault.Fault.TheVariants.{Memory, NodeLimit};
ghost use Rattle.fs_litmus.specs.Reads.{Reads};
ghost use Rattle.fs_model.specs.Test.{IsTest};
ghost use Rattle.fs_sites.specs.Questions.{slots_at};
ghost use Rattle.fs_app_sites.specs.Sites.{copy_value, most_sites, places_of, with_copies};
ghost use Rattle.fs_app_sites.specs.Sited.{AreSites, IsSitedFault, IsSitesFault};

use crate::{MOST_SITES, SiteCopy, add_copies, places_of, read_all_copies};
use fs_kinds::{Fault, List};
use fs_litmus::{Test, read_test};
use fs_sites::Place;
use std::alloc::{AllocError, Global};

/// The copies of sites in a test, and the names of the sites in the order in which they first stand.
#[derive(Drop)]
pub(crate) struct Sites {
    pub(crate) places: List<Place>,
    pub(crate) names: List<String>,
}

/// The names of the sites of these copies, in the order in which they first stand.
fn names_of(alloc: Global, copies: &[SiteCopy]) -> Result<Vec<String>, AllocError>
    ensures { IfOk result (λ names. map string_bytes names.items ≡ with_copies [] (map copy_value copies.now)) }
{
    let mut names = Vec::new(alloc);
    add_copies(alloc, &mut names, copies)?;
    Ok(names)
}

/// The sites of these copies. F16 where there are more than have keys; or F19.
fn sites_of(alloc: Global, copies: &[SiteCopy]) -> Result<Sites, Fault>
    ensures names { IfOk result (λ sites. map string_bytes sites.names ≡ with_copies [] (map copy_value copies.now)) }
    ensures places { IfOk result (λ sites. sites.places
        ≡ places_of (map string_bytes sites.names) (map copy_value copies.now)) }
    ensures few { IfOk result (λ sites. length sites.names ≤ most_sites) }
    ensures err { IfErr result (λ f. f ≢ Memory
        → (f ≡ NodeLimit) × (most_sites < length (with_copies [] (map copy_value copies.now)))) }
{
    let names = names_of(alloc, copies)?;
    if names.len() > MOST_SITES {
        return Err(Fault::NodeLimit);
    }
    let places = places_of(alloc, &names, copies)?;
    Ok(Sites {
        places: List::new(places),
        names: List::new(names),
    })
}

/// The sites of a file that reads as this test.
fn read_sites(alloc: Global, bytes: &[u8], test: &Test, is_free: bool) -> Result<Sites, Fault>
    requires test { IsTest test.now }
    requires reads { Reads bytes.now test.now }
    ensures ok { IfOk result (λ sites. AreSites is_free bytes.now test.now sites.places
        (map string_bytes sites.names)) }
    ensures rising { IfOk result (λ sites. is_rising (slots_at sites.places) ≡ true) }
    ensures few { IfOk result (λ sites. length sites.names ≤ most_sites) }
    ensures err { IfErr result (λ f. f ≢ Memory → IsSitesFault is_free bytes.now test.now f) }
{
    let copies = read_all_copies(alloc, bytes, test, is_free)?;
    sites_of(alloc, &copies)
}

/// A file's test, and its sites. The first fault in this order: those of a test by number and then line, F6 in the line
/// of a second site label at a place, F16 where there are more sites than have keys; or F19.
pub(crate) fn read_sited(alloc: Global, bytes: &[u8], is_free: bool) -> Result<(Test, Sites), Fault>
    ensures test { IfOk result (λ read. IsTest read.0) }
    ensures sites { IfOk result (λ read. AreSites is_free bytes.now read.0 read.1.places
        (map string_bytes read.1.names)) }
    ensures rising { IfOk result (λ read. is_rising (slots_at read.1.places) ≡ true) }
    ensures few { IfOk result (λ read. length read.1.names ≤ most_sites) }
    ensures err { IfErr result (λ f. f ≢ Memory → IsSitedFault is_free bytes.now f) }
{
    let test = read_test(alloc, bytes)?;
    let sites = read_sites(alloc, bytes, &test, is_free)?;
    Ok((test, sites))
}
