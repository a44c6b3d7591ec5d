//! The question that files ask without the FENCEs at copies of sites.

ghost use Rattle.std.specs.Prelude.{◌≡◌, ◌≢◌, ◌≤◌, ◌<◌, All, IfErr, IfOk, IsSome, length, map, string_bytes};
ghost use Rattle.serde_json.specs.View.{view};
ghost use Rattle.fs_kinds.specs.declared.kind.Kind.TheVariants as kind;
ghost use Rattle.fs_kinds.specs.declared.fault.Fault.TheVariants.{Memory, NodeLimit};
ghost use Rattle.fs_sites.specs.Questions.{IsQuestion};
ghost use Rattle.fs_app_sites.specs.SitePrices.{price_of};
ghost use Rattle.fs_app_sites.specs.Sites.{IsSound, most_sites, offers_of, part_of, question_of};
ghost use Rattle.fs_app_sites_check_and_audit.specs.Asked.{asked_of, names_in};
ghost use Rattle.fs_app_sites_check_and_audit.specs.Marks.{all_cost, marks_of, written_cost};

use crate::cost::{all_cost, written_cost};
use crate::held::Held;
use crate::marks::{Mark, marks_of};
use fs_app_sites::{MOST_SITES, SitePrices, add_copies, offers_of, places_of};
use fs_kinds::{Fault, List};
use fs_sites::{Part, Question};
use std::alloc::{AllocError, Global};
use std::sync::Arc;

/// The question of files, the names of their sites in the order of the sites' numbers, and the copies as they are
/// written, with their cost where copies agree.
#[derive(Drop)]
pub(crate) struct Asked {
    pub question: Question,
    pub names: List<String>,
    pub marks: List<Mark>,
    pub written: Option<u64>,
    pub all_cost: bool,
}

/// The names of the sites of all files, in the order in which they first stand.
fn names_in(alloc: Global, held: &[Held]) -> Result<Vec<String>, AllocError>
    ensures { IfOk result (λ names. map string_bytes names.items ≡ names_in held.now) }
{
    let mut names = Vec::new(alloc);
    for here in held {
        add_copies(alloc, &mut names, &here.copies)?;
    }
    Ok(names)
}

/// The part of a file in the question.
fn part_of(alloc: Global, names: &[String], held: &Held) -> Result<Part, AllocError>
    ensures { IfOk result (λ part. part ≡ part_of (map string_bytes names.now) held.now.asked) }
{
    Ok(Part {
        test: Arc::try_clone(&held.test)?,
        places: List::new(places_of(alloc, names, &held.copies)?),
    })
}

/// The parts of all files.
fn parts_of(alloc: Global, names: &[String], held: &[Held]) -> Result<Vec<Part>, AllocError>
    ensures { IfOk result (λ parts. parts.items
        ≡ map (part_of (map string_bytes names.now)) (map (λ h. h.asked) held.now)) }
{
    let mut parts = Vec::new(alloc);
    for here in held {
        parts.push(part_of(alloc, names, here)?)?;
    }
    Ok(parts)
}

/// The question of files that hold this, with sites of these names.
fn question_of(
    alloc: Global,
    held: &[Held],
    names: &[String],
    prices: &SitePrices,
) -> Result<Question, AllocError>
    requires { length names.now ≤ most_sites }
    ensures { IfOk result (λ q. q
        ≡ question_of (view prices.now) (map string_bytes names.now) (map (λ h. h.asked) held.now)) }
{
    let parts = parts_of(alloc, names, held)?;
    let offers = offers_of(alloc, prices, names)?;
    Ok(Question {
        parts: List::new(parts),
        offers,
    })
}

/// What files ask that hold this, with sites of these names.
fn asked_by(
    alloc: Global,
    held: &[Held],
    names: Vec<String>,
    prices: &SitePrices,
) -> Result<Asked, AllocError>
    requires { length names.items ≤ most_sites }
    ensures names { IfOk result (λ asked. map string_bytes asked.names ≡ map string_bytes names.items) }
    ensures question { IfOk result (λ asked. asked.question
        ≡ question_of (view prices.now) (map string_bytes names.items) (map (λ h. h.asked) held.now)) }
    ensures marks { IfOk result (λ asked. asked.marks ≡ marks_of (map string_bytes names.items) held.now) }
    ensures written { IfOk result (λ asked. asked.written
        ≡ written_cost (marks_of (map string_bytes names.items) held.now)
        (offers_of (view prices.now) (map string_bytes names.items))) }
    ensures all_cost { IfOk result (λ asked. asked.all_cost
        ≡ all_cost (marks_of (map string_bytes names.items) held.now)
        (offers_of (view prices.now) (map string_bytes names.items))) }
{
    let question = question_of(alloc, held, &names, prices)?;
    let marks = marks_of(alloc, &names, held)?;
    let written = written_cost(&marks, question.offers.as_slice());
    let all_cost = all_cost(&marks, question.offers.as_slice());
    Ok(Asked {
        question,
        names: List::new(names),
        marks: List::new(marks),
        written,
        all_cost,
    })
}

/// What files ask that hold this, at prices with one of `rw,rw`. F16 where there are more than 65,536 sites; or F19.
pub(crate) fn asked_of(alloc: Global, held: &[Held], prices: &SitePrices) -> Result<Asked, Fault>
    requires sound { All (λ h. IsSound h.asked) held.now }
    requires top { IsSome (price_of (view prices.now) kind.RwRw) }
    ensures names { IfOk result (λ asked. map string_bytes asked.names ≡ names_in held.now) }
    ensures value { IfOk result (λ asked. asked.question ≡ asked_of (view prices.now) held.now) }
    ensures question { IfOk result (λ asked. IsQuestion asked.question) }
    ensures marks { IfOk result (λ asked. asked.marks ≡ marks_of (names_in held.now) held.now) }
    ensures written { IfOk result (λ asked. asked.written
        ≡ written_cost (marks_of (names_in held.now) held.now) (offers_of (view prices.now) (names_in held.now))) }
    ensures all_cost { IfOk result (λ asked. asked.all_cost
        ≡ all_cost (marks_of (names_in held.now) held.now) (offers_of (view prices.now) (names_in held.now))) }
    ensures err { IfErr result (λ f. f ≢ Memory → (f ≡ NodeLimit) × (most_sites < length (names_in held.now))) }
{
    let names = names_in(alloc, held)?;
    if names.len() > MOST_SITES {
        return Err(Fault::NodeLimit);
    }
    Ok(asked_by(alloc, held, names, prices)?)
}
