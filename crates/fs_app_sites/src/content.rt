//! What a file holds: a test, and the labels in it that name sites.

ghost use Rattle.std.specs.Prelude.{◌≡◌, ◌≢◌, [], true, map, IfOk, IfErr, OnOk};
ghost use Rattle.std.specs.Arc.{arc_value};
ghost use Rattle.std.specs.List.{list_all};
ghost use Rattle.fs_kinds.specs.Slot.{is_before, is_rising};
ghost use Rattle.fs_kinds.specs.declared.fault.Fault.TheVariants.{Memory, Unmatched};
ghost use Rattle.fs_litmus.specs.Reads.{Reads};
ghost use Rattle.fs_litmus.specs.SiteLabels.{site_label_of};
ghost use Rattle.fs_model.specs.Test.{IsBounded, IsTest};
ghost use Rattle.fs_app_sites.specs.Sites.{HaveAllCopies, HaveCopies, IsContent, IsFileFault, IsLabelsFault};
ghost use Rattle.fs_app_sites.specs.Sites.{all_copies, copy_of, copy_value, slots_of};

use crate::free::add_slots;
use fs_kinds::{Fault, List, Slot};
use fs_litmus::{SiteLabel, Test, read_site_labels, read_test};
use std::alloc::{AllocError, Global};
use std::marker::Model;
use std::sync::Arc;

/// A file: its name as it was given, and its bytes.
#[derive(Drop)]
pub struct File {
    pub name: String,
    pub bytes: Vec<u8>,
}

/// The tests of a library, and whether each slot at which no label of a site stands is a site of its own. The name of
/// such a site is the slot's where one file is given, as `P0:3`, and else it stands behind the file's name and `:`.
/// So a file that is given twice has each of them once, with two copies. A label's site has no `:` in its name.
#[derive(Drop)]
pub struct Tests {
    pub files: List<File>,
    pub is_free: bool,
}

/// A copy of a site: before the instruction of this slot stands the fence of the site of this name.
#[derive(Drop)]
pub struct SiteCopy {
    pub slot: Slot,
    pub name: String,
}

/// What a file holds: its test, and the copies of sites in it, in the order of their slots.
#[derive(Drop)]
pub(crate) struct Content {
    pub test: Arc<Test>,
    pub copies: List<SiteCopy>,
}

impl Model for Content {
    ghost use Rattle.std.specs.Prelude.{◌≡◌, true, map};
    ghost use Rattle.std.specs.Arc.{arc_value};
    ghost use Rattle.std.specs.Coded.{codes};
    ghost use Rattle.fs_model.specs.contracts.outcome.Outcome as outcome;
    ghost use Rattle.fs_model.specs.Test.{IsTest};
    ghost use Rattle.fs_kinds.specs.Slot.{is_rising};
    ghost use Rattle.fs_app_sites.specs.Sites.{Content as Held, copy_value, slots_of};

    ghost Value = { Held };

    ghost view = { λ c. record { test = arc_value c.test; copies = map copy_value c.copies } };

    ghost coded = { Prim.hlevel (codes, outcome.the_row.coded) };
}

/// Whether a file holds a test, and its site labels stand at places of their own; nothing else is done. The faults are
/// those of `read_test`, and F6 in the line of a second site label at a place; or F19. Linear in the bytes, but for the
/// labels of a hart, each of which is looked for in each of the hart's rows.
pub fn check_file(alloc: Global, bytes: &[u8]) -> Result<(), Fault>
    ensures { IfErr result (λ f. f ≢ Memory → IsFileFault bytes.now f) }
{
    let _content = read_content(alloc, bytes, "", false)?;
    Ok(())
}

/// What a file holds. Behind this prefix stands the name of a slot that is a site of its own.
pub(crate) fn read_content(
    alloc: Global,
    bytes: &[u8],
    prefix: &str,
    is_free: bool,
) -> Result<Content, Fault>
    ensures ok { IfOk result (IsContent is_free prefix.now bytes.now) }
    ensures test { IfOk result (λ content. IsTest content.test) }
    ensures rising { IfOk result (λ content. is_rising (slots_of content.copies) ≡ true) }
    ensures err { IfErr result (λ f. f ≢ Memory → IsFileFault bytes.now f) }
{
    let test = read_test(alloc, bytes)?;
    let copies = copies_in(alloc, bytes, &test, prefix, is_free)?;
    let test = shared(alloc, test)?;
    Ok(Content { test, copies })
}

/// The test, to be shared.
fn shared(alloc: Global, test: Test) -> Result<Arc<Test>, AllocError>
    ensures { IfOk result (λ shared. arc_value shared ≡ test) }
{
    Ok(Arc::new(alloc, test)?)
}

/// The copies of sites in a file, of which `read_test` has read the test, in the order of their slots. F6 in the line of
/// a second site label at a place; or F19. It costs what `check_file` costs.
pub fn read_copies(alloc: Global, bytes: &[u8]) -> Result<List<SiteCopy>, Fault>
    ensures ok { IfOk result (λ copies. HaveCopies bytes.now (map copy_value copies)) }
    ensures rising { IfOk result (λ copies. is_rising (slots_of (map copy_value copies)) ≡ true) }
    ensures err { IfErr result (λ f. f ≢ Memory → IsLabelsFault bytes.now f) }
{
    let copies = named_copies(alloc, bytes)?;
    check_order(&copies)?;
    Ok(List::new(copies))
}

/// The copies of sites in a file, of which `read_test` has read this test, in the order of their slots. Where `is_free`
/// is set each slot of the test at which no label of a site stands is a site of its own, whose name is the slot's, as
/// `P0:3`. F6 in the line of a second site label at a place; or F19. It costs what `check_file` costs, and each such
/// slot is held against all copies.
pub fn read_all_copies(
    alloc: Global,
    bytes: &[u8],
    test: &Test,
    is_free: bool,
) -> Result<List<SiteCopy>, Fault>
    requires { IsBounded test.now }
    ensures ok { IfOk result (λ copies. HaveAllCopies is_free [] bytes.now test.now (map copy_value copies)) }
    ensures rising { IfOk result (λ copies. is_rising (slots_of (map copy_value copies)) ≡ true) }
    ensures err { IfErr result (λ f. f ≢ Memory → IsLabelsFault bytes.now f) }
{
    copies_in(alloc, bytes, test, "", is_free)
}

/// The same, where the names of such sites have this prefix.
fn copies_in(
    alloc: Global,
    bytes: &[u8],
    test: &Test,
    prefix: &str,
    is_free: bool,
) -> Result<List<SiteCopy>, Fault>
    requires { IsBounded test.now }
    ensures ok { IfOk result (λ copies.
        HaveAllCopies is_free prefix.now bytes.now test.now (map copy_value copies)) }
    ensures rising { IfOk result (λ copies. is_rising (slots_of (map copy_value copies)) ≡ true) }
    ensures err { IfErr result (λ f. f ≢ Memory → IsLabelsFault bytes.now f) }
{
    let named = named_copies(alloc, bytes)?;
    let copies = all_copies(alloc, named, test, prefix, is_free)?;
    check_order(&copies)?;
    Ok(List::new(copies))
}

/// The copies that labels name.
fn named_copies(alloc: Global, bytes: &[u8]) -> Result<Vec<SiteCopy>, Fault>
    ensures ok { IfOk result (λ copies. HaveCopies bytes.now (map copy_value copies.items)) }
    ensures err { IfErr result (λ f. f ≢ Memory → IsLabelsFault bytes.now f) }
{
    let labels = read_site_labels(alloc, bytes)?;
    let copies = copies_of(alloc, &labels)?;
    Ok(copies)
}

/// F22 where the slots of the copies don't rise.
fn check_order(copies: &[SiteCopy]) -> Result<(), Fault>
    ensures rising { OnOk result (is_rising (slots_of (map copy_value copies.now)) ≡ true) }
    ensures err { IfErr result (λ f. f ≡ Unmatched) }
{
    if are_rising(copies) {
        Ok(())
    } else {
        Err(Fault::Unmatched)
    }
}

/// The copies, and where `is_free` is set those of the slots of the test at which none stands.
fn all_copies(
    alloc: Global,
    mut copies: Vec<SiteCopy>,
    test: &Test,
    prefix: &str,
    is_free: bool,
) -> Result<Vec<SiteCopy>, Fault>
    requires { IsBounded test.now }
    ensures ok { IfOk result (λ all. map copy_value all.items
        ≡ all_copies is_free prefix.now test.now (map copy_value copies.items)) }
    ensures err { IfErr result (λ f. f ≡ Memory) }
{
    if !is_free {
        return Ok(copies);
    }
    add_slots(alloc, &mut copies, test, prefix)?;
    Ok(copies)
}

/// The copies that the labels name.
fn copies_of(alloc: Global, labels: &[SiteLabel<'_>]) -> Result<Vec<SiteCopy>, Fault>
    ensures ok { IfOk result (λ copies. map copy_value copies.items ≡ map copy_of (map site_label_of labels.now)) }
    ensures err { IfErr result (λ f. f ≢ Memory → f ≡ Unmatched) }
{
    let mut copies = Vec::new(alloc);
    for label in labels {
        copies.push(copy_of(alloc, label)?)?;
    }
    Ok(copies)
}

/// The copy that the label names. No hart and no position of a test that was read is above 255.
fn copy_of(alloc: Global, label: &SiteLabel<'_>) -> Result<SiteCopy, Fault>
    ensures ok { IfOk result (λ copy. copy_value copy ≡ copy_of (site_label_of label.now)) }
    ensures err { IfErr result (λ f. f ≢ Memory → f ≡ Unmatched) }
{
    let (Ok(hart), Ok(at)) = (u8::try_from(label.hart), u8::try_from(label.at)) else {
        return Err(Fault::Unmatched);
    };
    Ok(SiteCopy {
        slot: Slot { hart, at },
        name: String::from_str(alloc, label.name)?,
    })
}

/// Does the slot come before the other?
pub(crate) fn is_before(slot: Slot, other: Slot) -> bool
    ensures { result ≡ is_before slot other }
{
    slot.hart < other.hart || slot.hart == other.hart && slot.at < other.at
}

/// Does the slot come before those of all these copies?
fn is_before_all(slot: Slot, copies: &[SiteCopy]) -> bool
    ensures { result ≡ list_all (is_before slot) (slots_of (map copy_value copies.now)) }
{
    for copy in copies {
        if !is_before(slot, copy.slot) {
            return false;
        }
    }
    true
}

/// Do the slots rise? It calls itself once for each copy, of which a test has some 300 at most.
fn are_rising(copies: &[SiteCopy]) -> bool
    ensures { result ≡ is_rising (slots_of (map copy_value copies.now)) }
{
    match copies {
        [] => true,
        [first, rest @ ..] => is_before_all(first.slot, rest) && are_rising(rest),
    }
}
