//! What a file holds: its test without the FENCEs at copies of sites, the copies, and what is written at them.

ghost use Rattle.std.specs.Prelude.{◌≡◌, ◌≢◌, [], All, IfOk, IfErr, map};
ghost use Rattle.std.specs.Arc.{arc_value};
ghost use Rattle.std.specs.List.{enumerate_from, slice_index_or};
ghost use Rattle.fs_kinds.specs.declared.fault.Fault.TheVariants.{Memory};
ghost use Rattle.fs_litmus.specs.SiteLabels.{all_of};
ghost use Rattle.fs_litmus.specs.Sited.{IsSiteFault};
ghost use Rattle.fs_model.specs.Test.{IsTest};
ghost use Rattle.fs_model_laws.specs.InPlace.{written_at};
ghost use Rattle.fs_app_sites.specs.Sites.{IsFileFault, IsSound, copy_value};
ghost use Rattle.fs_app_sites_check_and_audit.specs.Copies.{AreHeld, Holds, IsFilesFault, IsHeld, IsWritten, LabelsStandIn};
ghost use Rattle.fs_app_sites_check_and_audit.specs.Copies.{emptied_at, line_at, written_of};

use crate::emptied::emptied_at;
use fs_app_file_text::memory_kind;
use fs_app_sites::{File, SiteCopy, read_copies};
use fs_instr::Instr;
use fs_kinds::{Fault, Kind, List, Slot};
use fs_litmus::{Code, SiteLabel, Test, read_lines, read_site_labels, read_test};
use std::alloc::{AllocError, Global};
use std::marker::Model;
use std::sync::Arc;

/// What is written at a copy of a site: the kind of its FENCE, if it has one that orders memory; and the line of its
/// instruction, or at the end of the code that of its label.
#[derive(Clone, Copy)]
pub struct Written {
    pub fence: Option<Kind>,
    pub line: usize,
}

/// What a file holds: its test, in which the FENCEs at copies of sites order no memory; the copies, and what is written
/// at each.
#[derive(Drop)]
pub(crate) struct Held {
    pub test: Arc<Test>,
    pub copies: List<SiteCopy>,
    pub written: List<Written>,
}

impl Model for Held {
    ghost use Rattle.std.specs.Prelude.{map};
    ghost use Rattle.std.specs.Arc.{arc_value};
    ghost use Rattle.std.specs.Coded.{codes};
    ghost use Rattle.fs_model.specs.contracts.outcome.Outcome as outcome;
    ghost use Rattle.fs_app_sites.specs.Sites.{copy_value};
    ghost use Rattle.fs_app_sites_check_and_audit.specs.Copies.{Held as Holding};

    ghost Value = { Holding };

    ghost view = { λ h. record {
      asked = record { test = arc_value h.test; copies = map copy_value h.copies };
      written = h.written;
    } };

    ghost coded = { Prim.hlevel (codes, outcome.the_row.coded) };
}

// ---- what is written at a copy

fn code_of(codes: &[Code], hart: usize) -> &[Instr]
    ensures { result.now ≡ slice_index_or codes.now hart [] }
{
    if hart < codes.len() {
        codes[hart].as_slice()
    } else {
        &[]
    }
}

/// The kind of the FENCE at the slot.
fn written_at(codes: &[Code], slot: Slot) -> Option<Kind>
    ensures { result ≡ written_at codes.now slot }
{
    match code_of(codes, usize::from(slot.hart)).get(usize::from(slot.at)) {
        Some(instr) => memory_kind(*instr),
        None => None,
    }
}

fn lines_of(lines: &[List<usize>], hart: usize) -> &[usize]
    ensures { result.now ≡ slice_index_or lines.now hart [] }
{
    if hart < lines.len() {
        lines[hart].as_slice()
    } else {
        &[]
    }
}

/// The line of the instruction of the slot; at the end of the code this one.
fn line_at(lines: &[List<usize>], label: usize, slot: Slot) -> usize
    ensures { result ≡ line_at lines.now label slot }
{
    lines_of(lines, usize::from(slot.hart))
        .get(usize::from(slot.at))
        .copied()
        .unwrap_or(label)
}

/// What is written at the copies.
fn written_of(
    alloc: Global,
    codes: &[Code],
    copies: &[SiteCopy],
    lines: &[List<usize>],
    labels: &[usize],
) -> Result<Vec<Written>, AllocError>
    ensures { IfOk result (λ written. written.items
        ≡ map (written_of codes.now lines.now labels.now) (enumerate_from 0 (map copy_value copies.now))) }
{
    let mut written = Vec::new(alloc);
    for (number, copy) in copies.iter().enumerate() {
        let label = labels.get(number).copied().unwrap_or(0);
        written.push(Written {
            fence: written_at(codes, copy.slot),
            line: line_at(lines, label, copy.slot),
        })?;
    }
    Ok(written)
}

/// The lines in which the labels stand.
fn label_lines(alloc: Global, labels: &[SiteLabel<'_>]) -> Result<Vec<usize>, AllocError>
    ensures { IfOk result (λ lines. lines.items ≡ map (λ label. label.line) (all_of labels.now)) }
{
    let mut lines = Vec::new(alloc);
    for label in labels {
        lines.push(label.line)?;
    }
    Ok(lines)
}

/// The lines in which the site labels of a file stand.
fn read_label_lines(alloc: Global, bytes: &[u8]) -> Result<Vec<usize>, Fault>
    ensures ok { IfOk result (λ lines. LabelsStandIn bytes.now lines.items) }
    ensures err { IfErr result (λ f. f ≢ Memory → IsSiteFault bytes.now f) }
{
    let labels = read_site_labels(alloc, bytes)?;
    Ok(label_lines(alloc, &labels)?)
}

/// What is written at these copies in a file.
fn read_written(
    alloc: Global,
    bytes: &[u8],
    codes: &[Code],
    copies: &[SiteCopy],
) -> Result<List<Written>, Fault>
    ensures ok { IfOk result (IsWritten bytes.now codes.now (map copy_value copies.now)) }
    ensures err { IfErr result (λ f. f ≢ Memory → IsSiteFault bytes.now f) }
{
    let lines = read_lines(alloc, bytes)?;
    let labels = read_label_lines(alloc, bytes)?;
    let written = written_of(alloc, codes, copies, &lines, &labels)?;
    Ok(List::new(written))
}

// ---- files

/// The test without the copies' FENCEs, to be shared.
fn shared_at(alloc: Global, copies: &[SiteCopy], test: Test) -> Result<Arc<Test>, AllocError>
    requires { IsTest test }
    ensures value { IfOk result (λ made. arc_value made ≡ emptied_at (map copy_value copies.now) test) }
    ensures test { IfOk result (λ made. IsTest (arc_value made)) }
{
    let made = emptied_at(alloc, copies, test)?;
    Ok(Arc::new(alloc, made)?)
}

/// What a file holds.
fn read_held(alloc: Global, bytes: &[u8]) -> Result<Held, Fault>
    ensures ok { IfOk result (IsHeld bytes.now) }
    ensures sound { IfOk result (λ held. IsSound held.asked) }
    ensures err { IfErr result (λ f. f ≢ Memory → IsFileFault bytes.now f) }
{
    let test = read_test(alloc, bytes)?;
    let copies = read_copies(alloc, bytes)?;
    let written = read_written(alloc, bytes, test.codes.as_slice(), &copies)?;
    let test = shared_at(alloc, &copies, test)?;
    Ok(Held {
        test,
        copies,
        written,
    })
}

/// What the files hold. The first fault of each file in turn. Each file is read three times.
pub(crate) fn read_files(alloc: Global, files: &[File]) -> Result<Vec<Held>, Fault>
    ensures ok { IfOk result (λ held. AreHeld files.now held.items) }
    ensures sound { IfOk result (λ held. All (λ h. IsSound h.asked) held.items) }
    ensures err { IfErr result (λ f. f ≢ Memory → IsFilesFault files.now f) }
{
    let mut held = Vec::new(alloc);
    for file in files {
        held.push(read_held(alloc, &file.bytes)?)?;
    }
    Ok(held)
}
