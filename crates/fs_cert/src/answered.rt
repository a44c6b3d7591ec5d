//! The answer of a certificate of fences.

ghost use Rattle.std.specs.Prelude.{◌≡◌, ◌≤◌, ◌++◌, IfOk, OnOk, map, string_bytes};
ghost use Rattle.fs_board_offers.specs.Offers.{cost};
ghost use Rattle.fs_kinds.specs.Slot.{fence_word};
ghost use Rattle.fs_cert_evidence.specs.Certificate.{Fenced, fence_words, words_at};
ghost use Rattle.fs_cert_evidence.specs.CertificateFile.{most_number};
ghost use Rattle.fs_cert_json.specs.Kept.{answer_of};

use fs_board_offers::Offers;
use fs_cert_json::CertifiedAnswer;
use fs_kinds::{Entry, Kind, List, Placement, Slot};
use std::alloc::{AllocError, Global};

/// The word of a fence, as `P0:3=w,w`.
fn word_of(alloc: Global, slot: Slot, kind: Kind) -> Result<String, AllocError>
    ensures { IfOk result (λ word. string_bytes word ≡ fence_word slot kind) }
{
    let mut word = String::new(alloc);
    write!(word, "P{}:{}={}", slot.hart, slot.at, kind.name())?;
    Ok(word)
}

/// Adds the word of the entry's fence, where it has one.
fn push_word(alloc: Global, entry: &Entry, words: &mut Vec<String>) -> Result<(), AllocError>
    ensures { OnOk result (map string_bytes words.new.items
        ≡ map string_bytes words.old.items ++ words_at entry.now.slot entry.now.kind) }
{
    if let Some(kind) = entry.kind {
        words.push(word_of(alloc, entry.slot, kind)?)?;
    }
    Ok(())
}

/// The words of the fences, in slot order.
fn words_of(alloc: Global, entries: &[Entry]) -> Result<List<String>, AllocError>
    ensures { IfOk result (λ words. map string_bytes words ≡ fence_words entries.now) }
{
    let mut words = Vec::new(alloc);
    for entry in entries {
        push_word(alloc, entry, &mut words)?;
    }
    Ok(List::new(words))
}

/// The placement as an answer, with its cost.
pub(crate) fn answer_of(
    alloc: Global,
    offers: &Offers,
    placement: &Placement,
) -> Result<CertifiedAnswer, AllocError>
    ensures value { IfOk result (λ answer. answer_of answer
        ≡ Fenced (cost offers.now placement.now) (fence_words placement.now)) }
    ensures most { cost offers.now placement.now ≤ most_number }
{
    let cost = offers.cost(placement);
    let fences = words_of(alloc, placement.as_slice())?;
    Ok(CertifiedAnswer::Fenced { cost, fences })
}
