//! The words of the fences of sites.

ghost use Rattle.std.specs.Prelude.{◌≡◌, ◌++◌, IsTrue, IfOk, OnOk, map, string_bytes};
ghost use Rattle.fs_board_offers.specs.Offers.{cost};
ghost use Rattle.fs_cert_evidence.specs.Certificate.{Fenced};
ghost use Rattle.fs_cert_json.specs.Kept.{answer_of};
ghost use Rattle.fs_sites_check.specs.Valid.{site_word, site_words};

use fs_board_offers::Offers;
use fs_cert_json::CertifiedAnswer;
use fs_kinds::{Entry, Kind, Placement};
use std::alloc::{AllocError, Global};

/// Appends the word of the site, where it has a fence.
fn push_word(
    alloc: Global,
    name: &str,
    kind: Option<Kind>,
    words: &mut Vec<String>,
) -> Result<(), AllocError>
    ensures { OnOk result (map string_bytes words.new.items
        ≡ map string_bytes words.old.items ++ site_word name.now kind) }
{
    if let Some(kind) = kind {
        words.push(format!(in alloc; "{}={}", name, kind.name())?)?;
    }
    Ok(())
}

/// Appends those of the sites of these names, each with the fence of its entry.
fn push_words(
    alloc: Global,
    names: &[String],
    entries: &[Entry],
    words: &mut Vec<String>,
) -> Result<(), AllocError>
    ensures { OnOk result (map string_bytes words.new.items
        ≡ map string_bytes words.old.items ++ site_words entries.now (map string_bytes names.now)) }
{
    let mut names = names;
    for entry in entries {
        match names.split_first() {
            Some((name, later)) => {
                push_word(alloc, name.as_str(), entry.kind, words)?;
                names = later;
            }
            None => return Ok(()),
        }
    }
    Ok(())
}

/// The words of the sites that have a fence, as `lock=r,r`, in order: of a placement's entries, whose sites have these
/// names.
pub fn site_words(
    alloc: Global,
    names: &[String],
    entries: &[Entry],
) -> Result<Vec<String>, AllocError>
    ensures { IfOk result (λ words. map string_bytes words.items
        ≡ site_words entries.now (map string_bytes names.now)) }
{
    let mut words = Vec::new(alloc);
    push_words(alloc, names, entries, &mut words)?;
    Ok(words)
}

/// Are the two the same?
fn is_same(word: &String, other: &String) -> bool
    ensures { IsTrue result → string_bytes word.now ≡ string_bytes other.now }
{
    word.as_str() == other.as_str()
}

/// Are all of them the same?
fn are_same(words: &[String], others: &[String]) -> bool
    ensures { IsTrue result → map string_bytes words.now ≡ map string_bytes others.now }
{
    if words.len() != others.len() {
        return false;
    }
    for number in 0..words.len() {
        if !is_same(&words[number], &others[number]) {
            return false;
        }
    }
    true
}

/// Does the answer name the fences of this placement, in order, and its cost?
pub(crate) fn is_answered(
    alloc: Global,
    offers: &Offers,
    names: &[String],
    placement: &Placement,
    answer: &CertifiedAnswer,
) -> Result<bool, AllocError>
    ensures { IfOk result (λ holds. IsTrue holds → answer_of answer.now
        ≡ Fenced (cost offers.now placement.now) (site_words placement.now (map string_bytes names.now))) }
{
    match answer {
        CertifiedAnswer::Fenced { cost, fences } => {
            let words = site_words(alloc, names, placement.as_slice())?;
            Ok(*cost == offers.cost(placement) && are_same(&words, fences))
        }
        CertifiedAnswer::NoneForbids => Ok(false),
    }
}
