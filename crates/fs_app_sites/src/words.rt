//! The fences of sites that words name.

ghost use Rattle.std.specs.Prelude.{◌≡◌, ◌≢◌, ◌⊎◌, ◌≤◌, Any, None, Some, IfOk, IfErr, IfSome, IfNone, IsErrOf};
ghost use Rattle.std.specs.Prelude.{IsOkUnless, length, map, string_bytes};
ghost use Rattle.fs_kinds.specs.declared.fault.Fault.TheVariants.{BadFence, Memory};
ghost use Rattle.fs_kinds.specs.declared.kind.Kind as kinds;
ghost use Rattle.fs_kinds.specs.Placement.{all_with};
ghost use Rattle.fs_model.specs.Placed.{placed};
ghost use Rattle.fs_app_sites.specs.Sites.{most_sites};
ghost use Rattle.fs_app_sites.specs.Sited.{AreBadWords, ArePut, IsNoFence, keys, site_word, word_of};

use crate::key;
use fs_kinds::{Fault, Kind, Placement, Slot};
use std::alloc::{AllocError, Global};

/// The kind in a word of the site of this name. None where it is no such word.
fn kind_of(name: &str, word: &str) -> Option<Kind>
    ensures some { IfSome result (λ kind. word.now ≡ site_word name.now kind) }
    ensures none { IfNone result ((kind : kinds.Kind) → word.now ≢ site_word name.now kind) }
{
    let rest = word.strip_prefix(name)?;
    let kind = rest.strip_prefix('=')?;
    Kind::of(kind)
}

/// The key of the site that the word names, and the kind.
fn read_word(names: &[String], word: &str) -> Option<(Slot, Kind)>
    requires { length names.now ≤ most_sites }
    ensures some { IfSome result (λ fence. word.now ≡ word_of (map string_bytes names.now) fence) }
    ensures none { IfNone result (IsNoFence (map string_bytes names.now) word.now) }
{
    for (number, name) in names.iter().enumerate() {
        if let Some(kind) = kind_of(name.as_str(), word) {
            return Some((key(number), kind));
        }
    }
    None
}

/// The keys and kinds of the words.
fn read_words(alloc: Global, names: &[String], words: &[String]) -> Result<Vec<(Slot, Kind)>, Fault>
    requires { length names.now ≤ most_sites }
    ensures ok { IfOk result (λ fences. map (word_of (map string_bytes names.now)) fences.items
        ≡ map string_bytes words.now) }
    ensures bad_fence { IsErrOf result BadFence
        → Any (IsNoFence (map string_bytes names.now)) (map string_bytes words.now) }
    ensures err { IfErr result (λ fault. (fault ≡ BadFence) ⊎ (fault ≡ Memory)) }
{
    let mut fences = Vec::new(alloc);
    for word in words {
        let Some(fence) = read_word(names, word.as_str()) else {
            return Err(Fault::BadFence);
        };
        fences.push(fence)?;
    }
    Ok(fences)
}

/// The keys of so many sites.
fn keys(alloc: Global, sites: usize) -> Result<Vec<Slot>, AllocError>
    requires { sites ≤ most_sites }
    ensures { IfOk result (λ slots. slots.items ≡ keys sites) }
{
    (0..sites).map(|number| key(number)).collect(alloc)
}

/// No fence at any of so many sites.
fn no_fences(alloc: Global, sites: usize) -> Result<Placement, Fault>
    requires { sites ≤ most_sites }
    ensures ok { IfOk result (λ p. p ≡ all_with None (keys sites)) }
    ensures err { IsOkUnless result Memory }
{
    let slots = keys(alloc, sites)?;
    Placement::bottom(alloc, &slots)
}

/// The fences of sites with these put at theirs, unless one doesn't fit.
fn put(mut kinds: Placement, fences: &[(Slot, Kind)]) -> Option<Placement>
    ensures { result ≡ placed None kinds fences.now }
{
    for (site, kind) in fences {
        if kinds.get(*site).is_some() {
            return None;
        }
        kinds.with(*site, Some(*kind)).ok()?;
    }
    Some(kinds)
}

/// The fences of the sites of these names: the kinds of the words, and none at other sites. The entry of each site has
/// its key. A word is the name of a site, `=` and the kind, as `lock=r,r`. F12 where a word has another form, or names
/// no such site or one that an earlier word names; else F19. Each word is held against each name.
pub(crate) fn read_kinds(
    alloc: Global,
    names: &[String],
    words: &[String],
) -> Result<Placement, Fault>
    requires { length names.now ≤ most_sites }
    ensures ok { IfOk result (λ p. ArePut (map string_bytes names.now) (map string_bytes words.now) (Some p)) }
    ensures bad_fence { IsErrOf result BadFence
        → AreBadWords (map string_bytes names.now) (map string_bytes words.now) }
    ensures err { IfErr result (λ fault. (fault ≡ BadFence) ⊎ (fault ≡ Memory)) }
{
    let fences = read_words(alloc, names, words)?;
    let kinds = no_fences(alloc, names.len())?;
    match put(kinds, &fences) {
        Some(kinds) => Ok(kinds),
        None => Err(Fault::BadFence),
    }
}
