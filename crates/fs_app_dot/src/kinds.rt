//! Pictures of contradictions.

ghost use Rattle.std.specs.Prelude.{◌≡◌, ◌<◌, length, option_copied, IfOk, string_bytes};
ghost use Rattle.fs_app_dot.specs.Kinds.{AreOfKinds, IsDrawn, IsOfNumber, chain_name, chain_title};
ghost use Rattle.fs_app_dot.specs.Kinds.{shape_name, shape_text, told_there};
ghost use Rattle.fs_app_dot.specs.Pictures.{IsChainPicture};
ghost use Rattle.fs_app_why.specs.Told.{told_chain};
ghost use Rattle.fs_app_why.specs.Kinds.{told_links};

use crate::picture::{Page, Picture, push_found};
use crate::pictures::chain_picture;
use fs_app_why::{Chain, ChainKind, Shape, Telling, is_told, told_links, told_place};
use std::alloc::{AllocError, Global};

fn shape_text(shape: Shape) -> &'static str
    ensures { result.now ≡ shape_text shape }
{
    match shape {
        Shape::Cycle => "cycle",
        Shape::Stale => "stale",
        Shape::NotAtomic => "not atomic",
    }
}

fn shape_name(shape: Shape) -> &'static str
    ensures { result.now ≡ shape_name shape }
{
    match shape {
        Shape::Cycle => "cycle",
        Shape::Stale => "stale",
        Shape::NotAtomic => "not-atomic",
    }
}

fn chain_name(alloc: Global, number: usize, shape: Shape) -> Result<String, AllocError>
    ensures { IfOk result (λ name. string_bytes name ≡ chain_name number shape) }
{
    format!(in alloc; "{}-{}", shape_name(shape), number)
}

fn chain_title(
    alloc: Global,
    title: &str,
    number: usize,
    shape: Shape,
) -> Result<String, AllocError>
    ensures { IfOk result (λ text. string_bytes text ≡ chain_title title.now number shape) }
{
    format!(in alloc; "{}: {} {}", title, shape_text(shape), number)
}

/// The chain as that of the kind of this number.
fn chain_text(
    alloc: Global,
    page: Page<'_>,
    number: usize,
    chain: &Chain,
) -> Result<String, AllocError>
    ensures { IfOk result (λ text. IsChainPicture page.entry.test.now
        (chain_title page.entry.title.now number chain.now.shape) (told_links chain.now) (string_bytes text)) }
{
    let title = chain_title(alloc, page.title, number, chain.shape)?;
    let links = told_links(alloc, chain)?;
    chain_picture(alloc, title.as_str(), page.test, page.lines, &links)
}

fn drawn(alloc: Global, page: Page<'_>, number: usize, chain: &Chain) -> Result<Picture, AllocError>
    ensures { IfOk result (IsDrawn page.entry.test.now page.entry.title.now number chain.now) }
{
    let name = chain_name(alloc, number, chain.shape)?;
    let text = chain_text(alloc, page, number, chain)?;
    Ok(Picture { name, text })
}

/// The chain of the kind that is told, if it has one.
fn told_chain(telling: Telling, kind: &ChainKind) -> Option<&Chain>
    ensures { option_copied result ≡ told_chain telling kind.now }
{
    kind.instances.get(told_place(telling, kind))
}

/// That of the kind of this number, from 0, if the kind is told.
fn told_there(telling: Telling, kinds: &[ChainKind], number: usize) -> Option<&Chain>
    requires { number < length kinds.now }
    ensures { option_copied result ≡ told_there telling kinds.now number }
{
    if is_told(telling, kinds, number) {
        told_chain(telling, &kinds[number])
    } else {
        None
    }
}

/// The picture of the kind of this number, from 0, if it is told: that of its chain.
fn numbered_picture(
    alloc: Global,
    page: Page<'_>,
    telling: Telling,
    kinds: &[ChainKind],
    number: usize,
) -> Result<Option<Picture>, AllocError>
    requires { number < length kinds.now }
    ensures { IfOk result (IsOfNumber page.entry.test.now page.entry.title.now telling kinds.now number) }
{
    match told_there(telling, kinds, number) {
        Some(chain) => {
            let picture = drawn(alloc, page, number + 1, chain)?;
            Ok(Some(picture))
        }
        None => Ok(None),
    }
}

/// A picture of each of the kinds that is told, by the numbers that `--why` prints. The cost is that of `chain_picture`
/// for each, and that of `is_told`. The error is want of memory.
pub(crate) fn kind_pictures(
    alloc: Global,
    page: Page<'_>,
    telling: Telling,
    kinds: &[ChainKind],
) -> Result<Vec<Picture>, AllocError>
    ensures { IfOk result (λ pictures.
        AreOfKinds page.entry.test.now page.entry.title.now telling kinds.now pictures.items) }
{
    let mut pictures = Vec::new(alloc);
    for number in 0..kinds.len() {
        let found = numbered_picture(alloc, page, telling, kinds, number)?;
        push_found(found, &mut pictures)?;
    }
    Ok(pictures)
}
