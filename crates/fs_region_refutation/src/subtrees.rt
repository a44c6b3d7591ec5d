//! A refutation that several look at: one walks above its small subtrees, and these can be looked at apart.

ghost use Rattle.std.specs.Prelude.{◌≡◌, ◌+◌, ◌≤◌, ◌<◌, map, true, IfOk, IfSome};
ghost use Rattle.fs_cert_evidence.specs.Inferences.{inference_of};
ghost use Rattle.fs_cert_evidence.specs.Trees.{IsRefuted};
ghost use Rattle.fs_region_refutation.specs.Views.{IsOf};
ghost use Rattle.fs_region_refutation.specs.Subtrees.{IsRefutedBy, AreOfTheTest, AreRefuted, AreRefutedInTurn};

use crate::walk::{first_open, is_drawn, reason_from};
use crate::{Basis, Region};
use fs_cert_evidence::Inference;
use fs_kinds::{List, Placement};
use std::alloc::{AllocError, Global};

/// A subtree is small where it has at most this part of all inferences.
const PARTS: usize = 64;

/// A region, and the inferences that are to refute it: those from this number on, up to that one.
#[derive(Drop)]
pub(crate) struct Subtree<'a> {
    pub(crate) region: Region<'a>,
    pub(crate) from: usize,
    pub(crate) to: usize,
}

/// Subtrees of a tree of inferences, which are still to be looked at.
#[derive(Drop)]
pub struct Subtrees<'a> {
    pub(crate) basis: &'a Basis,
    pub(crate) placement: &'a Placement,
    pub(crate) inferences: &'a List<Inference>,
    pub(crate) all: Vec<Subtree<'a>>,
}

/// How many inferences the subtree has that begins with this one, where it is small; else 0. Nothing that is said of
/// sizes is believed.
fn small_size(sizes: &[u32], index: usize, count: usize) -> usize
    requires { index ≤ count }
    ensures { index + result ≤ count }
{
    let size = match sizes.get(index) {
        Some(size) => *size as usize,
        None => 0,
    };
    if size <= count / PARTS && size <= count - index {
        size
    } else {
        0
    }
}

/// The small subtrees, in their order, that are left where all inferences above them can be drawn and no region is left
/// over; none where one can't be drawn, or one is missing or left over. Where the inferences of each of them refute its
/// region, all of them refute the test. The sizes say of each inference how many the subtree has that begins with it;
/// 0 where that isn't known. The cost is that of `reason_against`, for the inferences above.
pub fn small_subtrees<'a>(
    alloc: Global,
    basis: &'a Basis,
    placement: &'a Placement,
    inferences: &'a List<Inference>,
    sizes: &[u32],
) -> Result<Option<Subtrees<'a>>, AllocError>
    ensures of { IfOk result (λ found. IfSome found AreOfTheTest) }
    ensures refuted { IfOk result (λ found. IfSome found (λ left.
        AreRefuted left → IsRefuted basis.now placement.now (map inference_of inferences.now))) }
{
    let mut stack = first_open(alloc, basis)?;
    let mut all = Vec::new(alloc);
    let count = inferences.len();
    let mut index = 0;
    while index < count {
        let Some(region) = stack.pop() else {
            return Ok(None);
        };
        let size = small_size(sizes, index, count);
        if size > 0 {
            let (from, to) = (index, index + size);
            all.push(Subtree { region, from, to })?;
            index = to;
        } else {
            let inference = &inferences[index];
            let drawn = is_drawn(alloc, basis, placement, &mut stack, &region, inference)?;
            if !drawn {
                return Ok(None);
            }
            index += 1;
        }
    }
    if !stack.is_empty() {
        return Ok(None);
    }
    Ok(Some(Subtrees {
        basis,
        placement,
        inferences,
        all,
    }))
}

impl Subtrees<'_> {
    /// How many there are. In constant time.
    pub fn count(&self) -> usize {
        self.all.len()
    }

    /// Do the inferences of the subtree refute its region?
    fn is_refuted(&self, alloc: Global, subtree: &Subtree<'_>) -> Result<bool, AllocError>
        requires { IsOf self.now.basis.now subtree.now.region }
        ensures { IfOk result (λ yes. yes ≡ true → IsRefutedBy self.now.basis.now self.now.placement.now
            (map inference_of self.now.inferences.now) subtree.now) }
    {
        let Some(inferences) = self.inferences.get(subtree.from..subtree.to) else {
            return Ok(false);
        };
        let mut regions = Vec::new(alloc);
        regions.push(subtree.region.shared(alloc)?)?;
        match reason_from(alloc, self.basis, self.placement, regions, inferences)? {
            None => Ok(true),
            Some(_) => Ok(false),
        }
    }

    /// Of so many workers this one looks at each subtree whose turn it is: do the inferences of each refute its region?
    /// The cost is that of `reason_against`, for these inferences.
    pub fn are_refuted_in_turn(
        &self,
        alloc: Global,
        worker: usize,
        workers: usize,
    ) -> Result<bool, AllocError>
        requires some { 0 < workers }
        requires of { AreOfTheTest self.now }
        ensures { IfOk result (λ yes. yes ≡ true → AreRefutedInTurn workers worker self.now) }
    {
        for (number, subtree) in self.all.iter().enumerate() {
            if number % workers == worker && !self.is_refuted(alloc, subtree)? {
                return Ok(false);
            }
        }
        Ok(true)
    }
}
