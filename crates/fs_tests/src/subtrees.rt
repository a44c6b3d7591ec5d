//! Refutations of hunts, looked at by their subtrees.

use crate::hunts::{LOCK3_FENCES, prepare};
use crate::texts::LOCK3;
use fs_judge_hunt::{Found, Kept, Refutation};
use fs_kinds::{Fault, Placement};
use fs_region_refutation::{Basis, small_subtrees};
use fs_tests_shared::placement_of;
use std::alloc::{AllocError, Global};

/// How many inferences a hunt may make.
const MOST: usize = 1_000_000;

/// Whether there are subtrees, and whether each of two workers finds right those whose turn it is; `none` where the
/// inferences above aren't right.
fn looked(
    alloc: Global,
    basis: &Basis,
    placement: &Placement,
    tree: &Refutation,
    sizes: &[u32],
) -> Result<String, Fault> {
    let mut text = String::new(alloc);
    match small_subtrees(alloc, basis, placement, &tree.inferences, sizes)? {
        Some(left) => {
            let are_some = left.count() > 1;
            let first = left.are_refuted_in_turn(alloc, 0, 2)?;
            let second = left.are_refuted_in_turn(alloc, 1, 2)?;
            write!(text, "{are_some} {first} {second}\n")?;
        }
        None => text.push_str("none\n")?,
    }
    Ok(text)
}

/// A one for each of so many inferences.
fn ones(alloc: Global, count: usize) -> Result<Vec<u32>, AllocError> {
    let mut ones = Vec::new(alloc);
    for _ in 0..count {
        ones.push(1)?;
    }
    Ok(ones)
}

/// The same with its sizes; where no size is known; and where each inference is said to be a whole subtree.
fn looked_by_sizes(
    alloc: Global,
    basis: &Basis,
    placement: &Placement,
    tree: &Refutation,
) -> Result<String, Fault> {
    let ones = ones(alloc, tree.sizes.len())?;
    let mut lines = String::new(alloc);
    for sizes in [tree.sizes.as_slice(), &[], ones.as_slice()] {
        let line = looked(alloc, basis, placement, tree, sizes)?;
        lines.push_str(line.as_str())?;
    }
    Ok(lines)
}

/// The same of what a hunt finds on this lock of three harts.
pub(crate) fn all_looked(alloc: Global, text: &str) -> Result<String, Fault> {
    let ready = prepare(alloc, text)?;
    let placement = placement_of(alloc, &ready.test, LOCK3_FENCES)?;
    match ready
        .hunter
        .hunt(alloc, &mut Kept::new(), &placement, MOST)?
    {
        Found::Refuted(tree) => looked_by_sizes(alloc, &ready.basis, &placement, &tree),
        _ => Ok(String::new(alloc)),
    }
}

/// What is said of the subtrees.
pub(crate) const LOOKED: &str = "true true true
false true true
none
";
