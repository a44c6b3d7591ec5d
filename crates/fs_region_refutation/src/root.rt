//! The region of all candidates with the outcome that is to be ruled out.

ghost use Rattle.std.specs.Prelude.{◌≡◌, ◌∷◌, [], map, true, IfOk};
ghost use Rattle.fs_model.specs.Condition.{condition_of};
ghost use Rattle.fs_model.specs.Shows.{is_outcome};
ghost use Rattle.fs_region_refutation.specs.Runs.{IsRoot, AreRoots};
ghost use Rattle.fs_region_refutation.specs.Views.{region_of, regions_of, lists_in, all_wanted, IsOf, AreOf};
ghost use Rattle.fs_region_refutation.specs.inner.Asked.{values_in};

use crate::basis::Basis;
use crate::lone::Lone;
use crate::region::{Region, Runs, Wanted};
use crate::splits::add_open;
use fs_kinds::List;
use std::alloc::{AllocError, Global};
use std::sync::Arc;

/// All of the runs.
fn all_of<'a>(alloc: Global, runs: &'a [Lone]) -> Result<Runs<'a>, AllocError>
    ensures { IfOk result (λ all. values_in all ≡ runs.now) }
{
    let all = runs.iter().collect(alloc)?;
    Ok(List::new(all))
}

/// For each hart all of its runs.
fn all_runs<'a>(alloc: Global, listed: &'a [List<Lone>]) -> Result<Vec<Arc<Runs<'a>>>, AllocError>
    ensures { IfOk result (λ runs. map values_in (lists_in runs.items) ≡ listed.now) }
{
    let mut runs = Vec::new(alloc);
    for list in listed {
        runs.push(Arc::new(alloc, all_of(alloc, list.as_slice())?)?)?;
    }
    Ok(runs)
}

/// The condition with the truth value that the outcome has.
fn outcome<'a>(alloc: Global, basis: &'a Basis, truth: bool) -> Result<List<Wanted<'a>>, AllocError>
    ensures { IfOk result (λ wanted. all_wanted wanted ≡ (condition_of basis.now.condition, truth) ∷ []) }
{
    let condition = &basis.test().condition;
    let mut wanted = Vec::new(alloc);
    wanted.push(Wanted { condition, truth })?;
    Ok(List::new(wanted))
}

/// All candidates with the outcome that is to be ruled out: where the condition has this truth value.
fn root<'a>(alloc: Global, basis: &'a Basis, truth: bool) -> Result<Region<'a>, AllocError>
    requires { truth ≡ is_outcome basis.now.quantifier true }
    ensures region { IfOk result (λ region. IsRoot basis.now (region_of region)) }
    ensures of { IfOk result (IsOf basis.now) }
{
    let runs = all_runs(alloc, basis.runs())?;
    let wanted = outcome(alloc, basis, truth)?;
    let sources = Arc::new(alloc, List::new(Vec::new(alloc)))?;
    let orders = Arc::new(alloc, List::new(Vec::new(alloc)))?;
    let wanted = Arc::new(alloc, wanted)?;
    Ok(Region {
        runs,
        sources,
        orders,
        wanted,
    })
}

/// All candidates with the outcome that is to be ruled out, if there can be one: where the condition has this truth
/// value. In time of the runs.
pub fn roots<'a>(
    alloc: Global,
    basis: &'a Basis,
    truth: bool,
) -> Result<Vec<Region<'a>>, AllocError>
    requires { truth ≡ is_outcome basis.now.quantifier true }
    ensures regions { IfOk result (λ left. AreRoots basis.now (regions_of left.items)) }
    ensures of { IfOk result (λ left. AreOf basis.now left.items) }
{
    let all = root(alloc, basis, truth)?;
    let mut left = Vec::new(alloc);
    add_open(basis, &mut left, all)?;
    Ok(left)
}
