//! What must come before what in all candidates of a region, by its cause.

ghost use Rattle.std.specs.Prelude.{◌≡◌};
ghost use Rattle.fs_model.specs.declared.test.Test.{Test};
ghost use Rattle.fs_model.specs.Preserved.{Rule};
ghost use Rattle.fs_ppo.specs.Rules.{number_of as number_of_rule};
ghost use Rattle.fs_cert_evidence.specs.Judged.{Preserved};
ghost use Rattle.fs_cert_evidence.specs.Evidence.{cause_of};
ghost use Rattle.fs_cert_evidence.specs.Regions.{Region as SpecRegion, From};
ghost use Rattle.fs_cert_evidence.specs.Musts.{knows_enough, has_source, must};
ghost use Rattle.fs_region_refutation.specs.Alone.{Knows};
ghost use Rattle.fs_region_refutation.specs.Views.{region_of, known_source, IsOf};

use crate::source::{Source, Sourced};
use crate::{Basis, Region, all_order, is_same_name, overwrites};
use fs_cert_evidence::Cause;
use fs_kinds::{OperationName, Placement};

/// What is known of the source of the operation.
fn sourced(region: &Region<'_>, name: OperationName) -> Sourced
    ensures name { result.name ≡ name }
    ensures knows { Knows (region_of region.now) result }
{
    Sourced {
        name,
        source: region.source(name),
    }
}

/// Does the rule of this number need sources that are known?
fn knows_enough(rule: u8, first: Sourced, second: Sourced) -> bool
    ensures { (t : Test) (region : SpecRegion) (r : Rule) → Knows region first → Knows region second
        → number_of_rule r ≡ rule → result ≡ knows_enough t region r first.name second.name }
{
    rule != 2 || (first.source.is_some() && second.source.is_some())
}

/// Must the rule of this number order the first operation before the second?
fn must_by_rule(
    basis: &Basis,
    placement: &Placement,
    region: &Region<'_>,
    rule: u8,
    a: OperationName,
    b: OperationName,
) -> bool
    requires { IsOf basis.now region.now }
    ensures { (r : Rule) → number_of_rule r ≡ rule
        → result ≡ must basis.now (region_of region.now) placement.now (Preserved r) a b }
{
    let first = sourced(region, a);
    let second = sourced(region, b);
    a.hart == b.hart
        && (knows_enough(rule, first, second)
            && (basis.is_hart(a.hart)
                && all_order(placement, rule, first, second, region.runs(a.hart))))
}

fn has_source(source: Option<Source>, store: OperationName) -> bool
    ensures { result ≡ has_source (known_source source) (From store) }
{
    match source {
        Some(Source::From(other)) => is_same_name(other, store),
        _ => false,
    }
}

/// Must the first operation come before the second for this cause? At most linear in the runs of a hart.
pub(crate) fn must(
    basis: &Basis,
    placement: &Placement,
    region: &Region<'_>,
    cause: Cause,
    a: OperationName,
    b: OperationName,
) -> bool
    requires { IsOf basis.now region.now }
    ensures { result ≡ must basis.now (region_of region.now) placement.now (cause_of cause) a b }
{
    match cause {
        Cause::Rule1 => must_by_rule(basis, placement, region, 1, a, b),
        Cause::Rule2 => must_by_rule(basis, placement, region, 2, a, b),
        Cause::Rule3 => must_by_rule(basis, placement, region, 3, a, b),
        Cause::Rule4 => must_by_rule(basis, placement, region, 4, a, b),
        Cause::Rule5 => must_by_rule(basis, placement, region, 5, a, b),
        Cause::Rule6 => must_by_rule(basis, placement, region, 6, a, b),
        Cause::Rule7 => must_by_rule(basis, placement, region, 7, a, b),
        Cause::Rule8 => must_by_rule(basis, placement, region, 8, a, b),
        Cause::Rule9 => must_by_rule(basis, placement, region, 9, a, b),
        Cause::Rule10 => must_by_rule(basis, placement, region, 10, a, b),
        Cause::Rule11 => must_by_rule(basis, placement, region, 11, a, b),
        Cause::Rule12 => must_by_rule(basis, placement, region, 12, a, b),
        Cause::Rule13 => must_by_rule(basis, placement, region, 13, a, b),
        Cause::ReadsFrom => a.hart != b.hart && has_source(region.source(b), a),
        Cause::Coherence => region.is_before(a, b),
        Cause::FromReads => !is_same_name(a, b) && overwrites(basis, region, b, a),
    }
}
