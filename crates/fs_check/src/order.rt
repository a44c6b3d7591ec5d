//! Is a witness an execution that the memory model allows?

ghost use Rattle.std.specs.Prelude.{◌≡◌, ◌<◌, ◌≤◌, [], All, IfOk, IfErr, IsErrOf, IfSome, IfNone, IsOkUnless, Some};
ghost use Rattle.std.specs.Prelude.{length, map, option_map};
ghost use Rattle.fs_kinds.specs.Limits.{most_harts, most_numbered};
ghost use Rattle.fs_kinds.specs.declared.fault.Fault.TheVariants.{Memory};
ghost use Rattle.fs_model.specs.Test.{IsBounded, IsStart};
ghost use Rattle.fs_model.specs.Numbers.{numbers_below};
ghost use Rattle.fs_model.specs.Operations.{PreExecution, accesses, operations as operations_of};
ghost use Rattle.fs_model.specs.Source.{source_in};
ghost use Rattle.fs_model.specs.Execution.{initial_words};
ghost use Rattle.fs_model.specs.Reasons.{LoadsRightly, KeepsRules};
ghost use Rattle.fs_model.specs.Witness.{Witness, name_of};
ghost use Rattle.fs_cand.specs.Candidates.{IsMade, AreShort};
ghost use Rattle.fs_model_axioms.specs.Final.{AreFinal};
ghost use Rattle.fs_check.specs.Ordered.{IsOrdered, execution_in, runs_in};
ghost use Rattle.fs_check.specs.Verdicts.{IsVerdict, IsWholeFile, IsFoundBy, HasNoOrder, IsFoundOrder, IsArranged};
ghost use Rattle.fs_check.specs.Verdicts.{IsJudgement, IsLoadReason, IsRuleReason, IsAtomicReason, KeepsAtomicity};
ghost use Rattle.fs_cert_evidence.specs.Shown.{ShowsAs, IsShownBy};
ghost use Rattle.fs_cert_evidence.specs.WitnessFile.{IsWitnessFile, IsWitnessFault, KeepsWitness};

use crate::names::{name, names, numbers};
use crate::ordered::OrderedCandidate;
use crate::runs::{Runs, make_runs};
use fs_cand::{Candidate, Sources, StoreOrder, Traces};
use fs_cert_evidence::{WitnessFile, read_witness};
use fs_hart::Operations;
use fs_kinds::{Fault, OperationName, Placement, Reason};
use fs_model::Test;
use fs_model_axioms::{Ordered, count_accesses, has_outcome, lists_each_once};
use std::alloc::{AllocError, Global};

/// What is said of a witness.
#[derive(Clone, Copy, PartialEq, Eq)]
pub enum OrderVerdict {
    /// It gives an execution of the fenced test that shows the outcome.
    Yes,
    /// It gives none, for this reason: the first in the order of the reasons.
    No(Reason),
}

/// Whether a witness gives an execution, under the memory model RVWMO, of the test with the placement's fences, and one
/// that shows the outcome of its condition; or the first reason why not. By the law `one_verdict` no other verdict
/// holds of it. The witness is a file's bytes, as `read_witness` reads them. The cost: linear in the bytes and the
/// steps; for each name of the witness and each atom of the condition linear in the operations; for each two operations
/// linear in the operations and in the steps of a hart, the latter times the slots for placed fences. F17 where the
/// bytes are no witness for so many harts, F19.
pub fn check_order(
    alloc: Global,
    test: &Test,
    placement: &Placement,
    witness: &[u8],
) -> Result<OrderVerdict, Fault>
    requires test { IsBounded test.now }
    requires starts { All IsStart test.now.starts }
    ensures ok { IfOk result (λ verdict.
        (w : Witness) × IsWitnessFile (length test.now.codes) witness.now w × IsVerdict test.now placement.now w verdict) }
    ensures bad { IsErrOf result Fault.BadWitness → (w : Witness)
        → ¬ IsWitnessFile (length test.now.codes) witness.now w }
    ensures err { IfErr result IsWitnessFault }
{
    let file = read_witness(alloc, test.codes.as_slice().len(), witness)?;
    match make_runs(alloc, test, file.choices.as_slice())? {
        Runs::Whole(traces) => Ok(judge_runs(alloc, test, placement, &file, traces)?),
        Runs::Stopped(reason) => Ok(OrderVerdict::No(reason)),
    }
}

/// The execution that a witness gives, as its runs, with their final registers, and their order, where it is one of the
/// test with the placement's fences that shows the outcome of its condition; nothing where the witness gives no such
/// execution. A witness with another number of lists of choices than the test has harts gives none. The cost is that of
/// `check_order` after reading. The error is F19.
pub fn shown_by(
    alloc: Global,
    test: &Test,
    placement: &Placement,
    file: &WitnessFile,
) -> Result<Option<OrderedCandidate>, Fault>
    requires test { IsBounded test.now }
    requires starts { All IsStart test.now.starts }
    ensures ordered { IfOk result (λ found. IfSome found (IsOrdered test.now)) }
    ensures last { IfOk result (λ found. IfSome found (λ o. AreFinal test.now o.candidate.traces)) }
    ensures some { (w : Witness) → KeepsWitness file.now w → IfOk result (λ found.
        IfSome found (λ o. ShowsAs test.now placement.now w (execution_in o))) }
    ensures none { (w : Witness) → KeepsWitness file.now w → IfOk result (λ found.
        IfNone found (IsShownBy test.now placement.now w → ⊥)) }
    ensures err { IsOkUnless result Memory }
{
    if file.choices.as_slice().len() != test.codes.as_slice().len() {
        return Ok(None);
    }
    match make_runs(alloc, test, file.choices.as_slice())? {
        Runs::Whole(traces) => shown_in(alloc, test, placement, file, traces),
        Runs::Stopped(_) => Ok(None),
    }
}

/// The same of a witness whose choices make these runs.
fn shown_in(
    alloc: Global,
    test: &Test,
    placement: &Placement,
    file: &WitnessFile,
    traces: Traces,
) -> Result<Option<OrderedCandidate>, Fault>
    requires test { IsBounded test.now }
    requires whole { IsWholeFile test.now file.now traces }
    ensures ordered { IfOk result (λ found. IfSome found (IsOrdered test.now)) }
    ensures last { IfOk result (λ found. IfSome found (λ o. AreFinal test.now o.candidate.traces)) }
    ensures some { (w : Witness) → KeepsWitness file.now w → IfOk result (λ found.
        IfSome found (λ o. ShowsAs test.now placement.now w (execution_in o))) }
    ensures none { (w : Witness) → KeepsWitness file.now w → IfOk result (λ found.
        IfNone found (IsShownBy test.now placement.now w → ⊥)) }
    ensures err { IsOkUnless result Memory }
{
    let Some(ordered) = ordered_by(alloc, test, file, traces)? else {
        return Ok(None);
    };
    match judge(test, placement, &ordered) {
        OrderVerdict::Yes => Ok(Some(ordered)),
        OrderVerdict::No(_) => Ok(None),
    }
}

/// What is said of a witness whose choices make these runs.
fn judge_runs(
    alloc: Global,
    test: &Test,
    placement: &Placement,
    file: &WitnessFile,
    traces: Traces,
) -> Result<OrderVerdict, Fault>
    requires test { IsBounded test.now }
    requires whole { IsWholeFile test.now file.now traces }
    ensures ok { (w : Witness) → KeepsWitness file.now w → IfOk result (IsVerdict test.now placement.now w) }
    ensures err { IsOkUnless result Memory }
{
    match ordered_by(alloc, test, file, traces)? {
        Some(ordered) => Ok(judge(test, placement, &ordered)),
        None => Ok(OrderVerdict::No(Reason::Order)),
    }
}

/// The runs with the order that the file names, where it has each operation of the harts once.
fn ordered_by(
    alloc: Global,
    test: &Test,
    file: &WitnessFile,
    traces: Traces,
) -> Result<Option<OrderedCandidate>, Fault>
    requires test { IsBounded test.now }
    requires whole { IsWholeFile test.now file.now traces }
    ensures ordered { IfOk result (λ found. IfSome found (IsOrdered test.now)) }
    ensures last { IfOk result (λ found. IfSome found (λ o. AreFinal test.now o.candidate.traces)) }
    ensures some { (w : Witness) → KeepsWitness file.now w
        → IfOk result (λ found. IfSome found (IsFoundBy test.now file.now w)) }
    ensures none { (w : Witness) → KeepsWitness file.now w
        → IfOk result (λ found. IfNone found (HasNoOrder test.now w)) }
    ensures err { IsOkUnless result Memory }
{
    let candidate = candidate(alloc, test, traces)?;
    let Some(listed) = listed(alloc, test, file, &candidate)? else {
        return Ok(None);
    };
    Ok(Some(arrange(alloc, test, candidate, listed)?))
}

/// The candidate of these runs, before any order.
fn candidate(alloc: Global, test: &Test, traces: Traces) -> Result<Candidate, Fault>
    requires test { IsBounded test.now }
    requires harts { length traces ≤ most_harts }
    requires steps { AreShort traces }
    ensures made { IfOk result (λ candidate. IsMade (initial_words test.now) candidate) }
    ensures traces { IfOk result (λ candidate. candidate.traces ≡ traces) }
    ensures err { IsOkUnless result Memory }
{
    let source = Sources::new(Vec::new(alloc));
    let store_order = StoreOrder::new(Vec::new(alloc));
    Candidate::new(alloc, test, traces, source, store_order)
}

/// The numbers of the operations that the file names, where they are each operation of the harts once.
fn listed(
    alloc: Global,
    test: &Test,
    file: &WitnessFile,
    candidate: &Candidate,
) -> Result<Option<Vec<u8>>, Fault>
    requires test { IsBounded test.now }
    requires made { IsMade (initial_words test.now) candidate.now }
    requires whole { IsWholeFile test.now file.now candidate.now.traces }
    ensures ok { (w : Witness) → KeepsWitness file.now w → IfOk result (λ found.
        IsFoundOrder test.now candidate.now w (option_map (λ listed. listed.items) found)) }
    ensures err { IsOkUnless result Memory }
{
    let operations = candidate.operations.as_slice();
    let names = names(alloc, candidate.traces.as_slice(), operations)?;
    let Some(listed) = numbers(alloc, &names, file.order.as_slice())? else {
        return Ok(None);
    };
    if lists_each_once(count_accesses(operations), &listed) {
        Ok(Some(listed))
    } else {
        Ok(None)
    }
}

/// The order of the candidate's operations.
fn order_of(alloc: Global, candidate: &Candidate, listed: &[u8]) -> Result<Ordered, Fault>
    requires { length candidate.now.operations ≤ most_numbered }
    ensures ok { IfOk result (λ order. order ≡ record { operations = candidate.now.operations; listed = listed.now }) }
    ensures err { IsOkUnless result Memory }
{
    let operations = Operations::new(Vec::from_slice(alloc, candidate.operations.as_slice())?);
    Ordered::new(alloc, operations, listed)
}

/// The sources of the operations in this order.
fn sources_of(alloc: Global, order: &Ordered) -> Result<Sources, AllocError>
    ensures { IfOk result (λ sources. (x : PreExecution) → order.now.operations ≡ operations_of x
        → sources ≡ map (source_in x order.now.listed) (numbers_below (length order.now.operations))) }
{
    Ok(Sources::new(Vec::from_slice(alloc, order.sources())?))
}

/// The runs with this order of their operations.
fn arrange(
    alloc: Global,
    test: &Test,
    candidate: Candidate,
    listed: Vec<u8>,
) -> Result<OrderedCandidate, Fault>
    requires made { IsMade (initial_words test.now) candidate }
    requires few { length candidate.operations ≤ most_numbered }
    ensures ordered { IfOk result (IsOrdered test.now) }
    ensures same { IfOk result (IsArranged candidate listed.items) }
    ensures err { IsOkUnless result Memory }
{
    let order = order_of(alloc, &candidate, &listed)?;
    let source = sources_of(alloc, &order)?;
    let mut candidate = candidate;
    candidate.source = source;
    Ok(OrderedCandidate { candidate, order })
}

/// What is said of runs with an order that has each operation once.
fn judge(test: &Test, placement: &Placement, ordered: &OrderedCandidate) -> OrderVerdict
    requires ordered { IsOrdered test.now ordered.now }
    requires last { AreFinal test.now ordered.now.candidate.traces }
    ensures { IsJudgement test.now placement.now ordered.now result }
{
    if let Some(reason) = load_reason(test, ordered) {
        return OrderVerdict::No(reason);
    }
    if let Some(reason) = rule_reason(test, placement, ordered) {
        return OrderVerdict::No(reason);
    }
    if let Some(reason) = atomic_reason(test, ordered) {
        return OrderVerdict::No(reason);
    }
    let candidate = &ordered.candidate;
    let traces = candidate.traces.as_slice();
    let operations = candidate.operations.as_slice();
    if has_outcome(test, traces, operations, ordered.order.order()) {
        OrderVerdict::Yes
    } else {
        OrderVerdict::No(Reason::Outcome)
    }
}

/// The name of an operation of the harts.
fn operation_name(test: &Test, ordered: &OrderedCandidate, a: usize) -> OperationName
    requires ordered { IsOrdered test.now ordered.now }
    requires there { a < length (accesses (runs_in test.now ordered.now)) }
    ensures { name_of (runs_in test.now ordered.now) a ≡ Some result }
{
    let candidate = &ordered.candidate;
    let operation = &candidate.operations.as_slice()[a];
    name(candidate.traces.as_slice(), operation).unwrap()
}

/// The reason that a load is wrong, where one is.
fn load_reason(test: &Test, ordered: &OrderedCandidate) -> Option<Reason>
    requires { IsOrdered test.now ordered.now }
    ensures some { IfSome result (IsLoadReason (runs_in test.now ordered.now) ordered.now.order.listed) }
    ensures none { IfNone result (LoadsRightly (runs_in test.now ordered.now) ordered.now.order.listed) }
{
    let load = ordered.wrong_load(test)?;
    Some(Reason::Load {
        load: operation_name(test, ordered, load),
    })
}

/// The reason that a rule is broken, where one is.
fn rule_reason(test: &Test, placement: &Placement, ordered: &OrderedCandidate) -> Option<Reason>
    requires { IsOrdered test.now ordered.now }
    ensures some { IfSome result (IsRuleReason (runs_in test.now ordered.now) placement.now ordered.now.order.listed) }
    ensures none { IfNone result (KeepsRules (runs_in test.now ordered.now) placement.now ordered.now.order.listed) }
{
    let rule = ordered.broken_rule(test, placement)?;
    let first = ordered.rule_broken_after(test, placement, rule)?;
    let second = ordered.rule_broken_by(test, placement, rule, first)?;
    Some(Reason::Rule {
        rule,
        first: operation_name(test, ordered, first),
        second: operation_name(test, ordered, second),
    })
}

/// The reason that atomicity is broken, where it is.
fn atomic_reason(test: &Test, ordered: &OrderedCandidate) -> Option<Reason>
    requires { IsOrdered test.now ordered.now }
    ensures some { IfSome result (IsAtomicReason (runs_in test.now ordered.now) ordered.now.order.listed) }
    ensures none { IfNone result (KeepsAtomicity (runs_in test.now ordered.now) ordered.now.order.listed) }
{
    let load = ordered.broken_pair(test)?;
    let store = ordered.atomicity_broken_by(test, load)?;
    Some(Reason::Atomic {
        load: operation_name(test, ordered, load),
        store: operation_name(test, ordered, store),
    })
}
