//! The rules of preserved program order (RISC-V Unprivileged ISA 20191213, section "Preserved Program Order").

ghost use Rattle.std.specs.Prelude.{◌≡◌, ◌<◌, ◌≤◌};
ghost use Rattle.fs_kinds.specs.Limits.{most_numbered};
ghost use Rattle.fs_model.specs.Operations.{PreExecution, operations as operations_of, precedes};
ghost use Rattle.fs_model.specs.Preserved.{ppo};
ghost use Rattle.fs_hart.specs.Steps.{steps_in};
ghost use Rattle.fs_model_axioms.specs.Among.{at};
ghost use Rattle.fs_model_axioms.specs.Ordered.{source_at};
ghost use Rattle.fs_model_brute_force.specs.Among.{is_case, rule_among, any_rule, is_rule};
ghost use Rattle.fs_model_brute_force.specs.Among.{overlaps, is_store_between, any_store_between, reads_differ};
ghost use Rattle.fs_model_brute_force.specs.Among.{returns_amo_or_sc, is_rcsc};
ghost use Rattle.fs_model_brute_force.specs.Among.{passes_on, any_passes_on, any_address_between};

use crate::dependencies::{address_depends, control_depends, data_depends};
use crate::fences::is_fenced;
use crate::numbered::{is_amo_or_sc, is_from, is_same_number};
use fs_hart::{Trace, steps_of};
use fs_kinds::Placement;
use fs_model::{Operation, Step, are_paired};
use fs_model_axioms::{count_accesses, source_at};

fn overlaps(first: &Operation, second: &Operation) -> bool
    ensures { result ≡ overlaps first.now second.now }
{
    second.is_store() && first.is_same_word(second)
}

/// Is m a store to the word of a, between a and b in program order?
fn is_store_between(operations: &[Operation], a: usize, b: usize, m: usize) -> bool
    ensures { result ≡ is_store_between operations.now a b m }
{
    let first = Operation::numbered(operations, a);
    let second = Operation::numbered(operations, b);
    let between = Operation::numbered(operations, m);
    first.precedes(&between)
        && between.precedes(&second)
        && between.is_store()
        && between.is_same_word(&first)
}

fn any_store_between(operations: &[Operation], a: usize, b: usize) -> bool
    ensures { result ≡ any_store_between operations.now a b }
{
    (0..count_accesses(operations)).any(|m| is_store_between(operations, a, b, m))
}

/// Do a and b load the same word, with no store to it between, and return different stores?
fn reads_differ(operations: &[Operation], sources: &[Option<u8>], a: usize, b: usize) -> bool
    ensures { result ≡ reads_differ operations.now sources.now a b }
{
    let first = Operation::numbered(operations, a);
    let second = Operation::numbered(operations, b);
    first.is_load()
        && second.is_load()
        && first.is_same_word(&second)
        && !any_store_between(operations, a, b)
        && !is_same_number(source_at(sources, a), source_at(sources, b))
}

/// Is the first one, of this number, of an AMO or an sc.w, and the source of the second?
fn returns_amo_or_sc(
    first: &Operation,
    second: &Operation,
    source: Option<u8>,
    number: usize,
) -> bool
    ensures { result ≡ returns_amo_or_sc first.now second.now source number }
{
    is_amo_or_sc(first.instr) && second.is_load() && is_from(source, number)
}

fn is_rcsc(operation: &Operation) -> bool
    ensures { result ≡ is_rcsc operation.now }
{
    operation.annotation().acquire || operation.annotation().release
}

/// Is m a store between a and b that depends on a, and the source?
fn passes_on(
    operations: &[Operation],
    steps: &[Step],
    source: Option<u8>,
    a: usize,
    b: usize,
    m: usize,
) -> bool
    ensures { result ≡ passes_on operations.now steps.now source a b m }
{
    let first = Operation::numbered(operations, a);
    let second = Operation::numbered(operations, b);
    let between = Operation::numbered(operations, m);
    let i = usize::from(first.place);
    let k = usize::from(between.place);
    first.precedes(&between)
        && between.precedes(&second)
        && between.is_store()
        && (address_depends(steps, i, k) || data_depends(steps, i, k))
        && is_from(source, m)
}

fn any_passes_on(
    operations: &[Operation],
    steps: &[Step],
    source: Option<u8>,
    a: usize,
    b: usize,
) -> bool
    ensures { result ≡ any_passes_on operations.now steps.now source a b }
{
    (0..count_accesses(operations)).any(|m| passes_on(operations, steps, source, a, b, m))
}

/// Has an instruction between steps i and j an address dependency on step i?
fn any_address_between(steps: &[Step], i: usize, j: usize) -> bool
    requires first { i < most_numbered }
    requires second { j < most_numbered }
    ensures { result ≡ any_address_between steps.now i j }
{
    (i + 1..j).any(|m| address_depends(steps, i, m))
}

/// Does operation a precede operation b in program order?
fn precedes(operations: &[Operation], a: usize, b: usize) -> bool
    ensures { result ≡ precedes (at operations.now a) (at operations.now b) }
{
    Operation::numbered(operations, a).precedes(&Operation::numbered(operations, b))
}

/// What was executed, of which the rules are asked: the runs with their operations, the placed fences, and for each
/// operation the number of the one that wrote what it loads.
#[derive(Clone, Copy)]
pub struct Executed<'a> {
    pub traces: &'a [Trace],
    pub operations: &'a [Operation],
    pub placement: &'a Placement,
    pub sources: &'a [Option<u8>],
}

impl Executed<'_> {
    /// What the rule of this number asks besides program order.
    fn is_case(&self, n: u8, a: usize, b: usize) -> bool
        requires { 1 ≤ n }
        ensures { result ≡ is_case self.now.operations.now (steps_in self.now.traces.now) self.now.placement.now
            self.now.sources.now a b n }
    {
        let first = Operation::numbered(self.operations, a);
        let second = Operation::numbered(self.operations, b);
        let steps = steps_of(self.traces, first.hart);
        let source = source_at(self.sources, b);
        let i = usize::from(first.place);
        let j = usize::from(second.place);
        match n {
            1 => overlaps(&first, &second),
            2 => reads_differ(self.operations, self.sources, a, b),
            3 => returns_amo_or_sc(&first, &second, source, a),
            4 => is_fenced(self.placement, steps, &first, &second),
            5 => first.annotation().acquire,
            6 => second.annotation().release,
            7 => is_rcsc(&first) && is_rcsc(&second),
            8 => are_paired(steps, i, j),
            9 => address_depends(steps, i, j),
            10 => data_depends(steps, i, j),
            11 => second.is_store() && control_depends(steps, i, j),
            12 => second.is_load() && any_passes_on(self.operations, steps, source, a, b),
            13 => second.is_store() && any_address_between(steps, i, j),
            _ => false,
        }
    }

    /// The rule of this number, with program order.
    fn rule_among(&self, n: u8, a: usize, b: usize) -> bool
        requires { 1 ≤ n }
        ensures { result ≡ rule_among self.now.operations.now (steps_in self.now.traces.now) self.now.placement.now
            self.now.sources.now a b n }
    {
        precedes(self.operations, a, b) && self.is_case(n, a, b)
    }

    /// Is operation a before operation b a case of the manual's rule n, from 1 on? Numbers of rules and of operations
    /// that aren't there give false.
    pub fn rule(&self, n: u8, a: usize, b: usize) -> bool
        requires { 1 ≤ n }
        ensures { (x : PreExecution)
            → self.now.operations.now ≡ operations_of x
            → x.traces ≡ steps_in self.now.traces.now
            → result ≡ is_rule x self.now.placement.now (source_at self.now.sources.now) a b n }
    {
        self.rule_among(n, a, b)
    }

    /// Does some rule put a before b?
    fn any_rule(&self, a: usize, b: usize) -> bool
        ensures { result ≡ any_rule self.now.operations.now (steps_in self.now.traces.now) self.now.placement.now
            self.now.sources.now a b }
    {
        (1..14).any(|n| self.rule_among(n, a, b))
    }

    /// Is operation a before operation b in preserved program order? Numbers of operations that aren't there give
    /// false.
    pub fn ppo(&self, a: usize, b: usize) -> bool
        ensures { (x : PreExecution)
            → self.now.operations.now ≡ operations_of x
            → x.traces ≡ steps_in self.now.traces.now
            → result ≡ ppo x self.now.placement.now (source_at self.now.sources.now) a b }
    {
        self.any_rule(a, b)
    }
}
