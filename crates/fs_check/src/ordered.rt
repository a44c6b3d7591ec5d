//! Runs with an order of their operations, and where they break an axiom of the memory model first.

ghost use Rattle.std.specs.Prelude.{◌≡◌, [], is_some, length};
ghost use Rattle.std.specs.List.{find, range_with_len};
ghost use Rattle.fs_model.specs.Numbers.{numbers_below};
ghost use Rattle.fs_model.specs.Operations.{accesses};
ghost use Rattle.fs_cand.specs.Candidates.{rf};
ghost use Rattle.fs_model.specs.Reasons.{is_wrong_load, is_against_rule, is_against_atomicity};
ghost use Rattle.fs_check.specs.inner.Breaking.{is_before, rule_broken_by, rule_broken_after, atomicity_broken_by};
ghost use Rattle.fs_check.specs.Ordered.{IsOrdered, runs_in};

use fs_cand::Candidate;
use fs_kinds::Placement;
use fs_model::Test;
use fs_model_axioms::Ordered;
use fs_ppo::{fence_rule, rule};

/// A candidate with an order of its operations, which gives it its sources.
#[derive(Drop)]
pub struct OrderedCandidate {
    /// The runs, and their operations, dependencies and sources.
    pub candidate: Candidate,
    /// The order of the operations.
    pub order: Ordered,
}

impl OrderedCandidate {
    /// How many operations the harts have.
    fn count(&self, test: &Test) -> usize
        requires { IsOrdered test.now self.now }
        ensures { result ≡ length (accesses (runs_in test.now self.now)) }
    {
        self.order.count()
    }

    /// Is a a load that doesn't return the word of its source?
    fn is_wrong_load(&self, test: &Test, a: usize) -> bool
        requires { IsOrdered test.now self.now }
        ensures { result ≡ is_wrong_load (runs_in test.now self.now) self.now.order.listed a }
    {
        !self.order.returns_source(a)
    }

    /// Does a come before b by rule n?
    fn is_before(&self, test: &Test, placement: &Placement, n: u8, a: usize, b: usize) -> bool
        requires { IsOrdered test.now self.now }
        ensures { result ≡ is_before (runs_in test.now self.now) placement.now (rf self.now.candidate) n a b }
    {
        if n == 4 {
            fence_rule(&self.candidate, placement, a, b)
        } else {
            rule(n, &self.candidate, a, b)
        }
    }

    /// Does a come before b by rule n, but not in the order?
    fn is_against_rule(&self, test: &Test, placement: &Placement, n: u8, a: usize, b: usize) -> bool
        requires { IsOrdered test.now self.now }
        ensures { result ≡ is_against_rule (runs_in test.now self.now) placement.now self.now.order.listed n a b }
    {
        self.is_before(test, placement, n, a, b) && !self.order.stands_before(a, b)
    }

    /// Are r and w paired operations that break atomicity?
    fn is_against_atomicity(&self, test: &Test, r: usize, w: usize) -> bool
        requires { IsOrdered test.now self.now }
        ensures { result ≡ is_against_atomicity (runs_in test.now self.now) self.now.order.listed r w }
    {
        !self
            .order
            .keeps_atomicity(self.candidate.traces.as_slice(), r, w)
    }

    /// The least load that doesn't return the word of its source.
    pub(crate) fn wrong_load(&self, test: &Test) -> Option<usize>
        requires { IsOrdered test.now self.now }
        ensures { result ≡ find (is_wrong_load (runs_in test.now self.now) self.now.order.listed)
            (numbers_below (length (accesses (runs_in test.now self.now)))) }
    {
        (0..self.count(test)).find(|a| self.is_wrong_load(test, *a))
    }

    /// The least operation that rule n puts after a, and the order doesn't.
    pub(crate) fn rule_broken_by(
        &self,
        test: &Test,
        placement: &Placement,
        n: u8,
        a: usize,
    ) -> Option<usize>
        requires { IsOrdered test.now self.now }
        ensures { result ≡ rule_broken_by (runs_in test.now self.now) placement.now self.now.order.listed n a }
    {
        (0..self.count(test)).find(|b| self.is_against_rule(test, placement, n, a, *b))
    }

    /// The least operation that rule n puts before another, and the order doesn't.
    pub(crate) fn rule_broken_after(
        &self,
        test: &Test,
        placement: &Placement,
        n: u8,
    ) -> Option<usize>
        requires { IsOrdered test.now self.now }
        ensures { result ≡ rule_broken_after (runs_in test.now self.now) placement.now self.now.order.listed n }
    {
        (0..self.count(test)).find(|a| self.rule_broken_by(test, placement, n, *a).is_some())
    }

    /// The least rule that the order breaks.
    pub(crate) fn broken_rule(&self, test: &Test, placement: &Placement) -> Option<u8>
        requires { IsOrdered test.now self.now }
        ensures { result
            ≡ find (λ n. is_some
            (rule_broken_after (runs_in test.now self.now) placement.now self.now.order.listed
            n)) (range_with_len 1 13) }
    {
        (1..14).find(|n| self.rule_broken_after(test, placement, *n).is_some())
    }

    /// The least operation that r is paired with against atomicity.
    pub(crate) fn atomicity_broken_by(&self, test: &Test, r: usize) -> Option<usize>
        requires { IsOrdered test.now self.now }
        ensures { result ≡ atomicity_broken_by (runs_in test.now self.now) self.now.order.listed r }
    {
        (0..self.count(test)).find(|w| self.is_against_atomicity(test, r, *w))
    }

    /// The least operation that is paired with another against atomicity.
    pub(crate) fn broken_pair(&self, test: &Test) -> Option<usize>
        requires { IsOrdered test.now self.now }
        ensures { result ≡ find (λ r. is_some (atomicity_broken_by (runs_in test.now self.now) self.now.order.listed r))
            (numbers_below (length (accesses (runs_in test.now self.now)))) }
    {
        (0..self.count(test)).find(|r| self.atomicity_broken_by(test, *r).is_some())
    }
}
