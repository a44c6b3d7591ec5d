//! The rules of preserved program order (RISC-V Unprivileged ISA 20191213, chapter "RVWMO Memory Consistency Model",
//! section "Preserved Program Order").

ghost use Rattle.std.specs.Prelude.{◌≡◌, true};
ghost use Rattle.fs_model.specs.Operations.{po};
ghost use Rattle.fs_model.specs.Preserved.{Rule4, rule};
ghost use Rattle.fs_cand.specs.Candidates.{rf};
ghost use Rattle.fs_ppo.specs.Rules.{OfRuns, numbered_rule, numbered_case};

use crate::cases::{
    are_both_rcsc, comes_before_release, follows_acquire, loads_forwarded, loads_from_amo_or_sc,
    loads_from_another, stores_after_address, stores_by_control, stores_to_same_word,
};
use crate::dependencies::{address_dependency, data_dependency, is_paired};
use crate::fences::{is_placed_between, is_written_between};
use crate::operations::precedes;
use fs_cand::Candidate;
use fs_kinds::Placement;

// The rules by their numbers, each with what it asks of two operations besides program order. Rule 4 asks for a
// placement of fences too: it is `fence_rule`.
macro_rules! rule_table {
    ($column:ident $($subject:ident)*) => {
        $column! {
            ($($subject)*)
            // Overlapping addresses.
            1 stores_to_same_word;
            2 loads_from_another;
            3 loads_from_amo_or_sc;
            // Explicit synchronization.
            5 follows_acquire;
            6 comes_before_release;
            7 are_both_rcsc;
            8 is_paired;
            // Syntactic dependencies.
            9 address_dependency;
            10 data_dependency;
            11 stores_by_control;
            // Pipeline dependencies.
            12 loads_forwarded;
            13 stores_after_address;
        }
    };
}

macro_rules! asks {
    (($n:ident $candidate:ident $a:ident $b:ident) $($number:literal $case:ident;)*) => {
        match $n {
            $($number => $case($candidate, $a, $b),)*
            _ => false,
        }
    };
}

/// What rule n asks of a before b in program order.
#[tactic(auto, unfolding(crate::specs::Rules::rule_of))]
fn asks(n: u8, candidate: &Candidate, a: usize, b: usize) -> bool
    ensures { OfRuns candidate.now (λ x. po x a b ≡ true → result ≡ numbered_case n x (rf candidate.now) a b) }
{
    rule_table!(asks n candidate a b)
}

/// Is operation a before operation b a case of rule n of preserved program order? Rule 4 and other numbers than 1 to 13
/// have no case here: rule 4 is `fence_rule`. A number that is no operation's, or an initial store's, is in no case.
/// The candidate is made of runs, as `Candidate::new` makes it; of another nothing is promised. Loads without a listed
/// source count as returning different stores. At most linear in the operations and in the steps of a hart.
pub fn rule(n: u8, candidate: &Candidate, a: usize, b: usize) -> bool
    ensures { OfRuns candidate.now (λ x. result ≡ numbered_rule n x (rf candidate.now) a b) }
{
    precedes(candidate, a, b) && asks(n, candidate, a, b)
}

/// Is operation a before operation b a case of rule 4 of preserved program order: does a fence between them, one of the
/// test or one of the placement, order them? A number that is no operation's, or an initial store's, is in no case. The
/// candidate is made of runs, as for `rule`. Linear in the steps of a hart, times the slots of the placement.
pub fn fence_rule(candidate: &Candidate, placement: &Placement, a: usize, b: usize) -> bool
    ensures { OfRuns candidate.now (λ x. result ≡ rule x placement.now (rf candidate.now) a b Rule4) }
{
    precedes(candidate, a, b)
        && (is_written_between(candidate, a, b) || is_placed_between(candidate, placement, a, b))
}
