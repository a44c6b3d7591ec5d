//! Theorems over the definitions of the memory model, and on the order of placements. The functions do nothing: each
//! stands for the laws that it promises.
#![tactic(auto)]

mod answers;
mod fenced;
mod in_place;
mod joined;
mod order;
mod strength;

pub use answers::{cost_and_order_decide, cycles_are_short, one_witness_refutes_all};
pub use fenced::{
    fenced_test_means_placement, fences_keep_runs, no_entries_no_fences, same_tests_show_alike,
};
pub use in_place::{followed_lines_rule_out, written_means_placement};
pub use joined::{
    model_means_no_placement, rule_4_by_letters, rule_4_with_placements, solve_means,
};
pub use order::better_is_total_order;
pub use strength::{
    full_fences_decide, kept_pairs_decide, weaker_fences_allow_more, widths_are_exact,
};
