//! The laws on which verdicts stand. Of candidates: a placement allows the outcome exactly where a showing candidate has
//! an order that respects its judged relation. Of regions, and refutations by them: a region is a set of candidates; an
//! inference shows that its showing candidates have a cycle in common, or that it has none, or splits it. And locality:
//! what a rule of preserved program order asks of two operations of one hart can be asked of that hart's run alone, by
//! places or by names. The functions do nothing: each stands for the laws that it promises.
#![tactic(auto)]

mod decide;
mod laws;
mod local;

pub use decide::{
    candidates_decide, causes_make_edges, cycles_decide, cycles_forbid, edges_enter_harts,
    fences_add_edges,
};
pub use laws::{covers_forbid, musts_hold, stronger_fences_refute_more};
pub use local::{
    links_make_cycles, names_decide, rules_are_local, rules_keep_to_harts, runs_and_sources_serve,
    runs_serve,
};
