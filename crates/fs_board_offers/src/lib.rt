//! What may stand at each slot of a question and what it costs there; partial placements, and when nothing under one is
//! better than the best placement so far; the search board as a machine, with what makes a legal history of it; valid
//! certificates; what the board and the checker of certificates both compute of these; and laws of all that, and of the
//! offers that prices make. The functions of laws do nothing: each stands for what it promises.
#![tactic(auto)]

mod breaks;
mod costs;
mod endings;
mod histories;
mod offers;
mod options;
mod prices;
mod pruning;
mod question;

pub use breaks::{break_at, has_break, is_kept, lesser};
pub use costs::{
    cost, earliest_precedes, floor_cost, is_best, is_better, is_no_better, is_same, precedes,
};
pub use endings::ended_nodes_stay;
pub use histories::{
    children_stand, closed_nodes_hold, finished_board_answers, nodes_fit, one_leaf,
    posted_placements_forbid,
};
pub use offers::{Offer, Offers};
pub use options::OPTIONS;
pub use prices::offers_of_prices;
pub use pruning::{
    better_is_total_order, bounded_part, cost_alone_prunes, floor_is_least, one_witness_prunes,
};
pub use question::Question;
