//! One fence for a function in all its copies, and several tests in one question: what is asked, what answers it, and
//! what an execution of a test says of the fences of sites. And the cheapest fences that break bars, and of these the
//! first: by branch and bound. A walk decides one site after the other, and goes through all placements in the order of
//! those of equal cost. Nothing that begins with what is decided need be gone through where it costs at least as much as
//! the best placement so far. For what it costs at least each bar in turn takes what its cheapest way costs, and every
//! way to break it becomes so much cheaper.
#![tactic(auto)]

mod answer;
mod bars;
mod bound;
mod breaking;
mod cursor;
mod images;
pub mod laws;
mod plan;
mod question;

pub use answer::Answer;
pub use bars::bar_of;
pub use images::image;
pub use plan::first_breaking;
pub use question::{Part, Place, Question};
