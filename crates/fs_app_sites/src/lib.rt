//! What `solve --sites` answers, from the bytes of tests whose labels name sites to the text that is printed: one fence
//! for a site in all its copies, so that no test's outcome is left. With `--free` slots are sites of their own.
//! And which test needs which of the fences. And what `place --sites` and `order --sites` answer, of one test, with the
//! fence of a site at all its copies.
#![tactic(auto)]

mod ask;
mod content;
mod fenced;
mod free;
mod laws;
mod names;
mod needs;
mod order;
mod place;
mod prices;
mod question;
mod report;
mod sited;
mod solve;
mod words;

pub use ask::{Asked, read_question};
pub use content::{File, SiteCopy, Tests, check_file, read_all_copies, read_copies};
pub use fs_sites_search::Limits;
pub use laws::slots_stand_as_slots;
pub use names::add_copies;
pub use needs::needs_text;
pub use order::run_order_sites;
pub use place::run_place_sites;
pub use prices::{SitePrices, check_prices, read_site_prices};
pub use question::{MOST_SITES, key, offers_of, places_of};
pub use report::{answer_text, answer_value};
pub use solve::{Solved, first_at_fault, run_sites, solved_of};
