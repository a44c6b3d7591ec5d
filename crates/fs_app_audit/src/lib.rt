//! What the command `audit` answers, from the bytes of its files to the text that is printed: which FENCE instructions
//! of a test are needed to rule its outcome out at the least cost, in their places or anew. In place it tries the test
//! in which they order no memory; anew the test without them, but for those that name devices, and the test in which
//! these order no memory.
#![tactic(auto)]

mod advice;
mod asked;
mod audit;
mod blocks;
mod easing;
mod emptying;
mod findings;
mod in_place;
mod in_place_advice;
mod laws;
mod places;
mod priced;
mod prices;
mod removal;
mod report;
mod report_in_place;
pub mod slices;
mod standing;
mod written;

pub use advice::{Advice, advice_of, advised_kind};
pub use asked::Purpose;
pub use audit::{Audited, run_anew, run_audit, status_of};
pub use blocks::{Block, Found, are_named, audit_file, blocks_of, blocks_output, blocks_status};
pub use easing::eased;
pub use emptying::emptied;
pub use findings::{Findings, Written, find, find_judged, read_shared};
pub use fs_app_file_text::{is_fence, memory_kind, names_devices};
pub use fs_board_search::Limits;
pub use in_place::{InPlace, find_in_place};
pub use in_place_advice::advice_in_place;
pub use laws::{advised_fences_are_needed, lines_can_be_followed};
pub use places::{offers_in_place, written_cost};
pub use priced::Priced;
pub use removal::{position, unfenced};
pub use report::{advice_text, fence_letters, line_of};
pub use report_in_place::in_place_status;
pub use written::run_written;
