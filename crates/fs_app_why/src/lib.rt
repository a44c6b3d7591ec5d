//! What `--why` prints, from the bytes of the files to its text: an execution as it comes to memory, with the
//! operations that overtake others of their hart; and why the outcome is ruled out, by the fences of a certificate or
//! in a test as it is written. There contradictions are told, the ends of a refutation as chains of operations: which
//! kinds of them, how many others there are, and in which a fence is needed. Of an execution's own orders those are told
//! that keep more of program order, and which weaker fences can stand in it.
#![tactic(auto)]

mod alike;
mod answered;
mod arrows;
mod chain;
mod contradictions;
mod counted;
mod ended;
mod ends;
mod fences;
mod first;
mod forbidden;
mod instruction_words;
mod kinds;
mod known;
mod likeness;
mod marks;
mod order;
mod possible;
mod relation;
mod rows;
mod ruled_out;
mod shown;
mod signs;
mod table;
mod telling;
mod told_execution;
mod trace;
mod walk;
mod weaker;
mod without;
mod words;

pub use answered::why_certified;
pub use arrows::{arrow_text, counts_before, counts_behind, if_amo};
pub use chain::{Arrow, Chain, ChainLink, Shape};
pub use contradictions::contradictions_text;
pub use counted::{in_text, rest_text};
pub use fences::{Fence, fence_orders};
pub use first::first_without;
pub use forbidden::inferred_kinds;
pub use instruction_words::{and_joined, code_of, instr_named, instr_text, line_of};
pub use kinds::{ChainKind, kinds_of};
pub use known::Known;
pub use likeness::told_links;
pub use order::{lines_of, why_order};
pub use possible::{no_fences, told, why_allowed};
pub use ruled_out::{forbidden_text, lacks_written, unwritten_text, verdict_on, why_forbidden};
pub use shown::{file_of, nearer};
pub use telling::{Telling, fence_key, is_told, told_place};
pub use told_execution::{Told, told_by};
pub use walk::chains;
pub use weaker::{weaker_kinds, without_or_with};
pub use without::asked;
pub use words::place_text;
