//! Where in a file a fault is, and what is said of it beside its line: the place, the line of the file, and what to
//! write; and of all faults of a test file that can be told apart.
#![tactic(auto)]

mod all_messages;
mod apart;
mod atoms;
mod bindings;
mod blanks;
mod condition;
mod fences;
mod file;
mod first;
mod hints;
mod json;
mod located;
mod message;
mod part;
mod places;
mod point;
mod slices;
mod spans;
mod title;
mod walk;
mod words;

pub use all_messages::{explain_all, explain_all_of_test};
pub use fences::{explain_fences, explain_unread, locate_fences};
pub use file::{explain, explain_test};
pub use json::explain_json;
pub use located::{Located, locate, locate_json, locate_test};
pub use message::shown_name;
pub use places::Place;
pub use point::{Point, point_of};
pub use title::body_start;
