//! An answer in print: the lines of a placement with its cost, and those of a witness that shows the outcome; and both
//! as JSON.
#![tactic(auto)]

mod cells;
mod fences;
mod nullable;
mod objects;
mod test_words;
mod witness;

pub use cells::padded;
pub use fences::fenced_text;
pub use nullable::{kind_or_null, number_or_null};
pub use objects::{fenced_value, json_line, none_value};
pub use test_words::{name_of, value_text};
pub use witness::{none_text, witness_text, witness_value};
