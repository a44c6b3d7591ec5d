//! From the bytes of a test file to its tokens, each with its line; and what a reader of tokens promises.
#![tactic(auto)]

mod few;
mod number;
mod token;
mod values;
mod word;

pub use few::{Few, first_tokens};
pub use number::number_of;
pub use token::{Kind, Mark, Token, tokens};
pub use values::{Stop, Target, Value};
pub use word::Class;
