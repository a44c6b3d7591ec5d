//! The choices of a run, from a text.

use fs_hart::Choice;
use fs_litmus_tokens::number_of;
use std::alloc::{AllocError, Global};

/// The choice that the word names: a loaded word, or whether an sc.w stores.
fn choice_of(word: &str) -> Choice {
    match number_of(word) {
        Some(number) => Choice::Word(number),
        None => {
            if word == "success" {
                Choice::Success
            } else {
                Choice::Failure
            }
        }
    }
}

/// The choices that the words name, which spaces part.
pub(crate) fn choices_of(alloc: Global, words: &str) -> Result<Vec<Choice>, AllocError> {
    let mut choices = Vec::new(alloc);
    for word in words.split_whitespace() {
        choices.push(choice_of(word))?;
    }
    Ok(choices)
}
