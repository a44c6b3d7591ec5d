//! What is asked for beside the states.

/// What is printed beside the places of the condition and of `locations`, and beside the words of a state.
#[derive(Clone, Copy)]
pub struct Shown {
    /// Each register that an instruction of its hart writes, and all locations.
    pub all: bool,
    /// Below each state an execution that ends in it, as the JSON text of a witness.
    pub witnesses: bool,
    /// A JSON object in place of lines.
    pub json: bool,
    /// Of the condition, `(G) /\ (C)` or behind `forall` `(G) => (C)`, the left side says which states count.
    pub guarded: bool,
}
