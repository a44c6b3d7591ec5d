//! The names of a test's locations, in order of first appearance.

ghost use Rattle.std.specs.Prelude.{◌≡◌, ◌<◌, [], OnOk, IfSome, Some, slice_get, length};
ghost use Rattle.std.specs.Borrow.{Bor};
ghost use Rattle.fs_litmus_tokens.specs.Values.{target_of, value_of};
ghost use Rattle.fs_litmus.specs.Locations.{with_name, with_target, with_value, number_of_location, texts};

use fs_litmus_tokens::{Target, Value};
use indexmap::IndexSet;
use std::alloc::{AllocError, Global};
use std::marker::Model;

/// The names of locations, each once, in the order in which they appeared first.
#[derive(Drop)]
pub struct Names<'a> {
    set: IndexSet<&'a str>,
}

impl<'a> Model for Names<'a> {
    ghost use Rattle.std.specs.Prelude.{ℕ, List};
    ghost use Rattle.fs_litmus.specs.Locations.{texts};

    ghost Value = { List (List ℕ) };

    ghost view = { λ n. texts n.set.keys };
}

impl<'a> Names<'a> {
    /// No names.
    pub fn new(alloc: Global) -> Names<'a>
        ensures { result ≡ [] }
    {
        Names {
            set: IndexSet::new(alloc),
        }
    }

    fn insert(&mut self, name: &'a str) -> Result<(), AllocError>
        ensures { OnOk result (self.new ≡ with_name self.old name.now) }
    {
        self.set.insert(name)?;
        Ok(())
    }

    /// Declares the locations that a binding names, its target's before its value's.
    pub fn declare(&mut self, target: Target<'a>, value: Value<'a>) -> Result<(), AllocError>
        ensures { OnOk result (self.new
            ≡ with_value (with_target self.old (target_of target.entry)) (value_of value.entry)) }
    {
        if let Target::Location(name) = target {
            self.insert(name)?;
        }
        if let Value::Address(name) = value {
            self.insert(name)?;
        }
        Ok(())
    }

    /// The number of a location, counted from 0.
    pub fn number_of(&self, name: &str) -> Option<usize>
        ensures value { result ≡ number_of_location self.now name.now }
        ensures within { IfSome result (λ k. k < length self.now) }
    {
        self.set.get_index_of(name)
    }

    /// How many there are.
    pub fn len(&self) -> usize
        ensures { result ≡ length self.now }
    {
        self.set.len()
    }

    /// The name of this number.
    pub fn get(&self, number: usize) -> &'a str
        requires { number < length self.now }
        ensures { slice_get self.now number ≡ Some result.now }
    {
        self.set[number]
    }
}
