//! The search for a way to the outcome.

ghost use Rattle.std.specs.Prelude.{◌≡◌, ◌≤◌, ◌+◌, ◌++◌, None, Some, false, is_some, length, not, true, IfOk};
ghost use Rattle.fs_model.specs.Condition.{condition_of};
ghost use Rattle.fs_kinds.specs.Limits.{most_harts, most_locations};
ghost use Rattle.fs_judge_outcomes.specs.inner.Ends.{stored_at, words_for, CanEnd, CanShow};

use crate::end::{End, Stored};
use crate::settled::{is_truth, with_hart, with_location};
use fs_kinds::List;
use fs_model::{Location, Outcome};
use std::alloc::{AllocError, Global};

/// A step's work is counted in so many parts of a condition.
const PARTS: u32 = 32;

/// A search, and how far it may go.
#[derive(Drop)]
pub(crate) struct Search {
    pub(crate) alloc: Global,
    /// The truth value that the condition is to have.
    pub(crate) wanted: bool,
    /// How much work is left to it, where that is bounded.
    left: u32,
    /// The work of a step.
    step: u32,
    bounded: bool,
}

/// How many parts the condition has.
fn size_of(condition: &Outcome) -> u32 {
    match condition {
        Outcome::Always | Outcome::Never => 1,
        Outcome::RegisterIs { .. } | Outcome::LocationIs { .. } => 1,
        Outcome::Deny(denied) => size_of(denied).saturating_add(1),
        Outcome::Both(left, right) | Outcome::Either(left, right) => {
            size_of(left).saturating_add(size_of(right))
        }
    }
}

/// The words that are stored at the address.
fn stored_at(alloc: Global, address: u32, stored: &[Stored]) -> Result<Vec<u32>, AllocError>
    ensures { IfOk result (λ words. words.items ≡ stored_at address stored.now) }
{
    stored
        .iter()
        .filter(|one| one.address == address)
        .map(|one| one.word)
        .collect(alloc)
}

/// The words that the location may end with, which begins with the first one.
fn words_for(
    alloc: Global,
    location: u8,
    first: u32,
    stored: &[Stored],
) -> Result<Vec<u32>, AllocError>
    requires { location ≤ most_locations }
    ensures { IfOk result (λ words. words.items ≡ words_for location first stored.now) }
{
    let mut words = stored_at(alloc, Location::address(location), stored)?;
    if words.is_empty() {
        words.push(first)?;
    }
    Ok(words)
}

/// What is stored in both, one behind the other.
fn joined(alloc: Global, stored: &[Stored], more: &[Stored]) -> Result<Vec<Stored>, AllocError>
    ensures { IfOk result (λ made. made.items ≡ stored.now ++ more.now) }
{
    let mut made = Vec::new(alloc);
    made.extend_from_slice(stored)?;
    made.extend_from_slice(more)?;
    Ok(made)
}

impl Search {
    /// A search for this truth value of the condition. It does so much work at most, or, where there is no number, as
    /// much as it needs: a step of a small condition is 1, one of a large one more.
    pub(crate) fn new(alloc: Global, wanted: bool, most: Option<u32>, condition: &Outcome) -> Search
        ensures wanted { result.wanted ≡ wanted }
        ensures bounded { result.bounded ≡ is_some most }
    {
        let step = (size_of(condition) / PARTS).saturating_add(1);
        match most {
            Some(left) => Search {
                alloc,
                wanted,
                left,
                step,
                bounded: true,
            },
            None => Search {
                alloc,
                wanted,
                left: 0,
                step,
                bounded: false,
            },
        }
    }

    /// Takes a step, where the work left is enough for it.
    pub(crate) fn may_go_on(&mut self) -> bool
        ensures wanted { self.new.wanted ≡ self.old.wanted }
        ensures bounded { self.new.bounded ≡ self.old.bounded }
        ensures open { result ≡ false → self.old.bounded ≡ true }
    {
        if !self.bounded {
            return true;
        }
        let Some(left) = self.left.checked_sub(self.step) else {
            return false;
        };
        self.left = left;
        true
    }

    /// Can the locations from this one on, which begin with these words, end so that what is left of the condition is
    /// as wanted? None where the work is used up.
    fn can_end(
        &mut self,
        location: u8,
        firsts: &[u32],
        stored: &[Stored],
        condition: &Outcome,
    ) -> Result<Option<bool>, AllocError>
        requires { location + length firsts.now ≤ most_locations }
        ensures wanted { self.new.wanted ≡ self.old.wanted }
        ensures bounded { self.new.bounded ≡ self.old.bounded }
        ensures yes { IfOk result (λ found. found ≡ Some true
            → CanEnd location firsts.now stored.now self.old.wanted (condition_of condition.now)) }
        ensures no { IfOk result (λ found. found ≡ Some false
            → CanEnd location firsts.now stored.now self.old.wanted (condition_of condition.now) → ⊥) }
        ensures open { IfOk result (λ found. found ≡ None → self.old.bounded ≡ true) }
    {
        let Some((first, rest)) = firsts.split_first() else {
            return Ok(Some(is_truth(condition, self.wanted)));
        };
        let words = words_for(self.alloc, location, *first, stored)?;
        for word in &words {
            if !self.may_go_on() {
                return Ok(None);
            }
            let left = with_location(self.alloc, location, *word, condition)?;
            if is_truth(&left, !self.wanted) {
                continue;
            }
            let found = self.can_end(location + 1, rest, stored, &left)?;
            if found != Some(false) {
                return Ok(found);
            }
        }
        Ok(Some(false))
    }

    /// Can the harts from this one on, which have these ends, and then the locations, which begin with these words, end
    /// so that what is left of the condition is as wanted? None where the work is used up.
    pub(crate) fn can_show(
        &mut self,
        hart: u8,
        lists: &[List<End>],
        firsts: &[u32],
        stored: &[Stored],
        condition: &Outcome,
    ) -> Result<Option<bool>, AllocError>
        requires harts { hart + length lists.now ≤ most_harts }
        requires locations { length firsts.now ≤ most_locations }
        ensures wanted { self.new.wanted ≡ self.old.wanted }
        ensures bounded { self.new.bounded ≡ self.old.bounded }
        ensures yes { IfOk result (λ found. found ≡ Some true
            → CanShow hart lists.now firsts.now stored.now self.old.wanted (condition_of condition.now)) }
        ensures no { IfOk result (λ found. found ≡ Some false
            → CanShow hart lists.now firsts.now stored.now self.old.wanted (condition_of condition.now) → ⊥) }
        ensures open { IfOk result (λ found. found ≡ None → self.old.bounded ≡ true) }
    {
        let Some((ends, rest)) = lists.split_first() else {
            return self.can_end(0, firsts, stored, condition);
        };
        for end in ends.as_slice() {
            if !self.may_go_on() {
                return Ok(None);
            }
            let left = with_hart(self.alloc, hart, &end.registers, condition)?;
            if is_truth(&left, !self.wanted) {
                continue;
            }
            let longer = joined(self.alloc, stored, &end.stored)?;
            let found = self.can_show(hart + 1, rest, firsts, &longer, &left)?;
            if found != Some(false) {
                return Ok(found);
            }
        }
        Ok(Some(false))
    }
}
