//! A ring of hands: each worker owns a deque, and steals from the next worker's.

ghost use Rattle.std.specs.Prelude.{◌≡◌, ◌≢◌, ℕ, ◌<◌, true, [], ◌∷◌, ◌++◌, IfOk, IfErr, IfSome, IfNone, OnOk, OnErr};
ghost use Rattle.std.specs.Prelude.{IsOkUnless, IsTrue, length, slice_get, Some, None};
ghost use Rattle.crossbeam_deque.specs.Handles.{view, IsPassOf, worker_deque, stealer_deque, worker_view};
ghost use Rattle.crossbeam_deque.specs.Handles.{worker_flavor};
ghost use Rattle.fs_pool.specs.Ring.{Hand as HandValue, AreLinked, AreAll, IsFresh, AreLeft};

use crate::deque::{Owner, Right, Thief, drain, is_empty, new_deque, pop, push, steal};
use fs_kinds::Fault;
use std::alloc::{AllocError, Global};
use std::marker::Model;

/// One worker's deque of numbers of open nodes, with the right to steal from the deque of the next worker. Numbers come
/// out of a deque in the order in which they were pushed, but no contract says so: that of `gather` says how often each
/// came out, of all hands together.
#[derive(Drop)]
pub struct Hand {
    number: u8,
    count: u8,
    owner: Owner,
    thief: Thief,
    right: Right,
}

impl Model for Hand {
    ghost use Rattle.std.specs.Prelude.{◌≡◌, true};
    ghost use Rattle.crossbeam_deque.specs.Handles.{view as view_of, IsPassOf, worker_deque, stealer_deque};
    ghost use Rattle.crossbeam_deque.specs.Handles.{worker_view, worker_flavor};
    ghost use Rattle.fs_pool.specs.Ring.{Hand as HandValue};

    ghost Value = { HandValue };

    ghost view = { λ h. record { number = h.number; count = h.count; own = worker_deque h.owner; victim = stealer_deque h.thief; pushed = (worker_view h.owner).pushed; popped = (worker_view h.owner).popped; stolen = (view_of h.right).stolen } };

    ghost invariant = { λ h. ((worker_view h.owner).owns ≡ true) × (worker_flavor h.owner ≡ 0) × ((view_of h.right).steals ≡ true) × IsPassOf (stealer_deque h.thief) h.right };
}

impl Hand {
    /// A hand of these parts.
    fn new(number: u8, count: u8, owner: Owner, thief: Thief, right: Right) -> Self
        requires owner { ((worker_view owner).owns ≡ true) × (worker_flavor owner ≡ 0) }
        requires thief { ((view right).steals ≡ true) × IsPassOf (stealer_deque thief) right }
        ensures { result
            ≡ record {
              number = number;
              count = count;
              own = worker_deque owner;
              victim = stealer_deque thief;
              pushed =
                  (worker_view owner).pushed;
              popped = (worker_view owner).popped;
              stolen = (view right).stolen;
            } }
    {
        Hand {
            number,
            count,
            owner,
            thief,
            right,
        }
    }

    /// The owner of its deque, and its right to steal from the next one.
    fn into_parts(self) -> (Owner, Right)
        ensures owner { ((worker_view result.0).owns ≡ true) × (worker_flavor result.0 ≡ 0)
            × (worker_deque result.0 ≡ self.own) }
        ensures right { ((view result.1).steals ≡ true) × IsPassOf self.victim result.1 }
        ensures pushed { (worker_view result.0).pushed ≡ self.pushed }
        ensures popped { (worker_view result.0).popped ≡ self.popped }
        ensures stolen { (view result.1).stolen ≡ self.stolen }
    {
        let Hand {
            number: _,
            count: _,
            owner,
            thief: _,
            right,
        } = self;
        (owner, right)
    }

    /// Pushes a number on its own deque. F19 where the deque can't grow, and then nothing is changed.
    pub fn push(&mut self, number: usize) -> Result<(), Fault>
        ensures ok { OnOk result (self.new ≡ record self.old { pushed = self.old.pushed ++ number ∷ [] }) }
        ensures err { OnErr result (self.new ≡ self.old) }
        ensures fault { IsOkUnless result Fault.Memory }
    {
        match push(&mut self.owner, number) {
            Ok(()) => Ok(()),
            Err(_refused) => Err(Fault::Memory),
        }
    }

    /// Pops a number from its own deque. It takes no memory.
    pub fn pop(&mut self) -> Option<usize>
        ensures some { IfSome result (λ x. self.new ≡ record self.old { popped = self.old.popped ++ x ∷ [] }) }
        ensures none { IfNone result (self.new ≡ self.old) }
    {
        pop(&mut self.owner)
    }

    /// Is its own deque empty at this moment? It changes nothing, and takes no memory. No contract says that the answer
    /// is true.
    pub fn is_empty(&mut self) -> bool
        ensures { self.new ≡ self.old }
    {
        is_empty(&mut self.owner)
    }

    /// Steals a number from the next worker's deque. `None` where there is none, and where another call came between. A
    /// single hand steals nothing. It takes no memory.
    pub fn steal(&mut self) -> Option<usize>
        ensures some { IfSome result (λ x. self.new ≡ record self.old { stolen = self.old.stolen ++ x ∷ [] }) }
        ensures none { IfNone result (self.new ≡ self.old) }
        ensures single { self.old.count ≡ 1 → result ≡ None }
    {
        if self.count == 1 {
            return None;
        }
        steal(&self.thief, &mut self.right)
    }
}

/// A hand for each worker: hand i owns deque i and steals from deque i + 1, and the last one steals from deque 0. The
/// error is F19.
pub fn hands(alloc: Global, workers: u8) -> Result<Vec<Hand>, Fault>
    requires { 0 < workers }
    ensures linked { IfOk result (λ hs. AreLinked hs.items) }
    ensures all { IfOk result (λ hs. AreAll hs.items) }
    ensures count { IfOk result (λ hs. length hs.items ≡ workers) }
    ensures fresh { IfOk result (λ hs. (k : ℕ) (h : HandValue) → slice_get hs.items k ≡ Some h → IsFresh h) }
    ensures err { IsOkUnless result Fault.Memory }
{
    let (first, last_thief, last_right) = new_deque(alloc)?;
    let mut owner = first;
    let mut hands = Vec::new(alloc);
    for number in 1..workers {
        let (next, thief, right) = new_deque(alloc)?;
        hands.push(Hand::new(number - 1, workers, owner, thief, right))?;
        owner = next;
    }
    hands.push(Hand::new(workers - 1, workers, owner, last_thief, last_right))?;
    Ok(hands)
}

/// Are they all the hands of a ring, in their order?
fn are_all(hands: &[Hand]) -> bool
    ensures yes { IsTrue result → AreAll hands.now }
    ensures no { AreAll hands.now → IsTrue result }
{
    for i in 0..hands.len() {
        let hand = &hands[i];
        if usize::from(hand.number) != i || usize::from(hand.count) != hands.len() {
            return false;
        }
    }
    !hands.is_empty()
}

/// All that is left in the deques of a ring whose workers have stopped: each number as often as the hands pushed it,
/// less the times that they popped or stole it. The hands are given up. F23 where hands are missing or not in their
/// order; that they are of one ring is for the caller to see to. F19.
pub fn gather(alloc: Global, hands: Vec<Hand>) -> Result<Vec<usize>, Fault>
    requires { AreLinked hands.items }
    ensures left { IfOk result (λ numbers. AreLeft hands.items numbers.items) }
    ensures all { OnOk result (AreAll hands.items) }
    ensures fault { IfErr result (λ f. f ≢ Fault.Memory → (f ≡ Fault.StrangePass) × (AreAll hands.items → ⊥)) }
{
    if !are_all(&hands) {
        return Err(Fault::StrangePass);
    }
    Ok(drain_all(alloc, hands)?)
}

/// All that is left in the deques of all hands of a ring.
fn drain_all(alloc: Global, mut hands: Vec<Hand>) -> Result<Vec<usize>, AllocError>
    requires linked { AreLinked hands.items }
    requires all { AreAll hands.items }
    ensures { IfOk result (λ numbers. AreLeft hands.items numbers.items) }
{
    let mut numbers = Vec::new(alloc);
    let Some(last) = hands.pop() else {
        unreachable!()
    };
    let (mut owner, first_right) = last.into_parts();
    while let Some(hand) = hands.pop() {
        let (previous, right) = hand.into_parts();
        drain(owner, right, &mut numbers)?;
        owner = previous;
    }
    drain(owner, first_right, &mut numbers)?;
    Ok(numbers)
}
