//! Hands that push, pop and steal in turn, and what is left in the end.
ghost use Rattle.std.specs.Prelude.{◌≡◌, ◌<◌, IfOk, vec_len};
ghost use Rattle.fs_pool.specs.Ring.{AreLinked, IsSameHand};

use crate::printing::say_refused;
use fs_kinds::Fault;
use fs_pool::{Hand, gather, hands};
use std::alloc::Global;

/// How many numbers are pushed: more than a hand has room for at first.
const MANY: usize = 70;

/// Pushes a number.
fn push<R: Print>(rt: &R, hand: &mut Hand, number: usize) -> Result<(), Fault>
    ensures { IsSameHand hand.old hand.new }
{
    twice!(rt, hand.push(number))
}

/// Pushes the numbers from this one up to `MANY`.
fn push_many<R: Print>(rt: &R, hand: &mut Hand, first: usize) -> Result<(), Fault>
    ensures { IsSameHand hand.old hand.new }
{
    for number in first..MANY {
        push(rt, hand, number)?;
    }
    Ok(())
}

/// What a hand is to do.
#[derive(Clone, Copy)]
enum Move {
    Push(usize),
    PushFrom(usize),
    Pop,
    Steal,
}

/// Makes the move. A number that is popped or stolen goes.
fn act<R: Print>(rt: &R, hand: &mut Hand, what: Move) -> Result<(), Fault>
    ensures { IsSameHand hand.old hand.new }
{
    match what {
        Move::Push(number) => return push(rt, hand, number),
        Move::PushFrom(first) => return push_many(rt, hand, first),
        Move::Pop => {
            let _gone = hand.pop();
        }
        Move::Steal => {
            let _gone = hand.steal();
        }
    }
    Ok(())
}

/// The same, by the hand at this place.
fn act_at<R: Print>(rt: &R, hands: &mut Vec<Hand>, place: usize, what: Move) -> Result<(), Fault>
    requires { place < vec_len hands.old }
    ensures { AreLinked hands.old.items → AreLinked hands.new.items }
{
    act(rt, &mut hands[place], what)
}

/// The number 0 is popped and the number 1 stolen as soon as it is pushed.
const MOVES: &[(usize, Move)] = &[
    (0, Move::Push(0)),
    (0, Move::Pop),
    (0, Move::Push(1)),
    (1, Move::Steal),
    (0, Move::PushFrom(2)),
];

/// What two hands have left after these moves, each by the hand of its number.
fn left<R: Print>(rt: &R, alloc: Global, moves: &[(usize, Move)]) -> Result<Vec<usize>, Fault> {
    let mut ring = hands(alloc, 2)?;
    for (place, what) in moves {
        if *place < ring.len() {
            act_at(rt, &mut ring, *place, *what)?;
        }
    }
    gather(alloc, ring)
}

/// Prints what two hands have left, in rising order.
pub(crate) fn make<R: Print + AllocGlobal>(rt: &R) -> Result<(), Fault> {
    let _ = rt.println("rings");
    let mut numbers = twice!(rt, left(rt, rt.alloc(), MOVES))?;
    numbers.sort_unstable();
    let _ = rt.print("left");
    for number in &numbers {
        let _ = print!(rt; " {number}");
    }
    let _ = rt.println("");
    Ok(())
}
