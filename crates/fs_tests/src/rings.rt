//! Hands that push, pop and steal in turn, and what is left in the end.
ghost use Rattle.std.specs.Prelude.{◌<◌, vec_len};
ghost use Rattle.fs_pool.specs.Ring.{AreLinked, IsSameHand};

use fs_kinds::Fault;
use fs_pool::{Hand, gather, hands};
use std::alloc::{AllocError, Global};

/// What a hand is to do.
#[derive(Clone, Copy)]
enum Move {
    Push(usize),
    Pop,
    Steal,
}

/// Makes the move, and adds the number that it gives, if any.
fn act(hand: &mut Hand, what: Move, given: &mut Vec<usize>) -> Result<(), Fault>
    ensures { IsSameHand hand.old hand.new }
{
    let number = match what {
        Move::Push(number) => return hand.push(number),
        Move::Pop => hand.pop(),
        Move::Steal => hand.steal(),
    };
    match number {
        Some(number) => Ok(given.push(number)?),
        None => Ok(()),
    }
}

/// The same, by the hand at this place.
fn act_at(
    hands: &mut Vec<Hand>,
    place: usize,
    what: Move,
    given: &mut Vec<usize>,
) -> Result<(), Fault>
    requires { place < vec_len hands.old }
    ensures { AreLinked hands.old.items → AreLinked hands.new.items }
{
    act(&mut hands[place], what, given)
}

/// Hands that make these moves, each by the hand of its number: the numbers that the moves give, and the numbers that
/// are left, both in rising order.
fn play(
    alloc: Global,
    workers: u8,
    moves: &[(usize, Move)],
) -> Result<(Vec<usize>, Vec<usize>), Fault>
    requires { 0 < workers }
{
    let mut ring = hands(alloc, workers)?;
    let mut given = Vec::new(alloc);
    for (place, what) in moves {
        if *place < ring.len() {
            act_at(&mut ring, *place, *what, &mut given)?;
        }
    }
    let mut left = gather(alloc, ring)?;
    given.sort_unstable();
    left.sort_unstable();
    Ok((given, left))
}

/// Writes the numbers.
fn write_numbers(numbers: &[usize], text: &mut String) -> Result<(), AllocError> {
    for number in numbers {
        write!(text, "{number} ")?;
    }
    Ok(())
}

/// Writes the numbers that the moves give, and those that are left.
fn write_played(
    alloc: Global,
    workers: u8,
    moves: &[(usize, Move)],
    text: &mut String,
) -> Result<(), Fault>
    requires { 0 < workers }
{
    let (given, left) = play(alloc, workers, moves)?;
    write_numbers(&given, text)?;
    text.push_str("and ")?;
    write_numbers(&left, text)?;
    Ok(text.push_str("left\n")?)
}

/// Writes how many numbers the moves give, how many are left, and all of them.
fn write_counted(
    alloc: Global,
    workers: u8,
    moves: &[(usize, Move)],
    text: &mut String,
) -> Result<(), Fault>
    requires { 0 < workers }
{
    let (mut numbers, mut left) = play(alloc, workers, moves)?;
    write!(text, "{} and {} left: ", numbers.len(), left.len())?;
    numbers.append(&mut left)?;
    numbers.sort_unstable();
    write_numbers(&numbers, text)?;
    Ok(text.push_str("\n")?)
}

/// Two hands, of which each gets a number.
const TWO: &[(usize, Move)] = &[
    (0, Move::Push(4)),
    (0, Move::Push(5)),
    (0, Move::Push(6)),
    (1, Move::Steal),
    (0, Move::Pop),
];

/// A single hand, which steals nothing.
const SINGLE: &[(usize, Move)] = &[(0, Move::Push(7)), (0, Move::Steal)];

const THREE: &[(usize, Move)] = &[
    (0, Move::Push(1)),
    (1, Move::Push(2)),
    (1, Move::Push(2)),
    (2, Move::Push(3)),
    (0, Move::Steal),
    (2, Move::Steal),
    (2, Move::Steal),
    (1, Move::Push(4)),
];

/// Writes whether a hand is empty at first, with a number, and when that has been popped.
fn write_emptiness(alloc: Global, text: &mut String) -> Result<(), Fault> {
    let mut ring = hands(alloc, 1)?;
    let Some(mut hand) = ring.pop() else {
        return Ok(());
    };
    write!(text, "{} ", hand.is_empty())?;
    hand.push(5)?;
    write!(text, "{} ", hand.is_empty())?;
    let _five = hand.pop();
    Ok(write!(text, "{}\n", hand.is_empty())?)
}

/// All hands but the last one.
fn without_last(mut hands: Vec<Hand>) -> Vec<Hand>
    ensures { AreLinked hands.items → AreLinked result.items }
{
    let _last = hands.pop();
    hands
}

/// Writes whether a missing hand is found out.
fn write_missing(alloc: Global, text: &mut String) -> Result<(), Fault> {
    let one_of_two = without_last(hands(alloc, 2)?);
    let is_found_out = matches!(gather(alloc, one_of_two), Err(Fault::StrangePass));
    Ok(write!(text, "found out: {is_found_out}\n")?)
}

/// What hands of one, two and three workers do.
pub(crate) fn all_played(alloc: Global) -> Result<String, Fault> {
    let mut text = String::new(alloc);
    write_counted(alloc, 2, TWO, &mut text)?;
    write_played(alloc, 1, SINGLE, &mut text)?;
    write_played(alloc, 3, THREE, &mut text)?;
    write_emptiness(alloc, &mut text)?;
    write_missing(alloc, &mut text)?;
    Ok(text)
}

/// Hands lose nothing, and a missing one is found out.
pub(crate) const PLAYED: &str = "2 and 1 left: 4 5 6 
and 7 left
1 2 and 2 3 4 left
true false true
found out: true
";
