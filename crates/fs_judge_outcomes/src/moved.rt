//! Executions in which one operation is moved: they mostly end in a state that differs at few places. Nothing is
//! promised of them.

use crate::part::{Atom, as_wanted};
use crate::place::Place;
use fs_cert_evidence::{ChoiceLists, Choices, Witness};
use fs_check::OrderedCandidate;
use fs_instr::{Instr, Reg};
use fs_kinds::{List, OperationName};
use fs_model::{Choice, Location, Operation, Step};
use std::alloc::{AllocError, Global};

/// How many moves are tried.
const MOST_MOVES: usize = 4;

/// An operation that is moved behind another one, or before all where that is an initial store; and what it loads
/// then, where it loads.
#[derive(Clone, Copy)]
pub(crate) struct Move {
    moved: usize,
    behind: usize,
    word: Option<u32>,
}

/// Does the part say nothing against this word at the place of this number?
fn may_be(part: &[Atom], index: usize, word: u32) -> bool {
    for atom in part {
        if atom.index == index && !as_wanted(atom.is, atom.word == word) {
            return false;
        }
    }
    true
}

/// Does the operation load a word into the hart's register?
fn loads_into(operation: &Operation, hart: u8, reg: Reg) -> bool {
    match operation.instr.dest() {
        Some(dest) => {
            operation.is_load() && operation.hart == Some(hart) && dest.number() == reg.number()
        }
        None => false,
    }
}

/// Adds the moves of the load behind each store whose word may be at the place.
fn push_loads(
    moves: &mut Vec<Move>,
    operations: &[Operation],
    moved: usize,
    part: &[Atom],
    index: usize,
) -> Result<(), AllocError> {
    let load = Operation::numbered(operations, moved);
    for (behind, store) in operations.iter().enumerate() {
        if let Some(word) = store.stored {
            if behind != moved && load.is_same_word(store) && may_be(part, index, word) {
                let word = Some(word);
                moves.push(Move {
                    moved,
                    behind,
                    word,
                })?;
            }
        }
    }
    Ok(())
}

/// The last operation that loads a word into the hart's register.
fn last_load(operations: &[Operation], hart: u8, reg: Reg) -> Option<usize> {
    let mut last = None;
    for (number, operation) in operations.iter().enumerate() {
        if loads_into(operation, hart, reg) {
            last = Some(number);
        }
    }
    last
}

/// Adds the move of the store behind the last operation.
fn push_store(
    moves: &mut Vec<Move>,
    base: &OrderedCandidate,
    moved: usize,
    part: &[Atom],
    index: usize,
) -> Result<(), AllocError> {
    let operations = base.candidate.operations.as_slice();
    let store = Operation::numbered(operations, moved);
    let Some(word) = store.stored else {
        return Ok(());
    };
    let Some(last) = base.order.listed().last() else {
        return Ok(());
    };
    let behind = usize::from(*last);
    if store.hart.is_some() && behind != moved && may_be(part, index, word) {
        let word = store.loaded;
        moves.push(Move {
            moved,
            behind,
            word,
        })?;
    }
    Ok(())
}

/// Adds the moves of the stores to the location.
fn push_stores(
    moves: &mut Vec<Move>,
    base: &OrderedCandidate,
    location: u8,
    part: &[Atom],
    index: usize,
) -> Result<(), AllocError> {
    let address = Some(Location::address(location));
    for (number, operation) in base.candidate.operations.iter().enumerate() {
        if operation.address == address {
            push_store(moves, base, number, part, index)?;
        }
    }
    Ok(())
}

/// The first few moves by which the place may come to have another word that the part allows: of the last load into
/// the register, or of the stores to the location. For each store at most linear in the part.
pub(crate) fn moves_for(
    alloc: Global,
    base: &OrderedCandidate,
    place: Place,
    part: &[Atom],
    index: usize,
) -> Result<Vec<Move>, AllocError> {
    let mut moves = Vec::new(alloc);
    match place {
        Place::Register { hart, reg } => {
            let operations = base.candidate.operations.as_slice();
            if let Some(load) = last_load(operations, hart, reg) {
                push_loads(&mut moves, operations, load, part, index)?;
            }
        }
        Place::Location(location) => push_stores(&mut moves, base, location, part, index)?,
    }
    moves.truncate(MOST_MOVES);
    Ok(moves)
}

/// What is chosen at the step, where it loads this word.
fn choice(step: &Step, word: Option<u32>) -> Option<Choice> {
    match step.instr {
        Instr::Lw { .. } | Instr::Lr { .. } | Instr::Amo { .. } => Some(Choice::Word(word?)),
        Instr::Sc { .. } if step.stored.is_some() => Some(Choice::Success),
        Instr::Sc { .. } => Some(Choice::Failure),
        _ => None,
    }
}

/// The choices of a hart with these steps; at the place of this one, where there is one, another word is loaded.
fn choices_of(
    alloc: Global,
    steps: &[Step],
    changed: Option<usize>,
    word: Option<u32>,
) -> Result<Choices, AllocError> {
    let mut choices = Vec::new(alloc);
    for (place, step) in steps.iter().enumerate() {
        let loaded = if changed == Some(place) {
            word
        } else {
            step.loaded
        };
        if let Some(choice) = choice(step, loaded) {
            choices.push(choice)?;
        }
    }
    Ok(List::new(choices))
}

/// The place of the operation's step, where it is one of the hart's.
fn place_in(operation: &Operation, hart: usize) -> Option<usize> {
    if usize::from(operation.hart?) == hart {
        Some(usize::from(operation.place))
    } else {
        None
    }
}

/// The choices of all harts after the move.
fn all_choices(
    alloc: Global,
    base: &OrderedCandidate,
    step: Move,
) -> Result<ChoiceLists, AllocError> {
    let moved = Operation::numbered(base.candidate.operations.as_slice(), step.moved);
    let mut lists = Vec::new(alloc);
    for (hart, trace) in base.candidate.traces.iter().enumerate() {
        let changed = place_in(&moved, hart);
        lists.push(choices_of(alloc, trace.steps(), changed, step.word)?)?;
    }
    Ok(List::new(lists))
}

/// The name of the operation of this number.
fn name_of(base: &OrderedCandidate, number: usize) -> Option<OperationName> {
    let operation = Operation::numbered(base.candidate.operations.as_slice(), number);
    let hart = operation.hart?;
    let trace = base.candidate.traces.as_slice().get(usize::from(hart))?;
    let step = trace.steps().get(usize::from(operation.place))?;
    Some(OperationName { hart, at: step.at })
}

/// Adds the name of the operation of this number.
fn push_name(
    names: &mut Vec<OperationName>,
    base: &OrderedCandidate,
    number: usize,
) -> Result<(), AllocError> {
    if let Some(name) = name_of(base, number) {
        names.push(name)?;
    }
    Ok(())
}

/// The names of the operations in their order after the move.
fn order_of(
    alloc: Global,
    base: &OrderedCandidate,
    step: Move,
) -> Result<List<OperationName>, AllocError> {
    let mut names = Vec::new(alloc);
    let behind = Operation::numbered(base.candidate.operations.as_slice(), step.behind);
    if behind.hart.is_none() {
        push_name(&mut names, base, step.moved)?;
    }
    for number in base.order.listed() {
        let number = usize::from(*number);
        if number != step.moved {
            push_name(&mut names, base, number)?;
        }
        if number == step.behind {
            push_name(&mut names, base, step.moved)?;
        }
    }
    Ok(List::new(names))
}

/// The execution after the move, if it is one.
pub(crate) fn moved(
    alloc: Global,
    base: &OrderedCandidate,
    step: Move,
) -> Result<Witness, AllocError> {
    Ok(Witness {
        choices: all_choices(alloc, base, step)?,
        order: order_of(alloc, base, step)?,
        widths: List::new(Vec::new(alloc)),
    })
}
