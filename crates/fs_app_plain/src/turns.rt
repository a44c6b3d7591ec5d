//! Whether one turn of a loop is as good as several.

ghost use Rattle.std.specs.Prelude.{All};
ghost use Rattle.fs_model.specs.Test.{IsBounded, IsStart};

use crate::lexemes::{Lexeme, word_at};
use crate::loops::Turn;
use crate::sheet::MOST_HARTS;
use fs_hart::Trace;
use fs_instr::{Instr, Reg};
use fs_kinds::Fault;
use fs_litmus_tokens::number_of;
use fs_model::{Step, Test};
use fs_values::all_runs;
use std::alloc::{AllocError, Global};
use thiserror::Error;

/// Why one turn of a loop may not be as good as several.
#[derive(Clone, Copy, Debug, Error)]
pub enum Doubt {
    #[error("P{hart}:{at} may store before it goes back")]
    Stores { hart: usize, at: u8 },
    #[error("x{0} may be read before a turn writes it again")]
    Reads(u8),
    #[error("an sc.w may be paired with an lr.w of the turn before")]
    Paired,
    #[error("it may begin behind the label")]
    Entered,
    #[error("its runs can't be listed")]
    Unlisted,
}

/// A loop of which one turn may not be as good as several: the branch that goes back, by its hart, its position and its
/// line.
#[derive(Clone, Copy)]
pub struct OneTurn {
    pub hart: usize,
    pub at: usize,
    pub line: usize,
    pub doubt: Doubt,
}

/// A set of registers, and maybe the reservation of an lr.w: what one instruction leaves for another.
#[derive(Clone, Copy)]
pub(crate) struct Registers {
    /// Bit n is 1 where register n is one of them, and bit 0 where the reservation is.
    bits: u32,
}

impl Registers {
    fn none() -> Registers {
        Registers { bits: 0 }
    }

    fn reservation() -> Registers {
        Registers { bits: 1 }
    }

    /// All registers.
    fn all() -> Registers {
        Registers { bits: u32::MAX - 1 }
    }

    /// The register alone; nothing of x0.
    fn only(register: Reg) -> Registers {
        let number = u32::from(register.number());
        Registers {
            bits: if 0 < number && number < 32 {
                1 << number
            } else {
                0
            },
        }
    }

    fn of(register: Option<Reg>) -> Registers {
        match register {
            Some(register) => Registers::only(register),
            None => Registers::none(),
        }
    }

    fn and(self, other: Registers) -> Registers {
        Registers {
            bits: self.bits | other.bits,
        }
    }

    fn without(self, other: Registers) -> Registers {
        Registers {
            bits: self.bits & !other.bits,
        }
    }

    /// What is doubtful where both have something: the reservation, or else the least register.
    fn doubt(self, other: Registers) -> Option<Doubt> {
        let bits = self.bits & other.bits;
        if bits & 1 == 1 {
            return Some(Doubt::Paired);
        }
        for number in 1..32_u8 {
            if bits >> number & 1 == 1 {
                return Some(Doubt::Reads(number));
            }
        }
        None
    }
}

/// What the instruction reads.
fn read_by(instr: &Instr) -> Registers {
    let [first, second] = instr.sources();
    let registers = Registers::of(first).and(Registers::of(second));
    match instr {
        Instr::Sc { .. } => registers.and(Registers::reservation()),
        _ => registers,
    }
}

/// What the instruction writes.
fn written_by(instr: &Instr) -> Registers {
    let registers = Registers::of(instr.dest());
    match instr {
        Instr::Lr { .. } => registers.and(Registers::reservation()),
        _ => registers,
    }
}

/// The registers of each hart that are read at its end: all; or those that the words of a text name from this lexeme
/// on. Linear in the lexemes.
pub(crate) fn read_at_end(
    alloc: Global,
    text: &[u8],
    lexemes: &[Lexeme],
    tail: usize,
    all: bool,
) -> Result<Vec<Registers>, AllocError> {
    let before = if all {
        Registers::all()
    } else {
        Registers::none()
    };
    let mut found = Vec::from_array(alloc, [before; MOST_HARTS])?;
    for number in tail..lexemes.len() {
        let register = Reg::of(word_at(text, lexemes, number.saturating_add(2)));
        if word_at(text, lexemes, number.saturating_add(1)) == ":" {
            if let Some(hart) = number_of(word_at(text, lexemes, number)) {
                let hart = hart as usize;
                if hart < found.len() {
                    found[hart] = found[hart].and(Registers::of(register));
                }
            }
        }
    }
    Ok(found)
}

/// The code of a hart with loops: its instructions, and its branches that go back.
#[derive(Clone, Copy)]
struct HartCode<'a> {
    hart: usize,
    instructions: &'a [Instr],
    turns: &'a [Turn],
}

impl<'a> HartCode<'a> {
    /// Where the branch at this position goes, whose target in the code is this.
    fn target(self, at: usize, target: u8) -> usize {
        for turn in self.turns {
            if turn.hart == self.hart && turn.at == at {
                return turn.to;
            }
        }
        usize::from(target)
    }

    /// The registers that may be read behind the instruction before they are written, where these are those of each
    /// position.
    fn read_behind(self, live: &[Registers], at: usize, instr: &Instr) -> Registers {
        let next = live_at(live, at.saturating_add(1));
        match instr {
            Instr::Branch { target, .. } => next.and(live_at(live, self.target(at, *target))),
            Instr::Jump { target } => live_at(live, self.target(at, *target)),
            _ => next,
        }
    }

    /// The registers that may be read from the instruction on before they are written.
    fn read_from(self, live: &[Registers], at: usize, instr: &Instr) -> Registers {
        let behind = self.read_behind(live, at, instr);
        behind.without(written_by(instr)).and(read_by(instr))
    }

    /// Goes once through the code, from its end on. Was nothing new found?
    fn go_through(self, live: &mut [Registers]) -> bool {
        let mut is_done = true;
        for before in 0..self.instructions.len() {
            let at = self.instructions.len() - 1 - before;
            let found = self.read_from(live, at, &self.instructions[at]);
            if at < live.len() && live[at].bits != found.bits {
                live[at] = found;
                is_done = false;
            }
        }
        is_done
    }

    /// The registers that may be read from each position on before they are written, where these are read at the end.
    fn live(self, alloc: Global, at_end: Registers) -> Result<Vec<Registers>, AllocError> {
        let mut live = Vec::new(alloc);
        for _ in self.instructions {
            live.push(Registers::none())?;
        }
        live.push(at_end)?;
        // each time through it passes one more branch that goes back
        for _ in 0..live.len() {
            if self.go_through(&mut live) {
                return Ok(live);
            }
        }
        Ok(live)
    }

    /// What the instructions of a turn write.
    fn written_in(self, turn: Turn) -> Registers {
        let mut written = Registers::none();
        for at in turn.to..turn.at {
            if let Some(instr) = self.instructions.get(at) {
                written = written.and(written_by(instr));
            }
        }
        written
    }
}

fn live_at(live: &[Registers], at: usize) -> Registers {
    match live.get(at) {
        Some(registers) => *registers,
        None => Registers::none(),
    }
}

/// Does the step store another word than it loads?
fn changes(step: &Step) -> bool {
    match (step.stored, step.loaded) {
        (Some(stored), Some(loaded)) => stored != loaded,
        (Some(_), None) => true,
        (None, _) => false,
    }
}

/// What is doubtful in a run that goes back there; nothing where it doesn't.
fn doubt_in(turn: Turn, steps: &[Step]) -> Option<Doubt> {
    let last = steps.len().saturating_sub(1);
    if usize::from(steps.get(last)?.at) != turn.at {
        return None;
    }
    let mut is_whole = false;
    for step in steps {
        let at = usize::from(step.at);
        if at == turn.to {
            is_whole = true;
        }
        if turn.to <= at && changes(step) {
            return Some(Doubt::Stores {
                hart: turn.hart,
                at: step.at,
            });
        }
    }
    if is_whole { None } else { Some(Doubt::Entered) }
}

/// What is doubtful in one of the runs.
fn doubt_in_runs(turn: Turn, runs: &[Trace]) -> Option<Doubt> {
    for run in runs {
        if let Some(doubt) = doubt_in(turn, run.steps()) {
            return Some(doubt);
        }
    }
    None
}

/// What is doubtful of the loop: what its turns hand on, or what its runs do.
fn doubt_of(code: HartCode<'_>, live: &[Registers], turn: Turn, runs: &[Trace]) -> Option<Doubt> {
    match code.written_in(turn).doubt(live_at(live, turn.to)) {
        Some(doubt) => Some(doubt),
        None => doubt_in_runs(turn, runs),
    }
}

fn one_turn(turn: Turn, doubt: Doubt) -> OneTurn {
    OneTurn {
        hart: turn.hart,
        at: turn.at,
        line: turn.line,
        doubt,
    }
}

/// The loops of the hart of which one turn may not be as good as several.
fn doubts_of_hart(
    alloc: Global,
    code: HartCode<'_>,
    at_end: Registers,
    runs: &[Trace],
) -> Result<Vec<OneTurn>, AllocError> {
    let mut found = Vec::new(alloc);
    let live = code.live(alloc, at_end)?;
    for turn in code.turns {
        if turn.hart == code.hart {
            if let Some(doubt) = doubt_of(code, &live, *turn, runs) {
                found.push(one_turn(*turn, doubt))?;
            }
        }
    }
    Ok(found)
}

/// All loops, since runs can't be listed.
fn unlisted(alloc: Global, turns: &[Turn]) -> Result<Vec<OneTurn>, AllocError> {
    let mut found = Vec::new(alloc);
    for turn in turns {
        found.push(one_turn(*turn, Doubt::Unlisted))?;
    }
    Ok(found)
}

/// The loops of which one turn may not be as good as several, of a test in which each of these branches goes behind its
/// hart's code. One is as good where a turn that goes back began at the label, stores nothing but what it loaded, and
/// writes no register that may be read behind the branch, be it at the end, before it is written again; a reservation is
/// as a register here.
///
/// Linear in the runs of the test, whose listing costs what `all_runs` does.
pub(crate) fn doubtful(
    alloc: Global,
    test: &Test,
    turns: &[Turn],
    at_end: &[Registers],
) -> Result<Vec<OneTurn>, AllocError>
    requires test { IsBounded test.now }
    requires starts { All IsStart test.now.starts }
{
    let runs = match all_runs(alloc, test) {
        Ok(runs) => runs,
        Err(Fault::Memory) => return Err(AllocError),
        Err(_) => return unlisted(alloc, turns),
    };
    let mut found = Vec::new(alloc);
    for (hart, instructions) in test.codes.as_slice().iter().enumerate() {
        if let (Some(runs), Some(at_end)) = (runs.get(hart), at_end.get(hart)) {
            let code = HartCode {
                hart,
                instructions: instructions.as_slice(),
                turns,
            };
            for doubt in doubts_of_hart(alloc, code, *at_end, runs.as_slice())? {
                found.push(doubt)?;
            }
        }
    }
    Ok(found)
}
