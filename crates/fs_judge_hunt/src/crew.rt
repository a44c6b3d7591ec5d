//! One hunt by several: who they are, and what each does.

use crate::fenced::Fenced;
use crate::frames::{Ground, Hunted, Limits, Search};
use crate::gathered::gathered;
use crate::hunter::{Found, Hunter, Kept};
use crate::inferences::Refutation;
use crate::learned::Learned;
use crate::pieces::Piece;
use crate::region::Field;
use fs_kinds::Placement;
use std::alloc::{AllocError, Global};

/// So many regions are looked at by one, before others join: the cycles that end these end later ones too. Where others
/// joined at 300, all together took twice the time over a ticket lock of five harts.
const LOOKS_ALONE: usize = 3_000;

/// The others who hunt for the same verdict, as one of them sees them.
pub trait Others {
    /// Counts the regions that were entered, and those that were made. How many there are in all; none where the hunt
    /// is to stop: something was found, or they are too many.
    fn count(&self, entered: usize, made: usize) -> Option<usize>;

    /// Has one of them nothing to do?
    fn are_idle(&self) -> bool;

    /// The number of the next piece.
    fn ticket(&self) -> usize;

    /// Gives a piece to whoever has nothing to do.
    fn give(&self, piece: Piece) -> Result<(), AllocError>;

    /// How many cycles they have told of.
    fn learned(&self) -> usize;

    /// Tells them of these cycles, and hears of theirs.
    fn exchange(&self, learned: &mut Learned) -> Result<(), AllocError>;
}

/// What those who hunted together leave.
#[derive(Drop)]
pub struct Left {
    /// All pieces, whether they are at their end or not.
    pub pieces: Vec<Piece>,
    pub learned: Learned,
}

/// Those who may hunt for a verdict.
pub trait Crew {
    /// What lets several hunt: that threads may share what they need.
    ghost may_hunt: { Type 0 };

    /// Is it one alone?
    fn is_alone(&self) -> bool;

    /// They hunt in the piece, and in what each gives to the others, until all is done or something is found. No answer
    /// depends on how; a call of it that doesn't return stops the search.
    fn hunt(&self, alloc: Global, chase: &Chase<'_>, piece: Piece) -> Result<Left, AllocError>
        requires { may_hunt };
}

/// One who hunts alone.
#[derive(Clone, Copy)]
pub struct Alone;

impl Crew for Alone {
    ghost may_hunt = { Unit {0} };

    fn is_alone(&self) -> bool {
        true
    }

    fn hunt(&self, alloc: Global, _chase: &Chase<'_>, piece: Piece) -> Result<Left, AllocError> {
        let mut pieces = Vec::new(alloc);
        pieces.push(piece)?;
        Ok(Left {
            pieces,
            learned: Learned::new(alloc),
        })
    }
}

/// What is hunted: a refutation, or an execution, under one placement of fences.
#[derive(Clone, Copy)]
pub struct Chase<'a> {
    pub(crate) hunter: &'a Hunter,
    pub(crate) placement: &'a Placement,
    /// Rule 4 in each hart, with the placement.
    pub(crate) fenced: &'a Vec<Fenced>,
    /// As many inferences may be made.
    pub(crate) most: usize,
}

impl Chase<'_> {
    fn field(&self) -> Field<'_> {
        self.hunter.field(self.fenced, self.placement)
    }

    /// May so many regions be entered, and so many be made? In constant time.
    pub fn allows(&self, entered: usize, made: usize) -> bool {
        entered.max(made) <= self.most
    }

    /// Hunts in the piece until it is done with it, or the others stop. The cost is that of `Hunter::hunt`.
    pub fn hunt<O: Others>(
        &self,
        alloc: Global,
        piece: &mut Piece,
        others: &O,
    ) -> Result<(), AllocError> {
        let ground = Ground {
            alloc,
            field: self.field(),
        };
        let hunted = piece.search.hunt_among(ground, others)?;
        piece.hunted = Some(hunted);
        Ok(())
    }

    /// What the search comes to: by one, and where that takes long by all.
    fn hunted<C: Crew>(
        &self,
        alloc: Global,
        mut search: Search,
        crew: &C,
    ) -> Result<(Option<Search>, Hunted), AllocError>
        requires { C.may_hunt }
    {
        let is_alone = crew.is_alone();
        let limits = Limits {
            regions: self.most,
            looks: if is_alone { usize::MAX } else { LOOKS_ALONE },
        };
        let hunted = search.hunt(alloc, self.field(), limits)?;
        let is_done = is_alone
            || !matches!(&hunted, Hunted::GaveUp)
            || search.has_passed(Limits::of(self.most));
        if is_done {
            return Ok((Some(search), hunted));
        }
        gathered(alloc, crew.hunt(alloc, self, Piece::whole(search))?)
    }

    /// What is found, with what is kept of it.
    pub(crate) fn found<C: Crew>(
        &self,
        alloc: Global,
        kept: &mut Kept,
        crew: &C,
    ) -> Result<Found, AllocError>
        requires { C.may_hunt }
    {
        let field = self.field();
        let Some(search) = self.hunter.search(alloc, field, kept)? else {
            return Ok(Found::Refuted(Refutation::empty(alloc)));
        };
        let (search, hunted) = self.hunted(alloc, search, crew)?;
        let Some(search) = search else {
            return Ok(Found::GaveUp);
        };
        let found = self.hunter.found(alloc, field, &search, hunted, self.most)?;
        kept.put(search);
        Ok(found)
    }
}
