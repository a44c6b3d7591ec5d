//! What hunts over a test.

ghost use Rattle.std.specs.Prelude.{IsOkUnless};
ghost use Rattle.fs_kinds.specs.declared.fault.Fault.TheVariants.{Memory};

use crate::access::initial_word;
use crate::condition::Condition;
use crate::crew::{Alone, Chase, Crew};
use crate::fenced::{Fenced, all_fenced};
use crate::fences::pairs_at;
use crate::first::hunt_first;
use crate::frames::{Hunted, Limits, Search};
use crate::hart::{Hart, may_store_often};
use crate::inferences::{Refutation, inferences_of};
use crate::needs::Fences;
use crate::region::Field;
use crate::witness::{Execution, execution_of};
use fs_kinds::{Fault, Kind, MOST_LOCATIONS, OperationName, Placement, Slot};
use fs_model::Test;
use std::alloc::{AllocError, Global};
use std::mem::swap;
use std::sync::Arc;

/// At how many regions a short hunt looks.
const FEW_LOOKS: usize = 200;

/// So many stores of one hart to one location, in one run, are many: they have 39,916,800 orders.
const MANY_STORES: usize = 11;

/// What each run of each hart does, as rows of bits: all that doesn't depend on the condition.
#[derive(Drop)]
struct Runs {
    harts: Vec<Hart>,
    names: Vec<OperationName>,
    words: Vec<u32>,
    has_many_stores: bool,
}

/// What hunts over a test, made once: what its runs do, which tests with the same program share, and its condition. It
/// borrows nothing.
#[derive(Drop)]
pub struct Hunter {
    runs: Arc<Runs>,
    condition: Condition,
}

/// What the hunts of one hunter keep, for the next one: which regions were split, and what ended them, under whatever
/// fences.
#[derive(Drop)]
pub struct Kept {
    search: Option<Search>,
    widens: bool,
    borne: Option<Vec<Slot>>,
    looks: usize,
    refusals: usize,
}

impl Kept {
    /// Nothing yet.
    pub fn new() -> Kept {
        Kept {
            search: None,
            widens: false,
            borne: None,
            looks: 0,
            refusals: 0,
        }
    }

    /// Nothing yet; where a hunt finds an execution it is to look for one that bears more fences.
    pub fn widening() -> Kept {
        let mut kept = Kept::new();
        kept.widens = true;
        kept
    }

    /// The slots at which the last execution bears `rw,rw`, as far as hunts have looked for that. In constant time.
    pub fn borne(&self) -> &[Slot] {
        match &self.borne {
            Some(slots) => slots.as_slice(),
            None => &[],
        }
    }

    /// At how many regions the last hunt has looked. In constant time.
    pub fn looks(&self) -> usize {
        self.looks
    }

    /// How often what was found didn't hold. In constant time.
    pub fn refusals(&self) -> usize {
        self.refusals
    }

    /// Keeps what the search has, unless a new tree is better.
    pub(crate) fn put(&mut self, search: Search) {
        self.looks = search.looks();
        if !search.is_large() {
            self.search = Some(search);
        }
    }

    /// Forgets all, since what was found didn't hold.
    pub fn refuse(&mut self) {
        self.search = None;
        self.refusals = self.refusals.saturating_add(1);
    }
}

/// An execution, the fences that it bears, and rule 4 in each hart with these.
#[derive(Drop)]
struct Wide {
    execution: Execution,
    borne: Placement,
    fenced: Vec<Fenced>,
}

/// What a hunt comes to.
#[derive(Drop)]
pub enum Found {
    /// A refutation.
    Refuted(Refutation),
    /// An execution that shows the outcome.
    Shown(Execution),
    /// The tree would have more inferences than it may.
    GaveUp,
}

/// The words that locations begin with.
fn initial_words(alloc: Global, test: &Test) -> Result<Vec<u32>, AllocError> {
    let mut words = Vec::new(alloc);
    for location in 0..MOST_LOCATIONS as u8 {
        words.push(initial_word(test, location).unwrap_or(0))?;
    }
    Ok(words)
}

fn copied(alloc: Global, names: &[OperationName]) -> Result<Vec<OperationName>, AllocError> {
    let mut copy = Vec::new(alloc);
    copy.extend_from_slice(names)?;
    Ok(copy)
}

impl Hunter {
    /// What hunts over the test, with the names of its memory instructions, for each hart what all of its runs do, in
    /// choice order, and the test's condition over these runs. The cost: for each location the forms of all harts.
    pub fn new(
        alloc: Global,
        test: &Test,
        names: &[OperationName],
        harts: Vec<Hart>,
        condition: Condition,
    ) -> Result<Hunter, AllocError> {
        let has_many_stores = may_store_often(&harts, MANY_STORES);
        let names = copied(alloc, names)?;
        let words = initial_words(alloc, test)?;
        let known = Runs {
            harts,
            names,
            words,
            has_many_stores,
        };
        let runs = Arc::new(alloc, known)?;
        Ok(Hunter { runs, condition })
    }

    /// What hunts over another test with the same program, and so the same runs, by its condition over them. In
    /// constant time.
    pub fn asking(&self, condition: Condition) -> Result<Hunter, AllocError> {
        Ok(Hunter {
            runs: Arc::try_clone(&self.runs)?,
            condition,
        })
    }

    /// May a hart store eleven times or more to one location in one run? In constant time.
    pub fn has_many_stores(&self) -> bool {
        self.runs.has_many_stores
    }

    pub(crate) fn field<'a>(&'a self, fenced: &'a [Fenced], placement: &'a Placement) -> Field<'a> {
        let entries = placement.as_slice();
        Field {
            harts: &self.runs.harts,
            fenced,
            fences: Fences {
                entries,
                pairs: pairs_at(entries),
            },
            nodes: &self.condition.nodes,
            atoms: &self.condition.atoms,
            words: &self.runs.words,
            names: &self.runs.names,
            count: self.runs.names.len().min(48) as u8,
        }
    }

    /// What the search has come to.
    pub(crate) fn found(
        &self,
        alloc: Global,
        field: Field<'_>,
        search: &Search,
        hunted: Hunted,
        most: usize,
    ) -> Result<Found, AllocError> {
        let _ = &self.condition;
        match hunted {
            Hunted::Refuted => Ok(match inferences_of(alloc, field, &search.tree, most)? {
                Some(refutation) => Found::Refuted(refutation),
                None => Found::GaveUp,
            }),
            Hunted::Shown(region) => Ok(Found::Shown(execution_of(alloc, field, &region)?)),
            Hunted::GaveUp => Ok(Found::GaveUp),
        }
    }

    /// A search over all candidates that show the outcome, if there can be one: that which is kept, or a new one.
    pub(crate) fn search(
        &self,
        alloc: Global,
        field: Field<'_>,
        kept: &mut Kept,
    ) -> Result<Option<Search>, AllocError> {
        if let Some(search) = kept.search.take() {
            return Ok(Some(search));
        }
        match field.root(alloc, self.condition.truth)? {
            Some(root) => Ok(Some(Search::new(alloc, root)?)),
            None => Ok(None),
        }
    }

    /// A refutation of the test under the placement, or an execution that shows the outcome with the placed fences; or
    /// it gives up where the refutation would have more than so many inferences. It begins with what earlier hunts of
    /// this hunter have kept. Nothing is promised of what it finds: the one is checked by `reason_against`, the other
    /// by `shown_by` of fs_check. The cost is exponential in the memory instructions; the memory is that of the tree.
    /// The error is F19.
    pub fn hunt(
        &self,
        alloc: Global,
        kept: &mut Kept,
        placement: &Placement,
        most: usize,
    ) -> Result<Found, Fault>
        ensures err { IsOkUnless result Memory }
    {
        self.hunt_by(alloc, kept, placement, most, &Alone)
    }

    /// The same, by the crew: where one has looked at 3,000 regions the others join.
    pub fn hunt_by<C: Crew>(
        &self,
        alloc: Global,
        kept: &mut Kept,
        placement: &Placement,
        most: usize,
        crew: &C,
    ) -> Result<Found, Fault>
        requires { C.may_hunt }
        ensures err { IsOkUnless result Memory }
    {
        match self.hunt_on(alloc, kept, placement, most, crew)? {
            Found::Shown(execution) if kept.widens => Ok(Found::Shown(self.widened(
                alloc, kept, placement, execution,
            )?)),
            found => Ok(found),
        }
    }

    fn hunt_on<C: Crew>(
        &self,
        alloc: Global,
        kept: &mut Kept,
        placement: &Placement,
        most: usize,
        crew: &C,
    ) -> Result<Found, AllocError>
        requires { C.may_hunt }
    {
        let fenced = all_fenced(alloc, &self.runs.harts, placement)?;
        let chase = Chase {
            hunter: self,
            placement,
            fenced: &fenced,
            most,
        };
        chase.found(alloc, kept, crew)
    }

    /// The execution, or one that bears `rw,rw` in more and more slots, from the last one on, as far as short hunts
    /// find one.
    fn widened(
        &self,
        alloc: Global,
        kept: &mut Kept,
        placement: &Placement,
        execution: Execution,
    ) -> Result<Execution, Fault>
        ensures err { IsOkUnless result Memory }
    {
        let looks = kept.looks;
        let mut slots = Vec::new(alloc);
        let mut widest = Wide {
            borne: placement.copy()?,
            fenced: all_fenced(alloc, &self.runs.harts, placement)?,
            execution,
        };
        let entries = placement.as_slice();
        for place in 0..entries.len() {
            let slot = entries[entries.len() - 1 - place].slot;
            if self.widen(alloc, kept, &mut widest, slot)? {
                slots.push(slot)?;
            }
        }
        kept.borne = Some(slots);
        kept.looks = looks;
        Ok(widest.execution)
    }

    /// Puts `rw,rw` in the slot, where the execution bears it, or a short hunt finds one that does. Does it?
    fn widen(
        &self,
        alloc: Global,
        kept: &mut Kept,
        widest: &mut Wide,
        slot: Slot,
    ) -> Result<bool, Fault>
        ensures err { IsOkUnless result Memory }
    {
        let mut more = widest.borne.copy()?;
        let number = usize::from(slot.hart);
        if more.with(slot, Some(Kind::RwRw)).is_err()
            || number >= self.runs.harts.len()
            || number >= widest.fenced.len()
        {
            return Ok(false);
        }
        let mut rules = Fenced::of(alloc, slot.hart, &self.runs.harts[number], &more)?;
        swap(&mut widest.fenced[number], &mut rules);
        if !widest.execution.bears(slot) {
            let field = self.field(&widest.fenced, &more);
            match self.glimpse(alloc, field, kept)? {
                Some(execution) => widest.execution = execution,
                None => {
                    swap(&mut widest.fenced[number], &mut rules);
                    return Ok(false);
                }
            }
        }
        widest.borne = more;
        Ok(true)
    }

    /// An execution that shows the outcome with the placed fences, if a hunt soon finds one.
    fn glimpse(
        &self,
        alloc: Global,
        field: Field<'_>,
        kept: &mut Kept,
    ) -> Result<Option<Execution>, AllocError> {
        let Some(mut search) = self.search(alloc, field, kept)? else {
            return Ok(None);
        };
        let limits = Limits {
            regions: usize::MAX,
            looks: FEW_LOOKS,
        };
        let shown = match search.hunt(alloc, field, limits)? {
            Hunted::Shown(region) => Some(execution_of(alloc, field, &region)?),
            _ => None,
        };
        kept.put(search);
        Ok(shown)
    }

    fn hunt_first(
        &self,
        alloc: Global,
        placement: &Placement,
        most: usize,
    ) -> Result<Found, AllocError> {
        let fenced = all_fenced(alloc, &self.runs.harts, placement)?;
        self.first_in(alloc, self.field(&fenced, placement), most)
    }

    fn first_in(&self, alloc: Global, field: Field<'_>, most: usize) -> Result<Found, AllocError> {
        let Some(root) = field.root(alloc, self.condition.truth)? else {
            return Ok(Found::Refuted(Refutation::empty(alloc)));
        };
        let mut search = Search::new(alloc, root.copy(alloc)?)?;
        let hunted = hunt_first(alloc, field, &mut search, root, Limits::of(most))?;
        self.found(alloc, field, &search, hunted, most)
    }

    /// The same from nothing, but of the executions the one whose candidate comes first in the order of candidates.
    /// Each hunt that it takes may have so many inferences. The error is F19.
    pub fn first(&self, alloc: Global, placement: &Placement, most: usize) -> Result<Found, Fault>
        ensures err { IsOkUnless result Memory }
    {
        Ok(self.hunt_first(alloc, placement, most)?)
    }
}
