//! The plan: the cheapest placement that breaks all stored witnesses, of equal cost the first. What it costs is found
//! by branch and bound, with the least breaks of witnesses that share no breakable slot as lower bound; and then slot
//! by slot the earliest kind with which so much is still enough.

ghost use Rattle.std.specs.Prelude.{◌≡◌, IfOk, IfSome};
ghost use Rattle.fs_kinds.specs.Placement.{slots_of};
ghost use Rattle.fs_board_offers.specs.Parts.{slots_in_part};

use crate::codes::{Codes, bits_of_kind};
use crate::store::{Limit, Store, Sum, Unbroken, cost};
use fs_board::{Decision, Part};
use fs_board_offers::{OPTIONS, Offers};
use fs_kinds::{Entry, Kind, List, Placement, Slot};
use std::alloc::{AllocError, Global};

/// So many steps are made before a plan is given up.
pub(crate) const MOST_STEPS: usize = 50_000;

/// The number of a slot that is decided, and the options that are left to try there, a bit for each.
#[derive(Clone, Copy)]
struct Level {
    slot: usize,
    left: u32,
}

/// What the stored witnesses tell of the placements that have all that is decided.
#[derive(Clone, Copy)]
enum Outlook {
    /// None of them is within the limit and breaks all witnesses.
    Closed,
    /// The least of them is, and does.
    Breaks,
    /// A witness isn't broken yet, and is breakable at this undecided slot, by some of these options.
    Open(Level),
}

/// What a placement is planned by.
#[derive(Clone, Copy)]
struct Planner<'a> {
    alloc: Global,
    store: &'a Store,
    offers: &'a Offers,
    /// For each slot none, and the kinds that are offered there, the cheapest first.
    options: &'a [List<Option<Kind>>],
}

/// What is decided, the least placement that has it, the slots that the walk decided, in this order, and what a
/// placement may cost.
#[derive(Drop)]
struct Walk {
    decisions: Vec<Decision>,
    floor: Vec<Entry>,
    levels: Vec<Level>,
    limit: Limit,
}

/// What a walk comes to.
#[derive(Drop)]
enum Walked {
    /// It has gone through all placements, and this one is the best; or there is none.
    Ended(Option<Vec<Entry>>),
    GaveUp,
}

impl Walk {
    /// Over the placements that have what is decided.
    fn new(alloc: Global, decisions: Vec<Decision>, limit: Limit) -> Result<Walk, AllocError> {
        let mut floor = Vec::new(alloc);
        for decision in &decisions {
            floor.push(decision.least())?;
        }
        Ok(Walk {
            decisions,
            floor,
            levels: Vec::new(alloc),
            limit,
        })
    }

    /// Decides the slot of this number so, or leaves it undecided.
    fn put(&mut self, slot: usize, decided: Option<Option<Kind>>) {
        if let Some(decision) = self.decisions.get_mut(slot) {
            decision.decided = decided;
        }
        if let Some(entry) = self.floor.get_mut(slot) {
            entry.kind = decided.unwrap_or(None);
        }
    }

    /// What is known of the placements that have what is decided.
    fn outlook(&self, planner: Planner<'_>) -> Result<Outlook, AllocError> {
        let sum = Sum::of(cost(planner.offers, &self.floor));
        if sum.passes(&self.limit) {
            return Ok(Outlook::Closed);
        }
        let codes = Codes::of_placement(&self.floor);
        let unbroken = planner
            .store
            .unbroken(planner.alloc, &codes, &self.decisions)?;
        if passes_with(sum, &self.limit, &unbroken) {
            return Ok(Outlook::Closed);
        }
        Ok(planner.outlook_over(&unbroken))
    }

    /// Decides the newest slot that has an option left in the next way. False where there is none: all placements were
    /// gone through.
    fn go_on(&mut self, options: &[List<Option<Kind>>]) -> bool {
        for _ in 0..self.levels.len() {
            let Some(level) = self.levels.last_mut() else {
                return false;
            };
            let slot = level.slot;
            let option = option_at(options, slot, level.left.trailing_zeros() as usize);
            level.left &= level.left.wrapping_sub(1);
            self.put(slot, option);
            if option.is_some() {
                return true;
            }
            self.levels.pop();
        }
        false
    }

    /// Looks at the placements that have what is decided. The least of them, where it is within the limit and breaks
    /// all witnesses: then the others must cost less.
    fn look(&mut self, planner: Planner<'_>) -> Result<Option<Vec<Entry>>, AllocError> {
        match self.outlook(planner)? {
            Outlook::Closed => Ok(None),
            Outlook::Breaks => {
                self.limit = Limit::below(cost(planner.offers, &self.floor));
                Ok(Some(self.floor.clone()?))
            }
            Outlook::Open(level) => {
                self.levels.push(level)?;
                Ok(None)
            }
        }
    }

    /// Finds the cheapest placement within the limit that breaks all witnesses, or any one where the first will do.
    fn run(
        &mut self,
        planner: Planner<'_>,
        first_will_do: bool,
        steps: &mut usize,
    ) -> Result<Walked, AllocError> {
        let mut best = None;
        for _ in 0..MOST_STEPS {
            if *steps == 0 {
                return Ok(Walked::GaveUp);
            }
            *steps = steps.saturating_sub(1);
            if let Some(found) = self.look(planner)? {
                best = Some(found);
                if first_will_do {
                    return Ok(Walked::Ended(best));
                }
            }
            if !self.go_on(planner.options) {
                return Ok(Walked::Ended(best));
            }
        }
        Ok(Walked::GaveUp)
    }
}

/// Is so much the limit, with the least breaks of those of these witnesses that share no breakable slot?
fn passes_with(sum: Sum, limit: &Limit, unbroken: &[Unbroken]) -> bool {
    let mut sum = sum;
    for found in unbroken {
        if sum.is_apart(found) {
            sum.add(found);
            if sum.passes(limit) {
                return true;
            }
        }
    }
    false
}

/// What may stand at a slot: none, and the kinds that are offered there, the cheapest first.
fn options_at(
    alloc: Global,
    offers: &Offers,
    slot: Slot,
) -> Result<List<Option<Kind>>, AllocError> {
    let mut priced = Vec::new(alloc);
    for kind in OPTIONS {
        if offers.is_offered(slot, kind) {
            priced.push((offers.cost_at(slot, kind), kind))?;
        }
    }
    priced.sort_unstable();
    let mut options = Vec::new(alloc);
    for (_, kind) in &priced {
        options.push(*kind)?;
    }
    Ok(List::new(options))
}

/// What may stand at each of these slots.
fn all_options(
    alloc: Global,
    offers: &Offers,
    slots: &[Decision],
) -> Result<Vec<List<Option<Kind>>>, AllocError> {
    let mut options = Vec::new(alloc);
    for decision in slots {
        options.push(options_at(alloc, offers, decision.slot)?)?;
    }
    Ok(options)
}

/// The option of this number at the slot of this number.
fn option_at(options: &[List<Option<Kind>>], slot: usize, number: usize) -> Option<Option<Kind>> {
    let here = options.get(slot)?;
    here.as_slice().get(number).copied()
}

/// Which of these sets of pairs, a bit for each, have a pair that the option orders.
fn broken_by(option: Option<Kind>, sets: u16) -> u16 {
    let orders = bits_of_kind(option);
    let mut broken: u16 = 0;
    for set in 0..16u32 {
        if u64::from(set) & orders != 0 {
            broken |= sets & 1u16.wrapping_shl(set);
        }
    }
    broken
}

/// Does one of the first so many options break all of these sets of pairs?
fn is_spared(options: &[Option<Kind>], first: usize, broken: u16, sets: u16) -> bool {
    for number in 0..first.min(options.len()) {
        if broken & !broken_by(options[number], sets) == 0 {
            return true;
        }
    }
    false
}

/// Nothing is decided at these slots.
fn all_open(alloc: Global, slots: &[Decision]) -> Result<Vec<Decision>, AllocError> {
    let mut open = Vec::new(alloc);
    for decision in slots {
        open.push(Decision::open(decision.slot))?;
    }
    Ok(open)
}

impl Planner<'_> {
    /// The options that are worth a try at the slot of this number, a bit for each, where these are the sets of pairs
    /// that unbroken witnesses don't keep there: none, and each but those of which one option before, no dearer, breaks
    /// all that they break.
    fn worth_trying(self, slot: usize, sets: u16) -> u32 {
        let Some(options) = self.options.get(slot) else {
            return 0;
        };
        let mut worth: u32 = 0;
        let mut bit: u32 = 1;
        for (number, option) in options.iter().enumerate() {
            let broken = broken_by(*option, sets);
            if !is_spared(options.as_slice(), number, broken, sets) {
                worth |= bit;
            }
            bit = bit.wrapping_shl(1);
        }
        worth
    }

    /// The outlook where these witnesses aren't broken yet, and may be within the limit: the first of them, which is
    /// breakable at the fewest slots, is broken at the last of these.
    fn outlook_over(self, unbroken: &[Unbroken]) -> Outlook {
        let Some(found) = unbroken.first() else {
            return Outlook::Breaks;
        };
        let Some(slot) = found.last_place() else {
            return Outlook::Closed;
        };
        let left = self.worth_trying(slot, self.store.lacks(unbroken, slot));
        Outlook::Open(Level { slot, left })
    }

    /// The slots before the one of this number are decided as the placement has them, and that one so.
    fn decided(
        self,
        placement: &[Entry],
        number: usize,
        kind: Option<Kind>,
    ) -> Result<Vec<Decision>, AllocError> {
        let mut decisions = Vec::new(self.alloc);
        for (place, entry) in placement.iter().enumerate() {
            let mut decision = Decision::open(entry.slot);
            if place < number {
                decision.decided = Some(entry.kind);
            } else if place == number {
                decision.decided = Some(kind);
            }
            decisions.push(decision)?;
        }
        Ok(decisions)
    }

    /// A placement that costs no more than this one and breaks all witnesses, is the same at the slots before the one
    /// of this number, and has this kind there.
    fn with_kind(
        self,
        placement: &[Entry],
        number: usize,
        kind: Option<Kind>,
        steps: &mut usize,
    ) -> Result<Walked, AllocError> {
        let limit = Limit::up_to(cost(self.offers, placement));
        let decisions = self.decided(placement, number, kind)?;
        let mut walk = Walk::new(self.alloc, decisions, limit)?;
        walk.run(self, true, steps)
    }

    /// The same with the first of these kinds for which there is one.
    fn with_first(
        self,
        placement: &[Entry],
        number: usize,
        kinds: &[(usize, Option<Kind>)],
        steps: &mut usize,
    ) -> Result<Walked, AllocError> {
        for (_, kind) in kinds {
            let walked = self.with_kind(placement, number, *kind, steps)?;
            if !matches!(walked, Walked::Ended(None)) {
                return Ok(walked);
            }
        }
        Ok(Walked::Ended(None))
    }

    /// A placement that costs no more than this one and breaks all witnesses, is the same at the slots before the one
    /// of this number, and has an earlier kind there, the earliest that there can be.
    fn earlier(
        self,
        placement: &[Entry],
        number: usize,
        steps: &mut usize,
    ) -> Result<Walked, AllocError> {
        let Some(known) = placement.get(number) else {
            return Ok(Walked::Ended(None));
        };
        let before = kinds_before(self.alloc, self.offers, *known)?;
        self.with_first(placement, number, &before, steps)
    }

    /// The best placement at these slots: of those that cost the least the first. None where no placement breaks all
    /// witnesses, and where this isn't found out in so many steps.
    fn best(self, slots: &[Decision], steps: &mut usize) -> Result<Option<Vec<Entry>>, AllocError> {
        let open = all_open(self.alloc, slots)?;
        let mut walk = Walk::new(self.alloc, open, Limit::never())?;
        let cheapest = walk.run(self, false, steps)?;
        let Walked::Ended(Some(mut best)) = cheapest else {
            return Ok(None);
        };
        for number in 0..slots.len() {
            match self.earlier(&best, number, steps)? {
                Walked::Ended(Some(earlier)) => best = earlier,
                Walked::Ended(None) => {}
                Walked::GaveUp => return Ok(None),
            }
        }
        Ok(Some(best))
    }
}

/// What may stand at the entry's slot and comes before its kind there of what costs the same, the first first, each
/// with its place in this order.
fn kinds_before(
    alloc: Global,
    offers: &Offers,
    known: Entry,
) -> Result<Vec<(usize, Option<Kind>)>, AllocError> {
    let slot = known.slot;
    let mut before = Vec::new(alloc);
    for kind in OPTIONS {
        let rank = offers.rank(Entry { slot, kind });
        if rank < offers.rank(known) && offers.is_offered(slot, kind) {
            before.push((rank, kind))?;
        }
    }
    before.sort_unstable();
    Ok(before)
}

/// Puts the kind, or none, at the slot in place of what is there.
#[tactic(auto, using(crate::proofs::WitnessLists::slots_with))]
fn put_at(placement: &mut Placement, entry: &Entry)
    ensures { slots_of placement.new ≡ slots_of placement.old }
{
    match placement.with(entry.slot, entry.kind) {
        Ok(()) | Err(_) => {}
    }
}

/// Puts all of these into the placement.
fn put_all(placement: &mut Placement, entries: &[Entry])
    ensures { slots_of placement.new ≡ slots_of placement.old }
{
    for entry in entries {
        put_at(placement, entry);
    }
}

/// The cheapest placement at the part's slots that breaks all stored witnesses, of several the first. None where there
/// is none, and where it isn't found in the steps that are left. What the part decides doesn't matter.
pub(crate) fn cheapest_breaking(
    alloc: Global,
    store: &Store,
    offers: &Offers,
    part: &Part,
    steps: &mut usize,
) -> Result<Option<Placement>, AllocError>
    ensures { IfOk result (λ found. IfSome found (λ p. slots_of p ≡ slots_in_part part.now)) }
{
    let options = all_options(alloc, offers, part.as_slice())?;
    let planner = Planner {
        alloc,
        store,
        offers,
        options: &options,
    };
    let Some(entries) = planner.best(part.as_slice(), steps)? else {
        return Ok(None);
    };
    let mut placement = part.floor(alloc)?;
    put_all(&mut placement, &entries);
    Ok(Some(placement))
}
