//! The witnesses that a search has met, and which of them it tries at a node.

ghost use Rattle.std.specs.Prelude.{ℕ, ◌≡◌, ◌++◌, ◌∷◌, [], List, Some, IfOk, IfSome, OnOk, OnErr, slice_get, map};
ghost use Rattle.std.specs.Arc.{arc_value};
ghost use Rattle.fs_kinds.specs.declared.slot.Slot.{Slot as SlotValue};
ghost use Rattle.fs_model.specs.declared.test.Test.{Test};
ghost use Rattle.fs_board.specs.Growth.{AreWitnesses};

use crate::codes::Codes;
use fs_board::{Decision, Part};
use fs_board_offers::{Offers, break_at, earliest_precedes};
use fs_cert_evidence::{Forbidden, Pairs, Witness};
use fs_kinds::{Entry, Slot};
use std::alloc::{AllocError, Global};
use std::marker::Model;
use std::sync::Arc;

/// What breaking an execution costs at a slot where no offered kind breaks it.
const NEVER: u64 = u64::MAX;

/// A witness with its widths in words, and for each slot what the cheapest offered kind costs that breaks it there.
#[derive(Drop)]
struct Known {
    witness: Arc<Witness>,
    kept: Codes,
    breaks: Vec<u64>,
}

impl Model for Known {
    ghost use Rattle.std.specs.Arc.{arc_value};
    ghost use Rattle.fs_cert_evidence.specs.Evidence.{Shown};

    ghost Value = { Shown };

    ghost view = { λ k. arc_value k.witness };
}

/// The witnesses that a search has met, the newest last.
#[derive(Drop)]
pub(crate) struct Store {
    known: Vec<Known>,
}

impl Model for Store {
    ghost use Rattle.std.specs.Prelude.{List};
    ghost use Rattle.fs_cert_evidence.specs.Evidence.{Shown};

    ghost Value = { List Shown };

    ghost view = { λ s. s.known.items };
}

/// A stored witness that shows the outcome under a node's least placement: how many slots of the node are breakable for
/// it, what its least break lacks to the greatest number, its number, and the breakable slots as bits. The least one is
/// tried first.
#[derive(Clone, Copy, PartialEq, Eq, PartialOrd, Ord)]
pub(crate) struct Unbroken {
    slots: u32,
    lack: u64,
    number: usize,
    places: u64,
}

impl Unbroken {
    /// The witness of this number, which costs so much to break at each slot, at a node of these decisions.
    fn of(number: usize, breaks: &[u64], decisions: &[Decision]) -> Unbroken {
        let mut slots: u32 = 0;
        let mut least = NEVER;
        let mut places: u64 = 0;
        let mut place: u64 = 1;
        for slot in 0..decisions.len().min(breaks.len()) {
            let (decision, cost) = (&decisions[slot], breaks[slot]);
            if decision.decided.is_none() && cost != NEVER {
                slots = slots.saturating_add(1);
                least = least.min(cost);
                places |= place;
            }
            place = place.wrapping_shl(1);
        }
        Unbroken {
            slots,
            lack: NEVER.saturating_sub(least),
            number,
            places,
        }
    }

    /// The number of the last slot that is breakable. None where there is none.
    pub(crate) fn last_place(&self) -> Option<usize> {
        last_of(self.places)
    }

    /// The number of the last breakable slot that is among these, or else of the last one. None where there is none.
    fn last_place_among(&self, places: u64) -> Option<usize> {
        last_of(self.places & places).or(self.last_place())
    }
}

/// The number of the last of these places.
fn last_of(places: u64) -> Option<usize> {
    let place = 63u32.checked_sub(places.leading_zeros())?;
    Some(place as usize)
}

/// The slots where the placement has a fence, as bits.
fn fenced_places(placement: &[Entry]) -> u64 {
    let mut places: u64 = 0;
    let mut place: u64 = 1;
    for entry in placement {
        if entry.kind.is_some() {
            places |= place;
        }
        place = place.wrapping_shl(1);
    }
    places
}

/// The number of the slot that `Store::slot_to_split` takes, where these are the witnesses in its order, and the best
/// placement has fences at these places. Above all numbers of slots where there is none.
fn place_to_split(unbroken: &[Unbroken], fenced: u64) -> usize {
    let mut first = usize::MAX;
    let Some(least) = unbroken.first() else {
        return first;
    };
    for found in unbroken {
        if found.slots != least.slots {
            break;
        }
        if let Some(place) = found.last_place_among(fenced) {
            first = first.min(place);
        }
    }
    first
}

/// What the cheapest offered kind costs that orders a pair at the slot which isn't among these.
fn least_break(offers: &Offers, slot: Slot, kept: Pairs) -> u64 {
    match break_at(offers, slot, kept) {
        Some(cost) => u64::from(cost),
        None => NEVER,
    }
}

/// What the placement costs. At the highest costs that is far below what never is.
pub(crate) fn cost(offers: &Offers, placement: &[Entry]) -> u64 {
    u64::try_from(fs_board_offers::cost(offers, placement)).unwrap_or(NEVER)
}

/// What the least placement of these decisions costs.
pub(crate) fn floor_cost(offers: &Offers, decisions: &[Decision]) -> u64 {
    u64::try_from(fs_board_offers::floor_cost(offers, decisions)).unwrap_or(NEVER)
}

impl Known {
    /// What breaking it takes at a node, where it shows the outcome under the node's least placement.
    fn unbroken(&self, number: usize, floor: &Codes, decisions: &[Decision]) -> Option<Unbroken> {
        if floor.is_within(&self.kept) {
            Some(Unbroken::of(number, &self.breaks, decisions))
        } else {
            None
        }
    }
}

impl Store {
    /// No witness yet.
    pub(crate) fn new(alloc: Global) -> Store
        ensures { result ≡ [] }
    {
        Store {
            known: Vec::new(alloc),
        }
    }

    /// Has a stored witness these widths?
    pub(crate) fn has_widths(&self, witness: &Witness) -> bool {
        let codes = Codes::of_widths(witness.widths.as_slice());
        for known in &self.known {
            if codes.is_within(&known.kept) && known.kept.is_within(&codes) {
                return true;
            }
        }
        false
    }

    /// Stores a witness. The decisions are those of any node. At `Err` nothing is changed.
    pub(crate) fn keep(
        &mut self,
        alloc: Global,
        offers: &Offers,
        decisions: &[Decision],
        witness: Arc<Witness>,
    ) -> Result<(), AllocError>
        ensures ok { OnOk result (self.new ≡ self.old ++ arc_value witness ∷ []) }
        ensures err { OnErr result (self.new ≡ self.old) }
    {
        let kept = Codes::of_widths(witness.widths.as_slice());
        let breaks = breaks_of(alloc, offers, decisions, witness.widths.as_slice())?;
        self.known.push(Known {
            witness,
            kept,
            breaks,
        })?;
        Ok(())
    }

    /// Stores a witness, and hands it out. At `Err` nothing is changed.
    pub(crate) fn add(
        &mut self,
        alloc: Global,
        offers: &Offers,
        decisions: &[Decision],
        witness: Witness,
    ) -> Result<Arc<Witness>, AllocError>
        ensures shared { IfOk result (λ w. arc_value w ≡ witness) }
        ensures ok { OnOk result (self.new ≡ self.old ++ witness ∷ []) }
        ensures err { OnErr result (self.new ≡ self.old) }
    {
        let witness = Arc::new(alloc, witness)?;
        let shared = Arc::try_clone(&witness)?;
        self.keep(alloc, offers, decisions, witness)?;
        Ok(shared)
    }

    /// The newest witness that shows the outcome with this placement.
    pub(crate) fn newest_over(&self, placement: &[Entry]) -> Option<&Arc<Witness>>
        ensures { IfSome result (λ w. (k : ℕ) × (slice_get self.now k ≡ Some (arc_value w.now))) }
    {
        let codes = Codes::of_placement(placement);
        for known in self.known.iter().rev() {
            if codes.is_within(&known.kept) {
                return Some(&known.witness);
            }
        }
        None
    }

    /// The witness of this number.
    fn get(&self, number: usize) -> Option<&Arc<Witness>>
        ensures { IfSome result (λ w. (k : ℕ) × (slice_get self.now k ≡ Some (arc_value w.now))) }
    {
        let known = self.known.get(number)?;
        Some(&known.witness)
    }

    /// Adds the witness, unless it shares a breakable slot with those that were added before.
    fn take(
        &self,
        picked: &mut Vec<Arc<Witness>>,
        sum: &mut Sum,
        found: &Unbroken,
    ) -> Result<(), AllocError>
        ensures { (t : Test) (ss : List SlotValue) → AreWitnesses t ss self.now
            → AreWitnesses t ss (map arc_value picked.old.items) → AreWitnesses t ss (map arc_value picked.new.items) }
    {
        if !sum.is_apart(found) {
            return Ok(());
        }
        let Some(witness) = self.get(found.number) else {
            return Ok(());
        };
        let shared = Arc::try_clone(witness)?;
        picked.push(shared)?;
        sum.add(found);
        Ok(())
    }

    /// The witnesses that show the outcome under a node's least placement: those first that are breakable at the fewest
    /// slots, and of these those whose least break is the highest.
    pub(crate) fn unbroken(
        &self,
        alloc: Global,
        floor: &Codes,
        decisions: &[Decision],
    ) -> Result<Vec<Unbroken>, AllocError> {
        let mut unbroken = Vec::new(alloc);
        for (number, known) in self.known.iter().enumerate() {
            if let Some(found) = known.unbroken(number, floor, decisions) {
                unbroken.push(found)?;
            }
        }
        unbroken.sort_unstable();
        Ok(unbroken)
    }

    /// Witnesses that bound the node of this part and cost too much to break together, taken greedily: each that shares
    /// no breakable slot with those taken. None where that doesn't close the node, with this bound.
    pub(crate) fn pick(
        &self,
        alloc: Global,
        offers: &Offers,
        bound: Option<&Arc<Forbidden>>,
        part: &Part,
    ) -> Result<Vec<Arc<Witness>>, AllocError>
        ensures { IfOk result (λ picked. (t : Test) (ss : List SlotValue) → AreWitnesses t ss self.now
            → AreWitnesses t ss (map arc_value picked.items)) }
    {
        let decisions = part.as_slice();
        let unbroken = self.unbroken(alloc, &Codes::of_floor(decisions), decisions)?;
        let limit = Limit::of(offers, bound, decisions);
        let sum = Sum::of(floor_cost(offers, decisions));
        self.take_greedily(alloc, &unbroken, sum, &limit)
    }

    /// The first of these witnesses, without those that share a breakable slot with one before, which cost too much to
    /// break together beside the sum. None where all of them don't.
    fn take_greedily(
        &self,
        alloc: Global,
        unbroken: &[Unbroken],
        sum: Sum,
        limit: &Limit,
    ) -> Result<Vec<Arc<Witness>>, AllocError>
        ensures { IfOk result (λ picked. (t : Test) (ss : List SlotValue) → AreWitnesses t ss self.now
            → AreWitnesses t ss (map arc_value picked.items)) }
    {
        let mut sum = sum;
        let mut picked = Vec::new(alloc);
        for found in unbroken {
            self.take(&mut picked, &mut sum, found)?;
            if sum.passes(limit) {
                return Ok(picked);
            }
        }
        Ok(Vec::new(alloc))
    }

    /// The slot at which a node of this part is best split. Of the witnesses that show the outcome under its least
    /// placement those count that are breakable at the fewest slots: so few ways are left open. Of each its last slot
    /// is taken at which the best placement known has a fence, or without one its last: first placements have their
    /// fences late, so what has one earlier is closed at equal cost. The first of the slots taken it is, since at equal
    /// cost nothing is closed before the earlier slots are decided as the best placement has them. None where no stored
    /// witness shows the outcome there, or no fence breaks it. The cost is that of `pick`.
    pub(crate) fn slot_to_split(
        &self,
        alloc: Global,
        best: Option<&Arc<Forbidden>>,
        part: &Part,
    ) -> Result<Option<Slot>, AllocError> {
        let decisions = part.as_slice();
        let unbroken = self.unbroken(alloc, &Codes::of_floor(decisions), decisions)?;
        let fenced = match best {
            Some(best) => fenced_places(best.placement.as_slice()),
            None => 0,
        };
        match decisions.get(place_to_split(&unbroken, fenced)) {
            Some(decision) => Ok(Some(decision.slot)),
            None => Ok(None),
        }
    }

    /// What these witnesses don't keep at the slot of this number: a bit for each set of pairs, by the bits of the
    /// pairs.
    pub(crate) fn lacks(&self, unbroken: &[Unbroken], place: usize) -> u16 {
        let mut lacks: u16 = 0;
        for found in unbroken {
            if let Some(known) = self.known.get(found.number) {
                lacks |= 1u16.wrapping_shl(known.kept.lacking_at(place));
            }
        }
        lacks
    }

    /// The witnesses, the newest last.
    pub(crate) fn witnesses(&self, alloc: Global) -> Result<Vec<Arc<Witness>>, AllocError>
        ensures { IfOk result (λ all. map arc_value all.items ≡ self.now) }
    {
        let mut all = Vec::new(alloc);
        for known in &self.known {
            all.push(Arc::try_clone(&known.witness)?)?;
        }
        Ok(all)
    }
}

/// What breaking an execution of these widths costs at each slot.
fn breaks_of(
    alloc: Global,
    offers: &Offers,
    decisions: &[Decision],
    widths: &[Pairs],
) -> Result<Vec<u64>, AllocError> {
    let mut breaks = Vec::new(alloc);
    for slot in 0..decisions.len().min(widths.len()) {
        let decision = &decisions[slot];
        breaks.push(least_break(offers, decision.slot, widths[slot]))?;
    }
    Ok(breaks)
}

/// What breaking the witnesses that were taken costs, with the node's least placement, and where they are breakable.
#[derive(Clone, Copy)]
pub(crate) struct Sum {
    total: u64,
    places: u64,
}

impl Sum {
    /// A least placement of this cost, and no witness yet.
    pub(crate) fn of(cost: u64) -> Sum {
        Sum {
            total: cost,
            places: 0,
        }
    }

    /// Does the witness share no breakable slot with those that were taken?
    pub(crate) fn is_apart(&self, found: &Unbroken) -> bool {
        found.places & self.places == 0
    }

    /// Takes one more.
    pub(crate) fn add(&mut self, found: &Unbroken) {
        self.total = self.total.saturating_add(NEVER.saturating_sub(found.lack));
        self.places |= found.places;
    }

    /// Does so much close the node?
    pub(crate) fn passes(&self, limit: &Limit) -> bool {
        limit.cost < self.total || limit.is_enough && limit.cost == self.total
    }
}

/// What a node must cost to be closed: at least so much, or more.
#[derive(Clone, Copy)]
pub(crate) struct Limit {
    cost: u64,
    is_enough: bool,
}

impl Limit {
    /// No cost closes a node but what can't be had at all.
    pub(crate) fn never() -> Limit {
        Limit::below(NEVER)
    }

    /// So much closes a node.
    pub(crate) fn below(cost: u64) -> Limit {
        Limit {
            cost,
            is_enough: true,
        }
    }

    /// More than this closes a node.
    pub(crate) fn up_to(cost: u64) -> Limit {
        Limit {
            cost,
            is_enough: false,
        }
    }

    /// The limit at a node of these decisions: at equal cost the best placement so far wins where the node's earliest
    /// placement isn't before it. Where there is none it is what can't be had at all.
    fn of(offers: &Offers, best: Option<&Arc<Forbidden>>, decisions: &[Decision]) -> Limit {
        let Some(best) = best else {
            return Limit::never();
        };
        let placement = best.placement.as_slice();
        Limit {
            cost: cost(offers, placement),
            is_enough: !earliest_precedes(offers, decisions, placement),
        }
    }
}
