//! What a searcher knows, and what it tries at a node. It asks nothing of the board, so it needs no lock.

ghost use Rattle.std.specs.Prelude.{◌≡◌, ◌≢◌, List, IfOk, IfErr, IfSome, IfNone, IsOkUnless, is_none, map, true, false};
ghost use Rattle.std.specs.List.{list_any};
ghost use Rattle.std.specs.Arc.{arc_value};
ghost use Rattle.fs_kinds.specs.Placement.{slots_of};
ghost use Rattle.fs_kinds.specs.declared.slot.Slot.{Slot as SlotValue};
ghost use Rattle.fs_model.specs.declared.test.Test.{Test};
ghost use Rattle.fs_cert_evidence.specs.CandidateFaults.{IsCandidateFault};
ghost use Rattle.fs_board_offers.specs.Offers.{slots};
ghost use Rattle.fs_board_offers.specs.Parts.{floor, is_undecided};
ghost use Rattle.fs_board_offers.specs.Parts.{slots_in_part};
ghost use Rattle.fs_model.specs.Execution.{Execution};
ghost use Rattle.fs_cert_evidence.specs.Evidence.{placement_in, IsWitnessAt};
ghost use Rattle.fs_board.specs.Growth.{AreWitnesses};
ghost use Rattle.fs_board.specs.Asking.{Tells};
ghost use Rattle.fs_board_search.specs.Tries.{IsPostable, IsTry, IsLast};

use crate::floor_and_filled::{
    forbidden_or_stored, is_filled_new, is_floor_allowed, is_floor_new, judge_floor,
    look_at_filled, stored_over_filled,
};
use crate::plan::{MOST_STEPS, cheapest_breaking};
use crate::store::{Store, cost, floor_cost};
use crate::taken::{Child, Taken, push_children};
use crate::watch::Watch;
use fs_board::{Decision, Event, Part, Reply};
use fs_board_offers::{Offers, Question, is_same};
use fs_cert_evidence::{Forbidden, Witness};
use fs_judge::{Judge, Problem, Team, Verdict};
use fs_kinds::{Fault, Kind, List, Placement, Slot};
use std::alloc::{AllocError, Global};
use std::marker::Model;
use std::sync::Arc;

/// The ways to be done with a node.
#[derive(Clone, Copy)]
pub enum Way {
    /// It is closed by cost alone.
    Cost,
    /// Stored witnesses bound it.
    Bound,
    /// A stored witness shows the outcome with `rw,rw` in each undecided slot.
    Stored,
    /// A witness that was looked for does.
    Looked,
    /// Its least placement forbids the outcome.
    Judged,
    /// It is split, or where it has no undecided slot its one placement is judged.
    Last,
}

impl Way {
    /// Does it judge a placement of the node?
    pub fn judges(self, taken: &Taken) -> bool {
        match self {
            Way::Cost | Way::Bound | Way::Stored => false,
            Way::Looked => is_filled_new(&taken.part, taken.slot),
            Way::Judged => is_floor_new(&taken.part, taken.slot),
            Way::Last => taken.part.first_undecided().is_none(),
        }
    }
}

/// The ways that are tried before the last one, in this order: what costs nothing first.
pub const TRIES: [Way; 5] = [Way::Cost, Way::Bound, Way::Stored, Way::Looked, Way::Judged];

/// A plan may ask for so many verdicts.
const MOST_ROUNDS: usize = 1_000;

/// So many verdicts at nodes are many.
const MANY_VERDICTS: usize = 16;

/// Where a verdict is made for so many nodes, judging takes longer than all else that is done with them.
const NODES_A_VERDICT: usize = 4;

/// A question, a judge of its test, the witnesses that were met, for how many verdicts the plan may still ask, how many
/// steps it may still take, the planned placement, how many verdicts were made at nodes, and what was seen of the
/// board: the best placement posted, and where a peek was learned, how many witnesses there were. Contracts see the
/// question.
#[derive(Drop)]
pub struct Scout {
    question: Arc<Question>,
    judge: Judge,
    store: Store,
    rounds: usize,
    steps: usize,
    planned: Option<Arc<Forbidden>>,
    verdicts: usize,
    bound: Option<Arc<Forbidden>>,
    seen: usize,
    has_looked: bool,
}

impl Model for Scout {
    ghost use Rattle.std.specs.Coded.{codes};
    ghost use Rattle.fs_model.specs.contracts.outcome.Outcome as outcome;
    ghost use Rattle.fs_board_offers.specs.Questions.{Question as Asked};
    ghost use Rattle.std.specs.Prelude.{◌≡◌, IfSome};
    ghost use Rattle.std.specs.Arc.{arc_value};
    ghost use Rattle.fs_board_offers.specs.Offers.{slots};
    ghost use Rattle.fs_board.specs.Growth.{AreWitnesses};
    ghost use Rattle.fs_board_search.specs.Tries.{IsPostable};

    ghost Value = { Asked };

    ghost view = { λ s. arc_value s.question };

    ghost coded = { Prim.hlevel (codes, outcome.the_row.coded) };

    ghost invariant = { λ s. (s.judge ≡ (arc_value s.question).test)
        × AreWitnesses (arc_value s.question).test (slots (arc_value s.question).offers) s.store
        × IfSome s.planned (λ f. IsPostable (arc_value s.question).test (arc_value f)) };
}

/// Stores the witness, unless a stored one has the same widths.
fn keep_new(
    alloc: Global,
    store: &mut Store,
    offers: &Offers,
    decisions: &[Decision],
    witness: &Arc<Witness>,
) -> Result<(), AllocError>
    ensures { (t : Test) (ss : List SlotValue) → ((e : Execution) × IsWitnessAt t ss (arc_value witness.now) e)
        → AreWitnesses t ss store.old → AreWitnesses t ss store.new }
{
    if store.has_widths(witness) {
        return Ok(());
    }
    let shared = Arc::try_clone(witness)?;
    store.keep(alloc, offers, decisions, shared)?;
    Ok(())
}

/// Stores those of the witnesses whose widths no stored one has.
fn keep_all(
    alloc: Global,
    store: &mut Store,
    offers: &Offers,
    decisions: &[Decision],
    witnesses: &[Arc<Witness>],
) -> Result<(), AllocError>
    ensures { (t : Test) (ss : List SlotValue) → AreWitnesses t ss (map arc_value witnesses.now)
        → AreWitnesses t ss store.old → AreWitnesses t ss store.new }
{
    for witness in witnesses {
        keep_new(alloc, store, offers, decisions, witness)?;
    }
    Ok(())
}

/// The number of the kind, or none, among the ways to decide the slot: none first, then the kinds offered there.
fn number_of(offers: &Offers, slot: Slot, kind: Option<Kind>) -> usize {
    let Some(kind) = kind else {
        return 0;
    };
    let mut number: usize = 1;
    for other in Kind::ALL {
        if other < kind && offers.is_offered(slot, Some(other)) {
            number = number.saturating_add(1);
        }
    }
    number
}

/// Has the placement all that is decided?
fn is_under(part: &Part, placement: &Placement) -> bool {
    let (decisions, entries) = (part.as_slice(), placement.as_slice());
    for number in 0..decisions.len().min(entries.len()) {
        let (decision, entry) = (&decisions[number], &entries[number]);
        if let Some(kind) = decision.decided {
            if kind != entry.kind {
                return false;
            }
        }
    }
    true
}

/// The placement posted, shared.
fn share(bound: Option<&Arc<Forbidden>>) -> Result<Option<Arc<Forbidden>>, AllocError> {
    match bound {
        Some(forbidden) => Ok(Some(Arc::try_clone(forbidden)?)),
        None => Ok(None),
    }
}

impl Scout {
    /// A scout that has met no witness yet, and makes no plan. Others may share the question, and the problem of its
    /// test.
    pub fn new(alloc: Global, question: Arc<Question>, problem: Arc<Problem>) -> Scout
        requires { arc_value problem ≡ (arc_value question).test }
        ensures { result ≡ arc_value question }
    {
        Scout {
            question,
            judge: Judge::new(alloc, problem),
            store: Store::new(alloc),
            rounds: 0,
            steps: MOST_STEPS,
            planned: None,
            verdicts: 0,
            bound: None,
            seen: 0,
            has_looked: false,
        }
    }

    /// A scout that has met no witness yet, and makes a plan where it is told to prepare.
    pub fn planner(alloc: Global, question: Arc<Question>, problem: Arc<Problem>) -> Scout
        requires { arc_value problem ≡ (arc_value question).test }
        ensures { result ≡ arc_value question }
    {
        let mut scout = Scout::new(alloc, question, problem);
        scout.rounds = MOST_ROUNDS;
        scout
    }

    /// Makes the plan, where one is still to be made: the cheapest placement that breaks all stored witnesses is
    /// judged, and where it allows the outcome, a witness is stored, and so on. One that forbids it is the plan. The
    /// node is any of the board. There is no plan where no placement breaks all witnesses, and where it takes too long.
    /// The watch is told of each round; the team may hunt for its verdicts.
    pub fn prepare<W: Watch, T: Team>(
        &mut self,
        alloc: Global,
        taken: &Taken,
        watch: &mut W,
        team: &T,
    ) -> Result<(), Fault>
        requires team { T.may_hunt }
        requires slots { slots_in_part (arc_value taken.now.part) ≡ slots self.old.offers }
        ensures value { self.new ≡ self.old }
        ensures err { IfErr result (λ f. f ≢ Fault.Memory → IsCandidateFault self.old.test f) }
    {
        for _ in 0..self.rounds {
            if self.rounds == 0 {
                break;
            }
            watch.planned();
            self.plan(alloc, taken, team)?;
        }
        Ok(())
    }

    /// One round of what `prepare` does, where the plan is still to be made.
    fn plan<T: Team>(&mut self, alloc: Global, taken: &Taken, team: &T) -> Result<(), Fault>
        requires team { T.may_hunt }
        requires slots { slots_in_part (arc_value taken.now.part) ≡ slots self.old.offers }
        ensures value { self.new ≡ self.old }
        ensures err { IfErr result (λ f. f ≢ Fault.Memory → IsCandidateFault self.old.test f) }
    {
        if self.rounds == 0 {
            return Ok(());
        }
        let is_last = self.judge_cheapest(alloc, &taken.part, team)?;
        self.rounds = if is_last {
            0
        } else {
            self.rounds.saturating_sub(1)
        };
        Ok(())
    }

    /// Judges the cheapest placement that breaks all stored witnesses. True where the plan needs no other round.
    fn judge_cheapest<T: Team>(
        &mut self,
        alloc: Global,
        part: &Part,
        team: &T,
    ) -> Result<bool, Fault>
        requires team { T.may_hunt }
        requires slots { slots_in_part part.now ≡ slots self.old.offers }
        ensures value { self.new ≡ self.old }
        ensures err { IfErr result (λ f. f ≢ Fault.Memory → IsCandidateFault self.old.test f) }
    {
        let Some(placement) = self.cheapest(alloc, part)? else {
            return Ok(true);
        };
        let found = self.judge_by(alloc, part, &placement, team)?;
        let Some(forbidden) = found else {
            return Ok(false);
        };
        self.plan_on(Arc::new(alloc, forbidden)?);
        Ok(true)
    }

    /// The cheapest placement that breaks all stored witnesses, where there is one and the steps are enough.
    fn cheapest(&mut self, alloc: Global, part: &Part) -> Result<Option<Placement>, AllocError>
        ensures value { self.new ≡ self.old }
        ensures slots { IfOk result (λ found. IfSome found (λ p. slots_of p ≡ slots_in_part part.now)) }
    {
        let offers = self.question.offers();
        let mut steps = self.steps;
        let cheapest = cheapest_breaking(alloc, &self.store, offers, part, &mut steps)?;
        self.steps = steps;
        Ok(cheapest)
    }

    /// What forbids the outcome, where the placement does; else the verdict's witness is stored. The team may hunt for
    /// the verdict.
    fn judge_by<T: Team>(
        &mut self,
        alloc: Global,
        part: &Part,
        placement: &Placement,
        team: &T,
    ) -> Result<Option<Forbidden>, Fault>
        requires team { T.may_hunt }
        requires slots { slots_of placement.now ≡ slots self.old.offers }
        ensures value { self.new ≡ self.old }
        ensures ok { IfOk result (λ found. IfSome found (IsPostable self.old.test)) }
        ensures err { IfErr result (λ f. f ≢ Fault.Memory → IsCandidateFault self.old.test f) }
    {
        let verdict = self.judge.verdict_by(alloc, placement, &[], team)?;
        let offers = self.question.offers();
        let found = forbidden_or_stored(alloc, offers, &mut self.store, part, verdict)?;
        Ok(found)
    }

    /// Takes this placement as the planned one.
    fn plan_on(&mut self, forbidden: Arc<Forbidden>)
        requires { IsPostable self.old.test (arc_value forbidden) }
        ensures { self.new ≡ self.old }
    {
        self.planned = Some(forbidden);
    }

    /// The planned placement, where it is the least one of the part.
    fn planned_floor(
        &self,
        alloc: Global,
        part: &Part,
    ) -> Result<Option<Arc<Forbidden>>, AllocError>
        ensures { IfOk result (λ found. IfSome found (λ f. IsPostable self.now.test (arc_value f)
            × (placement_in f ≡ floor part.now))) }
    {
        let Some(planned) = &self.planned else {
            return Ok(None);
        };
        let floor = part.floor(alloc)?;
        if !is_same(planned.placement.as_slice(), floor.as_slice()) {
            return Ok(None);
        }
        Ok(Some(Arc::try_clone(planned)?))
    }

    /// The number, among the children of the node that are made by a split at the slot, of that under which the planned
    /// placement stands.
    fn planned_child(&self, taken: &Taken, slot: Slot) -> Option<usize> {
        let planned = self.planned.as_ref()?;
        if !is_under(&taken.part, &planned.placement) {
            return None;
        }
        let offers = self.question.offers();
        Some(number_of(offers, slot, planned.placement.get(slot)))
    }

    /// Puts the children on the stack that the event made of the node, by what was replied to it: the first one last,
    /// but for that under which the planned placement stands, which is on top.
    pub fn keep_children(
        &self,
        children: &mut Vec<Child>,
        taken: &Taken,
        event: &Event,
        reply: &Reply,
    ) -> Result<(), AllocError> {
        let Event::Split(_, slot) = event else {
            return Ok(());
        };
        push_children(children, *slot, reply, self.planned_child(taken, *slot))
    }

    /// Is judging what takes the time, when the scout was at so many nodes? Then other scouts may help: it has asked
    /// for many verdicts at nodes, beside those of the plan, and for one at every fourth node or more. Where a plan
    /// holds, no node asks for any.
    pub fn judges_much(&self, nodes: usize) -> bool {
        self.verdicts >= MANY_VERDICTS && self.verdicts >= nodes / NODES_A_VERDICT
    }

    /// The witnesses that were met, for others who search.
    pub fn witnesses(&self, alloc: Global) -> Result<Vec<Arc<Witness>>, AllocError>
        ensures { IfOk result (λ all. AreWitnesses self.now.test (slots self.now.offers) (map arc_value all.items)) }
    {
        self.store.witnesses(alloc)
    }

    /// Meets witnesses that another one has found. The decisions are those of any node.
    pub fn meet(
        &mut self,
        alloc: Global,
        decisions: &[Decision],
        witnesses: &[Arc<Witness>],
    ) -> Result<(), AllocError>
        requires { AreWitnesses self.old.test (slots self.old.offers) (map arc_value witnesses.now) }
        ensures { self.new ≡ self.old }
    {
        let offers = self.question.offers();
        keep_all(alloc, &mut self.store, offers, decisions, witnesses)
    }

    /// Was the board looked at?
    pub fn has_looked(&self) -> bool {
        self.has_looked
    }

    /// How many of the board's witnesses were seen.
    pub fn seen(&self) -> usize {
        self.seen
    }

    /// Was a posted placement seen?
    pub fn has_bound(&self) -> bool {
        self.bound.is_some()
    }

    /// Takes over the best placement posted.
    pub fn see_bound(&mut self, bound: Option<&Arc<Forbidden>>) -> Result<(), AllocError>
        ensures { self.new ≡ self.old }
    {
        self.bound = share(bound)?;
        Ok(())
    }

    /// A cut by cost, unless the node's least placement costs less than the best one posted: then there is none.
    fn costly(&self, taken: &Taken) -> Option<Event>
        ensures { IfSome result (IsTry self.now) }
    {
        let bound = self.bound.as_ref()?;
        let offers = self.question.offers();
        let is_cheaper = floor_cost(offers, taken.part.as_slice())
            < cost(offers, bound.placement.as_slice());
        if is_cheaper {
            None
        } else {
            Some(Event::CutCost(taken.node))
        }
    }

    /// Stored witnesses that bound the node.
    fn bounding(&self, alloc: Global, taken: &Taken) -> Result<Option<Event>, AllocError>
        ensures { IfOk result (λ found. IfSome found (IsTry self.now)) }
    {
        let offers = self.question.offers();
        let picked = self
            .store
            .pick(alloc, offers, self.bound.as_ref(), &taken.part)?;
        if picked.is_empty() {
            return Ok(None);
        }
        Ok(Some(Event::CutBound(taken.node, List::new(picked))))
    }

    /// A stored witness that closes the node.
    fn stored(&self, alloc: Global, taken: &Taken) -> Result<Option<Event>, AllocError>
        ensures { IfOk result (λ found. IfSome found (IsTry self.now)) }
    {
        let Some(witness) = stored_over_filled(alloc, &self.store, &taken.part)? else {
            return Ok(None);
        };
        Ok(Some(Event::CutWitness(taken.node, witness)))
    }

    /// A new witness that closes the node.
    fn looked(&mut self, alloc: Global, taken: &Taken) -> Result<Option<Event>, Fault>
        requires { slots_in_part (arc_value taken.now.part) ≡ slots self.old.offers }
        ensures value { self.new ≡ self.old }
        ensures made { IfOk result (λ found. IfSome found (IsTry self.old)) }
        ensures err { IsOkUnless result Fault.Memory }
    {
        let found = look_at_filled(
            alloc,
            &mut self.judge,
            self.question.offers(),
            &mut self.store,
            &taken.part,
        )?;
        let Some(witness) = found else {
            return Ok(None);
        };
        Ok(Some(Event::CutWitness(taken.node, witness)))
    }

    /// The node's least placement, where it forbids the outcome.
    fn judged(&mut self, alloc: Global, taken: &Taken) -> Result<Option<Event>, Fault>
        requires { slots_in_part (arc_value taken.now.part) ≡ slots self.old.offers }
        ensures value { self.new ≡ self.old }
        ensures made { IfOk result (λ found. IfSome found (IsTry self.old)) }
        ensures err { IfErr result (λ f. f ≢ Fault.Memory → IsCandidateFault self.old.test f) }
    {
        if let Some(planned) = self.planned_floor(alloc, &taken.part)? {
            return Ok(Some(Event::Post(taken.node, planned)));
        }
        if is_floor_allowed(alloc, &self.store, &taken.part)? {
            return Ok(None);
        }
        self.judged_anew(alloc, taken)
    }

    /// The same by one more verdict.
    fn judged_anew(&mut self, alloc: Global, taken: &Taken) -> Result<Option<Event>, Fault>
        requires { slots_in_part (arc_value taken.now.part) ≡ slots self.old.offers }
        ensures value { self.new ≡ self.old }
        ensures made { IfOk result (λ found. IfSome found (IsTry self.old)) }
        ensures err { IfErr result (λ f. f ≢ Fault.Memory → IsCandidateFault self.old.test f) }
    {
        self.verdicts = self.verdicts.saturating_add(1);
        let found = judge_floor(
            alloc,
            &mut self.judge,
            self.question.offers(),
            &mut self.store,
            &taken.part,
        )?;
        let Some(forbidden) = found else {
            return Ok(None);
        };
        Ok(Some(Event::Post(taken.node, Arc::new(alloc, forbidden)?)))
    }

    /// The slot at which a node of this part is split: the one of `Store::slot_to_split`, where there is one, else the
    /// first undecided one. None where each slot is decided.
    fn slot_to_split(&self, alloc: Global, part: &Part) -> Result<Option<Slot>, AllocError>
        ensures some { IfOk result (λ found. IfSome found (λ slot. is_undecided slot part.now ≡ true)) }
        ensures none { IfOk result (λ found. IfNone found (list_any (λ d. is_none d.decided) part.now ≡ false)) }
    {
        let best = self.bound.as_ref().or(self.planned.as_ref());
        if let Some(slot) = self.store.slot_to_split(alloc, best, part)? {
            if part.is_undecided(slot) {
                return Ok(Some(slot));
            }
        }
        Ok(part.first_undecided())
    }

    /// What is left to try: a split, or a verdict on the one placement. It is done with the node, whoever holds it,
    /// unless there is no room for the children.
    pub fn last(&mut self, alloc: Global, taken: &Taken) -> Result<Event, Fault>
        requires { slots_in_part (arc_value taken.now.part) ≡ slots self.old.offers }
        ensures value { self.new ≡ self.old }
        ensures made { IfOk result (IsTry self.old) }
        ensures last { IfOk result (IsLast self.old.test taken.now.node (arc_value taken.now.part)) }
        ensures err { IfErr result (λ f. f ≢ Fault.Memory → IsCandidateFault self.old.test f) }
    {
        match self.slot_to_split(alloc, &taken.part)? {
            Some(slot) => Ok(Event::Split(taken.node, slot)),
            None => self.last_verdict(alloc, taken),
        }
    }

    /// The verdict on the one placement of a node that has no undecided slot, as what it asks of the board.
    fn last_verdict(&mut self, alloc: Global, taken: &Taken) -> Result<Event, Fault>
        requires slots { slots_in_part (arc_value taken.now.part) ≡ slots self.old.offers }
        requires whole { list_any (λ d. is_none d.decided) (arc_value taken.now.part) ≡ false }
        ensures value { self.new ≡ self.old }
        ensures made { IfOk result (IsTry self.old) }
        ensures last { IfOk result (IsLast self.old.test taken.now.node (arc_value taken.now.part)) }
        ensures err { IfErr result (λ f. f ≢ Fault.Memory → IsCandidateFault self.old.test f) }
    {
        if let Some(planned) = self.planned_floor(alloc, &taken.part)? {
            return Ok(Event::Post(taken.node, planned));
        }
        self.verdicts = self.verdicts.saturating_add(1);
        let floor = taken.part.floor(alloc)?;
        let verdict = self.judge.verdict(alloc, &floor, &[])?;
        match verdict {
            Verdict::Allowed(witness) => {
                let shared = Arc::new(alloc, witness)?;
                Ok(Event::CutWitness(taken.node, shared))
            }
            Verdict::Forbids(forbidden) => Ok(Event::Post(taken.node, Arc::new(alloc, forbidden)?)),
        }
    }

    /// What to ask of the board about a node, in this way: nothing where this way isn't worth a try.
    pub fn propose(
        &mut self,
        alloc: Global,
        way: Way,
        taken: &Taken,
    ) -> Result<Option<Event>, Fault>
        requires { slots_in_part (arc_value taken.now.part) ≡ slots self.old.offers }
        ensures value { self.new ≡ self.old }
        ensures made { IfOk result (λ found. IfSome found (IsTry self.old)) }
        ensures err { IfErr result (λ f. f ≢ Fault.Memory → IsCandidateFault self.old.test f) }
    {
        match way {
            Way::Cost => Ok(self.costly(taken)),
            Way::Bound => Ok(self.bounding(alloc, taken)?),
            Way::Stored => Ok(self.stored(alloc, taken)?),
            Way::Looked if is_filled_new(&taken.part, taken.slot) => self.looked(alloc, taken),
            Way::Judged if is_floor_new(&taken.part, taken.slot) => self.judged(alloc, taken),
            Way::Looked | Way::Judged => Ok(None),
            Way::Last => Ok(Some(self.last(alloc, taken)?)),
        }
    }

    /// Takes over what a peek shows. The decisions are those of any node.
    pub fn learn(
        &mut self,
        alloc: Global,
        decisions: &[Decision],
        reply: &Reply,
    ) -> Result<(), AllocError>
        requires { Tells self.old reply.now }
        ensures { self.new ≡ self.old }
    {
        let Reply::Seen(bound, count, witnesses) = reply else {
            return Ok(());
        };
        let shared = share(bound.as_ref())?;
        let offers = self.question.offers();
        keep_all(
            alloc,
            &mut self.store,
            offers,
            decisions,
            witnesses.as_slice(),
        )?;
        self.bound = shared;
        self.seen = *count;
        self.has_looked = true;
        Ok(())
    }
}
