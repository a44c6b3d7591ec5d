//! The board: the tree, and the log of all events.

ghost use Rattle.std.specs.Prelude.{◌≡◌, ℕ, ◌+◌, ◌<◌, ◌≤◌, length, [], ◌∷◌, ◌++◌, Some, IfSome, IfNone, IfOk, OnOk};
ghost use Rattle.std.specs.Prelude.{OnErr, IsOkUnless, option_map, vec_len, slice_get, true, false, map, drop};
ghost use Rattle.std.specs.Vec.{vec_capacity};
ghost use Rattle.std.specs.Arc.{arc_value};
ghost use Rattle.fs_model.specs.Allows.{Allows};
ghost use Rattle.fs_model.specs.Execution.{Execution};
ghost use Rattle.fs_board_offers.specs.Parts.{Part as PartValue, floor};
ghost use Rattle.fs_board_offers.specs.Pruning.{is_no_better};
ghost use Rattle.fs_board_offers.specs.Board.{Node as NodeValue, Event as EventValue, Reply as ReplyValue, Take};
ghost use Rattle.fs_board_offers.specs.Board.{Claim, Adopt, SplitAt, CutCost, CutWitness, CutBound, Post, Peek, Given};
ghost use Rattle.fs_board_offers.specs.Board.{Seen, Closed, Held, is_open, is_held, has_node, part_at, opening};
ghost use Rattle.fs_board_offers.specs.Board.{with_status};
ghost use Rattle.fs_board_offers.specs.Histories.{Steps, IsHistory, with_witnesses};
ghost use Rattle.fs_board.specs.Counts.{count_of};
ghost use Rattle.fs_cert_evidence.specs.Evidence.{Shown, ShowsForbidden, witness_in, placement_in, IsWitnessAt};
ghost use Rattle.fs_board_offers.specs.Bests.{is_best};
ghost use Rattle.fs_board_offers.specs.Offers.{AreOffers, slots};
ghost use Rattle.fs_board.specs.Growth.{AreWitnesses};
ghost use Rattle.fs_board.specs.View.{Answers, status_of, event_of, reply_of};
ghost use Rattle.fs_board.specs.Asking.{IsMade, Tells};
ghost use Rattle.fs_board.specs.inner.Breaks.{is_bounded, widths_in};

use crate::bounds::{are_kept, bound_of, break_apart};
use crate::event::{Event, LogEntry, Reply};
use crate::node::{Status, children_of};
use crate::part::Part;
use crate::tree::Tree;
use fs_board_offers::{OPTIONS, Offers, Question, is_best, is_kept, is_no_better, is_same};
use fs_cert_evidence::{Decision, Forbidden, Witness};
use fs_kinds::{Entry, Fault, Kind, List, Slot};
use std::alloc::{AllocError, Global};
use std::marker::Model;
use std::sync::Arc;

/// The nodes of a search, with the log of all events. The log is a legal history, and leads to the nodes as they are.
/// The bound has what shows that it forbids the outcome, and each witness is one of an execution of the test, with its
/// widths at the slots of the offers.
#[derive(Drop)]
pub struct Board {
    question: Arc<Question>,
    tree: Tree,
    log: Vec<LogEntry>,
}

impl Model for Board {
    ghost use Rattle.std.specs.Arc.{arc_value};
    ghost use Rattle.fs_board.specs.Growth.{board_of};
    ghost use Rattle.fs_board.specs.View.{Search, IsSound};
    ghost use Rattle.std.specs.Coded.{codes};
    ghost use Rattle.fs_model.specs.contracts.outcome.Outcome as outcome;

    ghost Value = { Search };

    ghost view = { λ b. record { question = arc_value b.question; board = board_of b.tree; log = b.log.items } };

    ghost coded = { Prim.hlevel (codes, outcome.the_row.coded) };

    ghost invariant = { λ b. IsSound (arc_value b.question) b.tree b.log.items };
}

/// Adds an item for which there is room.
fn push_within<T: Drop>(list: &mut Vec<T>, item: T)
    requires { vec_len list.old < vec_capacity list.old }
    ensures { list.new.items ≡ list.old.items ++ item ∷ [] }
{
    match list.push(item) {
        Ok(()) => {}
        Err(_) => unreachable!(),
    }
}

impl Board {
    /// The board with one open node, which is wholly undecided, and an empty log. No node's number may pass the limit.
    /// The error is F19. It takes time of slots.
    pub fn new(alloc: Global, question: Arc<Question>, limit: usize) -> Result<Board, Fault>
        requires limit { limit ≤ 1000000 }
        ensures ok { IfOk result (λ b. b
            ≡ record { question = arc_value question; board = opening (arc_value question).offers limit; log = [] }) }
        ensures err { IsOkUnless result Fault.Memory }
    {
        let places = question.offers().slots(alloc)?;
        let root = Part::undecided(alloc, &places)?;
        let tree = Tree::new(alloc, root, limit)?;
        Ok(Board {
            question,
            tree,
            log: Vec::new(alloc),
        })
    }

    /// What may stand at the slots.
    fn offers(&self) -> &Offers
        ensures { result.now ≡ self.now.question.offers }
    {
        self.question.offers()
    }

    /// What is asked.
    pub fn question(&self) -> &Arc<Question>
        ensures { arc_value result.now ≡ self.now.question }
    {
        &self.question
    }

    /// The greatest number that a node may have.
    pub fn limit(&self) -> usize
        ensures { result ≡ self.now.board.limit }
    {
        self.tree.limit()
    }

    /// How many nodes there are.
    pub fn len(&self) -> usize
        ensures { result ≡ length self.now.board.nodes }
    {
        self.tree.len()
    }

    /// What became of the node of this number, where there is one.
    pub fn status(&self, node: usize) -> Option<Status>
        ensures { option_map status_of result ≡ option_map (λ n. n.status) (slice_get self.now.board.nodes node) }
    {
        self.tree.status(node)
    }

    /// A node that a worker holds, where there is one. It takes time of nodes.
    pub fn any_held(&self) -> Option<usize>
        ensures some { IfSome result (λ k. (p : PartValue) × (part_at is_held self.now.board k ≡ Some p)) }
        ensures none { IfNone result (has_node is_held self.now.board ≡ false) }
    {
        self.tree.any_held()
    }

    /// The best placement posted, with what shows that it forbids the outcome.
    pub fn bound(&self) -> Option<&Arc<Forbidden>>
        ensures value { option_map (λ f. placement_in f.now) result ≡ self.now.board.bound }
        ensures cycles { IfSome result (λ f. ShowsForbidden self.now.question.test (arc_value f.now)) }
    {
        self.tree.bound()
    }

    /// What closed nodes, in order, each with its execution's widths.
    pub fn witnesses(&self) -> &[Arc<Witness>]
        ensures value { map witness_in result.now ≡ self.now.board.witnesses }
        ensures widths { AreWitnesses self.now.question.test (slots self.now.question.offers) (map arc_value result.now) }
    {
        self.tree.witnesses()
    }

    /// How many nodes are open.
    pub fn open_count(&self) -> usize
        ensures { result ≡ count_of is_open self.now.board.nodes }
    {
        self.tree.open_count()
    }

    /// All events with their replies, in order: a legal history that leads to the board.
    pub fn log(&self) -> &[LogEntry]
        ensures value { result.now ≡ self.now.log }
        ensures offers { AreOffers self.now.question.offers }
        ensures legal { IsHistory self.now.question.test self.now.question.offers self.now.board.limit self.now.log
            self.now.board }
    {
        self.log.as_slice()
    }

    /// Logs an event that leaves the nodes as they are, with a second copy of its reply.
    fn refuse(
        &mut self,
        worker: u8,
        event: Event,
        reply: Reply,
        copy: Reply,
    ) -> Result<Reply, AllocError>
        requires step { Steps self.old.question.test self.old.question.offers self.old.board worker (event_of event)
            (reply_of reply) self.old.board }
        requires copy { reply_of copy ≡ reply_of reply }
        ensures given { IfOk result (λ r. r ≡ reply) }
        ensures step { IfOk result (λ r. Answers self.old self.new worker (event_of event) (reply_of r)) }
        ensures err { OnErr result (self.new ≡ self.old) }
    {
        self.log.push(LogEntry::new(worker, event, copy))?;
        Ok(reply)
    }

    /// Hands out a node.
    fn hand_out(
        &mut self,
        worker: u8,
        event: Event,
        node: usize,
        part: Arc<Part>,
    ) -> Result<Reply, AllocError>
        requires there { (n : NodeValue) × (slice_get self.old.board.nodes node ≡ Some n) × (n.part ≡ arc_value part) }
        requires may { Steps self.old.question.test self.old.question.offers self.old.board worker (event_of event)
            (Given node (arc_value part)) (with_status (Held worker) node (arc_value part) self.old.board) }
        ensures step { IfOk result (λ r. Answers self.old self.new worker (event_of event) (reply_of r)) }
        ensures err { OnErr result (self.new ≡ self.old) }
    {
        let copy = Arc::try_clone(&part)?;
        self.log.reserve(1)?;
        self.tree.mark(node, Status::Held(worker));
        let reply = Reply::Node(node, copy);
        push_within(&mut self.log, LogEntry::new(worker, event, reply));
        Ok(Reply::Node(node, part))
    }

    /// Closes a node so.
    fn close(
        &mut self,
        worker: u8,
        event: Event,
        node: usize,
        status: Status,
    ) -> Result<Reply, AllocError>
        requires closed { is_open (status_of status) ≡ false }
        requires may { (n : NodeValue) × (slice_get self.old.board.nodes node ≡ Some n)
            × Steps self.old.question.test self.old.question.offers self.old.board worker (event_of
            event) Closed (with_status (status_of status) node n.part self.old.board) }
        ensures step { IfOk result (λ r. Answers self.old self.new worker (event_of event) (reply_of r)) }
        ensures err { OnErr result (self.new ≡ self.old) }
    {
        self.log.reserve(1)?;
        self.tree.mark(node, status);
        push_within(&mut self.log, LogEntry::new(worker, event, Reply::Closed));
        Ok(Reply::Closed)
    }

    /// Closes a node so, by witnesses that go last in the list.
    fn cover(
        &mut self,
        worker: u8,
        event: Event,
        node: usize,
        status: Status,
        witnesses: Vec<Arc<Witness>>,
    ) -> Result<Reply, AllocError>
        requires closed { is_open (status_of status) ≡ false }
        requires widths { AreWitnesses self.old.question.test (slots self.old.question.offers)
            (map arc_value witnesses.items) }
        requires may { (n : NodeValue) × (slice_get self.old.board.nodes node ≡ Some n)
            × Steps self.old.question.test self.old.question.offers self.old.board worker (event_of
            event) Closed (with_witnesses (status_of status) node n.part (map witness_in
            witnesses.items) self.old.board) }
        ensures step { IfOk result (λ r. Answers self.old self.new worker (event_of event) (reply_of r)) }
        ensures err { OnErr result (self.new ≡ self.old) }
    {
        self.log.reserve(1)?;
        self.tree.cover(node, status, witnesses)?;
        push_within(&mut self.log, LogEntry::new(worker, event, Reply::Closed));
        Ok(Reply::Closed)
    }

    /// Hands out any open node. Where none is open, `Idle` if some node is held, else `Done`. All calls together look
    /// at each node once.
    pub fn take(&mut self, worker: u8) -> Result<Reply, AllocError>
        ensures step { IfOk result (λ r. Answers self.old self.new worker Take (reply_of r)) }
        ensures err { OnErr result (self.new ≡ self.old) }
    {
        let Some(node) = self.tree.any_open() else {
            if self.tree.has_held() {
                return self.refuse(worker, Event::Take, Reply::Idle, Reply::Idle);
            }
            return self.refuse(worker, Event::Take, Reply::Done, Reply::Done);
        };
        let part = Arc::try_clone(self.tree.part(node))?;
        self.hand_out(worker, Event::Take, node, part)
    }

    /// Hands out this node where it is open, else `Gone`.
    pub fn claim(&mut self, worker: u8, node: usize) -> Result<Reply, AllocError>
        ensures step { IfOk result (λ r. Answers self.old self.new worker (Claim node) (reply_of r)) }
        ensures err { OnErr result (self.new ≡ self.old) }
    {
        let Some(found) = self.tree.open_at(node) else {
            return self.refuse(worker, Event::Claim(node), Reply::Gone, Reply::Gone);
        };
        let part = Arc::try_clone(found)?;
        self.hand_out(worker, Event::Claim(node), node, part)
    }

    /// Hands over this node where anybody holds it, else `Gone`.
    pub fn adopt(&mut self, worker: u8, node: usize) -> Result<Reply, AllocError>
        ensures step { IfOk result (λ r. Answers self.old self.new worker (Adopt node) (reply_of r)) }
        ensures err { OnErr result (self.new ≡ self.old) }
    {
        let Some(found) = self.tree.held_at(node) else {
            return self.refuse(worker, Event::Adopt(node), Reply::Gone, Reply::Gone);
        };
        let part = Arc::try_clone(found)?;
        self.hand_out(worker, Event::Adopt(node), node, part)
    }

    /// Splits a node at an undecided slot: one open child for none, and one for each kind that is offered there, in table order.
    /// `NotYours`; `Decided` where the slot is decided or none of the node's; `Full` where the last child's number
    /// would pass the limit. It takes time of slots times kinds.
    pub fn split(
        &mut self,
        alloc: Global,
        worker: u8,
        node: usize,
        slot: Slot,
    ) -> Result<Reply, AllocError>
        ensures step { IfOk result (λ r. Answers self.old self.new worker (SplitAt node slot) (reply_of r)) }
        ensures err { OnErr result (self.new ≡ self.old) }
    {
        let Some(part) = self.tree.held_by(worker, node) else {
            let event = Event::Split(node, slot);
            return self.refuse(worker, event, Reply::NotYours, Reply::NotYours);
        };
        if !part.is_undecided(slot) {
            let event = Event::Split(node, slot);
            return self.refuse(worker, event, Reply::Decided, Reply::Decided);
        }
        let children = children_of(alloc, self.offers(), part, slot, &OPTIONS)?;
        let first = self.tree.len();
        let count = children.len();
        if self.tree.limit() + 1 < first + count {
            return self.refuse(worker, Event::Split(node, slot), Reply::Full, Reply::Full);
        }
        self.log.reserve(1)?;
        self.tree.split(node, slot, children)?;
        let event = Event::Split(node, slot);
        let reply = Reply::Children(first, count);
        push_within(&mut self.log, LogEntry::new(worker, event, reply));
        Ok(Reply::Children(first, count))
    }

    /// Closes a node whose least placement is no better than the bound. `NotYours`; `Cheaper` where it is better, or
    /// there is no bound. It takes time of slots.
    #[tactic(auto, using(crate::proofs::Bests::pruned_by_cost))]
    pub fn cut_cost(&mut self, alloc: Global, worker: u8, node: usize) -> Result<Reply, AllocError>
        ensures step { IfOk result (λ r. Answers self.old self.new worker (CutCost node) (reply_of r)) }
        ensures err { OnErr result (self.new ≡ self.old) }
    {
        let Some(part) = self.tree.held_by(worker, node) else {
            let event = Event::CutCost(node);
            return self.refuse(worker, event, Reply::NotYours, Reply::NotYours);
        };
        let floor = part.least(alloc)?;
        if self.is_best(&floor) {
            return self.refuse(worker, Event::CutCost(node), Reply::Cheaper, Reply::Cheaper);
        }
        self.close(worker, Event::CutCost(node), node, Status::Costly)
    }

    /// Closes a node by a witness that shows the outcome with `rw,rw` at each undecided slot, and so under each
    /// placement below the node. `NotYours`; `NotCovered` where it doesn't. The witness must be one of the test, with
    /// its widths at the slots of the offers. It takes time of slots.
    pub fn cut_witness(
        &mut self,
        alloc: Global,
        worker: u8,
        node: usize,
        witness: Arc<Witness>,
    ) -> Result<Reply, AllocError>
        requires { (e : Execution)
            × IsWitnessAt self.old.question.test (slots self.old.question.offers) (arc_value witness) e }
        ensures step { IfOk result
            (λ r. Answers self.old self.new worker (CutWitness node (witness_in witness)) (reply_of r)) }
        ensures err { OnErr result (self.new ≡ self.old) }
    {
        let Some(part) = self.tree.held_by(worker, node) else {
            let event = Event::CutWitness(node, witness);
            return self.refuse(worker, event, Reply::NotYours, Reply::NotYours);
        };
        if !is_kept(part.as_slice(), &witness.widths, Some(Kind::RwRw)) {
            let event = Event::CutWitness(node, witness);
            return self.refuse(worker, event, Reply::NotCovered, Reply::NotCovered);
        }
        let one = single(alloc, &witness)?;
        let status = Status::Witnessed(self.tree.witness_count());
        let event = Event::CutWitness(node, witness);
        self.cover(worker, event, node, status, one)
    }

    /// Closes a node by witnesses that show the outcome under its least placement: what forbids the outcome under the
    /// node costs no less than that placement and breaking each of them, which is no better than the bound. `NotYours`;
    /// `NotCovered` where one of them doesn't show it; `Cheaper` where two of them can be broken at one slot, or
    /// something under the node may be better than the bound. The witnesses must be ones of the test, with their
    /// widths at the slots of the offers. It takes time of slots times kinds times witnesses.
    pub fn cut_bound(
        &mut self,
        alloc: Global,
        worker: u8,
        node: usize,
        witnesses: &[Arc<Witness>],
    ) -> Result<Reply, AllocError>
        requires { (k : ℕ) (w : Shown) → slice_get (map arc_value witnesses.now) k ≡ Some w → (e : Execution)
            × IsWitnessAt self.old.question.test (slots self.old.question.offers) w e }
        ensures step { IfOk result
            (λ r. Answers self.old self.new worker (CutBound node (map witness_in witnesses.now)) (reply_of r)) }
        ensures err { OnErr result (self.new ≡ self.old) }
    {
        let listed = List::new(share(alloc, witnesses)?);
        self.bound_by(alloc, worker, node, listed)
    }

    /// Closes a node by these witnesses, which go into the log as they are.
    fn bound_by(
        &mut self,
        alloc: Global,
        worker: u8,
        node: usize,
        witnesses: List<Arc<Witness>>,
    ) -> Result<Reply, AllocError>
        requires { AreWitnesses self.old.question.test (slots self.old.question.offers) (map arc_value witnesses) }
        ensures step { IfOk result
            (λ r. Answers self.old self.new worker (CutBound node (map witness_in witnesses)) (reply_of r)) }
        ensures err { OnErr result (self.new ≡ self.old) }
    {
        let Some(part) = self.tree.held_by(worker, node) else {
            let event = Event::CutBound(node, witnesses);
            return self.refuse(worker, event, Reply::NotYours, Reply::NotYours);
        };
        if !are_kept(part.as_slice(), witnesses.as_slice(), None) {
            let event = Event::CutBound(node, witnesses);
            return self.refuse(worker, event, Reply::NotCovered, Reply::NotCovered);
        }
        if !self.is_bounded(part.as_slice(), witnesses.as_slice()) {
            let event = Event::CutBound(node, witnesses);
            return self.refuse(worker, event, Reply::Cheaper, Reply::Cheaper);
        }
        let shared = share(alloc, witnesses.as_slice())?;
        let status = Status::Bounded(self.tree.witness_count(), witnesses.len());
        let event = Event::CutBound(node, witnesses);
        self.cover(worker, event, node, status, shared)
    }

    /// Do the witnesses break at slots of their own, and is the floor with what breaking them costs no better than the
    /// bound?
    fn is_bounded(&self, part: &[Decision], witnesses: &[Arc<Witness>]) -> bool
        ensures { result
            ≡ is_bounded self.now.question.offers self.now.board.bound part.now (map widths_in witnesses.now) }
    {
        let offers = self.offers();
        break_apart(offers, part, witnesses)
            && self.is_no_better(part, bound_of(offers, part, witnesses))
    }

    /// Is what is under the part no better than the bound, where it costs at least so much? So it is where nothing
    /// forbids the outcome, and then there is no cost.
    fn is_no_better(&self, part: &[Decision], least: Option<u128>) -> bool
        ensures { result ≡ is_no_better self.now.question.offers self.now.board.bound part.now least }
    {
        match self.bound() {
            None => least.is_none(),
            Some(bound) => is_no_better(self.offers(), bound.placement.as_slice(), part, least),
        }
    }

    /// Closes a node whose least placement this is, and makes it the bound where it is better. `NotYours`; `Other`
    /// where it isn't the node's least placement. The placement must forbid the outcome, as its cycles show. It takes
    /// time of slots.
    pub fn post(
        &mut self,
        alloc: Global,
        worker: u8,
        node: usize,
        forbidden: Arc<Forbidden>,
    ) -> Result<Reply, AllocError>
        requires cycles { ShowsForbidden self.old.question.test (arc_value forbidden) }
        requires forbids { Allows self.old.question.test (placement_in forbidden) → ⊥ }
        ensures step { IfOk result
            (λ r. Answers self.old self.new worker (Post node (placement_in forbidden)) (reply_of r)) }
        ensures err { OnErr result (self.new ≡ self.old) }
    {
        let Some(part) = self.tree.held_by(worker, node) else {
            let event = Event::Post(node, forbidden);
            return self.refuse(worker, event, Reply::NotYours, Reply::NotYours);
        };
        let floor = part.least(alloc)?;
        if !is_same(forbidden.placement.as_slice(), &floor) {
            let event = Event::Post(node, forbidden);
            return self.refuse(worker, event, Reply::Other, Reply::Other);
        }
        let better = self.is_best(&floor);
        let kept = Arc::try_clone(&forbidden)?;
        self.log.reserve(1)?;
        self.tree.post(node, kept, better);
        let event = Event::Post(node, forbidden);
        push_within(&mut self.log, LogEntry::new(worker, event, Reply::Closed));
        Ok(Reply::Closed)
    }

    /// Is the placement better than the bound, or is there no bound?
    fn is_best(&self, placement: &[Entry]) -> bool
        ensures { result ≡ is_best self.now.question.offers self.now.board.bound placement.now }
    {
        is_best(self.offers(), self.bound(), placement)
    }

    /// Shows the bound with its cycles, how many witnesses there are, and those from this number on with their widths.
    /// It takes time of those that it shows.
    pub fn peek(&mut self, alloc: Global, worker: u8, from: usize) -> Result<Reply, AllocError>
        ensures tells { IfOk result (Tells self.old.question) }
        ensures step { IfOk result (λ r. Answers self.old self.new worker (Peek from) (reply_of r)) }
        ensures err { OnErr result (self.new ≡ self.old) }
    {
        let reply = self.seen(alloc, from)?;
        let copy = self.seen(alloc, from)?;
        self.refuse(worker, Event::Peek(from), reply, copy)
    }

    /// What a peek shows.
    fn seen(&self, alloc: Global, from: usize) -> Result<Reply, AllocError>
        ensures tells { IfOk result (Tells self.now.question) }
        ensures value { IfOk result (λ r. reply_of r
            ≡ Seen self.now.board.bound (length self.now.board.witnesses) (drop from self.now.board.witnesses)) }
    {
        let bound = self.tree.share_bound()?;
        let witnesses = self.tree.witnesses();
        let shown = List::new(share(alloc, from_on(witnesses, from))?);
        Ok(Reply::Seen(bound, witnesses.len(), shown))
    }

    /// Makes the event, as the call of its name does, and takes its time. What it brings must be made for the question.
    #[tactic(auto, using(crate::proofs::Telling::unpeeked))]
    pub fn ask(&mut self, alloc: Global, worker: u8, event: &Event) -> Result<Reply, AllocError>
        requires { IsMade self.old.question event.now }
        ensures step { IfOk result (λ r. Answers self.old self.new worker (event_of event.now) (reply_of r)) }
        ensures tells { IfOk result (Tells self.old.question) }
        ensures err { OnErr result (self.new ≡ self.old) }
    {
        let _legal = self.log();
        match event {
            Event::Take => self.take(worker),
            Event::Claim(node) => self.claim(worker, *node),
            Event::Adopt(node) => self.adopt(worker, *node),
            Event::Split(node, slot) => self.split(alloc, worker, *node, *slot),
            Event::CutCost(node) => self.cut_cost(alloc, worker, *node),
            Event::CutWitness(node, witness) => {
                self.cut_witness(alloc, worker, *node, Arc::try_clone(witness)?)
            }
            Event::CutBound(node, witnesses) => {
                self.cut_bound(alloc, worker, *node, witnesses.as_slice())
            }
            Event::Post(node, forbidden) => {
                self.post(alloc, worker, *node, Arc::try_clone(forbidden)?)
            }
            Event::Peek(from) => self.peek(alloc, worker, *from),
        }
    }
}

/// The witnesses, shared.
fn share(alloc: Global, witnesses: &[Arc<Witness>]) -> Result<Vec<Arc<Witness>>, AllocError>
    ensures { IfOk result (λ shared. map arc_value shared.items ≡ map arc_value witnesses.now) }
{
    let mut shared = Vec::new(alloc);
    for witness in witnesses {
        shared.push(Arc::try_clone(witness)?)?;
    }
    Ok(shared)
}

/// The witness by itself, shared.
fn single(alloc: Global, witness: &Arc<Witness>) -> Result<Vec<Arc<Witness>>, AllocError>
    ensures { IfOk result (λ shared. map arc_value shared.items ≡ arc_value witness.now ∷ []) }
{
    let mut shared = Vec::new(alloc);
    shared.push(Arc::try_clone(witness)?)?;
    Ok(shared)
}

/// The witnesses from a number on: none where there is no such number.
fn from_on(witnesses: &[Arc<Witness>], from: usize) -> &[Arc<Witness>]
    ensures { map arc_value result.now ≡ drop from (map arc_value witnesses.now) }
{
    let count = witnesses.len();
    if from < count {
        &witnesses[from..]
    } else {
        &witnesses[count..]
    }
}
