//! What a worker does: it takes nodes, its own or stolen ones, and is done with each, until there are none or something
//! fails.

ghost use Rattle.std.specs.Prelude.{◌≡◌, IfOk, IfSome, map};
ghost use Rattle.std.specs.Arc.{arc_value};
ghost use Rattle.fs_board_offers.specs.Offers.{slots};
ghost use Rattle.fs_board_offers.specs.Parts.{slots_in_part};
ghost use Rattle.fs_board.specs.Asking.{IsMade};
ghost use Rattle.fs_board.specs.Growth.{AreWitnesses};

use crate::gate::Gate;
use fs_board::{Event, Part, Reply};
use fs_board_offers::Question;
use fs_board_search::{Child, Problem, Scout, TRIES, Taken, Way};
use fs_cert_evidence::Witness;
use fs_kinds::Slot;
use fs_pool::{Asked, Desk, Hand, Pass};
use std::alloc::{AllocError, Global};
use std::sync::{Arc, Wait};

/// So many of a worker's own nodes may turn out to be open no more before it asks for any open node.
const MOST_CLAIMS: usize = 64;

/// How it goes on with a node.
#[derive(Clone, Copy, PartialEq, Eq)]
enum Step {
    /// The next way is tried.
    Next,
    /// The node is closed by what the worker knew.
    Closed,
    /// The node is split, or a placement was posted: others may have found more by now.
    Moved,
    /// The worker leaves, and the node stays held.
    Leave,
}

/// The node that the desk of this question handed out last, where it did. An error where its part can't be shared; the
/// worker holds the node all the same.
fn given<A: Asked>(
    pass: &Pass<A>,
    question: &Question,
    slot: Option<Slot>,
) -> Result<Option<Taken>, AllocError>
    requires { question.now ≡ A.question }
    ensures { IfOk result (λ found. IfSome found (λ t. slots_in_part (arc_value t.part) ≡ slots A.question.offers)) }
{
    let _asked = question.offers();
    let Some(Reply::Node(node, part)) = pass.reply() else {
        return Ok(None);
    };
    let part = Arc::try_clone(part)?;
    Ok(Some(Taken {
        node: *node,
        part,
        slot,
    }))
}

/// What the desk's last reply means for the node that was asked about, by a post or another event.
fn step_after<A: Asked>(pass: &Pass<A>, is_post: bool) -> Step {
    match pass.reply() {
        Some(Reply::Closed) if !is_post => Step::Closed,
        Some(Reply::Closed) | Some(Reply::Children(_, _)) => Step::Moved,
        Some(Reply::Full) => Step::Leave,
        _ => Step::Next,
    }
}

/// Puts the oldest of the worker's own nodes on its hand where that is empty, for another to steal. What can't be put
/// there stays on the board alone.
fn offer(hand: &mut Hand, children: &mut Vec<Child>) {
    if children.len() > 1 && hand.is_empty() {
        let oldest = children.remove(0);
        let _ = hand.push(oldest.node);
    }
}

/// The newest of the worker's own nodes, else one of its hand, else one of the next worker's. Any of them may be open
/// no more.
fn own_or_stolen(hand: &mut Hand, children: &mut Vec<Child>) -> Option<(usize, Option<Slot>)> {
    if let Some(child) = children.pop() {
        return Some((child.node, Some(child.slot)));
    }
    if let Some(node) = hand.pop() {
        return Some((node, None));
    }
    let node = hand.steal()?;
    Some((node, None))
}

/// Puts the children that the desk made last on the stack, as the scout does. False where memory lacks.
fn keep_children<A: Asked>(
    pass: &Pass<A>,
    scout: &Scout,
    children: &mut Vec<Child>,
    taken: &Taken,
) -> bool {
    let Some(last) = pass.receipts().last() else {
        return true;
    };
    scout
        .keep_children(children, taken, last.event(), last.reply())
        .is_ok()
}

/// What a worker is lent: where it may wait, what it allocates with, the desk, the gate that is told of its calls, the
/// question, and the witnesses that were met before all began together.
#[derive(Drop)]
pub(crate) struct Workplace<'a, A: Asked, R, G> {
    pub(crate) rt: &'a R,
    pub(crate) alloc: Global,
    pub(crate) desk: &'a Desk<A>,
    pub(crate) gate: &'a G,
    pub(crate) question: &'a Arc<Question>,
    pub(crate) met: &'a Vec<Arc<Witness>>,
}

impl<A: Asked, R: Wait, G: Gate> Workplace<'_, A, R, G> {
    /// Asks the desk. The pass comes back, and whether there was the memory for it. To take any node waits while
    /// another worker may bring some.
    fn ask(&self, pass: Pass<A>, event: Event) -> (Pass<A>, bool)
        requires { IsMade A.question event }
    {
        let worker = pass.worker();
        self.gate.before(worker);
        let asked = self.desk.call(self.rt, self.alloc, pass, event);
        self.gate.after(worker);
        match asked {
            Ok(pass) => (pass, true),
            Err((pass, _)) => (pass, false),
        }
    }

    /// Asks the desk for a node, whose parent this worker split at the slot, if it did. None where it hands out none.
    /// An error where memory lacks.
    fn ask_for_node(
        &self,
        pass: Pass<A>,
        event: Event,
        slot: Option<Slot>,
    ) -> (Pass<A>, Result<Option<Taken>, AllocError>)
        requires question { arc_value self.now.question.now ≡ A.question }
        requires made { IsMade A.question event }
        ensures { IfOk result.1
            (λ found. IfSome found (λ t. slots_in_part (arc_value t.part) ≡ slots A.question.offers)) }
    {
        let (pass, is_made) = self.ask(pass, event);
        if !is_made {
            return (pass, Err(AllocError));
        }
        let found = given(&pass, self.question, slot);
        (pass, found)
    }

    /// The first of the next `MOST_CLAIMS` nodes of `own_or_stolen` that is still open, else any open node. None where
    /// there is none, and where memory lacks.
    fn next_node(
        &self,
        pass: Pass<A>,
        hand: &mut Hand,
        children: &mut Vec<Child>,
    ) -> (Pass<A>, Option<Taken>)
        requires { arc_value self.now.question.now ≡ A.question }
        ensures { IfSome result.1 (λ t. slots_in_part (arc_value t.part) ≡ slots A.question.offers) }
    {
        let mut pass = pass;
        for _ in 0..MOST_CLAIMS {
            let Some((node, slot)) = own_or_stolen(hand, children) else {
                break;
            };
            let (after, asked) = self.ask_for_node(pass, Event::Claim(node), slot);
            pass = after;
            match asked {
                Ok(None) => {}
                Ok(Some(taken)) => return (pass, Some(taken)),
                Err(_) => return (pass, None),
            }
        }
        let (pass, asked) = self.ask_for_node(pass, Event::Take, None);
        match asked {
            Ok(found) => (pass, found),
            Err(_) => (pass, None),
        }
    }

    /// Tries one way to be done with a node. By cost nothing is closed before a posted placement was seen, so the desk
    /// isn't asked.
    fn try_way(&self, pass: Pass<A>, scout: &mut Scout, way: Way, taken: &Taken) -> (Pass<A>, Step)
        requires question { scout.old ≡ A.question }
        requires slots { slots_in_part (arc_value taken.now.part) ≡ slots A.question.offers }
        ensures value { scout.new ≡ scout.old }
    {
        if matches!(way, Way::Cost) && !scout.has_bound() {
            return (pass, Step::Next);
        }
        if way.judges(taken) {
            self.gate.judging(pass.worker(), taken.node);
        }
        let Ok(found) = scout.propose(self.alloc, way, taken) else {
            return (pass, Step::Leave);
        };
        let Some(event) = found else {
            return (pass, Step::Next);
        };
        let is_post = matches!(event, Event::Post(_, _));
        let (pass, is_made) = self.ask(pass, event);
        if !is_made {
            return (pass, Step::Leave);
        }
        let step = step_after(&pass, is_post);
        (pass, step)
    }

    /// Is done with a node in the first way that serves. Where none does, the worker leaves.
    fn settle(&self, pass: Pass<A>, scout: &mut Scout, taken: &Taken) -> (Pass<A>, Step)
        requires question { scout.old ≡ A.question }
        requires slots { slots_in_part (arc_value taken.now.part) ≡ slots A.question.offers }
        ensures value { scout.new ≡ scout.old }
    {
        let mut pass = pass;
        for way in TRIES {
            let (after, step) = self.try_way(pass, scout, way, taken);
            pass = after;
            if step != Step::Next {
                return (pass, step);
            }
        }
        self.try_way(pass, scout, Way::Last, taken)
    }

    /// Sees what the others have found. False where memory lacks.
    fn look_round(&self, pass: Pass<A>, scout: &mut Scout, part: &Part) -> (Pass<A>, bool)
        requires { scout.old ≡ A.question }
        ensures value { scout.new ≡ scout.old }
    {
        let (pass, is_made) = self.ask(pass, Event::Peek(scout.seen()));
        if !is_made {
            return (pass, false);
        }
        let Some(reply) = pass.reply() else {
            return (pass, true);
        };
        let is_learned = scout.learn(self.alloc, part.as_slice(), reply).is_ok();
        (pass, is_learned)
    }

    /// Meets the witnesses that were met before, and sees what the others have found, where the worker hasn't yet.
    /// False where memory lacks.
    fn look_first(&self, pass: Pass<A>, scout: &mut Scout, part: &Part) -> (Pass<A>, bool)
        requires question { scout.old ≡ A.question }
        requires met { AreWitnesses A.question.test (slots A.question.offers) (map arc_value self.now.met.now.items) }
        ensures value { scout.new ≡ scout.old }
    {
        if scout.has_looked() {
            return (pass, true);
        }
        if scout
            .meet(self.alloc, part.as_slice(), self.met.as_slice())
            .is_err()
        {
            return (pass, false);
        }
        self.look_round(pass, scout, part)
    }

    /// Is done with a node, and sees what the others have found where it was split or posted, and before its first
    /// node. False where the worker has to leave.
    fn handle(
        &self,
        pass: Pass<A>,
        scout: &mut Scout,
        children: &mut Vec<Child>,
        taken: &Taken,
    ) -> (Pass<A>, bool)
        requires question { scout.old ≡ A.question }
        requires slots { slots_in_part (arc_value taken.now.part) ≡ slots A.question.offers }
        requires met { AreWitnesses A.question.test (slots A.question.offers) (map arc_value self.now.met.now.items) }
        ensures value { scout.new ≡ scout.old }
    {
        let (pass, is_learned) = self.look_first(pass, scout, &taken.part);
        if !is_learned {
            return (pass, false);
        }
        let (pass, step) = self.settle(pass, scout, taken);
        if step != Step::Moved {
            return (pass, step == Step::Closed);
        }
        if !keep_children(&pass, scout, children, taken) {
            return (pass, false);
        }
        self.look_round(pass, scout, &taken.part)
    }

    /// Takes nodes and is done with each, until there are none or something fails.
    fn rounds(&self, pass: Pass<A>, hand: &mut Hand, scout: &mut Scout) -> Pass<A>
        requires question { arc_value self.now.question.now ≡ A.question }
        requires scout { scout.old ≡ A.question }
        requires met { AreWitnesses A.question.test (slots A.question.offers) (map arc_value self.now.met.now.items) }
    {
        let mut pass = pass;
        let mut children = Vec::new(self.alloc);
        for _ in 0..usize::MAX {
            let (after, goes_on) = self.round(pass, hand, scout, &mut children);
            pass = after;
            if !goes_on {
                return pass;
            }
        }
        pass
    }

    /// Takes a node and is done with it. False where there is none or something fails.
    fn round(
        &self,
        pass: Pass<A>,
        hand: &mut Hand,
        scout: &mut Scout,
        children: &mut Vec<Child>,
    ) -> (Pass<A>, bool)
        requires question { arc_value self.now.question.now ≡ A.question }
        requires scout { scout.old ≡ A.question }
        requires met { AreWitnesses A.question.test (slots A.question.offers) (map arc_value self.now.met.now.items) }
        ensures value { scout.new ≡ scout.old }
    {
        let (pass, next) = self.next_node(pass, hand, children);
        let Some(taken) = next else {
            return (pass, false);
        };
        let (pass, goes_on) = self.handle(pass, scout, children, &taken);
        if goes_on {
            offer(hand, children);
        }
        (pass, goes_on)
    }

    /// The same with a hand and a scout of its own.
    fn all_rounds(&self, pass: Pass<A>, hand: Hand, scout: Scout) -> Pass<A>
        requires question { arc_value self.now.question.now ≡ A.question }
        requires scout { scout ≡ A.question }
        requires met { AreWitnesses A.question.test (slots A.question.offers) (map arc_value self.now.met.now.items) }
    {
        let mut hand = hand;
        let mut scout = scout;
        self.rounds(pass, &mut hand, &mut scout)
    }

    /// A scout of the question, with the problem of its test.
    fn scout(&self, problem: &Arc<Problem>) -> Result<Scout, AllocError>
        requires question { arc_value self.now.question.now ≡ A.question }
        requires problem { arc_value problem.now ≡ A.question.test }
        ensures { IfOk result (λ scout. scout ≡ A.question) }
    {
        let question = Arc::try_clone(self.question)?;
        let problem = Arc::try_clone(problem)?;
        Ok(Scout::new(self.alloc, question, problem))
    }

    /// Works until there is nothing to do or something fails, and leaves; a node that it isn't done with stays held.
    pub(crate) fn work(&self, pass: Pass<A>, hand: Hand, problem: &Arc<Problem>) -> Pass<A>
        requires question { arc_value self.now.question.now ≡ A.question }
        requires problem { arc_value problem.now ≡ A.question.test }
        requires met { AreWitnesses A.question.test (slots A.question.offers) (map arc_value self.now.met.now.items) }
    {
        let pass = match self.scout(problem) {
            Ok(scout) => self.all_rounds(pass, hand, scout),
            Err(_) => pass,
        };
        self.desk.leave(self.rt, &pass);
        pass
    }
}
