//! A deque between its owner, who pushes and pops, and one thief.

ghost use Rattle.std.specs.Prelude.{◌≡◌, ℕ, ◌+◌, true, false, [], ◌∷◌, ◌++◌, IfOk, IfSome, OnOk, OnErr, IfNone};
ghost use Rattle.crossbeam_deque.specs.Handles.{view, IsPassOf, worker_deque, stealer_deque, worker_view};
ghost use Rattle.crossbeam_deque.specs.Handles.{worker_flavor};
ghost use Rattle.fs_pool.specs.Ring.{count_of};
ghost use Rattle.fs_pool.specs.inner.Conserved.{tally, Conserves};

use crossbeam_deque::protocol::{Join, Lesson, Outcome, Protocol, Split};
use crossbeam_deque::{Pass, Steal, Stealer, Worker};
use std::alloc::{AllocError, Global};
use std::collections::LinkedList;

/// How many numbers a deque has room for at first.
const FIRST_CAPACITY: usize = 64;

/// What a pass allows, and what was pushed, popped and stolen by it. It is there for contracts, and no value of it is
/// made.
pub struct Tally {
    pub owns: bool,
    pub steals: bool,
    pub pushed: LinkedList<usize>,
    pub popped: LinkedList<usize>,
    pub stolen: LinkedList<usize>,
}

/// What is always so of a deque: the numbers pushed are those popped, stolen and still inside, together.
pub struct Conserved;

impl Protocol<usize, Tally> for Conserved {
    ghost use Rattle.std.specs.Prelude.{true, false, []};
    ghost use Rattle.fs_pool.specs.inner.Conserved.{tally, Conserves};

    ghost holds = { Conserves };

    ghost first = { tally true true [] [] [] };

    ghost guest = { tally false false [] [] [] };
}

/// The owner's pass and the thief's, apart and as one.
pub struct Roles;

impl Split<Tally> for Roles {
    ghost use Rattle.std.specs.Prelude.{true, false, []};
    ghost use Rattle.fs_pool.specs.inner.Conserved.{tally};

    ghost left = { λ v. tally true false v.pushed v.popped [] };

    ghost right = { λ v. tally false true [] [] v.stolen };
}

impl Join<Tally> for Roles {
    ghost use Rattle.std.specs.Prelude.{true, false, []};
    ghost use Rattle.fs_pool.specs.inner.Conserved.{tally};

    ghost both = { λ v w. tally true true v.pushed v.popped w.stolen };

    ghost spent = { tally false false [] [] [] };
}

/// A number was pushed.
pub struct Pushed;

impl Outcome<usize, Tally> for Pushed {
    ghost then = { λ v xs w. w ≡ record v { pushed = v.pushed ++ xs } };
}

/// A number was popped, or the deque was empty at one moment.
pub struct Popped;

impl Outcome<usize, Tally> for Popped {
    ghost then = { λ v xs w. w ≡ record v { popped = v.popped ++ xs } };

    ghost empty = { λ v. v.steals ≡ true → (x : ℕ) → count_of x v.pushed ≡ count_of x v.popped + count_of x v.stolen };
}

/// A number was stolen.
pub struct Stolen;

impl Outcome<usize, Tally> for Stolen {
    ghost then = { λ v xs w. w ≡ record v { stolen = v.stolen ++ xs } };
}

/// How many numbers are inside tells nothing more.
pub struct Counted;

impl Lesson<usize, Tally> for Counted {
    ghost use Rattle.std.specs.Prelude.{⊤};

    ghost fact = { λ v items. ⊤ };
}

/// The end of a deque that pushes and pops.
pub type Owner = Worker<usize, Global, Tally, Conserved>;

/// The end of a deque that steals.
pub type Thief = Stealer<usize, Global, Tally, Conserved>;

/// What a thief steals by: each deque has one.
pub type Right = Pass<usize, Tally>;

/// An empty deque: its owner, a thief, and the thief's right to steal.
pub fn new_deque(alloc: Global) -> Result<(Owner, Thief, Right), AllocError>
    ensures deque { IfOk result (λ r. (stealer_deque r.1 ≡ worker_deque r.0) × IsPassOf (worker_deque r.0) r.2
        × (worker_flavor r.0 ≡ 0)) }
    ensures tallies { IfOk result (λ r. (worker_view r.0 ≡ tally true false [] [] [])
        × (view r.2 ≡ tally false true [] [] [])) }
{
    let mut owner = Owner::fifo_as(alloc, FIRST_CAPACITY)?;
    let thief = owner.stealer()?;
    let right = owner.another::<Roles>();
    Ok((owner, thief, right))
}

/// Pushes a number at the back. At `Err` nothing is changed.
pub fn push(owner: &mut Owner, number: usize) -> Result<(), AllocError>
    requires { (worker_view owner.old).owns ≡ true }
    ensures same { (worker_deque owner.new ≡ worker_deque owner.old)
        × (worker_flavor owner.new ≡ worker_flavor owner.old) }
    ensures ok { OnOk result (worker_view owner.new
        ≡ record (worker_view owner.old) { pushed = (worker_view owner.old).pushed ++ number ∷ [] }) }
    ensures err { OnErr result (worker_view owner.new ≡ worker_view owner.old) }
{
    match owner.push_as::<Pushed>(number) {
        Ok(()) => Ok(()),
        Err(_number) => Err(AllocError),
    }
}

/// Pops the number at the front. Where the thief's pass has been joined to the owner's, `None` says that none is left.
pub fn pop(owner: &mut Owner) -> Option<usize>
    requires owns { (worker_view owner.old).owns ≡ true }
    requires fifo { worker_flavor owner.old ≡ 0 }
    ensures same { (worker_deque owner.new ≡ worker_deque owner.old)
        × (worker_flavor owner.new ≡ worker_flavor owner.old) }
    ensures some { IfSome result (λ x. worker_view owner.new
        ≡ record (worker_view owner.old) { popped = (worker_view owner.old).popped ++ x ∷ [] }) }
    ensures none { IfNone result (worker_view owner.new ≡ worker_view owner.old) }
    ensures empty { IfNone result ((worker_view owner.old).steals ≡ true → (x : ℕ)
        → count_of x (worker_view owner.old).pushed ≡ count_of x (worker_view
        owner.old).popped + count_of x (worker_view owner.old).stolen) }
{
    owner.pop_as::<Popped>()
}

/// Is the deque empty at this moment? The thief may come between this and the next call.
pub fn is_empty(owner: &mut Owner) -> bool
    ensures same { (worker_deque owner.new ≡ worker_deque owner.old)
        × (worker_flavor owner.new ≡ worker_flavor owner.old) }
    ensures view { worker_view owner.new ≡ worker_view owner.old }
{
    owner.len_as::<Counted>() == 0
}

/// Steals the number at the front. `None` may also say that another call came between.
pub fn steal(thief: &Thief, right: &mut Right) -> Option<usize>
    requires table { IsPassOf (stealer_deque thief.now) right.old }
    requires steals { (view right.old).steals ≡ true }
    ensures table { IsPassOf (stealer_deque thief.now) right.new }
    ensures some { IfSome result (λ x. view right.new
        ≡ record (view right.old) { stolen = (view right.old).stolen ++ x ∷ [] }) }
    ensures none { IfNone result (view right.new ≡ view right.old) }
{
    match thief.steal_as::<Stolen>(right) {
        Steal::Success(number) => Some(number),
        Steal::Empty | Steal::Retry => None,
    }
}

/// Adds all that is left in a deque, where its owner and its thief have stopped: each number as often as it was pushed,
/// less the times that it was popped or stolen.
pub fn drain(mut owner: Owner, right: Right, numbers: &mut Vec<usize>) -> Result<(), AllocError>
    requires owner { ((worker_view owner).owns ≡ true) × (worker_flavor owner ≡ 0) }
    requires thief { IsPassOf (worker_deque owner) right × ((view right).steals ≡ true) }
    ensures { OnOk result ((x : ℕ) → count_of x numbers.old.items + count_of x (worker_view owner).pushed
        ≡ count_of x (worker_view owner).popped + count_of x (view right).stolen + count_of x numbers.new.items) }
{
    owner.absorb::<Roles>(right);
    while let Some(number) = pop(&mut owner) {
        numbers.push(number)?;
    }
    Ok(())
}
