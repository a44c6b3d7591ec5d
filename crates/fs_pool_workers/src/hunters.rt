//! Several workers who judge one placement, each in a thread of its own. One hunts; where another has nothing to do it
//! gives a piece to the room, from which that takes it. What they find is checked as what one finds; at the subtrees of
//! a large refutation they look in turn.

ghost use Rattle.std.specs.Prelude.{◌≡◌, ◌<◌, ℕ, Ok, true, length, IfOk};
ghost use Rattle.std.specs.List.{slice_index_or};
ghost use Rattle.std.specs.Thread.{IsSync};
ghost use Rattle.fs_region_refutation.specs.Subtrees.{AreOfTheTest, AreRefutedInTurn};

use fs_board_search::{Chase, Crew, Learned, Left, Others, Piece, Team};
use fs_region_refutation::Subtrees;
use std::alloc::{AllocError, Global};
use std::sync::atomic::{AtomicU64, AtomicUsize, Ordering};
use std::sync::{Condvar, Mutex, Wait};
use std::thread;
use std::thread::Threads;

/// What hunters share under a lock.
#[derive(Drop)]
struct Room {
    /// The pieces that nobody is at, the newest last.
    open: Vec<Piece>,
    /// Those that were hunted.
    done: Vec<Piece>,
    learned: Learned,
    /// How many hunt, and how many wait for a piece.
    at_work: usize,
    waiting: usize,
    /// Was something found, or are there too many regions?
    has_stopped: bool,
    /// Was memory wanting?
    has_failed: bool,
}

/// What hunters see without the lock.
#[derive(Drop)]
struct Signs {
    /// How many wait for whom there is no piece.
    idle: AtomicUsize,
    learned: AtomicUsize,
    tickets: AtomicUsize,
    entered: AtomicUsize,
    made: AtomicUsize,
    has_stopped: AtomicUsize,
}

impl Room {
    fn new(alloc: Global) -> Room {
        Room {
            open: Vec::new(alloc),
            done: Vec::new(alloc),
            learned: Learned::new(alloc),
            at_work: 0,
            waiting: 0,
            has_stopped: false,
            has_failed: false,
        }
    }

    /// Is all done, or is all to stop?
    fn is_over(&self) -> bool {
        self.has_stopped || self.open.is_empty() && self.at_work == 0
    }

    /// May a piece come for one who waits?
    fn may_bring(&self) -> bool {
        self.open.is_empty() && !self.is_over()
    }

    /// How many wait for whom there is no piece.
    fn idle(&self) -> usize {
        self.waiting.saturating_sub(self.open.len())
    }

    /// One waits for a piece.
    fn begin_to_wait(&mut self) {
        self.waiting = self.waiting.saturating_add(1);
    }

    /// One who waits takes the oldest piece, unless all is to stop.
    fn take(&mut self) -> Option<Piece> {
        self.waiting = self.waiting.saturating_sub(1);
        if self.has_stopped || self.open.is_empty() {
            return None;
        }
        self.at_work = self.at_work.saturating_add(1);
        Some(self.open.remove(0))
    }

    /// One is done with the piece.
    fn put(&mut self, piece: Piece, is_hunted: bool) {
        self.at_work = self.at_work.saturating_sub(1);
        let is_shown = piece.is_shown();
        let is_kept = self.done.push(piece).is_ok();
        if !is_kept || !is_hunted {
            self.has_failed = true;
        }
        if is_shown || self.has_failed {
            self.has_stopped = true;
        }
    }
}

impl Signs {
    fn new(regions: usize) -> Signs {
        Signs {
            idle: AtomicUsize::new(0),
            learned: AtomicUsize::new(0),
            tickets: AtomicUsize::new(0),
            entered: AtomicUsize::new(0),
            made: AtomicUsize::new(regions),
            has_stopped: AtomicUsize::new(0),
        }
    }

    /// Shows what can be seen of the room.
    fn show(&self, room: &Room) {
        self.idle.store(room.idle(), Ordering::Relaxed);
        self.learned.store(room.learned.count(), Ordering::Relaxed);
        if room.has_stopped {
            self.has_stopped.store(1, Ordering::Relaxed);
        }
    }
}

/// One hunter among others.
#[derive(Clone, Copy)]
struct Seat<'a, R> {
    rt: &'a R,
    room: &'a Mutex<Room>,
    changed: &'a Condvar,
    signs: &'a Signs,
    chase: &'a Chase<'a>,
}

impl<R: Wait> Others for Seat<'_, R> {
    fn count(&self, entered: usize, made: usize) -> Option<usize> {
        let entered = self
            .signs
            .entered
            .fetch_add(entered, Ordering::Relaxed)
            .saturating_add(entered);
        let made = self
            .signs
            .made
            .fetch_add(made, Ordering::Relaxed)
            .saturating_add(made);
        if self.signs.has_stopped.load(Ordering::Relaxed) > 0 || !self.chase.allows(entered, made) {
            return None;
        }
        Some(made)
    }

    fn are_idle(&self) -> bool {
        self.signs.idle.load(Ordering::Relaxed) > 0
    }

    fn ticket(&self) -> usize {
        self.signs.tickets.fetch_add(1, Ordering::Relaxed)
    }

    fn give(&self, piece: Piece) -> Result<(), AllocError> {
        let mut room = self.room.lock(self.rt);
        let given = room.open.push(piece);
        self.signs.show(&room);
        drop(room);
        self.changed.notify_one();
        match given {
            Ok(()) => Ok(()),
            Err(_) => Err(AllocError),
        }
    }

    fn learned(&self) -> usize {
        self.signs.learned.load(Ordering::Relaxed)
    }

    fn exchange(&self, learned: &mut Learned) -> Result<(), AllocError> {
        let mut room = self.room.lock(self.rt);
        let exchanged = learned.exchange(&mut room.learned);
        self.signs.show(&room);
        exchanged
    }
}

impl<R: Wait> Seat<'_, R> {
    /// The next piece; none where all is done, or is to stop.
    fn take(&self) -> Option<Piece> {
        let mut room = self.room.lock(self.rt);
        room.begin_to_wait();
        self.signs.show(&room);
        let mut room = self
            .changed
            .wait_while(self.rt, room, |room| room.may_bring());
        let piece = room.take();
        self.signs.show(&room);
        piece
    }

    /// Puts the piece among those that are done, and wakes all where that was the last.
    fn put(&self, piece: Piece, is_hunted: bool) {
        let mut room = self.room.lock(self.rt);
        room.put(piece, is_hunted);
        self.signs.show(&room);
        let is_over = room.is_over();
        drop(room);
        if is_over {
            self.changed.notify_all();
        }
    }

    /// Hunts in pieces until there are none. At how many regions it has looked.
    fn work(&self, alloc: Global) -> usize {
        let mut looks: usize = 0;
        for _ in 0..usize::MAX {
            let Some(mut piece) = self.take() else {
                break;
            };
            let before = piece.looks();
            let is_hunted = self.chase.hunt(alloc, &mut piece, self).is_ok();
            looks = looks.saturating_add(piece.looks().saturating_sub(before));
            self.put(piece, is_hunted);
        }
        looks
    }
}

/// Up to so many workers who may hunt for a verdict.
#[derive(Drop)]
pub struct Hunters<'r, R> {
    rt: &'r R,
    workers: u8,
    /// How many hunts there were in which two looked at regions or more.
    joint: AtomicU64,
    /// How many refutations there were at which two looked or more.
    checks: AtomicU64,
}

impl<'r, R: Threads + Wait + Sync> Hunters<'r, R> {
    /// So many, who haven't hunted yet.
    pub fn new(rt: &'r R, workers: u8) -> Hunters<'r, R> {
        Hunters {
            rt,
            workers,
            joint: AtomicU64::new(0),
            checks: AtomicU64::new(0),
        }
    }
}

impl<R> Hunters<'_, R> {
    /// In how many hunts so far at least two have looked at regions.
    pub fn joint(&self) -> u64 {
        self.joint.load(Ordering::Relaxed)
    }

    /// At how many refutations so far at least two have looked.
    pub fn checks(&self) -> u64 {
        self.checks.load(Ordering::Relaxed)
    }

    /// How many look at so many subtrees. This is counted where it is more than one.
    fn lookers(&self, subtrees: usize) -> usize
        ensures { 0 < result }
    {
        let lookers = usize::from(self.workers).min(subtrees).max(1);
        if lookers > 1 {
            self.checks.fetch_add(1, Ordering::Relaxed);
        }
        lookers
    }

    /// Counts a hunt in which they have looked at so many regions each.
    fn note(&self, looks: &[usize]) {
        let mut hunters: usize = 0;
        for one in looks {
            if *one > 0 {
                hunters = hunters.saturating_add(1);
            }
        }
        if hunters > 1 {
            self.joint.fetch_add(1, Ordering::Relaxed);
        }
    }
}

/// What is left in the room, once all have gone.
fn left(room: Room) -> Result<Left, AllocError> {
    let Room {
        open,
        done,
        learned,
        has_failed,
        ..
    } = room;
    if has_failed {
        return Err(AllocError);
    }
    let mut pieces = done;
    for piece in open {
        pieces.push(piece)?;
    }
    Ok(Left { pieces, learned })
}

impl<R: Threads + Wait + Sync> Crew for Hunters<'_, R> {
    ghost may_hunt = { IsSync R.row };

    fn is_alone(&self) -> bool {
        self.workers < 2
    }

    fn hunt(&self, alloc: Global, chase: &Chase<'_>, piece: Piece) -> Result<Left, AllocError> {
        let rt = self.rt;
        let signs = Signs::new(piece.regions());
        let mut room = Room::new(alloc);
        room.open.push(piece)?;
        let room = Mutex::new(room);
        let changed = Condvar::new();
        let (shared, woken, seen) = (&room, &changed, &signs);
        let looks = thread::map_indices(
            rt,
            alloc,
            usize::from(self.workers),
            &|_| {
                let seat = Seat {
                    rt,
                    room: shared,
                    changed: woken,
                    signs: seen,
                    chase,
                };
                seat.work(alloc)
            },
        )?;
        self.note(&looks);
        left(room.into_inner())
    }
}

/// Has each of them found that it is so?
fn all_found(found: &[Result<bool, AllocError>]) -> Result<bool, AllocError>
    ensures { IfOk result (λ yes. yes ≡ true → (i : ℕ) (d : _) → i < length found.now
        → slice_index_or found.now i d ≡ Ok true) }
{
    for one in found {
        match one {
            Ok(true) => {}
            Ok(false) => return Ok(false),
            Err(_) => return Err(AllocError),
        }
    }
    Ok(true)
}

impl<R: Threads + Wait + Sync> Team for Hunters<'_, R> {
    fn check(&self, alloc: Global, subtrees: &Subtrees<'_>) -> Result<bool, AllocError> {
        let lookers = self.lookers(subtrees.count());
        let part = move |looker: usize| -> Result<bool, AllocError>
            requires { (0 < lookers) × AreOfTheTest subtrees.now }
            ensures { IfOk result (λ yes. yes ≡ true → AreRefutedInTurn lookers looker subtrees.entry.now) }
        { subtrees.are_refuted_in_turn(alloc, looker, lookers) };
        let found = thread::map_indices(self.rt, alloc, lookers, &part)?;
        let are_refuted = all_found(&found)?;
        Ok(are_refuted)
    }
}
