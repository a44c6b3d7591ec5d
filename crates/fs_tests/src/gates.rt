//! Workers run at once, and judge at once.

use crate::workers::{Ends, answered_by_two};
use fs_pool_workers::Gate;
use std::sync::atomic::{AtomicBool, AtomicU64, Ordering};
use std::test::Fail;
use std::thread;
use std::time::{Clock, Duration};

/// How often two workers have to meet.
const ROUNDS: u32 = 200;

/// How often a worker that is held looks whether it may go on.
const TURNS: u32 = 1_000_000;

/// The first worker that comes is held until another one comes by.
#[derive(Drop)]
struct Held {
    first: AtomicU64,
    met: AtomicBool,
    late: AtomicBool,
    ends: Ends,
}

impl Held {
    fn new() -> Self {
        Held {
            first: AtomicU64::new(0),
            met: AtomicBool::new(false),
            late: AtomicBool::new(false),
            ends: Ends::new(),
        }
    }

    /// Holds the worker, if it is the first that comes.
    fn hold<C: Clock>(&self, clock: &C, worker: u8) {
        let me = u64::from(worker) + 1;
        let first = self
            .first
            .compare_exchange(0, me, Ordering::SeqCst, Ordering::SeqCst);
        if first.is_err() {
            return;
        }
        for _turn in 0..TURNS {
            if self.met.load(Ordering::SeqCst) {
                return;
            }
            thread::sleep(clock, Duration::from_micros(1));
        }
        self.late.store(true, Ordering::SeqCst);
    }

    /// Lets the first one go, if this is another.
    fn meet(&self, worker: u8) {
        let first = self.first.load(Ordering::SeqCst);
        if first != 0 && first != u64::from(worker) + 1 {
            self.met.store(true, Ordering::SeqCst);
        }
    }

    /// Has another one come by in time, and was the board handed out in the end?
    fn is_good(&self) -> bool {
        self.met.load(Ordering::SeqCst) && !self.late.load(Ordering::SeqCst) && self.ends.are(1)
    }
}

/// The first call is held until another worker has made one.
#[derive(Drop)]
struct FirstCall<'a, C> {
    clock: &'a C,
    held: Held,
}

impl<'a, C: Clock> Gate for FirstCall<'a, C> {
    fn nodes_alone(&self) -> usize {
        0
    }

    fn planned(&self) {}

    fn searched(&self, _nodes: usize, _best: Option<u64>) {}

    fn before(&self, worker: u8) {
        self.held.hold(self.clock, worker);
    }

    fn judging(&self, _worker: u8, _node: usize) {}

    fn after(&self, worker: u8) {
        self.held.meet(worker);
    }

    fn ended(&self, logged: Option<usize>) {
        self.held.ends.ended(logged);
    }
}

/// The first verdict below the root is held until another worker is at one.
#[derive(Drop)]
struct Overlap<'a, C> {
    clock: &'a C,
    held: Held,
}

impl<'a, C: Clock> Gate for Overlap<'a, C> {
    fn nodes_alone(&self) -> usize {
        0
    }

    fn planned(&self) {}

    fn searched(&self, _nodes: usize, _best: Option<u64>) {}

    fn before(&self, _worker: u8) {}

    fn judging(&self, worker: u8, node: usize) {
        if node != 0 {
            self.held.meet(worker);
            self.held.hold(self.clock, worker);
        }
    }

    fn after(&self, _worker: u8) {}

    fn ended(&self, logged: Option<usize>) {
        self.held.ends.ended(logged);
    }
}

/// Is it the answer, to which both workers have come?
fn is_shared(line: &str) -> bool {
    line.starts_with("fenced 18 ") && line.contains(" by 0 1")
}

#[test]
fn gate_first(rt: HostRuntime) -> Result<(), Fail> {
    for _round in 0..ROUNDS {
        let gate = FirstCall {
            clock: &rt,
            held: Held::new(),
        };
        let line = answered_by_two(&rt, rt.alloc(), &gate, &gate.held.ends)?;
        assert!(rt; is_shared(&line) && gate.held.is_good());
    }
    Ok(())
}

/// In one of these rounds at least a node is stolen: whether a worker comes to the other's hand in time, its turns
/// decide.
#[test]
fn gate_overlap(rt: HostRuntime) -> Result<(), Fail> {
    let mut is_stolen = false;
    for _round in 0..ROUNDS {
        let gate = Overlap {
            clock: &rt,
            held: Held::new(),
        };
        let line = answered_by_two(&rt, rt.alloc(), &gate, &gate.held.ends)?;
        assert!(rt; is_shared(&line) && gate.held.is_good());
        is_stolen = is_stolen || line.ends_with(" stolen");
    }
    assert!(rt; is_stolen);
    Ok(())
}
