//! The line on standard error that says how far a search is.

use fs_app_solve_and_check::{Gate, Open, Watch};
use std::fmt::Display;
use std::rt::Clock;
use std::sync::atomic::{AtomicBool, AtomicU64, AtomicUsize, Ordering};
use std::time::Instant;

/// In its first milliseconds a search has no line.
const QUIET: u64 = 2_000;

/// So many milliseconds pass from a line to the next, or more.
const PAUSE: u64 = 100;

/// Says on standard error how far a search is, by one worker or by several: a line after `QUIET`, which changes until
/// it is wiped. Where standard error is no terminal, and where the clock fails, it says nothing.
#[derive(Drop)]
pub(crate) struct Progress<'a, R> {
    rt: &'a R,
    began: Option<Instant>,
    /// When the next line may come, in milliseconds since it began.
    due: AtomicU64,
    has_line: AtomicBool,
    verdicts: AtomicUsize,
    /// What several workers have told of: there are so many nodes, or more.
    nodes: AtomicUsize,
}

impl<'a, R: Clock + Eprint> Progress<'a, R> {
    /// The search begins now.
    pub(crate) fn new(rt: &'a R, is_terminal: bool) -> Self {
        let began = if is_terminal {
            Instant::now(rt).ok()
        } else {
            None
        };
        Progress {
            rt,
            began,
            due: AtomicU64::new(QUIET),
            has_line: AtomicBool::new(false),
            verdicts: AtomicUsize::new(0),
            nodes: AtomicUsize::new(0),
        }
    }

    /// Is it time for a line? Of several workers that ask at once, one is told so.
    fn is_due(&self) -> bool {
        let Some(began) = self.began else {
            return false;
        };
        let Ok(passed) = began.elapsed(self.rt) else {
            return false;
        };
        let now = u64::try_from(passed.as_millis()).unwrap_or(u64::MAX);
        let due = self.due.load(Ordering::SeqCst);
        if now < due {
            return false;
        }
        let next = now.saturating_add(PAUSE);
        let swapped = self
            .due
            .compare_exchange(due, next, Ordering::SeqCst, Ordering::SeqCst);
        swapped.is_ok()
    }

    /// Prints the line over the one before.
    fn say<D: Display + Drop>(&self, line: D) {
        self.has_line.store(true, Ordering::SeqCst);
        let _ = self.rt.eprint(format_args!("\r{line}\x1b[K"));
    }

    /// Says how far the plan of one worker is, which asks for one more verdict.
    fn say_of_plan(&self) {
        self.verdicts.fetch_add(1, Ordering::SeqCst);
        if self.is_due() {
            let verdicts = self.verdicts.load(Ordering::SeqCst);
            self.say(format_args!("{verdicts} verdicts to plan"));
        }
    }

    /// Says how far the search by one worker is.
    fn say_of_one(&self, nodes: usize, best: Option<u64>) {
        if !self.is_due() {
            return;
        }
        let verdicts = self.verdicts.load(Ordering::SeqCst);
        match best {
            Some(cost) => self.say(format_args!(
                "{verdicts} verdicts to plan, {nodes} nodes, best cost {cost}"
            )),
            None => self.say(format_args!("{verdicts} verdicts to plan, {nodes} nodes")),
        }
    }

    /// Says what several workers have told of.
    fn say_of_many(&self) {
        if self.is_due() {
            let verdicts = self.verdicts.load(Ordering::SeqCst);
            let nodes = self.nodes.load(Ordering::SeqCst);
            self.say(format_args!("{verdicts} verdicts, {nodes} nodes or more"));
        }
    }

    /// Wipes the line, where one was printed.
    pub(crate) fn wipe(&self) {
        if self.has_line.swap(false, Ordering::SeqCst) {
            let _ = self.rt.eprint("\r\x1b[K");
        }
    }
}

impl<R: Clock + Eprint> Watch for Progress<'_, R> {
    fn planned(&mut self) {
        self.say_of_plan();
    }

    fn searched(&mut self, nodes: usize, best: Option<u64>) {
        self.say_of_one(nodes, best);
    }
}

/// As long as one worker is alone, its lines are those of a watch. Then the best cost is under the lock, so no line has
/// it.
impl<R: Clock + Eprint> Gate for Progress<'_, R> {
    fn nodes_alone(&self) -> usize {
        Open.nodes_alone()
    }

    fn planned(&self) {
        self.say_of_plan();
    }

    fn searched(&self, nodes: usize, best: Option<u64>) {
        self.nodes.fetch_max(nodes, Ordering::SeqCst);
        self.say_of_one(nodes, best);
    }

    fn before(&self, _worker: u8) {
        self.say_of_many();
    }

    fn judging(&self, _worker: u8, node: usize) {
        self.verdicts.fetch_add(1, Ordering::SeqCst);
        self.nodes
            .fetch_max(node.saturating_add(1), Ordering::SeqCst);
        self.say_of_many();
    }

    fn after(&self, _worker: u8) {}

    fn ended(&self, _logged: Option<usize>) {}
}
