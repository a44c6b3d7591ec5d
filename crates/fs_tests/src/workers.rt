//! Answers of any number of workers.

ghost use Rattle.std.specs.Prelude.{◌≡◌};

use crate::wrong::add_wrong;
use fs_board::{Event, LogEntry, Reply};
use fs_board_search::USUAL_INFERENCES;
use fs_kinds::Fault;
use fs_pool_workers::{Answer, Gate, Limits, Open, Solved, solve};
use fs_tests_shared::{LB, MP11, MPA, PRICES, SB, SBF, SBX, question_of, told, write_fences};
use std::alloc::{AllocError, Global};
use std::sync::Wait;
use std::sync::atomic::{AtomicU64, AtomicUsize, Ordering};
use std::test::Fail;
use std::thread::Threads;

/// The same price for each kind, so that the search has many nodes.
const EQUAL: &str =
    r#"{"r,r":10,"r,w":10,"r,rw":10,"w,r":10,"w,w":10,"w,rw":10,"rw,r":10,"rw,w":10,"rw,rw":10,
"tso":10}"#;

/// A lock for readers and a writer in one word. Bad: a reader sees one of the two words that the writer stores.
const READERS: &str = "RISCV READERS
{
0:x5=-1; 0:x6=lock; 0:x8=a; 0:x10=b;
1:x5=-1; 1:x6=lock; 1:x8=a; 1:x10=b;
2:x5=-1; 2:x6=lock; 2:x8=a; 2:x10=b;
}
P0 | P1 | P2 ;
lr.w x7,(x6) | lr.w x7,(x6) | lr.w x7,(x6) ;
bne x7,x0,OUT | blt x7,x0,OUT | blt x7,x0,OUT ;
sc.w x9,x5,(x6) | addi x7,x7,1 | addi x7,x7,1 ;
bne x9,x0,OUT | sc.w x9,x7,(x6) | sc.w x9,x7,(x6) ;
ori x11,x0,1 | bne x9,x0,OUT | bne x9,x0,OUT ;
sw x11,0(x8) | lw x11,0(x8) | lw x11,0(x8) ;
sw x11,0(x10) | lw x13,0(x10) | lw x13,0(x10) ;
sw x0,0(x6) | ori x14,x0,1 | ori x14,x0,1 ;
OUT: | amoadd.w x0,x5,(x6) | amoadd.w x0,x5,(x6) ;
| OUT: | OUT: ;
exists ((1:x14=1 /\\ ((1:x11=0 /\\ 1:x13=1) \\/ (1:x11=1 /\\ 1:x13=0)))
\\/ (2:x14=1 /\\ ((2:x11=0 /\\ 2:x13=1) \\/ (2:x11=1 /\\ 2:x13=0))))
";

/// After how many nodes of the first worker the others join; how often the workers' board was handed out, with how many
/// entries in its log at last, and how often it was given up.
#[derive(Drop)]
pub(crate) struct Ends {
    alone: usize,
    kept: AtomicU64,
    lost: AtomicU64,
    logged: AtomicUsize,
}

impl Ends {
    /// All begin together.
    pub(crate) fn new() -> Self {
        Ends::after(0)
    }

    /// The others join after so many nodes.
    fn after(alone: usize) -> Self {
        Ends {
            alone,
            kept: AtomicU64::new(0),
            lost: AtomicU64::new(0),
            logged: AtomicUsize::new(0),
        }
    }

    /// So many searches by several workers ended, and none of their boards was given up.
    pub(crate) fn are(&self, kept: u64) -> bool {
        self.kept.load(Ordering::SeqCst) == kept && self.lost.load(Ordering::SeqCst) == 0
    }
}

impl Gate for Ends {
    fn nodes_alone(&self) -> usize {
        self.alone
    }

    fn planned(&self) {}

    fn searched(&self, _nodes: usize, _best: Option<u64>) {}

    fn before(&self, _worker: u8) {}

    fn judging(&self, _worker: u8, _node: usize) {}

    fn after(&self, _worker: u8) {}

    fn ended(&self, logged: Option<usize>) {
        let counted = match logged {
            Some(entries) => {
                self.logged.store(entries, Ordering::SeqCst);
                &self.kept
            }
            None => &self.lost,
        };
        counted.fetch_add(1, Ordering::SeqCst);
    }
}

/// The answer as a line.
fn line_of(alloc: Global, solved: &Solved) -> Result<String, AllocError> {
    let mut text = String::new(alloc);
    match &solved.answer {
        Answer::Fenced { forbidden, cost } => {
            write!(text, "fenced {cost}")?;
            write_fences(&forbidden.placement, &mut text)?;
        }
        Answer::None { .. } => text.push_str("none")?,
    }
    Ok(text)
}

/// So many nodes, and the usual hunts.
fn within(nodes: usize) -> Limits
    ensures { result.nodes ≡ nodes }
{
    Limits {
        nodes,
        inferences: USUAL_INFERENCES,
    }
}

/// The answer that so many workers find within so many nodes. The fault is F16 where these numbers are out of range.
fn found<R: Threads + Wait + Sync, G: Gate + Sync>(
    rt: &R,
    alloc: Global,
    test: &str,
    workers: u8,
    nodes: usize,
    gate: &G,
) -> Result<Solved, Fault> {
    if workers == 0 || workers > 16 || nodes == 0 || nodes > 1_000_000 {
        return Err(Fault::NodeLimit);
    }
    let question = question_of(alloc, test, PRICES)?;
    solve(rt, alloc, question, workers, within(nodes), gate)
}

/// The answer as a line, or the line of the fault.
pub(crate) fn answered<R: Threads + Wait + Sync, G: Gate + Sync>(
    rt: &R,
    alloc: Global,
    test: &str,
    workers: u8,
    nodes: usize,
    gate: &G,
) -> Result<String, AllocError> {
    match found(rt, alloc, test, workers, nodes, gate) {
        Ok(solved) => line_of(alloc, &solved),
        Err(fault) => fault.to_string(alloc),
    }
}

/// Who made the node, by a split.
fn maker(log: &[LogEntry], node: usize) -> Option<u8> {
    for entry in log {
        if let Reply::Children(first, count) = entry.reply() {
            if *first <= node && node - *first < *count {
                return Some(entry.worker());
            }
        }
    }
    None
}

/// Has a worker claimed a node that another one made, and got it? Only a hand tells it of such a node.
fn is_stolen(log: &[LogEntry], entry: &LogEntry) -> bool {
    match (entry.event(), entry.reply()) {
        (Event::Claim(node), Reply::Node(_, _)) => {
            match maker(log, *node) {
                Some(worker) => worker != entry.worker(),
                None => false,
            }
        }
        _ => false,
    }
}

/// Has the worker made an event of the log?
fn has_worker(log: &[LogEntry], worker: u8) -> bool {
    for entry in log {
        if entry.worker() == worker {
            return true;
        }
    }
    false
}

/// Was a node stolen?
fn has_stolen(log: &[LogEntry]) -> bool {
    for entry in log {
        if is_stolen(log, entry) {
            return true;
        }
    }
    false
}

/// Writes which of the workers 0 and 1 made events of a log, and whether a node was stolen.
fn write_doers(log: &[LogEntry], text: &mut String) -> Result<(), AllocError> {
    text.push_str(" by")?;
    for worker in 0..2 {
        if has_worker(log, worker) {
            write!(text, " {worker}")?;
        }
    }
    if has_stolen(log) {
        text.push_str(" stolen")?;
    }
    Ok(())
}

/// The answer as a line, with what the log shows of who searched for it: so many of its entries came from the workers,
/// and what follows these is the conclusion.
fn line_of_many(alloc: Global, solved: &Solved, logged: usize) -> Result<String, AllocError> {
    let mut text = line_of(alloc, solved)?;
    if let Some(board) = solved.board() {
        if let Some(searched) = board.log().get(..logged) {
            write_doers(searched, &mut text)?;
        }
    }
    Ok(text)
}

/// The answer to SB by two workers as a line, with what the log shows of them; or the line of the fault. The gate
/// counts by these ends.
pub(crate) fn answered_by_two<R: Threads + Wait + Sync, G: Gate + Sync>(
    rt: &R,
    alloc: Global,
    gate: &G,
    ends: &Ends,
) -> Result<String, AllocError> {
    match found(rt, alloc, SB, 2, 1_000_000, gate) {
        Ok(solved) => line_of_many(alloc, &solved, ends.logged.load(Ordering::SeqCst)),
        Err(fault) => fault.to_string(alloc),
    }
}

/// The nodes that `take` handed out in a log.
fn taken(alloc: Global, log: &[LogEntry]) -> Result<String, AllocError> {
    let mut text = String::new(alloc);
    for entry in log {
        if !matches!(entry.event(), Event::Take) {
            continue;
        }
        if let Reply::Node(node, _) = entry.reply() {
            write!(text, "{node} ")?;
        }
    }
    Ok(text)
}

/// The nodes that one worker took, where any worker might have been given them.
fn taken_by_one<R: Threads + Wait + Sync>(rt: &R, alloc: Global) -> Result<String, Fault> {
    let question = question_of(alloc, SB, PRICES)?;
    let solved = solve(rt, alloc, question, 1, within(1_000_000), &Open)?;
    match solved.board() {
        Some(board) => Ok(taken(alloc, board.log())?),
        None => Ok(String::new(alloc)),
    }
}

/// Tests, numbers of nodes, and how the answer begins.
const ANSWERS: &[(&str, usize, &str)] = &[
    (SB, 1_000_000, "fenced 18 "),
    (SBF, 1_000_000, "fenced 18 "),
    (LB, 1_000, "fenced 6 "),
    (MPA, 1_000, "fenced 2 "),
    (MP11, 1_000, "none"),
    (SBX, 1_000, "fenced 6 "),
    (SB, 1, "fault F16"),
];

/// How many workers search, beside one alone.
const WORKERS: &[u8] = &[2, 4, 16];

/// Adds the answers of several workers that aren't that of one, and whether one of their boards was given up.
fn add_others<R: Threads + Wait + Sync>(
    rt: &R,
    alloc: Global,
    test: &str,
    nodes: usize,
    alone: &str,
    wrong: &mut String,
) -> Result<(), AllocError> {
    let ends = Ends::new();
    for workers in WORKERS {
        let line = answered(rt, alloc, test, *workers, nodes, &ends)?;
        add_wrong(test, &line, alone, wrong)?;
    }
    if ends.are(3) {
        return Ok(());
    }
    wrong.push_str("a board was given up\n")
}

/// Adds what isn't answered as the table says.
fn add_answers<R: Threads + Wait + Sync>(
    rt: &R,
    alloc: Global,
    rows: &[(&str, usize, &str)],
    wrong: &mut String,
) -> Result<(), AllocError> {
    for (test, nodes, wanted) in rows {
        let alone = answered(rt, alloc, test, 1, *nodes, &Open)?;
        if !alone.starts_with(*wanted) {
            add_wrong(test, &alone, wanted, wrong)?;
        }
        add_others(rt, alloc, test, *nodes, &alone, wrong)?;
    }
    Ok(())
}

/// The answer that four workers find where nothing is held up and there are many nodes, as a line, with what the whole
/// log shows of who searched for it; or the line of the fault.
fn answered_by_four<R: Threads + Wait + Sync>(rt: &R, alloc: Global) -> Result<String, Fault> {
    let question = question_of(alloc, READERS, EQUAL)?;
    let solved = solve(rt, alloc, question, 4, within(1_000_000), &Open)?;
    let mut text = line_of(alloc, &solved)?;
    if let Some(board) = solved.board() {
        write_doers(board.log(), &mut text)?;
    }
    Ok(text)
}

/// Adds the answer of four workers, unless it is the right one in each of 20 searches, and in one at least two of them
/// search: a thread may begin only when the first one is done. The writer's stores come before it leaves, and each
/// reader's loads behind its entry and before it leaves: five fences.
fn add_unshared<R: Threads + Wait + Sync>(
    rt: &R,
    alloc: Global,
    wrong: &mut String,
) -> Result<(), AllocError> {
    let mut is_shared = false;
    for _ in 0..20 {
        let line = told(alloc, answered_by_four(rt, alloc))?;
        if !line.starts_with("fenced 50 ") {
            add_wrong(READERS, &line, "fenced 50 ", wrong)?;
        }
        is_shared = is_shared || line.contains(" by 0 1");
    }
    if is_shared {
        return Ok(());
    }
    wrong.push_str("a board of many nodes is not shared\n")
}

/// Adds the answer where the second worker joins after so many nodes, unless it is the right one, the log shows these
/// workers, and so many searches by several ended well.
fn add_joined<R: Threads + Wait + Sync>(
    rt: &R,
    alloc: Global,
    alone: usize,
    by: &str,
    kept: u64,
    wrong: &mut String,
) -> Result<(), AllocError> {
    let ends = Ends::after(alone);
    let line = answered_by_two(rt, alloc, &ends, &ends)?;
    if line.starts_with("fenced 18 ") && line.contains(by) && ends.are(kept) {
        return Ok(());
    }
    wrong.push_str(&line)?;
    wrong.push_str("\n")
}

/// After how many nodes the second worker joins.
const ALONE: &[usize] = &[1, 2, 5, 9, 14];

/// Adds the answers where the second worker joins after these numbers of nodes, and where it never does. Store buffering
/// takes 15 nodes. Whether the second worker still finds one to do, its turns decide.
fn add_all_joined<R: Threads + Wait + Sync>(
    rt: &R,
    alloc: Global,
    numbers: &[usize],
    wrong: &mut String,
) -> Result<(), AllocError> {
    for alone in numbers {
        add_joined(rt, alloc, *alone, " by 0", 1, wrong)?;
    }
    add_joined(rt, alloc, 16, "", 0, wrong)
}

/// What workers answer otherwise than is wanted. One alone takes the root, and claims the rest.
fn wrong_answers<R: Threads + Wait + Sync>(rt: &R, alloc: Global) -> Result<String, AllocError> {
    let mut wrong = String::new(alloc);
    add_answers(rt, alloc, ANSWERS, &mut wrong)?;
    add_unshared(rt, alloc, &mut wrong)?;
    add_all_joined(rt, alloc, ALONE, &mut wrong)?;
    let nodes = told(alloc, taken_by_one(rt, alloc))?;
    add_wrong("nodes taken", &nodes, "0 ", &mut wrong)?;
    Ok(wrong)
}

#[test]
fn any_number_of_workers_answers_the_same(rt: HostRuntime) -> Result<(), Fail> {
    let wrong = wrong_answers(&rt, rt.alloc())?;
    assert_eq!(rt; wrong.as_str(), "");
    Ok(())
}

/// Whichever of its requests for memory is refused, as `rt try --test --fail-alloc` refuses them.
#[test]
fn two_workers_answer_or_lack_memory(rt: HostRuntime) -> Result<(), Fail> {
    for alone in [0, 5] {
        let ends = Ends::after(alone);
        let line = answered(&rt, rt.alloc(), SB, 2, 1_000_000, &ends)?;
        assert!(rt; line.starts_with("fenced 18") || line.starts_with("fault F19"));
    }
    Ok(())
}
