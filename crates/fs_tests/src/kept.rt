//! Hunts that begin with what earlier ones have kept.

use crate::hunts::prepare;
use crate::texts::{ACTOR, ALWAYS, CASES, JUMPS, LOCK, LOCK3, WAITERS};
use fs_judge::{Judge, Verdict};
use fs_judge_hunt::{Found, Hunter, Kept};
use fs_kinds::{Fault, Placement};
use fs_tests_shared::{SB, placement_of, problem_of};
use std::alloc::Global;

/// As many inferences as a refutation may have.
const MOST: usize = 1000000;

fn said_of(found: &Found) -> &'static str {
    match found {
        Found::Refuted(_) => "refuted",
        Found::Shown(_) => "shown",
        Found::GaveUp => "gave up",
    }
}

/// How a hunt from nothing goes.
fn hunted_anew(alloc: Global, hunter: &Hunter, placement: &Placement) -> Result<Kept, Fault> {
    let mut none = Kept::new();
    hunter.hunt(alloc, &mut none, placement, MOST)?;
    Ok(none)
}

/// Messages come before swaps, and the last hart's swap before its loads.
const ACTOR_FENCES: &str = "P0:1=w,w P1:1=w,w P2:1=w,w P3:1=w,w P4:1=r,r";

/// A hunt that tries other splits where known cycles ask for some looks at more regions.
const FEW_LOOKS: usize = 1500;

/// Writes how the hunt on the actor ends, and how many regions it looks at where they are many.
pub(crate) fn hunted_by_few_looks(alloc: Global) -> Result<String, Fault> {
    let ready = prepare(alloc, ACTOR)?;
    let placement = placement_of(alloc, &ready.test, ACTOR_FENCES)?;
    let mut kept = Kept::new();
    let found = ready.hunter.hunt(alloc, &mut kept, &placement, MOST)?;
    let mut text = String::from_str(alloc, said_of(&found))?;
    if kept.looks() > FEW_LOOKS {
        write!(text, " by {} looks", kept.looks())?;
    }
    Ok(text)
}

/// Writes how a hunt with these fences ends, whether it looks at no region, and whether it looks at fewer than half of
/// those that a hunt from nothing looks at.
fn write_hunt(
    alloc: Global,
    hunter: &Hunter,
    kept: &mut Kept,
    placement: &Placement,
    text: &mut String,
) -> Result<(), Fault> {
    let found = hunter.hunt(alloc, kept, placement, MOST)?;
    let said = said_of(&found);
    let none = hunted_anew(alloc, hunter, placement)?;
    let is_known = kept.looks() == 0;
    let is_short = kept.looks() < none.looks() / 2;
    write!(text, "{said} {is_known} {is_short}\n")?;
    Ok(())
}

/// The same for hunts one after the other, with the fences that each of the words names.
pub(crate) fn hunted_in_turn(alloc: Global, text: &str, fences: &[&str]) -> Result<String, Fault> {
    let ready = prepare(alloc, text)?;
    let mut kept = Kept::new();
    let mut lines = String::new(alloc);
    for words in fences {
        let placement = placement_of(alloc, &ready.test, words)?;
        write_hunt(alloc, &ready.hunter, &mut kept, &placement, &mut lines)?;
    }
    Ok(lines)
}

pub(crate) const LOCK3_FENCES: &[&str] = &[
    "P0:3=r,r P0:7=w,w P1:3=r,r P1:7=w,w P2:3=r,r P2:7=w,w",
    "P0:3=r,r P0:7=w,w P1:3=r,r P1:7=w,w P2:3=r,r P2:7=w,w",
    "P0:3=rw,rw P0:7=rw,rw P1:3=rw,rw P1:7=rw,rw P2:3=rw,rw P2:7=rw,rw",
    "P0:3=r,r P0:7=w,w P1:3=r,r P1:7=w,w P2:3=r,r",
    "P0:3=tso P0:7=w,w P1:3=r,r P1:7=tso P2:3=r,r P2:7=w,w",
];

/// What the hunts find: what was refuted once needs no look with the same fences or with more.
pub(crate) const KEPT: &str = "refuted false false
refuted true true
refuted true true
shown false true
refuted true true
";

fn is_allowed(verdict: &Verdict) -> bool {
    matches!(verdict, Verdict::Allowed(_))
}

/// Writes what the judge says of the placement that the words name: `+` for allowed, `-` for forbidden, `?` where a
/// judge that has judged nothing says something else.
fn write_judged(
    alloc: Global,
    judge: &mut Judge,
    words: &str,
    text: &mut String,
) -> Result<(), Fault> {
    let placement = placement_of(alloc, judge.problem().test(), words)?;
    let verdict = judge.verdict(alloc, &placement, &[])?;
    let alone = judge.problem().judged(alloc, &placement, &[])?;
    let said = match (is_allowed(&verdict), is_allowed(&alone)) {
        (true, true) => "+",
        (false, false) => "-",
        _ => "?",
    };
    Ok(text.push_str(said)?)
}

/// The same of placements in turn, and at the end how often a check has refused what was found.
fn write_all_judged(
    alloc: Global,
    test: &str,
    fences: &[&str],
    text: &mut String,
) -> Result<(), Fault> {
    let mut judge = Judge::new(alloc, problem_of(alloc, test)?);
    for words in fences {
        write_judged(alloc, &mut judge, words, text)?;
    }
    write!(text, " {}\n", judge.refusals())?;
    Ok(())
}

/// What is said of each of the tests, a line for each.
fn all_judged(alloc: Global, tests: &[&str], fences: &[&str]) -> Result<String, Fault> {
    let mut text = String::new(alloc);
    for test in tests {
        write_all_judged(alloc, test, fences, &mut text)?;
    }
    Ok(text)
}

const TWO_SLOTS: &[&str] = &[
    "",
    "P0:2=w,r",
    "P1:2=w,r",
    "P0:2=w,r P1:2=w,r",
    "P0:2=rw,rw P1:2=tso",
    "P0:2=rw,rw",
    "P0:2=r,r P1:2=rw,rw",
    "P0:2=rw,rw P1:2=rw,rw",
    "P0:2=w,r P1:2=rw,rw",
];

const LOCK_FENCES: &[&str] = &[
    "P0:3=r,r P0:7=w,w P1:3=r,r P1:7=w,w",
    "P0:7=w,w P1:3=r,r P1:7=w,w",
    "P0:3=r,r P1:3=r,r P1:7=w,w",
    "P0:3=r,r P0:7=w,w P1:7=w,w",
    "P0:3=r,r P0:7=w,w P1:3=r,r",
    "P0:3=rw,rw P0:7=rw,rw P1:3=rw,rw P1:7=rw,rw",
    "",
    "P0:3=tso P0:7=tso P1:3=tso P1:7=tso",
    "P0:3=r,r P0:7=w,w P1:3=r,r P1:7=w,w",
];

const WAITERS_FENCES: &[&str] = &[
    "",
    "P0:1=r,r P4:1=rw,rw",
    "P0:1=r,r P1:1=r,r P4:1=rw,rw",
    "P0:1=r,r P1:1=r,r P2:1=r,r P4:1=rw,rw",
    "P0:1=r,r P1:1=r,r P2:1=r,r P3:1=r,r P4:1=rw,rw",
    "P1:1=r,r P2:1=r,r P3:1=r,r P4:1=rw,rw",
    "P0:1=rw,rw P1:1=rw,rw P2:1=rw,rw P3:1=rw,rw P4:1=rw,rw",
];

/// The third instruction of the second hart jumps over the fence before the one behind it. This fence comes first: no
/// execution is known then.
const JUMPS_FENCES: &[&str] = &[
    "P0:2=w,w P1:3=r,r",
    "P0:2=w,w",
    "P0:2=w,w P1:4=r,r",
    "P0:2=w,w P1:1=r,r",
    "P1:3=r,r",
];

/// Store buffering needs a fence of stores before loads in both harts.
const STORES: &[&str] = &[SB, ALWAYS, CASES];

/// What is said of store buffering, of the lock, of five harts, and of a reader that may jump over a fence. Of the lock's
/// four fences each is needed: a hart that comes second may load what there was before the first one stored, if its load
/// isn't behind its AMO or the store of the first one isn't before the release. Each of the five harts needs a fence
/// between its AMO or store and its load. With more fences orders of AMOs follow near the root that with fewer were
/// decided, or followed the other way, below. The fence that a reader may jump over orders its loads where it doesn't
/// jump, and there alone.
pub(crate) fn said_in_turn(alloc: Global) -> Result<String, Fault> {
    let mut text = all_judged(alloc, STORES, TWO_SLOTS)?;
    write_all_judged(alloc, LOCK, LOCK_FENCES, &mut text)?;
    write_all_judged(alloc, WAITERS, WAITERS_FENCES, &mut text)?;
    write_all_judged(alloc, JUMPS, JUMPS_FENCES, &mut text)?;
    let stays = JUMPS.replace(alloc, "1:x13=0", "1:x11=1 /\\ 1:x13=0")?;
    write_all_judged(alloc, &stays, JUMPS_FENCES, &mut text)?;
    Ok(text)
}

/// What is said of them.
pub(crate) const SAID: &str = "+++-+++-- 0
+++-+++-- 0
+++-+++-- 0
-++++-+-- 0
++++-+- 0
++--+ 0
-+--+ 0
";
