//! Hunts by several workers.

use crate::workers::answered;
use crate::wrong::add_wrong;
use fs_board::Board;
use fs_board_search::{USUAL_INFERENCES, Unwatched, problem_of, search_alone};
use fs_kinds::Fault;
use fs_pool_workers::{Hunters, Open};
use fs_tests_shared::{PRICES, SB, question_of};
use std::alloc::{AllocError, Global};
use std::sync::Wait;
use std::test::Fail;
use std::thread::Threads;

/// Five harts that each add 1 in a lock by swaps; all have been in, and an addition is lost. The last hunt looks at
/// tens of thousands of regions.
const LOCK: &str = "RISCV LOCK
{
0:x8=k; 1:x8=k; 2:x8=k; 3:x8=k; 4:x8=k; 0:x7=1; 1:x7=1; 2:x7=1; 3:x7=1; 4:x7=1;
0:x22=d; 1:x22=d; 2:x22=d; 3:x22=d; 4:x22=d;
}
P0 | P1 | P2 | P3 | P4 ;
lw x9,0(x8) | lw x9,0(x8) | lw x9,0(x8) | lw x9,0(x8) | lw x9,0(x8) ;
bne x9,x0,OUT | bne x9,x0,OUT | bne x9,x0,OUT | bne x9,x0,OUT | bne x9,x0,OUT ;
amoswap.w x9,x7,(x8) | amoswap.w x9,x7,(x8) | amoswap.w x9,x7,(x8) | amoswap.w x9,x7,(x8) | amoswap.w x9,x7,(x8) ;
bne x9,x0,OUT | bne x9,x0,OUT | bne x9,x0,OUT | bne x9,x0,OUT | bne x9,x0,OUT ;
lw x13,0(x22) | lw x13,0(x22) | lw x13,0(x22) | lw x13,0(x22) | lw x13,0(x22) ;
addi x13,x13,1 | addi x13,x13,1 | addi x13,x13,1 | addi x13,x13,1 | addi x13,x13,1 ;
sw x13,0(x22) | sw x13,0(x22) | sw x13,0(x22) | sw x13,0(x22) | sw x13,0(x22) ;
sw x0,0(x8) | sw x0,0(x8) | sw x0,0(x8) | sw x0,0(x8) | sw x0,0(x8) ;
li x14,1 | li x14,1 | li x14,1 | li x14,1 | li x14,1 ;
OUT: | OUT: | OUT: | OUT: | OUT: ;
exists (0:x14=1 /\\ 1:x14=1 /\\ 2:x14=1 /\\ 3:x14=1 /\\ 4:x14=1 /\\ ~d=5)
";

/// In how many hunts over the test two of so many workers or more have looked at regions, and at how many refutations
/// they have.
fn shared<R: Threads + Wait + Sync>(
    rt: &R,
    alloc: Global,
    text: &str,
    workers: u8,
) -> Result<(u64, u64), Fault> {
    let question = question_of(alloc, text, PRICES)?;
    let problem = problem_of(alloc, &question, USUAL_INFERENCES)?;
    let mut board = Board::new(alloc, question, 1_000_000)?;
    let hunters = Hunters::new(rt, workers);
    search_alone(
        alloc,
        problem,
        &mut board,
        usize::MAX,
        &mut Unwatched,
        &hunters,
    )?;
    Ok((hunters.joint(), hunters.checks()))
}

/// Adds the test, unless two workers hunt together in one of 20 searches at least, and look at a refutation together in
/// the first: a thread may begin only when the first one is done.
fn add_alone<R: Threads + Wait + Sync>(
    rt: &R,
    alloc: Global,
    text: &str,
    wrong: &mut String,
) -> Result<(), Fault> {
    let (mut hunts, checks) = shared(rt, alloc, text, 2)?;
    for _ in 1..20 {
        if hunts != 0 {
            break;
        }
        (hunts, _) = shared(rt, alloc, text, 2)?;
    }
    if hunts == 0 || checks == 0 {
        write!(
            wrong,
            "{hunts} hunts and {checks} checks are joint in {text}"
        )?;
    }
    Ok(())
}

/// Hunts that one worker makes, since they are short or there is no other.
const SHORT: &[(&str, u8)] = &[(SB, 4), (LOCK, 1)];

/// Adds the tests in which several workers hunt or look at a refutation.
fn add_joint<R: Threads + Wait + Sync>(
    rt: &R,
    alloc: Global,
    rows: &[(&str, u8)],
    wrong: &mut String,
) -> Result<(), Fault> {
    for (text, workers) in rows {
        let (hunts, checks) = shared(rt, alloc, text, *workers)?;
        if hunts != 0 || checks != 0 {
            write!(
                wrong,
                "{hunts} hunts and {checks} checks are joint in {text}"
            )?;
        }
    }
    Ok(())
}

/// How many workers hunt together.
const SEVERAL: &[u8] = &[2, 3, 16];

/// Adds what several workers answer otherwise than one. A load of the data before the swap, and a store to it after the
/// lock is free, lose an addition. So each hart needs `r,r` behind its swap, for 3, and `w,w` before it gives the lock
/// back, for 2.
fn add_others<R: Threads + Wait + Sync>(
    rt: &R,
    alloc: Global,
    several: &[u8],
    wrong: &mut String,
) -> Result<(), AllocError> {
    let alone = answered(rt, alloc, LOCK, 1, 1_000_000, &Open)?;
    if !alone.starts_with("fenced 25 ") {
        add_wrong(LOCK, &alone, "fenced 25 ", wrong)?;
    }
    for workers in several {
        let line = answered(rt, alloc, LOCK, *workers, 1_000_000, &Open)?;
        add_wrong(LOCK, &line, &alone, wrong)?;
    }
    Ok(())
}

/// What hunts by several workers come to otherwise than is wanted.
fn wrong_hunts<R: Threads + Wait + Sync>(rt: &R, alloc: Global) -> Result<String, Fault> {
    let mut wrong = String::new(alloc);
    add_alone(rt, alloc, LOCK, &mut wrong)?;
    add_joint(rt, alloc, SHORT, &mut wrong)?;
    add_others(rt, alloc, SEVERAL, &mut wrong)?;
    Ok(wrong)
}

#[test]
fn hunters_join_and_find_the_same_fences(rt: HostRuntime) -> Result<(), Fail> {
    let wrong = wrong_hunts(&rt, rt.alloc())?;
    assert_eq!(rt; wrong.as_str(), "");
    Ok(())
}
