//! Tests that are answered only where hunts and plans go on for long, and a short one beside them.

use fs_board_search::{Limits, USUAL_INFERENCES, Unwatched, solve};
use fs_kinds::Fault;
use fs_tests_shared::{PRICES, SB, question_of};
use std::alloc::Global;

/// Message passing over three harts, with two more loads in each: 64 nodes with a plan, and 190 without.
const PASSED: &str = "RISCV MP-3-2
{
0:x6=1;
0:x20=a;
0:x21=spare;
0:x22=b;
1:x20=b;
1:x21=spare;
1:x6=1;
1:x22=c;
2:x20=c;
2:x21=spare;
2:x22=a;
}
P0 | P1 | P2 ;
sw x6,0(x20) | lw x10,0(x20) | lw x10,0(x20) ;
lw x19,0(x21) | lw x19,0(x21) | lw x19,0(x21) ;
lw x19,0(x21) | lw x19,0(x21) | lw x19,0(x21) ;
sw x6,0(x22) | sw x6,0(x22) | lw x11,0(x22) ;
exists (1:x10=1 /\\ 2:x10=1 /\\ 2:x11=0)
";

/// Store buffering with four more loads in each hart: 71 nodes with a plan, and 211 without.
const BUFFERED: &str = "RISCV SB-2-4
{
0:x6=1;
0:x20=a;
0:x21=spare;
0:x22=b;
1:x6=1;
1:x20=b;
1:x21=spare;
1:x22=a;
}
P0 | P1 ;
sw x6,0(x20) | sw x6,0(x20) ;
lw x19,0(x21) | lw x19,0(x21) ;
lw x19,0(x21) | lw x19,0(x21) ;
lw x19,0(x21) | lw x19,0(x21) ;
lw x19,0(x21) | lw x19,0(x21) ;
lw x10,0(x22) | lw x10,0(x22) ;
exists (0:x10=0 /\\ 1:x10=0)
";

/// Five harts that each add 1 by a pair, all of which store, and one addition is lost. The hunt takes 2,568 inferences,
/// and there are more candidates than are listed.
const ADDERS: &str = "RISCV ADDERS
{
0:x20=a; 1:x20=a; 2:x20=a; 3:x20=a; 4:x20=a;
}
P0 | P1 | P2 | P3 | P4 ;
lr.w x5,(x20) | lr.w x5,(x20) | lr.w x5,(x20) | lr.w x5,(x20) | lr.w x5,(x20) ;
addi x5,x5,1 | addi x5,x5,1 | addi x5,x5,1 | addi x5,x5,1 | addi x5,x5,1 ;
sc.w x9,x5,(x20) | sc.w x9,x5,(x20) | sc.w x9,x5,(x20) | sc.w x9,x5,(x20) | sc.w x9,x5,(x20) ;
exists (a=4 /\\ 0:x9=0 /\\ 1:x9=0 /\\ 2:x9=0 /\\ 3:x9=0 /\\ 4:x9=0)
";

/// How many nodes the search has made in the end.
fn nodes(alloc: Global, text: &str) -> Result<usize, Fault> {
    let question = question_of(alloc, text, PRICES)?;
    let limits = Limits {
        nodes: 1_000_000,
        inferences: USUAL_INFERENCES,
    };
    let solved = solve(alloc, question, limits, &mut Unwatched)?;
    match solved.board() {
        Some(board) => Ok(board.len()),
        None => Ok(0),
    }
}

/// The tests that are answered with more nodes, or with none.
pub(crate) fn wrong_nodes(alloc: Global, rows: &[(&str, usize)]) -> Result<String, Fault> {
    let mut wrong = String::new(alloc);
    for (text, most) in rows {
        let made = nodes(alloc, text)?;
        if made == 0 || made > *most {
            write!(wrong, "{made} nodes: {text}")?;
        }
    }
    Ok(wrong)
}

/// Store buffering needs two fences, and they are posted only at a node where both slots are decided. So 15 nodes are
/// the fewest: the root, seven that decide one of the slots, since six kinds are offered, and seven below one of these.
pub(crate) const MOST_NODES: &[(&str, usize)] = &[
    (PASSED, 100),
    (BUFFERED, 100),
    (ADDERS, 1),
    (SB, 15),
];
