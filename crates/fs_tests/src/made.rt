//! Litmus tests made by number: two harts of three cells each, on x and y.

use fs_tests_shared::Digits;
use std::alloc::{AllocError, Global};

/// What a cell may have, with the number of its memory instructions: x5 is 1 in hart 0 and 2 in hart 1.
const CELLS: &[(&str, usize)] = &[
    ("lw x7,0(x6)", 1),
    ("lw x9,0(x8)", 1),
    ("lw x7,0(x6)", 1),
    ("lw x9,0(x8)", 1),
    ("sw x5,0(x6)", 1),
    ("sw x5,0(x8)", 1),
    ("sw x5,0(x6)", 1),
    ("sw x5,0(x8)", 1),
    ("sw x7,0(x8)", 1),
    ("amoadd.w x7,x5,(x6)", 1),
    ("lr.w x7,(x6)", 1),
    ("sc.w x10,x5,(x6)", 1),
    ("amoswap.w.aq x9,x5,(x8)", 1),
];

/// A condition that is always true, and names the registers that cells write and both locations.
const CONDITION: &str =
    "exists (true \\/ 0:x7=0 \\/ 0:x9=0 \\/ 0:x10=0 \\/ 1:x7=0 \\/ 1:x9=0 \\/ 1:x10=0 \\/ x=0 \\/ y=0)\n";

/// The most memory instructions of both harts.
const MOST_ACCESSES: usize = 4;

/// The next cell, which is empty once there are enough memory instructions.
fn next_cell(digits: &mut Digits, accesses: &mut usize) -> &'static str {
    let Some((cell, count)) = CELLS.get(digits.take(CELLS.len())) else {
        return "";
    };
    *accesses = accesses.saturating_add(*count);
    if *accesses > MOST_ACCESSES { "" } else { *cell }
}

/// The test of this number.
pub(crate) fn made_test(alloc: Global, number: usize) -> Result<String, AllocError> {
    let mut digits = Digits {
        rest: number.wrapping_mul(0x9e37_79b9_7f4a_7c15), // its digits have little to do with those of its neighbours
    };
    let mut accesses = 0;
    let mut text = format!(in alloc; "RISCV Made{number}\n")?;
    text.push_str("{ 0:x6=x; 0:x8=y; 0:x5=1; 1:x6=x; 1:x8=y; 1:x5=2; }\nP0 | P1 ;\n")?;
    for _ in 0..3 {
        let first = next_cell(&mut digits, &mut accesses);
        let second = next_cell(&mut digits, &mut accesses);
        writeln!(text, "{first} | {second} ;")?;
    }
    text.push_str(CONDITION)?;
    Ok(text)
}
