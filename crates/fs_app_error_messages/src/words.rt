//! What is said of an instruction that isn't of the profile, or whose operands aren't. These words promise nothing.

use fs_instr::Op;

/// Words of calls and of jumps to registers.
fn is_call(word: &str) -> bool {
    matches!(word, "call" | "tail" | "ret" | "jalr" | "jr")
}

/// Words of traps.
fn is_trap(word: &str) -> bool {
    matches!(word, "ecall" | "ebreak")
}

/// Words of accesses of a byte or of half a word.
fn is_narrow(word: &str) -> bool {
    matches!(word, "lb" | "lbu" | "lh" | "lhu" | "sb" | "sh")
}

/// Accesses of 64 bits.
fn is_wide(word: &str) -> bool {
    matches!(word, "ld" | "sd" | "ld.aq" | "sd.rl") || word.ends_with(".d") || word.contains(".d.")
}

/// What is said of a word that is no mnemonic of the profile.
pub(crate) fn unknown_words(word: &str) -> &'static str {
    if is_wide(word) {
        return "accesses of 64 bits don't go with those of a word: all of a test have one width";
    }
    if is_narrow(word) {
        return "accesses of less than a word are left out: write `lw` or `sw`";
    }
    if is_call(word) {
        return "calls and jumps to registers are left out: write the code in line";
    }
    if is_trap(word) {
        return "traps are left out";
    }
    other_words(word)
}

fn other_words(word: &str) -> &'static str {
    if word == "la" {
        return "addresses are initial values: write `0:x6=x;` between the braces";
    }
    if word == "zext.b" {
        return "not of this profile: write `andi x5,x6,255` for `zext.b x5,x6`";
    }
    if word == "lwu" {
        return "all accesses of a test have one width: write `lw`, or `ld` beside others of 64 bits";
    }
    if word == "pause" {
        return "`pause` is a hint to the processor, which orders nothing: leave it out";
    }
    if word.starts_with("fence.") {
        return "the letters are operands: write `fence rw,w`, or `fence.tso`";
    }
    if word.starts_with("lw.") || word.starts_with("sw.") {
        return "with `--zalasr` `lw` has `.aq` and `.aqrl`, and `sw` `.rl` and `.aqrl`; else write a fence";
    }
    "no mnemonic of this profile: docs/FORMAT.md, section 2, lists them"
}

/// What the operands of an instruction of the table must be.
pub(crate) fn operand_words(op: Op) -> &'static str {
    match op {
        Op::Register(_) => "expected three registers, as `x5,x6,x7`, and no more",
        Op::Immediate(_) => "expected `x5,x6,imm`, imm from -2048 to 2047, and no more",
        Op::Shift(_) => "expected `x5,x6,n`, n from 0 to 31, and no more",
        Op::Lui => "expected `x5,n`, n from 0 to 1048575, and no more",
        Op::Li => "expected a register and a number, as `x5,1`, and no more",
        Op::Lw(_) => "expected `x5,imm(x6)`, imm from -2048 to 2047, and no more",
        Op::Sw(_) => "expected `x5,imm(x6)`, imm from -2048 to 2047, and no more",
        Op::Lr(_) => "expected `x5,(x6)`, no other offset than 0, and no more",
        Op::Sc(_) => "expected `x5,x7,(x6)`, no other offset than 0, and no more",
        Op::Amo(_, _) => "expected `x5,x7,(x6)`, no other offset than 0, and no more",
        Op::Branch(_) | Op::Swapped(_) =>
            "expected two registers and the name of a label, as `x5,x6,L`, and no more",
        _ => other_operands(op),
    }
}

fn other_operands(op: Op) -> &'static str {
    match op {
        Op::Jal => "expected `x0,L`: a jump that links is left out",
        Op::Fence => "expected letters of `iorw` in this order, as `rw,w`, and no more",
        Op::FenceAll => "expected letters of `iorw` in this order, as `rw,w`, and no more",
        Op::Mv | Op::Seqz | Op::Not | Op::OfZero(_) | Op::WithZero(_) =>
            "expected two registers, as `x5,x6`, and no more",
        Op::BranchZero(_) | Op::ZeroBranch(_) =>
            "expected a register and the name of a label, as `x5,L`, and no more",
        Op::J => "expected the name of a label, as `L`, and no more",
        _ => "expected no operands, and no more in this cell",
    }
}
