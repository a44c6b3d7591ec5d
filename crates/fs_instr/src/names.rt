//! The names of the instruction table (RV32I and the A extension of the unprivileged manual, 20191213), with their
//! suffixes spelled out: a name is one of these texts, letter by letter.

ghost use Rattle.std.specs.Prelude.{◌≡◌, Some, map};
ghost use Rattle.fs_instr.specs.Rows.{look_up};
ghost use Rattle.fs_instr.specs.Names.{register_names, immediate_names, branch_names, single_names, plain_names};
ghost use Rattle.fs_instr.specs.Names.{acquiring_names, releasing_names, both_names, both_apart_names, register_text};
ghost use Rattle.fs_instr.specs.Names.{immediate_text, branch_text, single_text, plain, acquiring, releasing, both};
ghost use Rattle.fs_instr.specs.Names.{annotation_of, name_text, op_of, all_names, low_names, short_names};
ghost use Rattle.fs_instr.specs.Names.{short_branch_names};
ghost use Rattle.std.specs.List.{IsDistinct};
ghost use Rattle.std.specs.Str.{bytes_eq};

/// What an instruction of two registers computes: shifts by the low 5 bits of the second (`Sra` keeps the sign); `Slt`
/// and `Sltu` give 1 where the first is less, signed and unsigned, and else 0.
#[derive(Clone, Copy, PartialEq, Eq)]
pub enum RegOp {
    Add,
    Sub,
    Xor,
    Or,
    And,
    Sll,
    Srl,
    Sra,
    Slt,
    Sltu,
}

/// What an instruction of a register and a sign-extended number computes; `Slti` compares signed, `Sltiu` unsigned.
#[derive(Clone, Copy, PartialEq, Eq)]
pub enum ImmOp {
    Addi,
    Xori,
    Ori,
    Andi,
    Slti,
    Sltiu,
}

/// A shift by a number: to the left, to the right with zeros, to the right with the sign.
#[derive(Clone, Copy, PartialEq, Eq)]
pub enum ShiftOp {
    Slli,
    Srli,
    Srai,
}

/// When a branch goes to its target; `Blt` and `Bge` compare signed, `Bltu` and `Bgeu` unsigned.
#[derive(Clone, Copy, PartialEq, Eq)]
pub enum BranchOp {
    Beq,
    Bne,
    Blt,
    Bge,
    Bltu,
    Bgeu,
}

/// What an AMO stores, of the word that it read and that of its source: `Swap` the source; `Min` and `Max` compare
/// signed, `Minu` and `Maxu` unsigned.
#[derive(Clone, Copy, PartialEq, Eq)]
pub enum AmoOp {
    Swap,
    Add,
    Xor,
    And,
    Or,
    Min,
    Max,
    Minu,
    Maxu,
}

/// The ordering annotations of a memory instruction: its bits aq and rl (those of lw and sw are of the extension
/// Zalasr).
#[derive(Clone, Copy, PartialEq, Eq)]
pub struct Ann {
    pub acquire: bool,
    pub release: bool,
}

/// A row of the instruction table: a name, or the two of an annotation with both bits. From `Nop` on they are short for
/// others.
#[derive(Clone, Copy)]
pub enum Op {
    Register(RegOp),
    Immediate(ImmOp),
    Shift(ShiftOp),
    Lui,
    Li,
    Lw(Ann),
    Sw(Ann),
    /// `lr.w`.
    Lr(Ann),
    /// `sc.w`.
    Sc(Ann),
    Amo(AmoOp, Ann),
    Branch(BranchOp),
    Jal,
    /// `fence` with letters.
    Fence,
    FenceTso,
    FenceI,
    Nop,
    /// `mv`, and `sext.w`, since registers hold 32 bits.
    Mv,
    Seqz,
    Not,
    /// `snez`, `sgtz` and `neg`: of x0 and a register.
    OfZero(RegOp),
    /// `sltz`: of a register and x0.
    WithZero(RegOp),
    /// `beqz`, `bnez`, `bgez` and `bltz`: of a register and x0.
    BranchZero(BranchOp),
    /// `blez` and `bgtz`: of x0 and a register.
    ZeroBranch(BranchOp),
    /// `bgt`, `ble`, `bgtu` and `bleu`: with the registers swapped.
    Swapped(BranchOp),
    J,
    /// `fence` alone.
    FenceAll,
}

// The names, and the row that each spells. In groups, since a match of all of them is too large to prove.
macro_rules! names {
    (register_of $use:ident $($arguments:tt)*) => {
        $use! { [$($arguments)*]
            "add" => Op::Register(RegOp::Add),
            "sub" => Op::Register(RegOp::Sub),
            "xor" => Op::Register(RegOp::Xor),
            "or" => Op::Register(RegOp::Or),
            "and" => Op::Register(RegOp::And),
            "sll" => Op::Register(RegOp::Sll),
            "srl" => Op::Register(RegOp::Srl),
            "sra" => Op::Register(RegOp::Sra),
            "slt" => Op::Register(RegOp::Slt),
            "sltu" => Op::Register(RegOp::Sltu),
        }
    };
    (immediate_of $use:ident $($arguments:tt)*) => {
        $use! { [$($arguments)*]
            "addi" => Op::Immediate(ImmOp::Addi),
            "xori" => Op::Immediate(ImmOp::Xori),
            "ori" => Op::Immediate(ImmOp::Ori),
            "andi" => Op::Immediate(ImmOp::Andi),
            "slti" => Op::Immediate(ImmOp::Slti),
            "sltiu" => Op::Immediate(ImmOp::Sltiu),
            "slli" => Op::Shift(ShiftOp::Slli),
            "srli" => Op::Shift(ShiftOp::Srli),
            "srai" => Op::Shift(ShiftOp::Srai),
        }
    };
    (branch_of $use:ident $($arguments:tt)*) => {
        $use! { [$($arguments)*]
            "beq" => Op::Branch(BranchOp::Beq),
            "bne" => Op::Branch(BranchOp::Bne),
            "blt" => Op::Branch(BranchOp::Blt),
            "bge" => Op::Branch(BranchOp::Bge),
            "bltu" => Op::Branch(BranchOp::Bltu),
            "bgeu" => Op::Branch(BranchOp::Bgeu),
            "beqz" => Op::BranchZero(BranchOp::Beq),
            "bnez" => Op::BranchZero(BranchOp::Bne),
            "jal" => Op::Jal,
            "j" => Op::J,
        }
    };
    (single_of $use:ident $($arguments:tt)*) => {
        $use! { [$($arguments)*]
            "lui" => Op::Lui,
            "li" => Op::Li,
            "fence" => Op::Fence,
            "fence.tso" => Op::FenceTso,
            "fence.i" => Op::FenceI,
            "nop" => Op::Nop,
            "mv" => Op::Mv,
        }
    };
    (short_of $use:ident $($arguments:tt)*) => {
        $use! { [$($arguments)*]
            "seqz" => Op::Seqz,
            "snez" => Op::OfZero(RegOp::Sltu),
            "sltz" => Op::WithZero(RegOp::Slt),
            "sgtz" => Op::OfZero(RegOp::Slt),
            "neg" => Op::OfZero(RegOp::Sub),
            "not" => Op::Not,
            "sext.w" => Op::Mv,
        }
    };
    (short_branch_of $use:ident $($arguments:tt)*) => {
        $use! { [$($arguments)*]
            "bgt" => Op::Swapped(BranchOp::Blt),
            "ble" => Op::Swapped(BranchOp::Bge),
            "bgtu" => Op::Swapped(BranchOp::Bltu),
            "bleu" => Op::Swapped(BranchOp::Bgeu),
            "blez" => Op::ZeroBranch(BranchOp::Bge),
            "bgez" => Op::BranchZero(BranchOp::Bge),
            "bltz" => Op::BranchZero(BranchOp::Blt),
            "bgtz" => Op::ZeroBranch(BranchOp::Blt),
        }
    };
    (low_of $use:ident $($arguments:tt)*) => {
        $use! { [$($arguments)*]
            "addw" => Op::Register(RegOp::Add),
            "subw" => Op::Register(RegOp::Sub),
            "sllw" => Op::Register(RegOp::Sll),
            "srlw" => Op::Register(RegOp::Srl),
            "sraw" => Op::Register(RegOp::Sra),
            "negw" => Op::OfZero(RegOp::Sub),
            "addiw" => Op::Immediate(ImmOp::Addi),
            "slliw" => Op::Shift(ShiftOp::Slli),
            "srliw" => Op::Shift(ShiftOp::Srli),
            "sraiw" => Op::Shift(ShiftOp::Srai),
        }
    };
    (plain_of $use:ident $($arguments:tt)*) => {
        $use! { [$($arguments)*] (Ann { acquire: false, release: false })
            "lw" => Lw(),
            "sw" => Sw(),
            "lr.w" => Lr(),
            "sc.w" => Sc(),
            "amoswap.w" => Amo(AmoOp::Swap),
            "amoadd.w" => Amo(AmoOp::Add),
            "amoxor.w" => Amo(AmoOp::Xor),
            "amoand.w" => Amo(AmoOp::And),
            "amoor.w" => Amo(AmoOp::Or),
            "amomin.w" => Amo(AmoOp::Min),
            "amomax.w" => Amo(AmoOp::Max),
            "amominu.w" => Amo(AmoOp::Minu),
            "amomaxu.w" => Amo(AmoOp::Maxu),
        }
    };
    (acquiring_of $use:ident $($arguments:tt)*) => {
        $use! { [$($arguments)*] (Ann { acquire: true, release: false })
            "lw.aq" => Lw(),
            "sw.aq" => Sw(),
            "lr.w.aq" => Lr(),
            "sc.w.aq" => Sc(),
            "amoswap.w.aq" => Amo(AmoOp::Swap),
            "amoadd.w.aq" => Amo(AmoOp::Add),
            "amoxor.w.aq" => Amo(AmoOp::Xor),
            "amoand.w.aq" => Amo(AmoOp::And),
            "amoor.w.aq" => Amo(AmoOp::Or),
            "amomin.w.aq" => Amo(AmoOp::Min),
            "amomax.w.aq" => Amo(AmoOp::Max),
            "amominu.w.aq" => Amo(AmoOp::Minu),
            "amomaxu.w.aq" => Amo(AmoOp::Maxu),
        }
    };
    (releasing_of $use:ident $($arguments:tt)*) => {
        $use! { [$($arguments)*] (Ann { acquire: false, release: true })
            "lw.rl" => Lw(),
            "sw.rl" => Sw(),
            "lr.w.rl" => Lr(),
            "sc.w.rl" => Sc(),
            "amoswap.w.rl" => Amo(AmoOp::Swap),
            "amoadd.w.rl" => Amo(AmoOp::Add),
            "amoxor.w.rl" => Amo(AmoOp::Xor),
            "amoand.w.rl" => Amo(AmoOp::And),
            "amoor.w.rl" => Amo(AmoOp::Or),
            "amomin.w.rl" => Amo(AmoOp::Min),
            "amomax.w.rl" => Amo(AmoOp::Max),
            "amominu.w.rl" => Amo(AmoOp::Minu),
            "amomaxu.w.rl" => Amo(AmoOp::Maxu),
        }
    };
    (both_of $use:ident $($arguments:tt)*) => {
        $use! { [$($arguments)*] (Ann { acquire: true, release: true })
            "lw.aqrl" => Lw(),
            "sw.aqrl" => Sw(),
            "lr.w.aqrl" => Lr(),
            "sc.w.aqrl" => Sc(),
            "amoswap.w.aqrl" => Amo(AmoOp::Swap),
            "amoadd.w.aqrl" => Amo(AmoOp::Add),
            "amoxor.w.aqrl" => Amo(AmoOp::Xor),
            "amoand.w.aqrl" => Amo(AmoOp::And),
            "amoor.w.aqrl" => Amo(AmoOp::Or),
            "amomin.w.aqrl" => Amo(AmoOp::Min),
            "amomax.w.aqrl" => Amo(AmoOp::Max),
            "amominu.w.aqrl" => Amo(AmoOp::Minu),
            "amomaxu.w.aqrl" => Amo(AmoOp::Maxu),
        }
    };
    (both_apart_of $use:ident $($arguments:tt)*) => {
        $use! { [$($arguments)*] (Ann { acquire: true, release: true })
            "lw.aq.rl" => Lw(),
            "sw.aq.rl" => Sw(),
            "lr.w.aq.rl" => Lr(),
            "sc.w.aq.rl" => Sc(),
            "amoswap.w.aq.rl" => Amo(AmoOp::Swap),
            "amoadd.w.aq.rl" => Amo(AmoOp::Add),
            "amoxor.w.aq.rl" => Amo(AmoOp::Xor),
            "amoand.w.aq.rl" => Amo(AmoOp::And),
            "amoor.w.aq.rl" => Amo(AmoOp::Or),
            "amomin.w.aq.rl" => Amo(AmoOp::Min),
            "amomax.w.aq.rl" => Amo(AmoOp::Max),
            "amominu.w.aq.rl" => Amo(AmoOp::Minu),
            "amomaxu.w.aq.rl" => Amo(AmoOp::Maxu),
        }
    };
}

macro_rules! find {
    ([$word:ident] $($text:literal => $op:expr,)*) => {
        look_up(&[$(($text, $op)),*], $word)
    };
    ([$word:ident] ($ann:expr) $($text:literal => $access:ident($($op:path)?),)*) => {
        look_up(&[$(($text, Op::$access($($op,)? $ann))),*], $word)
    };
}

/// What the first row with this word holds.
fn look_up(rows: &[(&str, Op)], word: &str) -> Option<Op>
    ensures { result ≡ look_up (map (λ row. (row.0.now, row.1)) rows.now) word.now }
{
    match rows.split_first() {
        Some(((name, op), rest)) => {
            if word == *name {
                Some(*op)
            } else {
                look_up(rest, word)
            }
        }
        None => None,
    }
}

#[tactic(auto, unfolding(crate::specs::Names::register_names))]
fn register_of(word: &str) -> Option<Op>
    ensures { result ≡ look_up register_names word.now }
{
    names!(register_of find word)
}

#[tactic(auto, unfolding(crate::specs::Names::immediate_names))]
fn immediate_of(word: &str) -> Option<Op>
    ensures { result ≡ look_up immediate_names word.now }
{
    names!(immediate_of find word)
}

#[tactic(auto, unfolding(crate::specs::Names::branch_names))]
fn branch_of(word: &str) -> Option<Op>
    ensures { result ≡ look_up branch_names word.now }
{
    names!(branch_of find word)
}

#[tactic(auto, unfolding(crate::specs::Names::single_names))]
fn single_of(word: &str) -> Option<Op>
    ensures { result ≡ look_up single_names word.now }
{
    names!(single_of find word)
}

#[tactic(auto, unfolding(crate::specs::Names::plain_names))]
fn plain_of(word: &str) -> Option<Op>
    ensures { result ≡ look_up plain_names word.now }
{
    names!(plain_of find word)
}

#[tactic(auto, unfolding(crate::specs::Names::acquiring_names))]
fn acquiring_of(word: &str) -> Option<Op>
    ensures { result ≡ look_up acquiring_names word.now }
{
    names!(acquiring_of find word)
}

#[tactic(auto, unfolding(crate::specs::Names::releasing_names))]
fn releasing_of(word: &str) -> Option<Op>
    ensures { result ≡ look_up releasing_names word.now }
{
    names!(releasing_of find word)
}

#[tactic(auto, unfolding(crate::specs::Names::both_names))]
fn both_of(word: &str) -> Option<Op>
    ensures { result ≡ look_up both_names word.now }
{
    names!(both_of find word)
}

#[tactic(auto, unfolding(crate::specs::Names::both_apart_names))]
fn both_apart_of(word: &str) -> Option<Op>
    ensures { result ≡ look_up both_apart_names word.now }
{
    names!(both_apart_of find word)
}

#[tactic(auto, unfolding(crate::specs::Names::short_names))]
fn short_of(word: &str) -> Option<Op>
    ensures { result ≡ look_up short_names word.now }
{
    names!(short_of find word)
}

#[tactic(auto, unfolding(crate::specs::Names::short_branch_names))]
fn short_branch_of(word: &str) -> Option<Op>
    ensures { result ≡ look_up short_branch_names word.now }
{
    names!(short_branch_of find word)
}

// Of the low 32 bits, which are all that registers hold.
#[tactic(auto, unfolding(crate::specs::Names::low_names))]
fn low_of(word: &str) -> Option<Op>
    ensures { result ≡ look_up low_names word.now }
{
    names!(low_of find word)
}

macro_rules! text {
    ([$op:ident] $($text:literal => $row:pat,)*) => {
        match $op {
            $($row => $text,)*
            _ => "",
        }
    };
}

macro_rules! only_text {
    ([$op:ident] ($ann:expr) $($text:literal => $access:ident($($row:path)?),)*) => {
        match $op {
            $(Op::$access($($row,)? _) => $text,)*
            _ => unreachable!(),
        }
    };
}

fn register_text(op: Op) -> &'static str
    ensures { result.now ≡ register_text op }
{
    names!(register_of text op)
}

fn immediate_text(op: Op) -> &'static str
    ensures { result.now ≡ immediate_text op }
{
    names!(immediate_of text op)
}

fn branch_text(op: Op) -> &'static str
    ensures { result.now ≡ branch_text op }
{
    names!(branch_of text op)
}

fn single_text(op: Op) -> &'static str
    ensures { result.now ≡ single_text op }
{
    names!(single_of text op)
}

fn plain_text(op: Op) -> &'static str
    requires { annotation_of op ≡ Some plain }
    ensures { result.now ≡ name_text op }
{
    names!(plain_of only_text op)
}

fn acquiring_text(op: Op) -> &'static str
    requires { annotation_of op ≡ Some acquiring }
    ensures { result.now ≡ name_text op }
{
    names!(acquiring_of only_text op)
}

fn releasing_text(op: Op) -> &'static str
    requires { annotation_of op ≡ Some releasing }
    ensures { result.now ≡ name_text op }
{
    names!(releasing_of only_text op)
}

fn both_text(op: Op) -> &'static str
    requires { annotation_of op ≡ Some both }
    ensures { result.now ≡ name_text op }
{
    names!(both_of only_text op)
}

impl Op {
    /// The row with this name; nothing for any other word.
    #[tactic(auto, unfolding(crate::specs::Names::op_of))]
    pub fn of(word: &str) -> Option<Op>
        ensures { result ≡ op_of word.now }
    {
        if let Some(op) = register_of(word) {
            return Some(op);
        }
        if let Some(op) = immediate_of(word) {
            return Some(op);
        }
        if let Some(op) = branch_of(word) {
            return Some(op);
        }
        if let Some(op) = single_of(word) {
            return Some(op);
        }
        if let Some(op) = plain_of(word) {
            return Some(op);
        }
        if let Some(op) = acquiring_of(word) {
            return Some(op);
        }
        if let Some(op) = releasing_of(word) {
            return Some(op);
        }
        if let Some(op) = both_of(word) {
            return Some(op);
        }
        if let Some(op) = both_apart_of(word) {
            return Some(op);
        }
        if let Some(op) = short_of(word) {
            return Some(op);
        }
        if let Some(op) = short_branch_of(word) {
            return Some(op);
        }
        low_of(word)
    }

    /// The name that prints the row: `.aqrl` for both bits. Of what is short for a computation or for a branch, which
    /// prints as that, it is empty or a name of another row.
    pub fn text(self) -> &'static str
        ensures { result.now ≡ name_text self }
    {
        match self {
            Op::Register(_) => register_text(self),
            Op::Immediate(_) | Op::Shift(_) => immediate_text(self),
            Op::Branch(_) | Op::BranchZero(_) | Op::Jal | Op::J => branch_text(self),
            Op::Lw(ann) | Op::Sw(ann) | Op::Lr(ann) | Op::Sc(ann) | Op::Amo(_, ann) => match ann {
                Ann {
                    acquire: false,
                    release: false,
                } => plain_text(self),
                Ann {
                    acquire: true,
                    release: false,
                } => acquiring_text(self),
                Ann {
                    acquire: false,
                    release: true,
                } => releasing_text(self),
                Ann {
                    acquire: true,
                    release: true,
                } => both_text(self),
            },
            Op::FenceAll => "fence",
            _ => single_text(self),
        }
    }
}

/// A law: each name stands once in the table, so no two rows spell alike.
pub fn names_stand_once()
    ensures { IsDistinct bytes_eq all_names }
{}
