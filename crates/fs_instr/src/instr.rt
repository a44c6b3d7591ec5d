//! Instructions: the forms, the table that reads and prints them, and the roles of their registers.

ghost use Rattle.std.specs.Prelude.{◌≡◌};
ghost use Rattle.fs_instr.specs.Instructions.{parts_of, instr_of, op_of_instr, operands_of, targeted, target_of};
ghost use Rattle.fs_instr.specs.Instructions.{is_memory, is_conditional, roles_of, dest_of, sources_of, address_of};
ghost use Rattle.fs_instr.specs.Instructions.{data_of, carries_of};

use crate::letters::Letters;
use crate::names::{AmoOp, Ann, BranchOp, ImmOp, Op, RegOp, ShiftOp};
use crate::operands::OperandPart::{
    self, After, Before, Below, Constant, First, Immediate, Label, NoOffset, Offset, Rd, Second,
    Sign, Zero,
};
use crate::operands::Operands;
use crate::reg::Reg;
use fs_litmus_tokens::Mark::{CloseParen, Comma, OpenParen};

/// An instruction of the table (RV32I, and the extensions A and Zifencei, of the unprivileged manual, 20191213). Registers hold words
/// of 32 bits, sums wrap, and all sources are read before the destination is written.
#[derive(Clone, Copy, PartialEq, Eq)]
pub enum Instr {
    /// `add rd,first,second` and its like.
    Register {
        op: RegOp,
        rd: Reg,
        first: Reg,
        second: Reg,
    },
    /// `addi rd,first,imm` and its like; `imm` is -2048 to 2047.
    Immediate {
        op: ImmOp,
        rd: Reg,
        first: Reg,
        imm: i32,
    },
    /// `slli rd,first,amount` and its like; `amount` is 0 to 31.
    Shift {
        op: ShiftOp,
        rd: Reg,
        first: Reg,
        amount: u32,
    },
    /// `lui rd,upper`: rd is `upper` times 4096; `upper` is below 2^20.
    Lui {
        rd: Reg,
        upper: u32,
    },
    /// `li rd,word`: one instruction here.
    Li {
        rd: Reg,
        word: u32,
    },
    /// `lw rd,offset(base)`: loads the word at base + offset; `offset` is -2048 to 2047.
    Lw {
        ann: Ann,
        rd: Reg,
        base: Reg,
        offset: i32,
    },
    /// `sw value,offset(base)`: stores a word at base + offset; `offset` is -2048 to 2047.
    Sw {
        ann: Ann,
        value: Reg,
        base: Reg,
        offset: i32,
    },
    /// `lr.w rd,(base)`: loads and reserves the word at base.
    Lr {
        ann: Ann,
        rd: Reg,
        base: Reg,
    },
    /// `sc.w rd,value,(base)`: on success stores a word at base and writes 0 to rd; on failure writes 1.
    Sc {
        ann: Ann,
        rd: Reg,
        value: Reg,
        base: Reg,
    },
    /// `amoadd.w rd,value,(base)` and its like: writes the word at base to rd, and stores what `op` makes of it and
    /// `value`.
    Amo {
        op: AmoOp,
        ann: Ann,
        rd: Reg,
        value: Reg,
        base: Reg,
    },
    /// `beq first,second,target` and its like: goes to the target where the test holds.
    Branch {
        op: BranchOp,
        first: Reg,
        second: Reg,
        target: u8,
    },
    /// `jal x0,target`: goes to the target.
    Jump {
        target: u8,
    },
    /// `fence before,after`: orders operations of the one side before those of the other.
    Fence {
        before: Letters,
        after: Letters,
    },
    /// `fence.tso`: orders loads before all, and stores before stores.
    FenceTso,
    /// `fence.i`: orders the fetching of instructions, which isn't modelled, and no memory operations.
    FenceI,
}

// What an instruction does with registers. x0 is never among them.
#[derive(Clone, Copy)]
struct Roles {
    dest: Option<Reg>,
    sources: [Option<Reg>; 2],
    address: Option<Reg>,
    data: Option<Reg>,
    carries: bool,
}

// The instruction table. A row's first line is its text: the row of names that spells the instruction, its operands
// part by part, and the operands that these fill in. Its second line is the instruction that they make, and its roles.
// Below stand the pseudo-instructions, each with the instruction that it is short for.
macro_rules! table {
    ($column:ident $($subject:ident)*) => {
        $column! {
            ($($subject)*) { rd, first, second, imm, constant, target, before, after }
            {
                (Op::Register(op)) [Rd, Sign(Comma), First, Sign(Comma), Second] { rd, first, second }
                    (Instr::Register { op, rd, first, second }) { dest: rd.named(), sources: [first.named(), second.named()], address: None, data: None, carries: true };
                (Op::Immediate(op)) [Rd, Sign(Comma), First, Sign(Comma), Immediate] { rd, first, imm }
                    (Instr::Immediate { op, rd, first, imm }) { dest: rd.named(), sources: [first.named(), None], address: None, data: None, carries: true };
                (Op::Shift(op)) [Rd, Sign(Comma), First, Sign(Comma), Below(32)] { rd, first, constant }
                    (Instr::Shift { op, rd, first, amount: constant }) { dest: rd.named(), sources: [first.named(), None], address: None, data: None, carries: true };
                (Op::Lui) [Rd, Sign(Comma), Below(1048576)] { rd, constant }
                    (Instr::Lui { rd, upper: constant }) { dest: rd.named(), sources: [None, None], address: None, data: None, carries: false };
                (Op::Li) [Rd, Sign(Comma), Constant] { rd, constant }
                    (Instr::Li { rd, word: constant }) { dest: rd.named(), sources: [None, None], address: None, data: None, carries: false };
                (Op::Lw(ann)) [Rd, Sign(Comma), Offset, Sign(OpenParen), First, Sign(CloseParen)] { rd, first, imm }
                    (Instr::Lw { ann, rd, base: first, offset: imm }) { dest: rd.named(), sources: [first.named(), None], address: first.named(), data: None, carries: false };
                (Op::Sw(ann)) [Second, Sign(Comma), Offset, Sign(OpenParen), First, Sign(CloseParen)] { second, first, imm }
                    (Instr::Sw { ann, value: second, base: first, offset: imm }) { dest: None, sources: [first.named(), second.named()], address: first.named(), data: second.named(), carries: false };
                (Op::Lr(ann)) [Rd, Sign(Comma), NoOffset, Sign(OpenParen), First, Sign(CloseParen)] { rd, first }
                    (Instr::Lr { ann, rd, base: first }) { dest: rd.named(), sources: [first.named(), None], address: first.named(), data: None, carries: false };
                (Op::Sc(ann)) [Rd, Sign(Comma), Second, Sign(Comma), NoOffset, Sign(OpenParen), First, Sign(CloseParen)] { rd, second, first }
                    (Instr::Sc { ann, rd, value: second, base: first }) { dest: rd.named(), sources: [first.named(), second.named()], address: first.named(), data: second.named(), carries: false };
                (Op::Amo(op, ann)) [Rd, Sign(Comma), Second, Sign(Comma), NoOffset, Sign(OpenParen), First, Sign(CloseParen)] { rd, second, first }
                    (Instr::Amo { op, ann, rd, value: second, base: first }) { dest: rd.named(), sources: [first.named(), second.named()], address: first.named(), data: second.named(), carries: false };
                (Op::Branch(op)) [First, Sign(Comma), Second, Sign(Comma), Label] { first, second, target }
                    (Instr::Branch { op, first, second, target }) { dest: None, sources: [first.named(), second.named()], address: None, data: None, carries: false };
                (Op::Jal) [Zero, Sign(Comma), Label] { target }
                    (Instr::Jump { target }) { dest: None, sources: [None, None], address: None, data: None, carries: false };
                (Op::Fence) [Before, Sign(Comma), After] { before, after }
                    (Instr::Fence { before, after }) { dest: None, sources: [None, None], address: None, data: None, carries: false };
                (Op::FenceTso) [] {}
                    (Instr::FenceTso) { dest: None, sources: [None, None], address: None, data: None, carries: false };
                (Op::FenceI) [] {}
                    (Instr::FenceI) { dest: None, sources: [None, None], address: None, data: None, carries: false };
            }
            {
                (Op::Nop) [] (Instr::NOP);
                (Op::Mv) [Rd, Sign(Comma), First] (Instr::Immediate { op: ImmOp::Addi, rd, first, imm: 0 });
                (Op::Seqz) [Rd, Sign(Comma), First] (Instr::Immediate { op: ImmOp::Sltiu, rd, first, imm: 1 });
                (Op::Not) [Rd, Sign(Comma), First] (Instr::Immediate { op: ImmOp::Xori, rd, first, imm: -1 });
                (Op::OfZero(op)) [Rd, Sign(Comma), Second] (Instr::Register { op, rd, first: Reg::ZERO, second });
                (Op::WithZero(op)) [Rd, Sign(Comma), First] (Instr::Register { op, rd, first, second: Reg::ZERO });
                (Op::BranchZero(op)) [First, Sign(Comma), Label] (Instr::Branch { op, first, second: Reg::ZERO, target });
                (Op::ZeroBranch(op)) [Second, Sign(Comma), Label] (Instr::Branch { op, first: Reg::ZERO, second, target });
                (Op::Swapped(op)) [Second, Sign(Comma), First, Sign(Comma), Label] (Instr::Branch { op, first, second, target });
                (Op::J) [Label] (Instr::Jump { target });
                (Op::FenceAll) [] (Instr::Fence { before: Letters::ALL, after: Letters::ALL });
            }
        }
    };
}

macro_rules! parts {
    (($op:ident) $fields:tt
        { $($name:tt [$($part:expr),*] $filled:tt $instr:tt $roles:tt;)* }
        { $($short:tt [$($short_part:expr),*] $meaning:tt;)* }) => {
        match $op {
            $($name => &[$($part),*],)*
            $($short => &[$($short_part),*],)*
        }
    };
}

macro_rules! build {
    (($op:ident $operands:ident) $fields:tt
        { $($name:tt [$($part:expr),*] $filled:tt $instr:tt $roles:tt;)* }
        { $($short:tt [$($short_part:expr),*] $meaning:tt;)* }) => {{
        let Operands $fields = $operands;
        match $op {
            $($name => $instr,)*
            $($short => $meaning,)*
        }
    }};
}

macro_rules! names {
    (($self:ident) $fields:tt
        { $($name:tt [$($part:expr),*] $filled:tt $instr:tt $roles:tt;)* }
        { $($short:tt [$($short_part:expr),*] $meaning:tt;)* }) => {
        match $self {
            $($instr => $name,)*
        }
    };
}

macro_rules! operands {
    (($self:ident) $fields:tt
        { $($name:tt [$($part:expr),*] { $($filled:ident),* } $instr:tt $roles:tt;)* }
        { $($short:tt [$($short_part:expr),*] $meaning:tt;)* }) => {{
        let mut operands = Operands::BLANK;
        match $self {
            $($instr => { $(operands.$filled = $filled;)* })*
        }
        operands
    }};
}

macro_rules! roles {
    (($self:ident) $fields:tt
        { $($name:tt [$($part:expr),*] $filled:tt $instr:tt $roles:tt;)* }
        { $($short:tt [$($short_part:expr),*] $meaning:tt;)* }) => {
        match $self {
            $($instr => Roles $roles,)*
        }
    };
}

/// The parts of a row's operands, in the order of the text.
pub fn parts(op: Op) -> &'static [OperandPart]
    ensures { result.now ≡ parts_of op }
{
    table!(parts op)
}

/// The instruction that a row makes of its operands.
pub fn build(op: Op, operands: Operands) -> Instr
    ensures { result ≡ instr_of op operands }
{
    table!(build op operands)
}

impl Instr {
    /// `nop`, the instruction that does nothing: `addi x0,x0,0`.
    pub const NOP: Instr = Instr::Immediate {
        op: ImmOp::Addi,
        rd: Reg::ZERO,
        first: Reg::ZERO,
        imm: 0,
    };

    /// The same instruction with this target, where it is a branch or a jump; any other as it is. Targets are positions
    /// in the hart's code, counted in instructions from 0.
    pub fn with_target(self, target: u8) -> Instr
        ensures { result ≡ targeted target self }
    {
        match self {
            Instr::Branch {
                op,
                first,
                second,
                ..
            } => Instr::Branch {
                op,
                first,
                second,
                target,
            },
            Instr::Jump { .. } => Instr::Jump { target },
            other => other,
        }
    }

    /// The position that a branch or a jump goes to, counted in instructions from 0.
    pub fn target(self) -> Option<u8>
        ensures { result ≡ target_of self }
    {
        match self {
            Instr::Branch { target, .. } => Some(target),
            Instr::Jump { target } => Some(target),
            _ => None,
        }
    }

    /// Is it a memory instruction: lw, sw, lr.w, sc.w or an AMO?
    pub fn is_memory(self) -> bool
        ensures { result ≡ is_memory self }
    {
        matches!(
            self,
            Instr::Lw { .. }
                | Instr::Sw { .. }
                | Instr::Lr { .. }
                | Instr::Sc { .. }
                | Instr::Amo { .. }
        )
    }

    /// Is it a conditional branch?
    pub fn is_conditional(self) -> bool
        ensures { result ≡ is_conditional self }
    {
        matches!(self, Instr::Branch { .. })
    }

    /// The row of names that spells it in the printed form, which has no pseudo-instructions.
    pub fn op(self) -> Op
        ensures { result ≡ op_of_instr self }
    {
        table!(names self)
    }

    /// Its operands, as the row of `op` prints them.
    pub(crate) fn operands(self) -> Operands
        ensures { result ≡ operands_of self }
    {
        table!(operands self)
    }

    fn roles(self) -> Roles
        ensures { result ≡ roles_of self }
    {
        table!(roles self)
    }

    /// The register that it writes, if that isn't x0.
    pub fn dest(self) -> Option<Reg>
        ensures { result ≡ dest_of self }
    {
        self.roles().dest
    }

    /// The registers that it reads, without x0.
    pub fn sources(self) -> [Option<Reg>; 2]
        ensures { result ≡ sources_of self }
    {
        self.roles().sources
    }

    /// The source of its address, if that isn't x0 (the manual's "syntactic dependencies").
    pub fn address_source(self) -> Option<Reg>
        ensures { result ≡ address_of self }
    {
        self.roles().address
    }

    /// The source of the word that it stores, or that an AMO combines, if that isn't x0 (the manual's "syntactic
    /// dependencies").
    pub fn data_source(self) -> Option<Reg>
        ensures { result ≡ data_of self }
    {
        self.roles().data
    }

    /// Does it carry dependencies from its sources to its destination?
    pub fn carries(self) -> bool
        ensures { result ≡ carries_of self }
    {
        self.roles().carries
    }
}
