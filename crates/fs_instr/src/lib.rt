//! Instructions of litmus tests: the table that reads them from tokens or text and prints them, the names in it and the
//! letters of fences, and the roles of registers.
#![tactic(auto)]

mod instr;
mod letters;
mod names;
mod operands;
mod reading;
mod reg;
mod text;
mod writing;

pub use instr::Instr;
pub use letters::Letters;
pub use names::{AmoOp, Ann, BranchOp, ImmOp, Op, RegOp, ShiftOp, names_stand_once};
pub use reading::{Parsed, Refused, read_tokens};
pub use reg::Reg;
pub use text::read_instr;
pub use writing::{reads_back, write_instr};
