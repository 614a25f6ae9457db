//! What a text says.

use rv32_decode::{BranchOp, Instr, Register};
use text_words::Name;

/// What the text of an instruction says.
#[derive(Clone, Copy)]
pub enum Statement {
    /// One instruction.
    One(Instr),
    /// Two, the LUI and the ADDI of an `li`.
    Two(Instr, Instr),
    /// A branch to a label.
    Branch {
        op: BranchOp,
        rs1: Register,
        rs2: Register,
        label: Name,
    },
    /// A JAL to a label.
    Jump {
        rd: Register,
        label: Name,
    },
    /// A FENCE.I, which has nothing to do where instructions can't change.
    Nothing,
}

/// Why a text is no statement.
#[derive(Clone, Copy, Debug, PartialEq, Eq)]
pub enum StatementError {
    /// It is an instruction of RV64 or of another extension, a load or a store with the bits aq and rl, a shift by 32 to
    /// 63 places, or has a number of more than 32 bits.
    OtherArchitecture,
    /// The instruction can't hold one of its numbers.
    OutOfRange,
    /// No instruction is written so.
    NoInstruction,
}
