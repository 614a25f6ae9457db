//! The instructions by their formats (chapters 2, 7 and 8, and the listings of chapter 24).

use crate::fence::FenceSets;
use crate::immediates::{BranchOffset, Immediate12, JumpOffset, ShiftAmount, UpperImmediate};
use crate::registers::Register;

/// What an instruction on two registers computes (chapters 2.4 and 7).
#[derive(Clone, Copy, Debug, PartialEq, Eq)]
pub enum RegisterOp {
    Add,
    Sub,
    Sll,
    Slt,
    Sltu,
    Xor,
    Srl,
    Sra,
    Or,
    And,
    Mul,
    Mulh,
    Mulhsu,
    Mulhu,
    Div,
    Divu,
    Rem,
    Remu,
}

/// What an instruction on a register and an immediate computes (chapter 2.4).
#[derive(Clone, Copy, PartialEq, Eq)]
pub enum ImmediateOp {
    Addi,
    Slti,
    Sltiu,
    Xori,
    Ori,
    Andi,
}

/// A shift by a constant (chapter 2.4).
#[derive(Clone, Copy, PartialEq, Eq)]
pub enum ShiftOp {
    Slli,
    Srli,
    Srai,
}

/// A load of a byte, a half-word or a word (chapter 2.6).
#[derive(Clone, Copy, PartialEq, Eq)]
pub enum LoadOp {
    Lb,
    Lh,
    Lw,
    Lbu,
    Lhu,
}

/// A store of a byte, a half-word or a word (chapter 2.6).
#[derive(Clone, Copy, PartialEq, Eq)]
pub enum StoreOp {
    Sb,
    Sh,
    Sw,
}

/// The condition of a branch (chapter 2.5).
#[derive(Clone, Copy, PartialEq, Eq)]
pub enum BranchOp {
    Beq,
    Bne,
    Blt,
    Bge,
    Bltu,
    Bgeu,
}

/// LUI and AUIPC (chapter 2.4).
#[derive(Clone, Copy, PartialEq, Eq)]
pub enum UpperOp {
    Lui,
    Auipc,
}

/// What an AMO writes (chapter 8.4).
#[derive(Clone, Copy, Debug, PartialEq, Eq)]
pub enum AmoOp {
    Swap,
    Add,
    Xor,
    And,
    Or,
    Min,
    Max,
    Minu,
    Maxu,
}

/// ECALL and EBREAK (chapter 2.8).
#[derive(Clone, Copy, PartialEq, Eq)]
pub enum SystemOp {
    Ecall,
    Ebreak,
}

/// The bits aq and rl of LR, SC and the AMOs (chapter 8.1).
#[derive(Clone, Copy, PartialEq, Eq)]
pub struct Annotations {
    pub acquire: bool,
    pub release: bool,
}

/// An instruction, with what its format can encode.
#[derive(Clone, Copy)]
pub enum Instr {
    Upper {
        op: UpperOp,
        rd: Register,
        imm: UpperImmediate,
    },
    Jal {
        rd: Register,
        offset: JumpOffset,
    },
    Jalr {
        rd: Register,
        rs1: Register,
        offset: Immediate12,
    },
    Branch {
        op: BranchOp,
        rs1: Register,
        rs2: Register,
        offset: BranchOffset,
    },
    Load {
        op: LoadOp,
        rd: Register,
        rs1: Register,
        offset: Immediate12,
    },
    Store {
        op: StoreOp,
        rs1: Register,
        rs2: Register,
        offset: Immediate12,
    },
    Immediate {
        op: ImmediateOp,
        rd: Register,
        rs1: Register,
        imm: Immediate12,
    },
    Shift {
        op: ShiftOp,
        rd: Register,
        rs1: Register,
        amount: ShiftAmount,
    },
    Register {
        op: RegisterOp,
        rd: Register,
        rs1: Register,
        rs2: Register,
    },
    /// A normal fence.
    Fence(FenceSets),
    /// FENCE.TSO.
    FenceTso,
    System(SystemOp),
    Lr {
        rd: Register,
        rs1: Register,
        bits: Annotations,
    },
    Sc {
        rd: Register,
        rs1: Register,
        rs2: Register,
        bits: Annotations,
    },
    Amo {
        op: AmoOp,
        rd: Register,
        rs1: Register,
        rs2: Register,
        bits: Annotations,
    },
}
