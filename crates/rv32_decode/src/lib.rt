//! The instructions of RV32I (without FENCE.I and the CSR instructions), M and A, and their words, after
//! the RISC-V Unprivileged ISA 20191213.
#![tactic(auto)]

mod decoding;
mod encoding;
mod fence;
mod fields;
mod immediates;
mod instruction;
mod laws;
mod registers;

pub use decoding::decode;
pub use encoding::encode;
pub use fence::{FenceSet, FenceSets};
pub use fields::sign_extended;
pub use immediates::{BranchOffset, Immediate12, JumpOffset, ShiftAmount, UpperImmediate};
pub use instruction::{
    AmoOp, Annotations, BranchOp, ImmediateOp, Instr, LoadOp, RegisterOp, ShiftOp, StoreOp,
    SystemOp, UpperOp,
};
pub use laws::rows_are_apart;
pub use registers::Register;
