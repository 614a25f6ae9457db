//! The instructions that a test's own are surrounded by.
ghost use Rattle.std.specs.Prelude.{◌≡◌, ◌++◌, ◌<◌, ◌^◌, ◌%◌, [], ◌∷◌, OnOk};
ghost use Rattle.rv32_decode.specs.Ranges.{IsSigned, IsMultiple};
ghost use Rattle.litmus_image.specs.Instructions as instructions;

use assembly_reading::Statement;
use rv32_decode::{Immediate12, ImmediateOp, Instr, Register, SystemOp};
use std::alloc::AllocError;

/// `addi rd, rs1, number`
pub(crate) fn add(rd: u8, rs1: u8, number: u32) -> Instr
    requires rd { rd < 32 }
    requires rs1 { rs1 < 32 }
    requires number { number < 2048 }
    ensures { result ≡ instructions.add rd rs1 number }
{
    Instr::Immediate {
        op: ImmediateOp::Addi,
        rd: Register::new(rd),
        rs1: Register::new(rs1),
        imm: Immediate12::new(number),
    }
}

/// `ecall`
pub(crate) fn call() -> Instr
    ensures { result ≡ instructions.call }
{
    Instr::System(SystemOp::Ecall)
}

/// The instructions of a statement that needs no label.
pub(crate) fn put_plain(out: &mut Vec<Instr>, statement: &Statement) -> Result<(), AllocError>
    ensures { OnOk result (out.new.items ≡ out.old.items ++ instructions.plain statement.now) }
{
    match statement {
        Statement::One(instr) => out.push(*instr)?,
        Statement::Two(first, second) => out.extend_from_slice(&[*first, *second])?,
        Statement::Branch { .. } | Statement::Jump { .. } | Statement::Nothing => {}
    }
    Ok(())
}
