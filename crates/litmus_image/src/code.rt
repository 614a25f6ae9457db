//! A column's code.
ghost use Rattle.std.specs.Prelude.{◌≡◌, ◌≤◌, ◌<◌, ◌^◌, ◌%◌, ◌++◌, [], length, OnOk};
ghost use Rattle.litmus_image.specs.Code as code;

use crate::instructions::put_plain;
use crate::labels::{place_of, width};
use crate::part::{Cause, Line};
use assembly_reading::Statement;
use rv32_decode::{BranchOffset, BranchOp, Instr, JumpOffset, Register};
use std::alloc::AllocError;

/// Why a line has no code.
#[derive(Clone, Copy)]
pub(crate) enum CodeError {
    /// At this line.
    Fault { line: usize, cause: Cause },
    NoMemory,
}

impl From<AllocError> for CodeError {
    ghost use Rattle.std.specs.Prelude.{◌≡◌};
    ghost use Rattle.litmus_image.specs.declared.code.CodeError.TheVariants as error;

    ghost from_gives = { λ _ e. e ≡ error.NoMemory };

    fn from(_: AllocError) -> CodeError {
        CodeError::NoMemory
    }
}

/// How far it is from one place to another, in bytes, modulo 2^32.
fn distance(from: u32, to: u32) -> u32
    ensures value { result ≡ code.distance from to }
    ensures even { result % 2 ≡ 0 }
{
    to.wrapping_sub(from).wrapping_mul(4)
}

/// A branch from one place to another.
pub(crate) fn branch(
    op: BranchOp,
    rs1: Register,
    rs2: Register,
    from: u32,
    to: u32,
) -> Result<Instr, Cause>
    ensures { result ≡ code.branch op rs1 rs2 from to }
{
    let offset = distance(from, to);
    if offset.wrapping_add(1 << 12) < 1 << 13 {
        let offset = BranchOffset::new(offset);
        Ok(Instr::Branch {
            op,
            rs1,
            rs2,
            offset,
        })
    } else {
        Err(Cause::TooFar)
    }
}

fn jump(rd: Register, from: u32, to: u32) -> Result<Instr, Cause>
    ensures { result ≡ code.jump rd from to }
{
    let offset = distance(from, to);
    if offset.wrapping_add(1 << 20) < 1 << 21 {
        let offset = JumpOffset::new(offset);
        Ok(Instr::Jal { rd, offset })
    } else {
        Err(Cause::TooFar)
    }
}

/// A branch to the place of a label, which has to be there.
fn branch_to(
    op: BranchOp,
    rs1: Register,
    rs2: Register,
    from: u32,
    to: Option<u32>,
) -> Result<Statement, Cause>
    ensures { result ≡ code.branch_to op rs1 rs2 from to }
{
    match to {
        Some(to) => {
            let instr = branch(op, rs1, rs2, from, to)?;
            Ok(Statement::One(instr))
        }
        None => Err(Cause::NoLabel),
    }
}

fn jump_to(rd: Register, from: u32, to: Option<u32>) -> Result<Statement, Cause>
    ensures { result ≡ code.jump_to rd from to }
{
    match to {
        Some(to) => {
            let instr = jump(rd, from, to)?;
            Ok(Statement::One(instr))
        }
        None => Err(Cause::NoLabel),
    }
}

/// What a line says where its label's place is known; `here` instructions stand before it.
fn resolved(lines: &[Line], here: u32, line: &Line) -> Result<Statement, Cause>
    requires { length lines.now ≤ 2 ^ 20 }
    ensures { result ≡ code.resolved lines.now here line.now }
{
    match line {
        Line::Code(
            Statement::Branch {
                op,
                rs1,
                rs2,
                label,
            },
        ) => branch_to(*op, *rs1, *rs2, here, place_of(lines, label.as_slice())),
        Line::Code(Statement::Jump { rd, label }) => {
            jump_to(*rd, here, place_of(lines, label.as_slice()))
        }
        Line::Code(statement) => Ok(*statement),
        Line::Label(_) => Ok(Statement::Nothing),
    }
}

/// A column's code.
pub(crate) fn put_code(out: &mut Vec<Instr>, lines: &[Line]) -> Result<(), CodeError>
    requires { length lines.now ≤ 2 ^ 20 }
    ensures { code.Puts out.old.items out.new.items result (code.code_from lines.now 0 0 lines.now) }
{
    let mut here = 0;
    for index in 0..lines.len() {
        let line = &lines[index];
        match resolved(lines, here, line) {
            Ok(statement) => put_plain(out, &statement)?,
            Err(cause) => return Err(CodeError::Fault { line: index, cause }),
        }
        here += width(line);
    }
    Ok(())
}
