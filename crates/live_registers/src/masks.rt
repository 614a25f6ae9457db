//! Sets of registers as numbers in binary: bit r is register r's, and bit 0 the reservation's.
ghost use Rattle.std.specs.Prelude.{◌≡◌};
ghost use Rattle.live_registers.specs.Live as spec;

use rv32_decode::{Instr, Register, SystemOp};
use rv32_exec::Call;

pub(crate) const EVERYTHING: u32 = u32::MAX;

const RESERVATION: u32 = 1;

/// x0 always is 0.
fn one(register: Register) -> u32
    ensures { result ≡ spec.one register }
{
    match register.number() {
        0 => 0,
        number => 1 << number,
    }
}

fn two(first: Register, second: Register) -> u32
    ensures { result ≡ spec.two first second }
{
    one(first) | one(second)
}

/// What an instruction reads.
#[rattlefmt::skip]
pub(crate) fn reads(instr: &Instr) -> u32
    ensures { result ≡ spec.reads instr.now }
{
    match *instr {
        Instr::Jalr { rs1, .. }
        | Instr::Load { rs1, .. }
        | Instr::Immediate { rs1, .. }
        | Instr::Shift { rs1, .. }
        | Instr::Lr { rs1, .. } => one(rs1),
        Instr::Branch { rs1, rs2, .. }
        | Instr::Store { rs1, rs2, .. }
        | Instr::Register { rs1, rs2, .. }
        | Instr::Amo { rs1, rs2, .. } => two(rs1, rs2),
        Instr::Sc { rs1, rs2, .. } => RESERVATION | two(rs1, rs2),
        Instr::System(SystemOp::Ecall) => two(Register::new(Call::ARGUMENT), Register::new(Call::NUMBER)),
        Instr::Upper { .. }
        | Instr::Jal { .. }
        | Instr::Fence(_)
        | Instr::FenceTso
        | Instr::System(SystemOp::Ebreak) => 0,
    }
}

/// What it sets, whatever was there.
#[rattlefmt::skip]
pub(crate) fn writes(instr: &Instr) -> u32
    ensures { result ≡ spec.writes instr.now }
{
    match *instr {
        Instr::Upper { rd, .. }
        | Instr::Jal { rd, .. }
        | Instr::Jalr { rd, .. }
        | Instr::Load { rd, .. }
        | Instr::Immediate { rd, .. }
        | Instr::Shift { rd, .. }
        | Instr::Register { rd, .. }
        | Instr::Amo { rd, .. } => one(rd),
        Instr::Lr { rd, .. } | Instr::Sc { rd, .. } => RESERVATION | one(rd),
        Instr::Branch { .. }
        | Instr::Store { .. }
        | Instr::Fence(_)
        | Instr::FenceTso
        | Instr::System(_) => 0,
    }
}
