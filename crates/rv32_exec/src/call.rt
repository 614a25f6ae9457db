//! What an ECALL asks for.

ghost use Rattle.std.specs.Prelude.{◌≡◌};
ghost use Rattle.rv32_exec.specs.Calls.{asked_by, asked_in};
ghost use Rattle.rv32_exec.specs.Meaning.{access_of};

use crate::registers::Regs;
use rv32_decode::{Instr, Register, SystemOp};

/// What an ECALL asks of its environment. The numbers are this machine's own.
#[derive(Clone, Copy, PartialEq, Eq)]
pub struct Call {
    /// [`Call::EXIT`], [`Call::OUTPUT`], or one at which the hart stops.
    pub number: u32,
    pub argument: u32,
}

impl Call {
    /// The register that the number stands in, a7.
    pub const NUMBER: u8 = 17;

    /// The register that the argument stands in, a0.
    pub const ARGUMENT: u8 = 10;

    /// Ends the hart with the argument as its exit code, modulo 256.
    pub const EXIT: u32 = 0;

    /// Puts the argument out.
    pub const OUTPUT: u32 = 1;

    /// What an ECALL with these registers asks for.
    pub fn in_registers(regs: &Regs) -> Call
        ensures { result ≡ asked_in regs.now }
    {
        Call {
            number: regs.get(Register::new(Call::NUMBER)),
            argument: regs.get(Register::new(Call::ARGUMENT)),
        }
    }

    /// What the instruction asks for with these registers, where it is an ECALL.
    pub fn of(instr: &Instr, regs: &Regs) -> Option<Call>
        ensures { result ≡ asked_by (access_of instr.now regs.now) }
    {
        match *instr {
            Instr::System(SystemOp::Ecall) => Some(Call::in_registers(regs)),
            Instr::System(SystemOp::Ebreak)
            | Instr::Load { .. }
            | Instr::Lr { .. }
            | Instr::Amo { .. }
            | Instr::Sc { .. }
            | Instr::Store { .. }
            | Instr::Upper { .. }
            | Instr::Jal { .. }
            | Instr::Jalr { .. }
            | Instr::Branch { .. }
            | Instr::Immediate { .. }
            | Instr::Shift { .. }
            | Instr::Register { .. }
            | Instr::Fence(_)
            | Instr::FenceTso => None,
        }
    }
}
