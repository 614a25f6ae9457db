//! Which registers an instruction reads, and for what, and which it writes (RISC-V Unprivileged ISA 20191213,
//! chapters 14.1, "Syntactic Dependencies", and 14.3). x0 is never one of them, since nothing comes from it.
ghost use Rattle.std.specs.Prelude.{◌≡◌, ◌++◌};
ghost use Rattle.std.specs.Option.{option_to_list};
ghost use Rattle.rv32_exec.specs.Uses as spec;
ghost use Rattle.rv32_exec.specs.Uses.{named, uses_of};

use rv32_decode::{Instr, Register};

fn but_x0(register: Register) -> Option<Register>
    ensures { named register ≡ option_to_list result }
{
    if register.number() == 0 {
        None
    } else {
        Some(register)
    }
}

/// The register that an instruction writes.
pub fn destination(instr: &Instr) -> Option<Register>
    ensures { (uses_of instr.now).written ≡ option_to_list result }
{
    match *instr {
        Instr::Upper { rd, .. }
        | Instr::Jal { rd, .. }
        | Instr::Jalr { rd, .. }
        | Instr::Load { rd, .. }
        | Instr::Immediate { rd, .. }
        | Instr::Shift { rd, .. }
        | Instr::Register { rd, .. }
        | Instr::Lr { rd, .. }
        | Instr::Sc { rd, .. }
        | Instr::Amo { rd, .. } => but_x0(rd),
        Instr::Store { .. }
        | Instr::Branch { .. }
        | Instr::Fence(_)
        | Instr::FenceTso
        | Instr::System(_) => None,
    }
}

/// The register that an access takes its address from.
pub fn address_register(instr: &Instr) -> Option<Register>
    ensures { (uses_of instr.now).address ≡ option_to_list result }
{
    match *instr {
        Instr::Load { rs1, .. }
        | Instr::Store { rs1, .. }
        | Instr::Lr { rs1, .. }
        | Instr::Sc { rs1, .. }
        | Instr::Amo { rs1, .. } => but_x0(rs1),
        Instr::Upper { .. }
        | Instr::Jal { .. }
        | Instr::Jalr { .. }
        | Instr::Branch { .. }
        | Instr::Immediate { .. }
        | Instr::Shift { .. }
        | Instr::Register { .. }
        | Instr::Fence(_)
        | Instr::FenceTso
        | Instr::System(_) => None,
    }
}

/// The register whose number is stored.
pub fn stored_register(instr: &Instr) -> Option<Register>
    ensures { (uses_of instr.now).stored ≡ option_to_list result }
{
    match *instr {
        Instr::Store { rs2, .. } | Instr::Sc { rs2, .. } | Instr::Amo { rs2, .. } => but_x0(rs2),
        Instr::Load { .. }
        | Instr::Lr { .. }
        | Instr::Upper { .. }
        | Instr::Jal { .. }
        | Instr::Jalr { .. }
        | Instr::Branch { .. }
        | Instr::Immediate { .. }
        | Instr::Shift { .. }
        | Instr::Register { .. }
        | Instr::Fence(_)
        | Instr::FenceTso
        | Instr::System(_) => None,
    }
}

/// The registers that are read for anything else.
pub fn other_registers(instr: &Instr) -> (Option<Register>, Option<Register>)
    ensures { (uses_of instr.now).other ≡ option_to_list result.0 ++ option_to_list result.1 }
{
    match *instr {
        Instr::Jalr { rs1, .. } | Instr::Immediate { rs1, .. } | Instr::Shift { rs1, .. } => {
            (but_x0(rs1), None)
        }
        Instr::Branch { rs1, rs2, .. } | Instr::Register { rs1, rs2, .. } => {
            (but_x0(rs1), but_x0(rs2))
        }
        Instr::Load { .. }
        | Instr::Store { .. }
        | Instr::Lr { .. }
        | Instr::Sc { .. }
        | Instr::Amo { .. }
        | Instr::Upper { .. }
        | Instr::Jal { .. }
        | Instr::Fence(_)
        | Instr::FenceTso
        | Instr::System(_) => (None, None),
    }
}

/// Whether it is a conditional branch or a JALR: what follows depends on the registers that it reads.
pub fn is_steering(instr: &Instr) -> bool
    ensures { result ≡ spec.is_steering instr.now }
{
    match *instr {
        Instr::Branch { .. } | Instr::Jalr { .. } => true,
        Instr::Load { .. }
        | Instr::Store { .. }
        | Instr::Lr { .. }
        | Instr::Sc { .. }
        | Instr::Amo { .. }
        | Instr::Upper { .. }
        | Instr::Jal { .. }
        | Instr::Immediate { .. }
        | Instr::Shift { .. }
        | Instr::Register { .. }
        | Instr::Fence(_)
        | Instr::FenceTso
        | Instr::System(_) => false,
    }
}
