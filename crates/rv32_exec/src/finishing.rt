//! What an instruction does to its hart: the next pc, and the register that it writes.

ghost use Rattle.std.specs.Prelude.{◌≡◌, unwrap_or};
ghost use Rattle.rv32_exec.specs.Arithmetic as spec;
ghost use Rattle.rv32_exec.specs.Meaning.{effect_of};
ghost use Rattle.rv32_exec.specs.Registers.{after_write};

use crate::arithmetic::{computed, computed_immediate, is_taken, shifted};
use crate::registers::Regs;
use rv32_decode::{Instr, LoadOp, UpperOp, sign_extended};

/// The next pc after an instruction at `pc` that doesn't stop, which writes its register, if it has one.
/// `value` is what a load, LR or AMO read, before any extension of its sign; for an SC it is 0 where the SC
/// succeeded and 1 where it failed. Other instructions have none, and it isn't looked at.
#[rattlefmt::skip]
pub fn finish(instr: &Instr, pc: u32, regs: &mut Regs, value: Option<u32>) -> u32
    ensures next { result ≡ (effect_of instr.now pc regs.old (unwrap_or value 0)).next }
    ensures registers { regs.new
        ≡ after_write regs.old (effect_of instr.now pc regs.old (unwrap_or value 0)).written }
{
    let following = pc.wrapping_add(4);
    let (rd, result) = match *instr {
        Instr::Upper { op: UpperOp::Lui, rd, imm } => (rd, imm.value()),
        Instr::Upper { op: UpperOp::Auipc, rd, imm } => (rd, pc.wrapping_add(imm.value())),
        Instr::Jal { rd, offset } => {
            regs.set(rd, following);
            return pc.wrapping_add(offset.value());
        }
        Instr::Jalr { rd, rs1, offset } => {
            let target = regs.get(rs1).wrapping_add(offset.value()) & !1;
            regs.set(rd, following);
            return target;
        }
        Instr::Branch { op, rs1, rs2, offset } => {
            let is_taken = is_taken(op, regs.get(rs1), regs.get(rs2));
            return if is_taken { pc.wrapping_add(offset.value()) } else { following };
        }
        Instr::Load { op, rd, .. } => (rd, loaded(op, value.unwrap_or(0))),
        Instr::Immediate { op, rd, rs1, imm } => {
            (rd, computed_immediate(op, regs.get(rs1), imm.value()))
        }
        Instr::Shift { op, rd, rs1, amount } => (rd, shifted(op, regs.get(rs1), amount.value())),
        Instr::Register { op, rd, rs1, rs2 } => (rd, computed(op, regs.get(rs1), regs.get(rs2))),
        Instr::Lr { rd, .. } | Instr::Sc { rd, .. } | Instr::Amo { rd, .. } => {
            (rd, value.unwrap_or(0))
        }
        Instr::Store { .. } | Instr::Fence(_) | Instr::FenceTso | Instr::System(_) => {
            return following;
        }
    };
    regs.set(rd, result);
    following
}

// What a load writes, of the raw value that it read (chapter 2.6).
fn loaded(op: LoadOp, value: u32) -> u32
    ensures { result ≡ spec.loaded op value }
{
    match op {
        LoadOp::Lb => sign_extended(value & 0xff, 0x80),
        LoadOp::Lh => sign_extended(value & 0xffff, 0x8000),
        LoadOp::Lw => value,
        LoadOp::Lbu => value & 0xff,
        LoadOp::Lhu => value & 0xffff,
    }
}
