//! What an instruction reaches for.

ghost use Rattle.std.specs.Prelude.{◌≡◌, ◌<◌, ℕ, IfSome, Some};
ghost use Rattle.rv32_exec.specs.Arithmetic.{bytes_loaded, bytes_stored};
ghost use Rattle.rv32_exec.specs.Meaning.{access_of, target_of};
ghost use Rattle.stop_text.specs.Reaching.{bytes_of};

use rv32_decode::{Instr, LoadOp, StoreOp};
use rv32_exec::Regs;

/// Where a jump leads, and a branch that is taken; none for other instructions.
pub(crate) fn target(instr: &Instr, pc: u32, regs: &Regs) -> Option<u32>
    ensures { (target : ℕ) → target_of instr.now pc regs.now ≡ Some target → result ≡ Some target }
{
    match *instr {
        Instr::Jal { offset, .. } => Some(pc.wrapping_add(offset.value())),
        Instr::Jalr { rs1, offset, .. } => Some(regs.get(rs1).wrapping_add(offset.value()) & !1),
        Instr::Branch { offset, .. } => Some(pc.wrapping_add(offset.value())),
        _ => None,
    }
}

/// The first byte of memory that a load, store, LR, SC or AMO reaches for, and how many it does.
pub(crate) fn bytes(instr: &Instr, regs: &Regs) -> Option<(u32, u32)>
    ensures bytes { result ≡ bytes_of (access_of instr.now regs.now) }
    ensures some { IfSome result (λ found. 0 < found.1) }
{
    match *instr {
        Instr::Load {
            op,
            rs1,
            offset,
            ..
        } => { Some((regs.get(rs1).wrapping_add(offset.value()), loaded(op))) }
        Instr::Store {
            op,
            rs1,
            offset,
            ..
        } => { Some((regs.get(rs1).wrapping_add(offset.value()), stored(op))) }
        Instr::Lr { rs1, .. } | Instr::Sc { rs1, .. } | Instr::Amo { rs1, .. } => {
            Some((regs.get(rs1), 4))
        }
        _ => None,
    }
}

fn loaded(op: LoadOp) -> u32
    ensures { result ≡ bytes_loaded op }
{
    match op {
        LoadOp::Lb | LoadOp::Lbu => 1,
        LoadOp::Lh | LoadOp::Lhu => 2,
        LoadOp::Lw => 4,
    }
}

fn stored(op: StoreOp) -> u32
    ensures { result ≡ bytes_stored op }
{
    match op {
        StoreOp::Sb => 1,
        StoreOp::Sh => 2,
        StoreOp::Sw => 4,
    }
}
