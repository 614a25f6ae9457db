//! Which instructions order operations, or end a pair of an LR and an SC (chapter 14.1, "Preserved Program Order",
//! rules 4 and 8).
ghost use Rattle.std.specs.Prelude.{◌≡◌, Some, false};
ghost use Rattle.memory_model.specs.declared.operation.Kind.{Kind as KindValue};
ghost use Rattle.memory_model.specs.Rules as spec;

use memory_model::Kind;
use rv32_decode::{FenceSet, Instr};
use trace_operations::accesses::{reads, writes};

// An AMO is in a set as a load or as a store.
fn is_in_set(set: FenceSet, kind: Kind) -> bool
    ensures { result ≡ spec.is_in_set set.0 kind }
{
    (reads(kind) && set.has_reads()) || (writes(kind) && set.has_writes())
}

/// Whether an instruction is a FENCE that orders an operation of the first kind before one of the second.
pub(crate) fn fences(instr: Option<Instr>, a: Kind, b: Kind) -> bool
    ensures { result ≡ spec.fences instr a b }
{
    match instr {
        Some(instr) => is_fencing(&instr, a, b),
        None => false,
    }
}

/// Whether it is a FENCE of any kind.
pub(crate) fn is_fence(instr: Option<Instr>) -> bool
    ensures { result ≡ false → (a b : KindValue) → spec.fences instr a b ≡ false }
{
    matches!(instr, Some(Instr::Fence(_) | Instr::FenceTso))
}

fn is_fencing(instr: &Instr, a: Kind, b: Kind) -> bool
    ensures { result ≡ spec.fences (Some instr.now) a b }
{
    match instr {
        Instr::Fence(sets) => is_in_set(sets.before(), a) && is_in_set(sets.after(), b),
        Instr::FenceTso => reads(a) || (writes(a) && writes(b)),
        Instr::Branch { .. }
        | Instr::Jalr { .. }
        | Instr::Load { .. }
        | Instr::Store { .. }
        | Instr::Lr { .. }
        | Instr::Sc { .. }
        | Instr::Amo { .. }
        | Instr::Upper { .. }
        | Instr::Jal { .. }
        | Instr::Immediate { .. }
        | Instr::Shift { .. }
        | Instr::Register { .. }
        | Instr::System(_) => false,
    }
}

/// Whether it is an LR or an SC.
pub(crate) fn is_lr_or_sc(instr: Option<Instr>) -> bool
    ensures { result ≡ spec.is_lr_or_sc instr }
{
    matches!(instr, Some(Instr::Lr { .. } | Instr::Sc { .. }))
}
