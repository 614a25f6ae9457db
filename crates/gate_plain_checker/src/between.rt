//! What stands between two operations of a hart: FENCEs, stores, and LRs and SCs (chapter 14.1, "Preserved
//! Program Order", rules 2, 4 and 8).
ghost use Rattle.std.specs.Prelude.{◌≡◌, Some};
ghost use Rattle.std.specs.List.{list_any};
ghost use Rattle.memory_model.specs.Rules as spec;
ghost use Rattle.memory_model.specs.Dependencies.{between};

use memory_model::{Kind, Operation};
use rv32_decode::{FenceSet, Instr};
use trace_operations::Items;
use trace_operations::accesses::{is_lr, is_sc, precedes, reads, stores_to, writes};

/// Whether a store to `x` does.
pub(crate) fn has_store_between(items: &Items, a: &Operation, b: &Operation, x: u64) -> bool
    ensures { result ≡ list_any (λ m. spec.has_store_to x m.operation) (between items.now a.now b.now) }
{
    let mut rest = items.between(a, b);
    while let Some((item, tail)) = rest.split_first() {
        if has_store_to(x, item.operation()) {
            return true;
        }
        rest = tail;
    }
    false
}

fn has_store_to(x: u64, operation: Option<Operation>) -> bool
    ensures { result ≡ spec.has_store_to x operation }
{
    match operation {
        Some(store) => stores_to(x, &store),
        None => false,
    }
}

/// Whether a FENCE does that orders them.
pub(crate) fn is_fenced(items: &Items, a: &Operation, b: &Operation) -> bool
    ensures { result ≡ list_any (λ m. spec.fences m.instr a.now.kind b.now.kind) (between items.now a.now b.now) }
{
    let mut rest = items.between(a, b);
    while let Some((item, tail)) = rest.split_first() {
        if fences(item.instr(), a.kind, b.kind) {
            return true;
        }
        rest = tail;
    }
    false
}

fn fences(instr: Option<Instr>, a: Kind, b: Kind) -> bool
    ensures { result ≡ spec.fences instr a b }
{
    match instr {
        Some(instr) => is_fencing(&instr, a, b),
        None => false,
    }
}

// Whether an instruction orders an operation of the first kind before one of the second. FENCE.TSO orders all but
// a store before a load.
fn is_fencing(instr: &Instr, a: Kind, b: Kind) -> bool
    ensures { result ≡ spec.fences (Some instr.now) a b }
{
    match instr {
        Instr::Fence(sets) => is_in_set(sets.before(), a) && is_in_set(sets.after(), b),
        Instr::FenceTso => reads(a) || (writes(a) && writes(b)),
        Instr::Branch { .. }
        | Instr::Jalr { .. }
        | Instr::Load { .. }
        | Instr::Store { .. }
        | Instr::Lr { .. }
        | Instr::Sc { .. }
        | Instr::Amo { .. }
        | Instr::Upper { .. }
        | Instr::Jal { .. }
        | Instr::Immediate { .. }
        | Instr::Shift { .. }
        | Instr::Register { .. }
        | Instr::System(_) => false,
    }
}

// An AMO is in a set as a load or as a store.
fn is_in_set(set: FenceSet, kind: Kind) -> bool
    ensures { result ≡ spec.is_in_set set.0 kind }
{
    (reads(kind) && set.has_reads()) || (writes(kind) && set.has_writes())
}

/// Whether the first is an LR, the second an SC, and no LR or SC stands between them.
pub(crate) fn are_paired(items: &Items, a: &Operation, b: &Operation) -> bool
    ensures { result ≡ spec.paired items.now a.now b.now }
{
    precedes(a, b) && is_lr(a.kind) && is_sc(b.kind) && !has_lr_or_sc_between(items, a, b)
}

fn has_lr_or_sc_between(items: &Items, a: &Operation, b: &Operation) -> bool
    ensures { result ≡ list_any (λ m. spec.is_lr_or_sc m.instr) (between items.now a.now b.now) }
{
    let mut rest = items.between(a, b);
    while let Some((item, tail)) = rest.split_first() {
        if is_lr_or_sc(item.instr()) {
            return true;
        }
        rest = tail;
    }
    false
}

fn is_lr_or_sc(instr: Option<Instr>) -> bool
    ensures { result ≡ spec.is_lr_or_sc instr }
{
    matches!(instr, Some(Instr::Lr { .. } | Instr::Sc { .. }))
}
