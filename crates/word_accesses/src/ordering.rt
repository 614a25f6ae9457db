//! Which waiting stores an instruction has to wait for.
ghost use Rattle.std.specs.Prelude.{◌≡◌, Some};
ghost use Rattle.machine_model.specs.Steps as spec;
ghost use Rattle.machine_model.specs.TheVariants.{Load, Store};
ghost use Rattle.machine_model.specs.Rules.{fences};

use machine_model::memory_model::annotations;
use machine_types::MemoryModel;
use rv32_decode::Instr;
use store_buffer::StoreBuffer;

/// A release bit waits for all stores, and each access for those to its own word.
pub fn waits_for_stores(buffer: &StoreBuffer, instr: &Instr, word: u32) -> bool
    ensures { result ≡ spec.waits_for_stores buffer.now instr.now word }
{
    (annotations(instr).release && !buffer.is_empty()) || buffer.has(word)
}

/// A write that is performed at once passes no sealed group, and under Ztso no store.
pub fn write_waits(model: MemoryModel, buffer: &StoreBuffer, instr: &Instr, word: u32) -> bool
    ensures { result ≡ spec.write_waits model buffer.now instr.now word }
{
    match model {
        MemoryModel::Rvwmo => waits_for_stores(buffer, instr, word) || buffer.has_sealed(),
        MemoryModel::Ztso => !buffer.is_empty(),
    }
}

/// Whether an instruction orders stores before loads, and whether it orders stores before stores.
pub fn orders_after_stores(instr: &Instr) -> (bool, bool)
    ensures { result ≡ (fences (Some instr.now) Store Load, fences (Some instr.now) Store Store) }
{
    match instr {
        Instr::Fence(sets) => {
            let (before, after) = (sets.before(), sets.after());
            (
                before.has_writes() && after.has_reads(),
                before.has_writes() && after.has_writes(),
            )
        }
        Instr::FenceTso => (false, true),
        Instr::Upper { .. }
        | Instr::Jal { .. }
        | Instr::Jalr { .. }
        | Instr::Branch { .. }
        | Instr::Load { .. }
        | Instr::Store { .. }
        | Instr::Immediate { .. }
        | Instr::Shift { .. }
        | Instr::Register { .. }
        | Instr::System(_)
        | Instr::Lr { .. }
        | Instr::Sc { .. }
        | Instr::Amo { .. } => (false, false),
    }
}
