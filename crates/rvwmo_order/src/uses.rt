//! The instruction behind an operation.
ghost use Rattle.std.specs.Prelude.{◌≡◌, slice_get};
ghost use Rattle.memory_model.specs.Dependencies as spec;

use memory_model::Operation;
use rv32_decode::Instr;
use trace_operations::Items;

/// The instruction that gave an operation.
pub(crate) fn instr_at(items: &Items, a: &Operation) -> Option<Instr>
    ensures { result ≡ spec.instr_in (slice_get items.now a.now.place) }
{
    match items.get(a.place) {
        Some(item) => item.instr(),
        None => None,
    }
}
