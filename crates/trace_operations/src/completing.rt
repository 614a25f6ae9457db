//! The order that a trace comes with.
ghost use Rattle.std.specs.Prelude.{◌≡◌, IfOk};
ghost use Rattle.memory_model.specs.Traces as spec;

use crate::names::{has, names_of};
use crate::orders::names_in;
use std::alloc::{AllocError, Global};
use trace_recorder::{OpId, Trace};

/// The performed operations as they stand, then each operation that isn't among them, by hart and then by
/// place: stores that were still waiting.
pub fn completed(alloc: Global, trace: &Trace) -> Result<Vec<OpId>, AllocError>
    ensures { IfOk result (λ order. order.items ≡ spec.completed trace.now.history) }
{
    let names = names_in(alloc, trace)?;
    let performed = names_of(alloc, trace, trace.performed())?;
    let mut order = trace.performed().to_vec(alloc)?;
    for name in &names {
        if !has(&performed, *name) {
            order.push(*name)?;
        }
    }
    Ok(order)
}
