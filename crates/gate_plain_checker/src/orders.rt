//! Lists of names, by comparing each with each.
ghost use Rattle.std.specs.Prelude.{◌≡◌, ◌&&◌, IfOk};
ghost use Rattle.std.specs.List.{list_all};
ghost use Rattle.memory_model.specs.Traces as spec;

use std::alloc::{AllocError, Global};
use trace_operations::names_in;
use trace_recorder::{OpId, Trace};

fn is_named(a: OpId, b: OpId) -> bool
    ensures { result ≡ spec.is_named a b }
{
    a.hart == b.hart && a.place == b.place
}

// Whether a name is one of the list.
fn is_among(names: &[OpId], name: OpId) -> bool
    ensures { result ≡ spec.is_among names.now name }
{
    names.iter().any(|other| is_named(name, *other))
}

/// Whether a list has each of these names exactly once, and no other.
pub(crate) fn is_order(names: &[OpId], order: &[OpId]) -> bool
    ensures { result
        ≡ (list_all (spec.is_among names.now) order.now
        && spec.is_distinct order.now
        && list_all (spec.is_among order.now) names.now) }
{
    are_all_among(names, order) && is_distinct(order) && are_all_among(order, names)
}

fn are_all_among(names: &[OpId], list: &[OpId]) -> bool
    ensures { result ≡ list_all (spec.is_among names.now) list.now }
{
    list.iter().all(|name| is_among(names, *name))
}

fn is_distinct(order: &[OpId]) -> bool
    ensures { result ≡ spec.is_distinct order.now }
{
    let mut rest = order;
    while let [name, tail @ ..] = rest {
        if is_among(tail, *name) {
            return false;
        }
        rest = tail;
    }
    true
}

/// The performed operations as they stand, then each operation that isn't among them, by hart and then by
/// place: stores that were still waiting.
pub fn completed(alloc: Global, trace: &Trace) -> Result<Vec<OpId>, AllocError>
    ensures { IfOk result (λ order. order.items ≡ spec.completed trace.now.history) }
{
    let names = names_in(alloc, trace)?;
    let mut order = trace.performed().to_vec(alloc)?;
    for name in &names {
        if !is_among(trace.performed(), *name) {
            order.push(*name)?;
        }
    }
    Ok(order)
}
