//! The names of a trace's operations, and lists of them.
ghost use Rattle.std.specs.Prelude.{◌≡◌, ◌≤◌, ◌^◌, ◌&&◌, ◌++◌, IfOk, OnOk, filter, is_none, is_some, length, nat_lt};
ghost use Rattle.std.specs.List.{list_all};
ghost use Rattle.std.specs.Option.{IfSome};
ghost use Rattle.memory_model.specs.Items as items;
ghost use Rattle.memory_model.specs.Traces as spec;
ghost use Rattle.trace_recorder.specs.declared.operation.OpId.{OpId as Name};

use crate::items::{Harts, has_operation};
use crate::names::{distinct_names, has_all};
use hart::Retired;
use memory_model::Operation;
use std::alloc::{AllocError, Global};
use trace_recorder::{OpId, Trace};

/// A trace with more memory operations isn't judged.
pub const MAX_OPERATIONS: usize = 4096;

/// The names of a trace's operations, by hart and then by place.
pub fn names_in(alloc: Global, trace: &Trace) -> Result<Vec<OpId>, AllocError>
    ensures { IfOk result (λ names. names.items ≡ spec.names_in trace.now.history) }
{
    let mut names = Vec::new(alloc);
    for hart in 0..trace.harts() {
        push_names(&mut names, hart as u8, trace.entries(hart))?;
    }
    Ok(names)
}

/// The same where they are no more than are judged. Of more it keeps few, so that a trace with far more takes
/// little memory.
pub fn few_names(alloc: Global, trace: &Trace) -> Result<Option<Vec<OpId>>, AllocError>
    ensures few { IfOk result (λ found. is_none found ≡ nat_lt 4096 (length (spec.names_in trace.now.history))) }
    ensures named { IfOk result (λ found. IfSome found (λ names. names.items ≡ spec.names_in trace.now.history)) }
{
    let mut names = Vec::new(alloc);
    for hart in 0..trace.harts() {
        push_names(&mut names, hart as u8, trace.entries(hart))?;
        if names.len() > MAX_OPERATIONS {
            return Ok(None);
        }
    }
    Ok(Some(names))
}

// The names of a hart's operations, behind those that are there.
fn push_names(names: &mut Vec<OpId>, hart: u8, entries: &[Retired]) -> Result<(), AllocError>
    requires { length entries.now ≤ 2 ^ 32 }
    ensures { OnOk result (names.new.items ≡ names.old.items ++ spec.names_from hart 0 entries.now) }
{
    for (place, entry) in entries.iter().enumerate() {
        if has_operation(entry) {
            names.push(OpId {
                hart,
                place: place as u32,
            })?;
        }
    }
    Ok(())
}

/// Whether a trace has more operations than are judged, 4,096.
pub fn has_too_many(trace: &Trace) -> bool
    ensures { result ≡ nat_lt 4096 (length (spec.names_in trace.now.history)) }
{
    let mut count = 0;
    for hart in 0..trace.harts() {
        count += count_of(trace.entries(hart));
        if count > MAX_OPERATIONS {
            return true;
        }
    }
    false
}

// How many operations a hart's list has.
fn count_of(entries: &[Retired]) -> usize
    ensures { result ≡ length (filter items.has_operation entries.now) }
{
    let mut count = 0;
    for entry in entries {
        if has_operation(entry) {
            count += 1;
        }
    }
    count
}

/// Whether a list has each of these names exactly once, and no other, where they are those of all operations.
pub fn is_order(
    alloc: Global,
    trace: &Trace,
    harts: &Harts,
    names: &[OpId],
    order: &[OpId],
) -> Result<bool, AllocError>
    requires { (n : Name) → spec.is_among names.now n ≡ is_some (spec.operation_at harts.now n) }
    ensures { IfOk result (λ answer. answer
        ≡ (list_all (spec.is_among names.now) order.now
        && spec.is_distinct order.now
        && list_all (spec.is_among order.now) names.now)) }
{
    if !have_operations(harts, order) {
        return Ok(false);
    }
    match distinct_names(alloc, trace, order)? {
        Some(known) => Ok(has_all(&known, names)),
        None => Ok(false),
    }
}

// Whether each of these names is one of an operation.
fn have_operations(harts: &Harts, list: &[OpId]) -> bool
    ensures { result ≡ list_all (λ n. is_some (spec.operation_at harts.now n)) list.now }
{
    list.iter().all(|name| operation_at(harts, *name).is_some())
}

/// The operations of an order's names, in its order.
pub fn operations_at(
    alloc: Global,
    harts: &Harts,
    order: &[OpId],
) -> Result<Vec<Operation>, AllocError>
    ensures { IfOk result (λ operations. operations.items ≡ spec.operations_at harts.now order.now) }
{
    let mut operations = Vec::with_capacity(alloc, order.len())?;
    for name in order {
        if let Some(operation) = operation_at(harts, *name) {
            operations.push(operation)?;
        }
    }
    Ok(operations)
}

fn operation_at(harts: &Harts, name: OpId) -> Option<Operation>
    ensures { result ≡ spec.operation_at harts.now name }
{
    harts.get(name.hart)?.operation(name.place)
}
