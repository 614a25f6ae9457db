//! Whether names are in a list, found without a walk over it.
ghost use Rattle.std.specs.Prelude.{◌≡◌, ◌&&◌, IfOk, is_some};
ghost use Rattle.std.specs.List.{list_all};
ghost use Rattle.std.specs.Option.{IfSome};
ghost use Rattle.memory_model.specs.Traces as spec;
ghost use Rattle.trace_operations.specs.Indexed.{has_name, is_listed as is_listed_in};
ghost use Rattle.trace_recorder.specs.declared.operation.OpId.{OpId as Name};

use crate::places::Places;
use std::alloc::{AllocError, Global};
use trace_recorder::{OpId, Trace};

// Whether the trace has an instruction at this place.
fn is_listed(trace: &Trace, name: OpId) -> bool
    ensures { result ≡ is_listed_in trace.now.history name }
{
    let hart = usize::from(name.hart);
    hart < trace.harts() && (name.place as usize) < trace.entries(hart).len()
}

/// The names of a list that are of instructions of a trace.
pub(crate) fn names_of(alloc: Global, trace: &Trace, list: &[OpId]) -> Result<Places, AllocError>
    ensures { IfOk result (λ names. (n : Name) → has_name names n ≡ (is_listed_in trace.now.history n && spec.is_among list.now n)) }
{
    let mut names = Places::none(alloc);
    for name in list {
        if is_listed(trace, *name) {
            names.put(alloc, trace, *name, 1)?;
        }
    }
    Ok(names)
}

pub(crate) fn has(names: &Places, name: OpId) -> bool
    ensures { result ≡ has_name names.now name }
{
    names.number(name) > 0
}

/// Whether each of these names is there.
pub(crate) fn has_all(names: &Places, list: &[OpId]) -> bool
    ensures { result ≡ list_all (has_name names.now) list.now }
{
    list.iter().all(|name| has(names, *name))
}

/// The names of a list, where it has none twice.
pub(crate) fn distinct_names(
    alloc: Global,
    trace: &Trace,
    list: &[OpId],
) -> Result<Option<Places>, AllocError>
    ensures distinct { IfOk result (λ found. is_some found ≡ spec.is_distinct list.now) }
    ensures names { IfOk result (λ found. IfSome found (λ names. (n : Name) → has_name names n ≡ spec.is_among list.now n)) }
{
    let mut names = Places::none(alloc);
    for name in list {
        if has(&names, *name) {
            return Ok(None);
        }
        names.put(alloc, trace, *name, 1)?;
    }
    Ok(Some(names))
}
