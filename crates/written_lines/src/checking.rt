//! The first message of a trace that has a byte which its hart neither was granted nor wrote.
ghost use Rattle.std.specs.Prelude.{◌≡◌, List, IfOk, []};
ghost use Rattle.memory_model.specs.declared.operation.Operation.{Operation as OperationValue};
ghost use Rattle.written_lines.specs.Granted.{granted_in};
ghost use Rattle.written_lines.specs.Stores.{AreStoresOf};
ghost use Rattle.written_lines.specs.Written.{other_byte_of, unwritten_from, unwritten_in};

use crate::granted::{Granted, left};
use crate::stores::Stores;
use crate::writing::other_byte;
use memory_model::Operation;
use std::alloc::{AllocError, Global};
use trace_operations::{Harts, operations_at};
use trace_recorder::{Logged, Trace};

/// A byte that a hart sends, and neither was granted nor wrote.
#[derive(Clone, Copy, Debug, PartialEq, Eq)]
pub struct Unwritten {
    /// Its message's number in the log, counted from 0.
    pub index: usize,
    /// Where it is in memory.
    pub address: u64,
}

/// What `first_unwritten` finds in a trace whose lists are runs and that has performed operations; in another nothing,
/// since it doesn't tell what its harts wrote. The only error is want of memory.
pub fn unwritten_in(alloc: Global, trace: &Trace) -> Result<Option<Unwritten>, AllocError>
    ensures { IfOk result (λ found. found ≡ unwritten_in trace.now.history) }
{
    if trace.performed().is_empty() {
        return Ok(None);
    }
    match Harts::of_runs(alloc, trace)? {
        Some(harts) => {
            let performed = operations_at(alloc, &harts, trace.performed())?;
            first_unwritten(alloc, trace.log(), performed.as_slice())
        }
        None => Ok(None),
    }
}

/// The first byte of a ProbeAckData or ReleaseData that its hart sends and that is neither the one of the last
/// GrantData of the line that this hart took before, nor one that an operation of this hart, among those performed,
/// wrote there, whenever it did. Of a line without such a GrantData nothing is asked. The only error is want of memory.
pub fn first_unwritten(
    alloc: Global,
    log: &[Logged],
    performed: &[Operation],
) -> Result<Option<Unwritten>, AllocError>
    ensures { IfOk result (λ found. found ≡ unwritten_from performed.now 0 [] log.now) }
{
    let stores = Stores::among(alloc, performed)?;
    let mut granted = Granted::new(alloc);
    for (index, entry) in log.iter().enumerate() {
        match other_byte_of(&granted, &stores, entry) {
            Some(address) => return Ok(Some(Unwritten { index, address })),
            None => granted.note(alloc, entry)?,
        }
    }
    Ok(None)
}

/// The first such byte of the next entry.
fn other_byte_of(granted: &Granted, stores: &Stores, entry: &Logged) -> Option<u64>
    ensures { (performed : List OperationValue) → AreStoresOf stores.now performed
        → result ≡ other_byte_of performed (granted_in granted.now.lines entry.now.hart entry.now.message.line) entry.now }
{
    let sent = left(entry)?;
    let bytes = granted.to(entry.hart, entry.message.line)?;
    other_byte(
        stores,
        entry.hart,
        entry.message.line,
        bytes.as_slice(),
        sent.as_slice(),
    )
}
