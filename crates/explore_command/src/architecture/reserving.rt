//! Why the machine doesn't come to an outcome of which no operation overtakes another.

use memory_model::{Kind, Operation};
use std::alloc::{AllocError, Global};
use std::fmt::{self, Display, Formatter};
use trace_operations::Index;
use trace_recorder::Trace;

/// An SC that succeeds, and an operation of another hart on its line that is performed between its LR and it.
#[derive(Clone, Copy)]
struct Across {
    sc: Operation,
    other: Operation,
}

/// Which SC of a trace kept its reservation where the machine loses it, if one did.
#[derive(Clone, Copy)]
pub(super) struct ReservationNote(Option<Across>);

impl ReservationNote {
    pub(super) fn of(alloc: Global, trace: &Trace) -> Result<ReservationNote, AllocError> {
        let index = Index::new(alloc, trace, trace.performed())?;
        let order = index.order();
        for (place, sc) in order.iter().enumerate() {
            if sc.kind == Kind::Sc {
                if let Some(other) = between(trace, &order[..place], sc) {
                    return Ok(ReservationNote(Some(Across { sc: *sc, other })));
                }
            }
        }
        Ok(ReservationNote(None))
    }
}

// The first operation of another hart on the SC's line behind its LR: the last one of its hart among these.
fn between(trace: &Trace, before: &[Operation], sc: &Operation) -> Option<Operation> {
    let line = trace.line_size().line_of(sc.address);
    let mut found = None;
    for operation in before {
        if operation.hart == sc.hart {
            if operation.kind == Kind::Lr {
                found = None;
            }
        } else if found.is_none() && trace.line_size().line_of(operation.address) == line {
            found = Some(*operation);
        }
    }
    found
}

impl Display for ReservationNote {
    fn fmt<W: fmt::Write>(&self, f: &mut Formatter<W>) -> fmt::Result {
        f.write_str("no operation overtakes another; ")?;
        match &self.0 {
            Some(Across { sc, other }) => write!(
                f,
                "the SC {}:{} succeeds though {}:{} of another hart is performed on its line behind its LR, which ends a reservation of this machine",
                sc.hart, sc.place, other.hart, other.place
            ),
            None => f.write_str("a reservation is kept or lost where this machine's isn't"),
        }
    }
}
