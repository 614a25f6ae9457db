//! How many operations a trace has, where they are too many.

use crate::operations::operations_of;
use rvwmo_order::trace_operations::MAX_OPERATIONS;
use std::fmt::{self, Display, Formatter};
use trace_recorder::Trace;

/// How many memory operations a trace has that was refused as too long, and how many are judged.
#[derive(Clone, Copy)]
pub struct LengthNote<'a>(pub &'a Trace);

impl Display for LengthNote<'_> {
    fn fmt<W: fmt::Write>(&self, f: &mut Formatter<W>) -> fmt::Result {
        let count = operations_of(self.0);
        write!(
            f,
            "the trace has {count} memory operations, and at most {MAX_OPERATIONS} are judged: to judge how the run begins, replay its journal cut short, as by `head -n 2000`, which may cut it anywhere"
        )
    }
}
