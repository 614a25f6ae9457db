//! Where the P lines of a trace name no order of its operations.

use crate::operations::has_operation;
use std::fmt::{self, Display, Formatter};
use trace_recorder::{OpId, Trace};

/// Which P line of a trace that was refused as no order is the first that names no memory operation, or one
/// that an earlier line has named. The lines are counted from 1.
#[derive(Clone, Copy)]
pub struct NamingNote<'a>(pub &'a Trace);

impl Display for NamingNote<'_> {
    // It ends within one line more than the trace has operations, and no order is asked of more than 4,096.
    fn fmt<W: fmt::Write>(&self, f: &mut Formatter<W>) -> fmt::Result {
        let performed = self.0.performed();
        for (index, name) in performed.iter().enumerate() {
            if let Some(cause) = objection(self.0, &performed[..index], *name) {
                let OpId { hart, place } = *name;
                let line = Ordinal(index + 1);
                return write!(f, "the {line} P line, `P {hart} {place}`, {cause}");
            }
        }
        Ok(())
    }
}

// What stands against a name behind those that were named before.
fn objection(trace: &Trace, earlier: &[OpId], name: OpId) -> Option<&'static str> {
    let hart = usize::from(name.hart);
    if hart >= trace.harts() {
        return Some("names a hart that there isn't");
    }
    let Some(entry) = trace.entries(hart).get(name.place as usize) else {
        return Some("names an R line that there isn't");
    };
    if !has_operation(entry) {
        return Some("names an instruction that performs no memory operation");
    }
    if earlier.contains(&name) {
        return Some("names an operation that an earlier one has named");
    }
    None
}

/// A number as one counts by it: 1st, 2nd, 3rd, 4th.
#[derive(Clone, Copy)]
struct Ordinal(usize);

impl Display for Ordinal {
    fn fmt<W: fmt::Write>(&self, f: &mut Formatter<W>) -> fmt::Result {
        let number = self.0;
        let ending = match (number % 100, number % 10) {
            (11..=13, _) => "th",
            (_, 1) => "st",
            (_, 2) => "nd",
            (_, 3) => "rd",
            _ => "th",
        };
        write!(f, "{number}{ending}")
    }
}
