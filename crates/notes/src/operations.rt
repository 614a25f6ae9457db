//! Which instructions of a trace have a memory operation.

ghost use Rattle.std.specs.Prelude.{◌≡◌};
ghost use Rattle.rvwmo_order.specs.Items as spec;

use hart::Retired;
use rv32_decode::{Instr, decode};
use trace_recorder::Trace;

/// How many memory operations a trace has.
pub(crate) fn operations_of(trace: &Trace) -> usize {
    let mut count = 0;
    for hart in 0..trace.harts() {
        let entries = trace.entries(hart).iter();
        count += entries.filter(|entry| has_operation(entry)).count();
    }
    count
}

/// Whether an entry has a memory operation.
pub(crate) fn has_operation(entry: &Retired) -> bool
    ensures { result ≡ spec.has_operation entry.now }
{
    match decode(entry.word) {
        Some(Instr::Load { .. } | Instr::Store { .. } | Instr::Lr { .. } | Instr::Amo { .. }) => {
            true
        }
        Some(Instr::Sc { .. }) => entry.sc_ok.unwrap_or(false),
        _ => false,
    }
}
