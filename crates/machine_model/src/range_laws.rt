//! The law of the ranges that a machine's trace stays in, the contract of a function that does nothing.
ghost use Rattle.machine_model.specs.Ranges.{InRangeAlways};

/// Whatever events come in whatever order, the trace has entries of 32 bits, statuses of known codes,
/// names of places that are there, and messages of the machine's harts and of lines of memory, whose
/// data are whole lines.
pub fn in_range_always()
    ensures { InRangeAlways }
{}
