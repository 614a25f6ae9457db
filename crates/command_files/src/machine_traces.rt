//! The law of machines' traces, the contract of a function that does nothing.
ghost use Rattle.command_files.specs.MachineTraces.{EveryTraceHasAText};

/// Whatever events come in whatever order, a machine's trace is within the limits of its text, so that
/// what `write_trace` writes of it is read back as the same trace.
pub fn every_trace_has_a_text()
    ensures { EveryTraceHasAText }
{}
