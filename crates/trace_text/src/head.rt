//! The header of a trace.
ghost use Rattle.std.specs.Prelude.{◌≡◌};
ghost use Rattle.trace_text.specs.Traces.{head_of};

use tl_types::LineSize;
use trace_recorder::Trace;

/// What the first two lines of a trace say.
#[derive(Clone, Copy)]
pub(crate) struct TraceHead {
    /// How many harts: 1 to `MAX_HARTS`.
    pub harts: usize,
    /// Memory's size in KiB.
    pub kib: u32,
    /// The address of the first instruction: a multiple of 4, of a word of memory.
    pub entry: u32,
    pub line: LineSize,
}

impl TraceHead {
    pub(crate) fn of(trace: &Trace) -> TraceHead
        ensures { result ≡ head_of trace.now.history }
    {
        TraceHead {
            harts: trace.harts(),
            kib: trace.image().size() / 1024,
            entry: trace.image().entry(),
            line: trace.line_size(),
        }
    }
}
