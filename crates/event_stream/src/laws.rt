//! The law of streams, the contract of a function that does nothing.
ghost use Rattle.event_stream.specs.Laws.{StreamIsTheTrace};

use machine_model::nothing_is_rewritten;

/// A stream that tells all events ends where a replay of them does, and the R lines of each hart, the P
/// lines and the M lines, each in their order, are those of the trace there, and the O lines of each hart
/// are what it put out.
pub fn stream_is_the_trace()
    ensures { StreamIsTheTrace }
{
    nothing_is_rewritten();
}
