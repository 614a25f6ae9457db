//! Where harts stopped, read off a trace.
ghost use Rattle.std.specs.Prelude.{◌≡◌, ◌<◌, Some, length, slice_get};
ghost use Rattle.hart.specs.Run.{reached};
ghost use Rattle.window_failures.specs.Failing.{stops_of};
ghost use Rattle.window_model.specs.Failures.{stop_by};

use hart::rv32_decode::decode;
use hart::{Hart, Retired, Status};
use trace_recorder::Trace;
use window_model::flat_exploration::Stop;

/// Where a hart stands that has retired these entries from here on.
fn behind(start: &Hart, entries: &[Retired]) -> Hart
    ensures { result ≡ reached start.now entries.now }
{
    let mut hart = *start;
    let mut rest = entries;
    while let [entry, tail @ ..] = rest {
        if let Some(instr) = decode(entry.word) {
            hart.retire(entry, &instr);
        }
        rest = tail;
    }
    hart
}

/// Where a hart stopped that stands so, if it did.
fn stop_of(status: Status, pc: u32) -> Option<Stop>
    ensures { result ≡ stop_by status pc }
{
    match status {
        Status::Stopped(code) => Some(Stop { code, pc }),
        Status::Running | Status::Exited(_) => None,
    }
}

/// How a hart of a trace stands behind its list.
fn status_in(trace: &Trace, hart: u8) -> Status
    requires { hart < length trace.now.history.statuses }
    ensures { slice_get trace.now.history.statuses hart ≡ Some result }
{
    trace.statuses()[usize::from(hart)]
}

/// Where a hart of a trace stopped behind its list, if it did.
pub fn stop_in(trace: &Trace, hart: u8) -> Option<Stop>
    requires { hart < length trace.now.history.entries }
    ensures { slice_get (stops_of trace.now.history) hart ≡ Some result }
{
    let start = Hart::at_reset(hart, trace.image().entry(), trace.harts() as u32);
    let last = behind(&start, trace.entries(usize::from(hart)));
    stop_of(status_in(trace, hart), last.pc)
}
