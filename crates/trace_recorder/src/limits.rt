//! How large a trace may be.
ghost use Rattle.std.specs.Prelude.{◌↔◌, IsTrue};
ghost use Rattle.trace_recorder.specs.Limits.{AreWithinLimits};

use hart::Retired;
use hart::machine_types::{MAX_ENTRIES, MAX_HARTS};

/// Whether lists of retired instructions, one a hart, are no larger than a trace's can be: at most
/// `MAX_HARTS`, each of at most `MAX_ENTRIES` instructions.
pub fn are_within_limits(entries: &[Vec<Retired>]) -> bool
    ensures { IsTrue result ↔ AreWithinLimits entries.now }
{
    entries.len() <= MAX_HARTS as usize && entries.iter().all(|list| list.len() <= MAX_ENTRIES)
}
