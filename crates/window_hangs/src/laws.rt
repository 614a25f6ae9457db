//! Laws of runs that hang, each the contract of a function that does nothing.
ghost use Rattle.window_hangs.specs.Laws.{EndlessSetsHang, EndlessSetsNeverEnd, RunsAreFollowedOn, RunsAreSeen};

/// Where each hart of each system of a set is covered, and no end is among them, a system never ends of which one of the
/// set does all.
pub fn endless_sets_never_end()
    ensures { EndlessSetsNeverEnd }
{}

/// Each memory that the order of a run to its ends leaves was seen by a search whose systems are covered, and that sees
/// what they place next.
pub fn runs_are_seen()
    ensures { RunsAreSeen }
{}

/// The bare machine follows each run to its ends that goes on from another, from where that one stands.
pub fn runs_are_followed_on()
    ensures { RunsAreFollowedOn }
{}

/// Where a search covers all, and a part of what it found is covered for itself and has no end, each run hangs behind
/// which one of that part does all.
pub fn endless_sets_hang()
    ensures { EndlessSetsHang }
{}
