//! What the calls of a cache answer.
use tl_types::{Change, Grow, LineData};

/// What a miss on a line comes to: an Acquire, or what it has to wait for.
#[derive(Clone, Copy, Debug, PartialEq, Eq)]
pub enum Want {
    /// A Release of the line is unanswered.
    WaitRelease,
    /// An Acquire of the line is outstanding already.
    WaitGrant,
    /// As many Acquires are outstanding as there are trackers.
    NoTracker,
    /// Each slot of the line's set has another line.
    SetFull,
    /// A tracker and a slot are the line's from now on; the Acquire has to be sent.
    Missed(Grow),
}

/// What an eviction comes to.
#[derive(Clone, Copy, Debug, PartialEq, Eq)]
pub enum Evict {
    /// There is no copy.
    NotHeld,
    /// An Acquire of the line is outstanding.
    AcquirePending,
    /// As many Releases are unanswered as there are trackers.
    ReleaseFull,
    /// The copy is gone. A Release has to be sent, a ReleaseData where there are bytes.
    Evicted {
        change: Change,
        bytes: Option<LineData>,
    },
}

/// What a Probe comes to.
#[derive(Clone, Copy, Debug, PartialEq, Eq)]
pub enum Probed {
    /// A Release of the line is unanswered, so the Probe has to wait.
    Releasing,
    /// The copy has shrunk. A ProbeAck has to be sent, a ProbeAckData where there are bytes.
    Answered {
        change: Change,
        bytes: Option<LineData>,
    },
}
