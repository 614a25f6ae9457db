//! How many messages of each kind were sent and taken.
ghost use Rattle.std.specs.Prelude.{◌≡◌};
ghost use Rattle.lawful_log.specs.Facts.{CanCount, counted, goes_up, HaveRoom, no_tallies};

use tl_types::Body;
use trace_recorder::{Direction, Logged};

/// How many messages of a kind went into their queues, and how many came out.
#[derive(Clone, Copy, PartialEq, Eq)]
pub(crate) struct Tally {
    pub(crate) sent: usize,
    pub(crate) taken: usize,
}

impl Tally {
    const NONE: Tally = Tally { sent: 0, taken: 0 };

    fn count(&mut self, direction: Direction)
        requires { CanCount self.old }
        ensures { self.new ≡ goes_up direction self.old }
    {
        match direction {
            Direction::Sent => self.sent += 1,
            Direction::Taken => self.taken += 1,
        }
    }
}

/// Those of all kinds. A message with data is of the same kind as one without.
#[derive(Clone, Copy, PartialEq, Eq)]
pub(crate) struct Tallies {
    pub(crate) acquires: Tally,
    pub(crate) probes: Tally,
    pub(crate) probe_acks: Tally,
    pub(crate) releases: Tally,
    pub(crate) release_acks: Tally,
    pub(crate) grants: Tally,
    pub(crate) grant_acks: Tally,
}

impl Tallies {
    pub(crate) fn none() -> Tallies
        ensures { result ≡ no_tallies }
    {
        Tallies {
            acquires: Tally::NONE,
            probes: Tally::NONE,
            probe_acks: Tally::NONE,
            releases: Tally::NONE,
            release_acks: Tally::NONE,
            grants: Tally::NONE,
            grant_acks: Tally::NONE,
        }
    }

    /// Counts one more entry.
    pub(crate) fn count(&mut self, entry: &Logged)
        requires { HaveRoom self.old }
        ensures { self.new ≡ counted entry.now self.old }
    {
        let direction = entry.direction;
        match entry.message.body {
            Body::AcquireBlock(_) => self.acquires.count(direction),
            Body::ProbeBlock(_) => self.probes.count(direction),
            Body::ProbeAck(_) | Body::ProbeAckData { .. } => self.probe_acks.count(direction),
            Body::Release(_) | Body::ReleaseData { .. } => self.releases.count(direction),
            Body::Grant(_) | Body::GrantData { .. } => self.grants.count(direction),
            Body::ReleaseAck => self.release_acks.count(direction),
            Body::GrantAck => self.grant_acks.count(direction),
        }
    }
}
