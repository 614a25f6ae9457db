//! Messages of TL-C, and the channels that they go on (TileLink 1.8.1, TL-C messages).
ghost use Rattle.std.specs.Prelude.{◌≡◌};
ghost use Rattle.tl_types.specs.Message.{channel_of};

use crate::line::LineData;
use crate::permission::{Cap, Change, Grow};

/// A, C and E lead from a hart's cache to the manager, B and D from the manager to the cache.
#[derive(Clone, Copy, Debug, PartialEq, Eq)]
pub enum Channel {
    A,
    B,
    C,
    D,
    E,
}

/// What a message says of its line.
#[derive(Clone, Copy, Debug, PartialEq, Eq)]
pub enum Body {
    AcquireBlock(Grow),
    ProbeBlock(Cap),
    ProbeAck(Change),
    ProbeAckData { change: Change, bytes: LineData },
    Release(Change),
    ReleaseData { change: Change, bytes: LineData },
    Grant(Cap),
    GrantData { cap: Cap, bytes: LineData },
    ReleaseAck,
    GrantAck,
}

/// A message about the line that begins at the address `line`.
#[derive(Clone, Copy, Debug, PartialEq, Eq)]
pub struct Msg {
    pub line: u32,
    pub body: Body,
}

impl Msg {
    /// The channel that the message goes on.
    pub fn channel(&self) -> Channel
        ensures { result ≡ channel_of self.now }
    {
        match self.body {
            Body::AcquireBlock(_) => Channel::A,
            Body::ProbeBlock(_) => Channel::B,
            Body::ProbeAck(_)
            | Body::ProbeAckData { .. }
            | Body::Release(_)
            | Body::ReleaseData { .. } => Channel::C,
            Body::Grant(_) | Body::GrantData { .. } | Body::ReleaseAck => Channel::D,
            Body::GrantAck => Channel::E,
        }
    }
}
