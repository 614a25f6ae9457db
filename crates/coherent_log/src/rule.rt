//! The rules of the coherent log.
ghost use Rattle.std.specs.Prelude.{◌≡◌};
ghost use Rattle.coherent_log.specs.Rules.{rule_name};

use std::fmt;
use std::fmt::Display;

/// A rule that each message of a log keeps as it is sent, in the order in which they are asked. A line's
/// permission of a client, by the log, is what its last Grant, ProbeAck or Release left it with: at the client
/// a Grant counts once it is taken, the others once they are sent; at the manager the other way round.
#[derive(Clone, Copy, Debug, PartialEq, Eq)]
pub enum CoherenceRule {
    /// An Acquire or a Release begins with the permission that its client has.
    PermissionHeld,
    /// A ProbeAck tells what its Probe leaves of the permission that its client has.
    ProbeObeyed,
    /// A Grant gives Trunk where no other client has a permission by the manager, and Branch where none has
    /// Trunk.
    OneWriter,
    /// Data comes from a client that has Trunk.
    DataAsked,
    /// A Grant carries the bytes that the last ProbeAckData or ReleaseData brought to the manager, or that the last
    /// Grant carried; where there is none those of the image, if it is known.
    DataKept,
}

impl CoherenceRule {
    /// All rules, in their order.
    pub const ALL: [CoherenceRule; 5] = [
        CoherenceRule::PermissionHeld,
        CoherenceRule::ProbeObeyed,
        CoherenceRule::OneWriter,
        CoherenceRule::DataAsked,
        CoherenceRule::DataKept,
    ];

    /// The rule's name.
    pub fn name(self) -> &'static str
        ensures { result.now ≡ rule_name self }
    {
        match self {
            CoherenceRule::PermissionHeld => "permission-held",
            CoherenceRule::ProbeObeyed => "probe-obeyed",
            CoherenceRule::OneWriter => "one-writer",
            CoherenceRule::DataAsked => "data-asked",
            CoherenceRule::DataKept => "data-kept",
        }
    }
}

impl Display for CoherenceRule {
    fn fmt<W: fmt::Write>(&self, f: &mut fmt::Formatter<W>) -> fmt::Result {
        f.write_str(self.name())
    }
}
