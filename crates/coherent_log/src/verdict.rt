//! The verdict on a log, and which earlier messages a breach comes of.
ghost use Rattle.std.specs.Prelude.{◌≡◌};
ghost use Rattle.coherent_log.specs.Laws.{rule_of};

use crate::clients::{Held, Probed};
use crate::rule::CoherenceRule;
use std::fmt;
use std::fmt::Display;

/// The rule that a message breaks, and what the log said before that the message doesn't fit. None stands for a
/// permission that no message left: Nothing, as at the start.
#[derive(Clone, Copy, Debug, PartialEq, Eq)]
pub enum Breach {
    PermissionHeld {
        /// What its client has.
        held: Option<Held>,
    },
    ProbeObeyed {
        /// What its client had.
        held: Option<Held>,
        /// The Probe that it answers, the last one that its client took.
        probe: Option<Probed>,
    },
    OneWriter {
        /// The first other client beside which it gives too much.
        holder: usize,
        /// What that client has, by the manager.
        held: Option<Held>,
    },
    DataAsked {
        /// What its client had.
        held: Option<Held>,
    },
    DataKept {
        /// The message that brought or granted the line's bytes, counted from 0; none where they are the image's.
        brought: Option<usize>,
    },
}

impl Breach {
    /// The rule that is broken.
    pub fn rule(&self) -> CoherenceRule
        ensures { result ≡ rule_of self.now }
    {
        match self {
            Breach::PermissionHeld { held: _ } => CoherenceRule::PermissionHeld,
            Breach::ProbeObeyed { held: _, probe: _ } => CoherenceRule::ProbeObeyed,
            Breach::OneWriter { holder: _, held: _ } => CoherenceRule::OneWriter,
            Breach::DataAsked { held: _ } => CoherenceRule::DataAsked,
            Breach::DataKept { brought: _ } => CoherenceRule::DataKept,
        }
    }
}

/// What is said of a log.
#[derive(Clone, Copy, Debug, PartialEq, Eq)]
pub enum CoherenceVerdict {
    Coherent,
    /// The entry at `index`, counted from 0, is the first that breaks a rule, and `breach` has the first of the
    /// rules that it breaks.
    Incoherent { breach: Breach, index: usize },
}

impl Display for CoherenceVerdict {
    fn fmt<W: fmt::Write>(&self, f: &mut fmt::Formatter<W>) -> fmt::Result {
        match self {
            CoherenceVerdict::Coherent => f.write_str("coherent"),
            CoherenceVerdict::Incoherent { breach, index } => {
                write!(f, "incoherent {} {index}", breach.rule())
            }
        }
    }
}
