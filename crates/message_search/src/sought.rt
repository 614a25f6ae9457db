//! A message that is looked for.
ghost use Rattle.std.specs.Prelude.{◌≡◌};
ghost use Rattle.std.specs.List.{list_any};
ghost use Rattle.message_search.specs.Sought as spec;

use message_pattern::{MessageName, MessagePattern};
use tl_types::{Body, LineSize};
use trace_recorder::{Direction, Logged};

/// A message by its name, its hart and its line of memory; what is none of these may be any.
#[derive(Clone, Copy, Debug)]
pub struct Sought {
    pub name: Option<MessageName>,
    pub hart: Option<u8>,
    /// The address at which the line begins.
    pub line: Option<u32>,
}

/// What a trace calls such a message.
fn name_of(body: &Body) -> MessageName
    ensures { result ≡ spec.name_of body.now }
{
    match body {
        Body::AcquireBlock(_) => MessageName::AcquireBlock,
        Body::ProbeBlock(_) => MessageName::ProbeBlock,
        Body::ProbeAck(_) => MessageName::ProbeAck,
        Body::ProbeAckData { .. } => MessageName::ProbeAckData,
        Body::Release(_) => MessageName::Release,
        Body::ReleaseData { .. } => MessageName::ReleaseData,
        Body::Grant(_) => MessageName::Grant,
        Body::GrantData { .. } => MessageName::GrantData,
        Body::ReleaseAck => MessageName::ReleaseAck,
        Body::GrantAck => MessageName::GrantAck,
    }
}

impl Sought {
    /// The messages that a pattern means, where lines of memory have this size.
    pub fn new(pattern: MessagePattern, size: LineSize) -> Sought
        ensures { result ≡ spec.sought_of pattern size }
    {
        Sought {
            name: pattern.name,
            hart: pattern.hart,
            line: match pattern.address {
                Some(address) => Some(size.line_of(address)),
                None => None,
            },
        }
    }

    #[tactic(auto, using(crate::proofs::Names::same_name, crate::proofs::Names::other_name))]
    fn has_name(&self, body: &Body) -> bool
        ensures { result ≡ spec.has_name self.now.name body.now }
    {
        match self.name {
            Some(name) => name == name_of(body),
            None => true,
        }
    }

    fn has_hart(&self, hart: u8) -> bool
        ensures { result ≡ spec.is_open_or self.now.hart hart }
    {
        match self.hart {
            Some(wanted) => wanted == hart,
            None => true,
        }
    }

    fn has_line(&self, line: u32) -> bool
        ensures { result ≡ spec.is_open_or self.now.line line }
    {
        match self.line {
            Some(wanted) => wanted == line,
            None => true,
        }
    }

    /// Whether the entry of a log tells that such a message was sent.
    pub fn is_sent_by(&self, entry: &Logged) -> bool
        ensures { result ≡ spec.is_sought self.now entry.now }
    {
        match entry.direction {
            Direction::Sent => {
                self.has_name(&entry.message.body)
                    && self.has_hart(entry.hart)
                    && self.has_line(entry.message.line)
            }
            Direction::Taken => false,
        }
    }

    /// Whether one of these entries tells that such a message was sent.
    pub fn is_sent_in(&self, log: &[Logged]) -> bool
        ensures { result ≡ list_any (spec.is_sought self.now) log.now }
    {
        log.iter().any(|entry| self.is_sent_by(entry))
    }
}
