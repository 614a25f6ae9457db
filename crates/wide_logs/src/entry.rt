//! A message of a log whose lines may have halves.
ghost use Rattle.std.specs.Prelude.{◌≡◌};
ghost use Rattle.wide_logs.specs.Entries.{has_data, second_of, with_bytes};

use tl_types::{Body, LineData, Msg};
use trace_recorder::Logged;

/// A message that was sent or taken, in two parts where a line has halves.
#[derive(Clone, Copy, Debug, PartialEq, Eq)]
pub struct WideLogged {
    /// The message; of the bytes that it carries the line's, or those of the line's first half.
    pub first: Logged,
    /// The bytes of the second half, where the line has halves and the message carries bytes.
    pub second: Option<LineData>,
}

impl WideLogged {
    /// The same message with the bytes of the second half in place of those of the first.
    pub fn second_part(&self) -> Logged
        ensures { result ≡ second_of self.now }
    {
        Logged {
            direction: self.first.direction,
            hart: self.first.hart,
            message: Msg {
                line: self.first.message.line,
                body: with_bytes(&self.first.message.body, self.second),
            },
        }
    }
}

/// Whether a message of this body carries bytes.
pub(crate) fn has_data(body: &Body) -> bool
    ensures { result ≡ has_data body.now }
{
    matches!(
        body,
        Body::ProbeAckData { .. } | Body::ReleaseData { .. } | Body::GrantData { .. }
    )
}

fn with_bytes(body: &Body, bytes: Option<LineData>) -> Body
    ensures { result ≡ with_bytes body.now bytes }
{
    match bytes {
        Some(bytes) => with_data(body, bytes),
        None => *body,
    }
}

fn with_data(body: &Body, bytes: LineData) -> Body
    ensures { result ≡ with_bytes body.now (Some bytes) }
{
    match body {
        Body::ProbeAckData { change, .. } => Body::ProbeAckData {
            change: *change,
            bytes,
        },
        Body::ReleaseData { change, .. } => Body::ReleaseData {
            change: *change,
            bytes,
        },
        Body::GrantData { cap, .. } => Body::GrantData { cap: *cap, bytes },
        _ => *body,
    }
}
