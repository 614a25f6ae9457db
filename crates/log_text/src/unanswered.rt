//! A question that no answer follows, in words.
ghost use Rattle.std.specs.Prelude.{◌≡◌, ◌++◌, codes, option_map, slice_get};
ghost use Rattle.log_text.specs.Words.{answer_text, unanswered_text};
ghost use Rattle.log_text.specs.declared.unanswered.Unanswered.{Unanswered as UnansweredValue};
ghost use Rattle.text_fields.specs.Writing.{Writes};

use crate::spelling::put_routed;
use std::io::{self, Write};
use text_fields::Piece::Text;
use text_fields::put_pieces;
use tl_types::Body;
use trace_recorder::Logged;

/// A question whose answer wasn't taken. Its text is as
/// `AcquireBlock 0x80000100 NtoB from hart 0: its Grant wasn't taken by the end`.
#[derive(Clone, Copy, Debug)]
pub struct Unanswered {
    pub entry: Logged,
}

impl Unanswered {
    /// The entry at `index` of a log. None beyond the log.
    pub fn of(log: &[Logged], index: usize) -> Option<Unanswered>
        ensures { option_map (λ (u : UnansweredValue). u.entry) result ≡ slice_get log.now index }
    {
        match log.get(index) {
            Some(entry) => Some(Unanswered { entry: *entry }),
            None => None,
        }
    }

    /// Writes it. After the writer's fault a beginning of it went out.
    pub fn put<W: Write>(&self, out: &mut W) -> io::Result<()>
        ensures { Writes (W.contents out.old) (W.contents out.new) (unanswered_text self.now) result }
    {
        put_routed(&self.entry, out)?;
        put_missing(&self.entry.message.body, out)
    }
}

/// Writes which answer wasn't taken.
fn put_missing<W: Write>(body: &Body, out: &mut W) -> io::Result<()>
    ensures { Writes (W.contents out.old) (W.contents out.new) (codes ": its " ++ (answer_text body.now ++ codes " wasn't taken by the end")) result }
{
    put_pieces(
        out,
        &[
            Text(b": its "),
            Text(answer_to(body).as_bytes()),
            Text(b" wasn't taken by the end"),
        ],
    )
}

fn answer_to(body: &Body) -> &'static str
    ensures { result.now ≡ answer_text body.now }
{
    match body {
        Body::AcquireBlock(_) => "Grant",
        Body::ProbeBlock(_) => "ProbeAck",
        Body::Release(_) | Body::ReleaseData { .. } => "ReleaseAck",
        Body::Grant(_) | Body::GrantData { .. } => "GrantAck",
        Body::ProbeAck(_) | Body::ProbeAckData { .. } | Body::ReleaseAck | Body::GrantAck => {
            "answer"
        }
    }
}
