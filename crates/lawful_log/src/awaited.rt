//! The answer that a line waits for.
ghost use Rattle.std.specs.Prelude.{◌≡◌, ◌<◌, ◌+◌, ◌^◌, length};
ghost use Rattle.machine_model.specs.LawfulLog.{concerns};
ghost use Rattle.lawful_log.specs.Awaited.{answer_name, FindsAwaited};
ghost use Rattle.lawful_log.specs.Facts.{tallies_of};

use crate::tallies::Tallies;
use std::fmt;
use std::fmt::Display;
use trace_recorder::Logged;

/// An answer that ends a line's transaction.
#[derive(Clone, Copy, Debug, PartialEq, Eq)]
pub enum Answer {
    /// It answers a Grant.
    GrantAck,
    /// It answers a Probe, with data or without.
    ProbeAck,
}

impl Answer {
    /// The answer's name.
    pub fn name(self) -> &'static str
        ensures { result.now ≡ answer_name self }
    {
        match self {
            Answer::GrantAck => "GrantAck",
            Answer::ProbeAck => "ProbeAck",
        }
    }
}

/// An answer whose question was sent to the hart, and that was not taken yet.
#[derive(Clone, Copy, Debug, PartialEq, Eq)]
pub struct Awaited {
    pub hart: u8,
    pub answer: Answer,
}

impl Display for Awaited {
    fn fmt<W: fmt::Write>(&self, f: &mut fmt::Formatter<W>) -> fmt::Result {
        write!(f, "hart {}'s {}", self.hart, self.answer.name())
    }
}

/// The first hart, of those below `harts`, that owes an answer of the line behind this log, and which: its
/// GrantAck before its ProbeAck. None where none of them owes one.
pub fn first_awaited(log: &[Logged], line: u32, harts: u8) -> Option<Awaited>
    ensures { FindsAwaited harts line log.now result }
{
    for hart in 0..harts {
        let tallies = tallies_for(log, hart, line);
        if tallies.grants.sent != tallies.grant_acks.taken {
            let answer = Answer::GrantAck;
            return Some(Awaited { hart, answer });
        }
        if tallies.probes.sent != tallies.probe_acks.taken {
            let answer = Answer::ProbeAck;
            return Some(Awaited { hart, answer });
        }
    }
    None
}

/// The messages of the line in the queues of the hart.
fn tallies_for(log: &[Logged], hart: u8, line: u32) -> Tallies
    ensures { result ≡ tallies_of (concerns hart line) log.now }
{
    let mut tallies = Tallies::none();
    for entry in log {
        if entry.hart == hart && entry.message.line == line {
            tallies.count(entry);
        }
    }
    tallies
}
