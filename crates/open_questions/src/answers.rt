//! Which answers were taken, kept as a log is gone over from its end.
ghost use Rattle.std.specs.Prelude.{◌≡◌, ◌<◌, ◌==◌, ℕ, List, ◌∷◌, [], OnOk, if◌then◌else◌, length};
ghost use Rattle.open_questions.specs.Answers.{Follows, answered_at, answered_in, asks, has_answer, is_answer, noted, nothing_answered};
ghost use Rattle.open_questions.specs.Open.{is_open};
ghost use Rattle.machine_model.specs.LawfulLog.{concerns};
ghost use Rattle.trace_recorder.specs.declared.logged.Logged.{Logged as LoggedValue};

use std::alloc::{AllocError, Global};
use std::collections::HashMap;
use tl_types::Body;
use trace_recorder::{Direction, Logged};

/// Which answers of a line and a client were taken.
#[derive(Clone, Copy)]
pub(crate) struct Answered {
    pub(crate) grant: bool,
    pub(crate) probe_ack: bool,
    pub(crate) release_ack: bool,
    pub(crate) grant_ack: bool,
}

impl Answered {
    /// None of them.
    pub(crate) const NOTHING: Answered = Answered {
        grant: false,
        probe_ack: false,
        release_ack: false,
        grant_ack: false,
    };

    fn note(&mut self, entry: &Logged)
        ensures { self.new ≡ noted entry.now self.old }
    {
        match entry.direction {
            Direction::Sent => {}
            Direction::Taken => match entry.message.body {
                Body::Grant(_) | Body::GrantData { .. } => self.grant = true,
                Body::ProbeAck(_) | Body::ProbeAckData { .. } => self.probe_ack = true,
                Body::ReleaseAck => self.release_ack = true,
                Body::GrantAck => self.grant_ack = true,
                _ => {}
            },
        }
    }

    /// Whether the message asks for none of the others.
    fn has_answer(&self, body: &Body) -> bool
        ensures { result ≡ has_answer body.now self.now }
    {
        match body {
            Body::AcquireBlock(_) => self.grant,
            Body::ProbeBlock(_) => self.probe_ack,
            Body::Release(_) | Body::ReleaseData { .. } => self.release_ack,
            Body::Grant(_) | Body::GrantData { .. } => self.grant_ack,
            _ => true,
        }
    }
}

/// Which answers of a line were taken.
#[derive(Drop)]
pub(crate) struct LineAnswers {
    /// By client, as far as clients were named.
    pub(crate) clients: Vec<Answered>,
}

impl LineAnswers {
    /// Of a line that no message named.
    fn new(alloc: Global) -> LineAnswers
        ensures { (h : ℕ) → answered_at result.clients.items h ≡ nothing_answered }
    {
        LineAnswers {
            clients: Vec::new(alloc),
        }
    }

    fn note(&mut self, entry: &Logged) -> Result<(), AllocError>
        ensures { OnOk result ((h : ℕ) → answered_at self.new.clients.items h
            ≡ (if entry.now.hart == h then noted entry.now (answered_at self.old.clients.items h) else answered_at self.old.clients.items h)) }
    {
        let client = usize::from(entry.hart);
        reach(&mut self.clients, client)?;
        self.clients[client].note(entry);
        Ok(())
    }

    fn has_answer(&self, entry: &Logged) -> bool
        ensures { result ≡ has_answer entry.now.message.body (answered_at self.now.clients.items entry.now.hart) }
    {
        match self.clients.get(usize::from(entry.hart)) {
            Some(answered) => answered.has_answer(&entry.message.body),
            None => Answered::NOTHING.has_answer(&entry.message.body),
        }
    }
}

/// Lengthens the list so that it has the client.
fn reach(clients: &mut Vec<Answered>, client: usize) -> Result<(), AllocError>
    requires { client < 256 }
    ensures reaches { OnOk result (client < length clients.new.items) }
    ensures same { OnOk result ((h : ℕ) → answered_at clients.new.items h ≡ answered_at clients.old.items h) }
{
    while clients.len() <= client {
        clients.push(Answered::NOTHING)?;
    }
    Ok(())
}

/// Which answers were taken.
pub(crate) struct Answers {
    /// By the line's address.
    lines: HashMap<u32, LineAnswers>,
}

// A call of its own: derived, it would stand field by field in each function that owns one.
impl Drop for Answers {
    fn drop(self) {
        let Answers { lines: _ } = self;
    }
}

impl Answers {
    /// Of a log with no entry.
    pub(crate) fn new(alloc: Global) -> Answers
        ensures { Follows result [] }
    {
        Answers {
            lines: HashMap::new(alloc),
        }
    }

    /// Whether the entry, which stands before these, asks for an answer that isn't among them.
    pub(crate) fn leave_open(&self, entry: &Logged) -> bool
        ensures { (log : List LoggedValue) → Follows self.now log → result ≡ is_open entry.now log }
    {
        match entry.direction {
            Direction::Sent => {
                // A line is looked up only for what may be open.
                if !asks(&entry.message.body) {
                    return false;
                }
                !has_answer(&self.lines, entry)
            }
            Direction::Taken => false,
        }
    }

    /// One more entry, before these.
    pub(crate) fn note(&mut self, alloc: Global, entry: &Logged) -> Result<(), AllocError>
        ensures { OnOk result ((log : List LoggedValue) → Follows self.old log → Follows self.new (entry.now ∷ log)) }
    {
        match entry.direction {
            Direction::Sent => Ok(()),
            Direction::Taken => {
                if !is_answer(&entry.message.body) {
                    return Ok(());
                }
                note_line(alloc, &mut self.lines, entry)?;
                Ok(())
            }
        }
    }
}

/// Whether the message asks for an answer.
fn asks(body: &Body) -> bool
    ensures { result ≡ asks body.now }
{
    match body {
        Body::AcquireBlock(_)
        | Body::ProbeBlock(_)
        | Body::Release(_)
        | Body::ReleaseData { .. }
        | Body::Grant(_)
        | Body::GrantData { .. } => true,
        _ => false,
    }
}

/// Whether the message answers another.
fn is_answer(body: &Body) -> bool
    ensures { result ≡ is_answer body.now }
{
    match body {
        Body::Grant(_)
        | Body::GrantData { .. }
        | Body::ProbeAck(_)
        | Body::ProbeAckData { .. }
        | Body::ReleaseAck
        | Body::GrantAck => true,
        _ => false,
    }
}

fn has_answer(lines: &HashMap<u32, LineAnswers>, entry: &Logged) -> bool
    ensures { result ≡ has_answer entry.now.message.body (answered_in lines.now entry.now.hart entry.now.message.line) }
{
    match lines.get(&entry.message.line) {
        Some(line) => line.has_answer(entry),
        None => Answered::NOTHING.has_answer(&entry.message.body),
    }
}

fn note_line(
    alloc: Global,
    lines: &mut HashMap<u32, LineAnswers>,
    entry: &Logged,
) -> Result<(), AllocError>
    ensures { OnOk result ((h line : ℕ) → answered_in lines.new h line
        ≡ (if concerns h line entry.now then noted entry.now (answered_in lines.old h line) else answered_in lines.old h line)) }
{
    let line = lines
        .entry(entry.message.line)?
        .or_insert_with(|| LineAnswers::new(alloc));
    line.note(entry)
}
