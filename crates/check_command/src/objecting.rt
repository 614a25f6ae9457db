//! What is told of a message that breaks a rule.

ghost use Rattle.std.specs.Prelude.{◌++◌, codes};
ghost use Rattle.check_command.specs.Breaches.{IsBreachTold, IsCauseOf, cause_text, place_line};
ghost use Rattle.log_text.specs.Words.{place_text};
ghost use Rattle.text_fields.specs.Writing.{Writes};

use log_text::message_judge::{Broken, MessageBreach, Profile};
use log_text::{Contradiction, LogText, Objection, Place, Unanswered, UnwrittenByte};
use std::io::{self, Write};
use text_fields::put;
use trace_recorder::Logged;

/// What stands against a message, in words.
#[derive(Clone, Copy)]
pub(crate) enum Cause<'a> {
    Objection(Objection),
    Contradiction(Contradiction<'a>),
    Unanswered(Unanswered),
    Unwritten(UnwrittenByte),
}

/// Where a message stands, and what stands against it.
#[derive(Clone, Copy)]
pub(crate) struct Told<'a> {
    pub(crate) place: Place<'a>,
    pub(crate) cause: Cause<'a>,
}

/// What is told of a breach of a log. None beyond the log and its text.
pub(crate) fn told_of<'a>(
    log: &[Logged],
    profile: Profile,
    harts: u8,
    text: LogText<'a>,
    broken: Broken,
) -> Option<Told<'a>>
    ensures { IsBreachTold profile harts log.now text.entry broken result }
{
    let place = Place::of(text, broken.index)?;
    let cause = cause_of(log, profile, harts, text, broken)?;
    Some(Told { place, cause })
}

/// What stands against the message of a breach.
fn cause_of<'a>(
    log: &[Logged],
    profile: Profile,
    harts: u8,
    text: LogText<'a>,
    broken: Broken,
) -> Option<Cause<'a>>
    ensures { IsCauseOf profile harts log.now text.entry broken.index broken.breach result }
{
    let index = broken.index;
    match broken.breach {
        MessageBreach::Unlawful(rule) => match Objection::to(log, profile, rule, index, harts) {
            Some(objection) => Some(Cause::Objection(objection)),
            None => None,
        },
        MessageBreach::Incoherent(breach) => match Contradiction::of(text, log, breach, index) {
            Some(contradiction) => Some(Cause::Contradiction(contradiction)),
            None => None,
        },
        MessageBreach::Unanswered => match Unanswered::of(log, index) {
            Some(question) => Some(Cause::Unanswered(question)),
            None => None,
        },
        MessageBreach::Unwritten { address } => match UnwrittenByte::of(log, index, address) {
            Some(byte) => Some(Cause::Unwritten(byte)),
            None => None,
        },
    }
}

impl Cause<'_> {
    fn put<W: Write>(&self, out: &mut W) -> io::Result<()>
        ensures { Writes (W.contents out.old) (W.contents out.new) (cause_text self.now) result }
    {
        match self {
            Cause::Objection(objection) => objection.put(out),
            Cause::Contradiction(contradiction) => contradiction.put(out),
            Cause::Unanswered(question) => question.put(out),
            Cause::Unwritten(byte) => byte.put(out),
        }
    }
}

impl Told<'_> {
    /// Writes it, and ends the line.
    pub(crate) fn put<W: Write>(&self, out: &mut W) -> io::Result<()>
        ensures { Writes (W.contents out.old) (W.contents out.new) (place_line self.now) result }
    {
        self.put_place(out)?;
        self.put_cause(out)
    }

    fn put_place<W: Write>(&self, out: &mut W) -> io::Result<()>
        ensures { Writes (W.contents out.old) (W.contents out.new) (place_text self.now.place ++ codes ": ") result }
    {
        self.place.put(out)?;
        put(out, b": ")
    }

    fn put_cause<W: Write>(&self, out: &mut W) -> io::Result<()>
        ensures { Writes (W.contents out.old) (W.contents out.new) (cause_text self.now.cause ++ codes "\n") result }
    {
        self.cause.put(out)?;
        put(out, b"\n")
    }
}
