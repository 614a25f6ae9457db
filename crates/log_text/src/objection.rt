//! What stands against a message, in words.
ghost use Rattle.std.specs.Prelude.{◌≡◌, ◌++◌, Some, codes};
ghost use Rattle.log_text.specs.Objections.{IsOwnTo, ObjectsTo};
ghost use Rattle.log_text.specs.Words.{awaited_text, data_text, front_text, objection_text, own_text, permission_text, release_text, rule_text};
ghost use Rattle.text_fields.specs.Writing.{Writes};
ghost use Rattle.trace_text.specs.MessageParts.{heading};

use crate::spelling::{is_spelt_alike, put_heading, put_lead};
use crate::waiting::{awaits_release_ack, front_of};
use lawful_log::{Awaited, LogRule, Profile, first_awaited};
use std::io::{self, Write};
use text_fields::Piece::{Number, Text};
use text_fields::{put, put_pieces};
use tl_types::Msg;
use trace_recorder::Logged;

/// An entry that breaks a rule of the lawful log, and what stands against it. Its text is as
/// `GrantData 0x80000100 toT to hart 1: hart 0's GrantAck of this line wasn't taken yet`.
#[derive(Clone, Copy, Debug)]
pub struct Objection {
    /// Whose rule it is.
    pub profile: Profile,
    pub rule: LogRule,
    pub entry: Logged,
    /// Whether this machine alone asks this of the entry, and TileLink has nothing to object.
    pub own: bool,
    /// The answer of the line that was due before the entry.
    pub awaited: Option<Awaited>,
    /// The message that was in front of the entry's queue before it.
    pub front: Option<Msg>,
    /// Whether a ReleaseAck of the line to the hart was due before it.
    pub awaits_release_ack: bool,
}

impl Objection {
    /// To the entry at `index` of a log of so many harts, which breaks the rule as the profile asks it. None beyond
    /// the log.
    pub fn to(
        log: &[Logged],
        profile: Profile,
        rule: LogRule,
        index: usize,
        harts: u8,
    ) -> Option<Objection>
        ensures { ObjectsTo profile rule index harts log.now result }
    {
        let entry = *log.get(index)?;
        let before = &log[..index];
        Some(Objection {
            profile,
            rule,
            entry,
            own: is_own(profile, rule, &entry),
            awaited: first_awaited(before, entry.message.line, harts),
            front: front_of(before, entry.message.channel(), entry.hart),
            awaits_release_ack: awaits_release_ack(before, entry.message.line, entry.hart),
        })
    }

    /// Writes it. After the writer's fault a beginning of it went out.
    pub fn put<W: Write>(&self, out: &mut W) -> io::Result<()>
        ensures { Writes (W.contents out.old) (W.contents out.new) (objection_text self.now) result }
    {
        put_lead(&self.entry, out)?;
        self.put_cause(out)
    }

    // What stood against the entry, and whether this machine alone asks it.
    fn put_cause<W: Write>(&self, out: &mut W) -> io::Result<()>
        ensures { Writes (W.contents out.old) (W.contents out.new) (rule_text self.now.rule self.now ++ own_text self.now.own) result }
    {
        self.put_rule(out)?;
        put_own(self.own, out)
    }

    fn put_rule<W: Write>(&self, out: &mut W) -> io::Result<()>
        ensures { Writes (W.contents out.old) (W.contents out.new) (rule_text self.now.rule self.now) result }
    {
        match self.rule {
            LogRule::InOrder => put_front(self.front, &self.entry.message, out),
            LogRule::Question => put(out, b"no question that was taken is left for it to answer"),
            LogRule::Permission => put(out, permission_cause(self.profile).as_bytes()),
            LogRule::Data => put(out, data_cause(self.profile).as_bytes()),
            LogRule::AcquireOnce => put(
                out,
                b"the Grant of the hart's earlier Acquire of this line wasn't taken yet",
            ),
            LogRule::ProbeOnce => put(
                out,
                b"the ProbeAck of the earlier Probe of this line to the hart wasn't taken yet",
            ),
            LogRule::GrantAlone => put_awaited(self.awaited, out),
            LogRule::ReleaseAlone => put(out, release_cause(self.awaits_release_ack).as_bytes()),
        }
    }
}

// Whether this machine alone asks it.
fn put_own<W: Write>(own: bool, out: &mut W) -> io::Result<()>
    ensures { Writes (W.contents out.old) (W.contents out.new) (own_text own) result }
{
    if own {
        return put(
            out,
            b" (a rule of this machine's own: --profile tilelink allows it)",
        );
    }
    Ok(())
}

fn permission_cause(profile: Profile) -> &'static str
    ensures { result.now ≡ permission_text profile }
{
    match profile {
        Profile::Machine => "the Acquire that it answers asked for another permission",
        Profile::TileLink => "the Acquire that it answers asked for more",
    }
}

fn data_cause(profile: Profile) -> &'static str
    ensures { result.now ≡ data_text profile }
{
    match profile {
        Profile::Machine =>
            "a Grant is without data exactly where its Acquire was BtoT and the copy wasn't lost meanwhile",
        Profile::TileLink =>
            "a Grant is without data only where its Acquire was BtoT and the copy wasn't lost meanwhile",
    }
}

fn release_cause(awaits_release_ack: bool) -> &'static str
    ensures { result.now ≡ release_text awaits_release_ack }
{
    if awaits_release_ack {
        "the ReleaseAck of the hart's earlier Release of this line wasn't taken yet"
    } else {
        "the Grant of the hart's Acquire of this line wasn't taken yet"
    }
}

// Which answer the line waits for.
fn put_awaited<W: Write>(awaited: Option<Awaited>, out: &mut W) -> io::Result<()>
    ensures { Writes (W.contents out.old) (W.contents out.new) (awaited_text awaited) result }
{
    match awaited {
        None => put(
            out,
            b"a GrantAck or a ProbeAck of this line wasn't taken yet",
        ),
        Some(awaited) => put_owed(awaited, out),
    }
}

// Which hart owes it.
fn put_owed<W: Write>(awaited: Awaited, out: &mut W) -> io::Result<()>
    ensures { Writes (W.contents out.old) (W.contents out.new) (awaited_text (Some awaited)) result }
{
    put_pieces(
        out,
        &[
            Text(b"hart "),
            Number(u64::from(awaited.hart)),
            Text(b"'s "),
            Text(awaited.answer.name().as_bytes()),
            Text(b" of this line wasn't taken yet"),
        ],
    )
}

// Whether this machine alone asks this of an entry that breaks the rule as the profile asks it.
fn is_own(profile: Profile, rule: LogRule, entry: &Logged) -> bool
    ensures { IsOwnTo profile rule entry.now result }
{
    match profile {
        Profile::Machine => rule.is_own(entry),
        Profile::TileLink => false,
    }
}

// What is in front of the message's queue in its place.
fn put_front<W: Write>(front: Option<Msg>, message: &Msg, out: &mut W) -> io::Result<()>
    ensures { Writes (W.contents out.old) (W.contents out.new) (front_text front message.now) result }
{
    match front {
        None => put(out, b"its queue is empty"),
        Some(front) => put_other(&front, message, out),
    }
}

// How the message in front differs from this one.
fn put_other<W: Write>(front: &Msg, message: &Msg, out: &mut W) -> io::Result<()>
    ensures { Writes (W.contents out.old) (W.contents out.new) (front_text (Some front.now) message.now) result }
{
    let alike = is_spelt_alike(front, message);
    if alike {
        put(out, b"the message in front of its queue has other bytes")
    } else {
        put_foremost(front, out)
    }
}

fn put_foremost<W: Write>(front: &Msg, out: &mut W) -> io::Result<()>
    ensures { Writes (W.contents out.old) (W.contents out.new) (heading front.now ++ codes " is in front of its queue") result }
{
    put_heading(front, out)?;
    put(out, b" is in front of its queue")
}
