//! What a message of a log contradicts, in words.
ghost use Rattle.std.specs.Prelude.{◌≡◌, ◌++◌, Some, codes, decimal};
ghost use Rattle.log_text.specs.Contradictions.{Contradicts, cause_of, index_of, probe_of, since_of};
ghost use Rattle.log_text.specs.Places.{IsPlaceOf};
ghost use Rattle.log_text.specs.Words.{answered_text, beginning_text, breach_text, brought_text, by_text, contradiction_text, holding_text, perm_in, perm_text};
ghost use Rattle.text_fields.specs.Writing.{Writes};
ghost use Rattle.tl_types.specs.Shrink.{shrunk_by};
ghost use Rattle.trace_text.specs.Words as words;

use crate::place::{LogText, Place};
use crate::spelling::{cap_name, change_name, put_lead};
use coherent_log::{Breach, Held, Probed};
use std::io::{self, Write};
use text_fields::Piece::{Number, Text};
use text_fields::{put, put_pieces};
use tl_types::{Body, Cap, Perm, shrink};
use trace_recorder::Logged;

/// A message that breaks a rule of the coherent log, and where in the log's text stands what it contradicts. Its
/// text is as `GrantData 0x80000100 toT to hart 1: hart 0 holds Trunk of this line by line 5, and has to be probed
/// first`.
#[derive(Clone, Copy)]
pub struct Contradiction<'a> {
    pub breach: Breach,
    pub entry: Logged,
    /// Where the message stands that left the permission that the breach speaks of, or that brought the bytes.
    pub cause: Option<Place<'a>>,
    /// Where the Probe stands that the entry answers.
    pub probe: Option<Place<'a>>,
}

impl<'a> Contradiction<'a> {
    /// Of the entry at `index` of a log that stands in this text, which the breach is of. None beyond the log.
    pub fn of(
        text: LogText<'a>,
        log: &[Logged],
        breach: Breach,
        index: usize,
    ) -> Option<Contradiction<'a>>
        ensures { Contradicts breach index log.now text.entry result }
    {
        let entry = *log.get(index)?;
        Some(Contradiction {
            breach,
            entry,
            cause: place_of(text, cause_of(breach)),
            probe: place_of(text, probe_of(breach)),
        })
    }

    /// Writes it. After the writer's fault a beginning of it went out.
    pub fn put<W: Write>(&self, out: &mut W) -> io::Result<()>
        ensures { Writes (W.contents out.old) (W.contents out.new) (contradiction_text self.now) result }
    {
        put_lead(&self.entry, out)?;
        self.put_cause(out)
    }

    // What stands before the entry, and what the entry should be by it.
    fn put_cause<W: Write>(&self, out: &mut W) -> io::Result<()>
        ensures { Writes (W.contents out.old) (W.contents out.new) (breach_text self.now.breach self.now) result }
    {
        let hart = usize::from(self.entry.hart);
        match self.breach {
            Breach::PermissionHeld { held } => {
                let behind = beginning(&self.entry.message.body, perm_in(held));
                put_holding(hart, held, self.cause, behind, out)
            }
            Breach::ProbeObeyed { held, probe } => {
                put_obeying(hart, held, self.cause, probe, self.probe, out)
            }
            Breach::OneWriter { holder, held } => put_holding(
                holder,
                held,
                self.cause,
                ", and has to be probed first",
                out,
            ),
            Breach::DataAsked { held } => put_holding(
                hart,
                held,
                self.cause,
                ", and only a hart that holds Trunk has data to send",
                out,
            ),
            Breach::DataKept { brought: _ } => put_brought(self.cause, out),
        }
    }
}

// What a hart holds and behind which message, and what that asks of the entry.
fn put_holding<W: Write>(
    hart: usize,
    held: Option<Held>,
    cause: Option<Place<'_>>,
    behind: &str,
    out: &mut W,
) -> io::Result<()>
    ensures { Writes (W.contents out.old) (W.contents out.new) (holding_text hart (perm_in held) cause.entry ++ behind.now) result }
{
    let perm = perm_in(held);
    put_held(hart, perm, cause, out)?;
    put_text(behind, out)
}

fn put_text<W: Write>(text: &str, out: &mut W) -> io::Result<()>
    ensures { Writes (W.contents out.old) (W.contents out.new) text.now result }
{
    put(out, text.as_bytes())
}

// What a hart holds and behind which message, and by which change it answers a Probe.
fn put_obeying<W: Write>(
    hart: usize,
    held: Option<Held>,
    cause: Option<Place<'_>>,
    probe: Option<Probed>,
    place: Option<Place<'_>>,
    out: &mut W,
) -> io::Result<()>
    ensures { Writes (W.contents out.old) (W.contents out.new) (holding_text hart (perm_in held) cause.entry ++ answered_text (perm_in held) probe place.entry) result }
{
    let perm = perm_in(held);
    put_held(hart, perm, cause, out)?;
    put_answer(perm, probe, place, out)
}

fn put_held<W: Write>(
    hart: usize,
    perm: Perm,
    cause: Option<Place<'_>>,
    out: &mut W,
) -> io::Result<()>
    ensures { Writes (W.contents out.old) (W.contents out.new) (holding_text hart perm cause.entry) result }
{
    put_perm(hart, perm, out)?;
    put_by(cause, out)
}

fn put_perm<W: Write>(hart: usize, perm: Perm, out: &mut W) -> io::Result<()>
    ensures { Writes (W.contents out.old) (W.contents out.new) (codes "hart " ++ (decimal hart ++ (codes " holds " ++ (perm_text perm ++ codes " of this line")))) result }
{
    put_pieces(
        out,
        &[
            Text(b"hart "),
            Number(hart as u64),
            Text(b" holds "),
            Text(perm_name(perm).as_bytes()),
            Text(b" of this line"),
        ],
    )
}

// By which change a Probe is answered.
fn put_answer<W: Write>(
    perm: Perm,
    probe: Option<Probed>,
    place: Option<Place<'_>>,
    out: &mut W,
) -> io::Result<()>
    ensures { Writes (W.contents out.old) (W.contents out.new) (answered_text perm probe place.entry) result }
{
    match (probe, place) {
        (Some(probe), Some(place)) => put_answered(perm, probe, place, out),
        _ => Ok(()),
    }
}

fn put_answered<W: Write>(
    perm: Perm,
    probe: Probed,
    place: Place<'_>,
    out: &mut W,
) -> io::Result<()>
    ensures { Writes (W.contents out.old) (W.contents out.new) (answered_text perm (Some probe) (Some place.entry)) result }
{
    put_probe(probe.cap, out)?;
    place.put(out)?;
    put_change(perm, probe.cap, out)
}

fn put_probe<W: Write>(cap: Cap, out: &mut W) -> io::Result<()>
    ensures { Writes (W.contents out.old) (W.contents out.new) (codes ", so the Probe" ++ (words.cap cap ++ codes " of ")) result }
{
    put_pieces(
        out,
        &[
            Text(b", so the Probe"),
            Text(cap_name(cap).as_bytes()),
            Text(b" of "),
        ],
    )
}

fn put_change<W: Write>(perm: Perm, cap: Cap, out: &mut W) -> io::Result<()>
    ensures { Writes (W.contents out.old) (W.contents out.new) (codes " is answered by" ++ words.change (shrunk_by perm cap).1) result }
{
    let (_, change) = shrink(perm, cap);
    put_pieces(
        out,
        &[
            Text(b" is answered by"),
            Text(change_name(change).as_bytes()),
        ],
    )
}

// Behind which message a hart holds what it does.
fn put_by<W: Write>(cause: Option<Place<'_>>, out: &mut W) -> io::Result<()>
    ensures { Writes (W.contents out.old) (W.contents out.new) (by_text cause.entry) result }
{
    match cause {
        Some(place) => put_behind(place, out),
        None => Ok(()),
    }
}

fn put_behind<W: Write>(place: Place<'_>, out: &mut W) -> io::Result<()>
    ensures { Writes (W.contents out.old) (W.contents out.new) (by_text (Some place.entry)) result }
{
    put(out, b" by ")?;
    place.put(out)
}

// Which bytes a message should carry.
fn put_brought<W: Write>(cause: Option<Place<'_>>, out: &mut W) -> io::Result<()>
    ensures { Writes (W.contents out.old) (W.contents out.new) (brought_text cause.entry) result }
{
    match cause {
        Some(place) => put_bringing(place, out),
        None => put(
            out,
            b"its bytes aren't those of memory at the start, which I lines tell (zeros where none does)",
        ),
    }
}

fn put_bringing<W: Write>(place: Place<'_>, out: &mut W) -> io::Result<()>
    ensures { Writes (W.contents out.old) (W.contents out.new) (brought_text (Some place.entry)) result }
{
    put(out, b"its bytes aren't those that ")?;
    place.put(out)?;
    put(out, b" brought")
}

// What a message of a hart that holds this has to begin with.
fn beginning(body: &Body, held: Perm) -> &'static str
    ensures { result.now ≡ beginning_text body.now held }
{
    match (body, held) {
        (Body::AcquireBlock(_), Perm::Trunk) => ", and there is no more to ask for",
        (_, Perm::Trunk) => ", so it has to begin with T",
        (_, Perm::Branch) => ", so it has to begin with B",
        (_, Perm::Nothing) => ", so it has to begin with N",
    }
}

fn perm_in(held: Option<Held>) -> Perm
    ensures { result ≡ perm_in held }
{
    match held {
        Some(held) => held.perm,
        None => Perm::Nothing,
    }
}

fn perm_name(perm: Perm) -> &'static str
    ensures { result.now ≡ perm_text perm }
{
    match perm {
        Perm::Nothing => "nothing",
        Perm::Branch => "Branch",
        Perm::Trunk => "Trunk",
    }
}

// The message that left the permission that the breach speaks of, or brought the bytes.
fn cause_of(breach: Breach) -> Option<usize>
    ensures { result ≡ cause_of breach }
{
    match breach {
        Breach::PermissionHeld { held }
        | Breach::ProbeObeyed { held, probe: _ }
        | Breach::OneWriter { holder: _, held }
        | Breach::DataAsked { held } => since_of(held),
        Breach::DataKept { brought } => brought,
    }
}

// The Probe that the message answers.
fn probe_of(breach: Breach) -> Option<usize>
    ensures { result ≡ probe_of breach }
{
    match breach {
        Breach::ProbeObeyed { held: _, probe } => index_of(probe),
        _ => None,
    }
}

// Where the message of this number stands.
fn place_of(text: LogText<'_>, index: Option<usize>) -> Option<Place<'_>>
    ensures { IsPlaceOf index text.entry result }
{
    match index {
        Some(index) => Place::of(text, index),
        None => None,
    }
}

fn since_of(held: Option<Held>) -> Option<usize>
    ensures { result ≡ since_of held }
{
    match held {
        Some(held) => Some(held.since),
        None => None,
    }
}

fn index_of(probe: Option<Probed>) -> Option<usize>
    ensures { result ≡ index_of probe }
{
    match probe {
        Some(probe) => Some(probe.index),
        None => None,
    }
}
