//! Messages as a trace spells them, without the bytes that they carry.
ghost use Rattle.std.specs.Prelude.{◌≡◌, ◌++◌, codes, decimal};
ghost use Rattle.log_text.specs.Meant.{is_word};
ghost use Rattle.log_text.specs.Words.{routed_text, way_text};
ghost use Rattle.text_fields.specs.Writing.{Writes};
ghost use Rattle.trace_text.specs.MessageParts.{heading};
ghost use Rattle.trace_text.specs.Words as words;

use std::io::{self, Write};
use text_fields::Piece::{Number, Text};
use text_fields::{Page, put, put_pieces};
use tl_types::{Cap, Change, Channel, Msg};
use trace_recorder::Logged;
use trace_text::spell_message;

/// Writes a message, and of which hart's cache it comes or goes to, as `GrantData 0x80000100 toT to hart 1`.
pub(crate) fn put_routed<W: Write>(entry: &Logged, out: &mut W) -> io::Result<()>
    ensures { Writes (W.contents out.old) (W.contents out.new) (routed_text entry.now) result }
{
    put_heading(&entry.message, out)?;
    put_hart(entry.message.channel(), entry.hart, out)
}

/// The same, and a colon behind it.
pub(crate) fn put_lead<W: Write>(entry: &Logged, out: &mut W) -> io::Result<()>
    ensures { Writes (W.contents out.old) (W.contents out.new) (routed_text entry.now ++ codes ": ") result }
{
    put_routed(entry, out)?;
    put(out, b": ")
}

/// Writes a message, as `GrantData 0x80000100 toT`.
pub(crate) fn put_heading<W: Write>(message: &Msg, out: &mut W) -> io::Result<()>
    ensures { Writes (W.contents out.old) (W.contents out.new) (heading message.now) result }
{
    let page = spelt(message);
    put(out, page.as_slice())
}

/// Writes of which hart's cache a message on this channel comes or goes to.
fn put_hart<W: Write>(channel: Channel, hart: u8, out: &mut W) -> io::Result<()>
    ensures { Writes (W.contents out.old) (W.contents out.new) (way_text channel ++ decimal hart) result }
{
    put_pieces(
        out,
        &[Text(way(channel).as_bytes()), Number(u64::from(hart))],
    )
}

fn spelt(message: &Msg) -> Page
    ensures { result ≡ heading message.now }
{
    let mut page = Page::new();
    spell_message(&mut page, message);
    page
}

/// Whether two messages are the same but for the bytes that they carry.
pub(crate) fn is_spelt_alike(first: &Msg, second: &Msg) -> bool
    ensures { result ≡ is_word (heading first.now) (heading second.now) }
{
    spelt(first).as_slice() == spelt(second).as_slice()
}

fn way(channel: Channel) -> &'static str
    ensures { result.now ≡ way_text channel }
{
    match channel {
        Channel::A | Channel::C | Channel::E => " from hart ",
        Channel::B | Channel::D => " to hart ",
    }
}

pub(crate) fn cap_name(cap: Cap) -> &'static str
    ensures { result.now ≡ words.cap cap }
{
    match cap {
        Cap::ToT => " toT",
        Cap::ToB => " toB",
        Cap::ToN => " toN",
    }
}

pub(crate) fn change_name(change: Change) -> &'static str
    ensures { result.now ≡ words.change change }
{
    match change {
        Change::TtoB => " TtoB",
        Change::TtoN => " TtoN",
        Change::BtoN => " BtoN",
        Change::TtoT => " TtoT",
        Change::BtoB => " BtoB",
        Change::NtoN => " NtoN",
    }
}
