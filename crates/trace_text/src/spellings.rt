//! How the words of messages are spelt, onto a page.
ghost use Rattle.std.specs.Prelude.{◌≡◌, ◌+◌, ◌≤◌, ◌++◌, length};
ghost use Rattle.std.specs.Option.{option_map};
ghost use Rattle.text_fields.specs.Pages.{size};
ghost use Rattle.trace_text.specs.Words as words;
ghost use Rattle.trace_text.specs.MessageParts as parts;

use text_fields::Page;
use tl_types::{Body, Cap, Change, Channel, Grow, LineData, Msg};
use trace_recorder::Direction;

/// The channel's letter, with a space behind it.
pub(crate) fn spell_channel(page: &mut Page, channel: Channel)
    requires { length page.old + 2 ≤ size }
    ensures value { page.new ≡ page.old ++ words.channel channel }
    ensures len { length page.new ≡ length page.old + 2 }
{
    match channel {
        Channel::A => page.text(b"A "),
        Channel::B => page.text(b"B "),
        Channel::C => page.text(b"C "),
        Channel::D => page.text(b"D "),
        Channel::E => page.text(b"E "),
    }
}

/// Whether a message was sent or taken, with a space behind it.
pub(crate) fn spell_direction(page: &mut Page, direction: Direction)
    requires { length page.old + 2 ≤ size }
    ensures value { page.new ≡ page.old ++ words.direction direction }
    ensures len { length page.new ≡ length page.old + 2 }
{
    match direction {
        Direction::Sent => page.text(b"s "),
        Direction::Taken => page.text(b"t "),
    }
}

/// The message's name, with a space behind it.
pub(crate) fn spell_name(page: &mut Page, message: &Msg)
    requires { length page.old + 13 ≤ size }
    ensures value { page.new ≡ page.old ++ words.name message.now.body }
    ensures len { length page.new ≤ length page.old + 13 }
{
    match message.body {
        Body::AcquireBlock(_) => page.text(b"AcquireBlock "),
        Body::ProbeBlock(_) => page.text(b"ProbeBlock "),
        Body::ProbeAck(_) => page.text(b"ProbeAck "),
        Body::ProbeAckData { .. } => page.text(b"ProbeAckData "),
        Body::Release(_) => page.text(b"Release "),
        Body::ReleaseData { .. } => page.text(b"ReleaseData "),
        Body::Grant(_) => page.text(b"Grant "),
        Body::GrantData { .. } => page.text(b"GrantData "),
        Body::ReleaseAck => page.text(b"ReleaseAck "),
        Body::GrantAck => page.text(b"GrantAck "),
    }
}

fn spell_grow(page: &mut Page, grow: Grow)
    requires { length page.old + 5 ≤ size }
    ensures value { page.new ≡ page.old ++ words.grow grow }
    ensures len { length page.new ≡ length page.old + 5 }
{
    match grow {
        Grow::NtoB => page.text(b" NtoB"),
        Grow::NtoT => page.text(b" NtoT"),
        Grow::BtoT => page.text(b" BtoT"),
    }
}

fn spell_cap(page: &mut Page, cap: Cap)
    requires { length page.old + 4 ≤ size }
    ensures value { page.new ≡ page.old ++ words.cap cap }
    ensures len { length page.new ≡ length page.old + 4 }
{
    match cap {
        Cap::ToT => page.text(b" toT"),
        Cap::ToB => page.text(b" toB"),
        Cap::ToN => page.text(b" toN"),
    }
}

fn spell_change(page: &mut Page, change: Change)
    requires { length page.old + 5 ≤ size }
    ensures value { page.new ≡ page.old ++ words.change change }
    ensures len { length page.new ≡ length page.old + 5 }
{
    match change {
        Change::TtoB => page.text(b" TtoB"),
        Change::TtoN => page.text(b" TtoN"),
        Change::BtoN => page.text(b" BtoN"),
        Change::TtoT => page.text(b" TtoT"),
        Change::BtoB => page.text(b" BtoB"),
        Change::NtoN => page.text(b" NtoN"),
    }
}

/// The permissions that a message names, if it names some, behind a space.
pub(crate) fn spell_permissions(page: &mut Page, message: &Msg)
    requires { length page.old + 5 ≤ size }
    ensures value { page.new ≡ page.old ++ parts.permissions message.now.body }
    ensures len { length page.new ≤ length page.old + 5 }
{
    match message.body {
        Body::AcquireBlock(grow) => spell_grow(page, grow),
        Body::ProbeBlock(cap) | Body::Grant(cap) | Body::GrantData { cap, .. } => {
            spell_cap(page, cap);
        }
        Body::ProbeAck(change)
        | Body::ProbeAckData { change, .. }
        | Body::Release(change)
        | Body::ReleaseData { change, .. } => spell_change(page, change),
        Body::ReleaseAck | Body::GrantAck => {}
    }
}

/// Appends a message without the bytes that it carries, as `AcquireBlock 0x80000100 NtoB`: at most 28
/// bytes.
pub fn spell_message(page: &mut Page, message: &Msg)
    requires { length page.old + 28 ≤ size }
    ensures value { page.new ≡ page.old ++ parts.heading message.now }
    ensures len { length page.new ≤ length page.old + 28 }
{
    spell_name(page, message);
    page.word(message.line);
    spell_permissions(page, message);
}

/// The line's bytes, if the message carries them.
fn data(message: &Msg) -> Option<&LineData>
    ensures { option_map (λ d. d.now) result ≡ parts.data_of message.now.body }
{
    match &message.body {
        Body::ProbeAckData { bytes, .. }
        | Body::ReleaseData { bytes, .. }
        | Body::GrantData { bytes, .. } => Some(bytes),
        _ => None,
    }
}

/// A line's bytes, behind a space.
fn spell_payload(page: &mut Page, payload: &LineData)
    requires { length page.old + 129 ≤ size }
    ensures value { page.new ≡ page.old ++ words.payload payload.now }
    ensures len { length page.new ≤ length page.old + 129 }
{
    page.text(b" ");
    match payload {
        LineData::Bytes16(bytes) => page.hex(bytes),
        LineData::Bytes64(bytes) => page.hex(bytes),
    }
}

/// The bytes that a message carries, if it carries some, behind a space.
pub(crate) fn spell_data(page: &mut Page, message: &Msg)
    requires { length page.old + 129 ≤ size }
    ensures value { page.new ≡ page.old ++ parts.payload_of (parts.data_of message.now.body) }
    ensures len { length page.new ≤ length page.old + 129 }
{
    if let Some(bytes) = data(message) {
        spell_payload(page, bytes);
    }
}
