//! Reading the words of messages.
ghost use Rattle.std.specs.Prelude.{◌≡◌};
ghost use Rattle.std.specs.Option.{option_map};
ghost use Rattle.text_fields.specs.Reading.{table_at};
ghost use Rattle.trace_text.specs.TraceReading as reads;

use crate::reading::{ended, word_of};
use text_fields::{after, hex_into, word_at};
use tl_types::{Body, Cap, Change, Grow, LineData, LineSize, Msg};
use trace_recorder::Direction;

/// The name of a message.
#[derive(Clone, Copy)]
pub(crate) enum Name {
    AcquireBlock,
    ProbeBlock,
    ProbeAck,
    ProbeAckData,
    Release,
    ReleaseData,
    Grant,
    GrantData,
    ReleaseAck,
    GrantAck,
}

const DIRECTIONS: [(&[u8], Direction); 2] = [(b"s ", Direction::Sent), (b"t ", Direction::Taken)];

const GROWS: [(&[u8], Grow); 3] = [
    (b" NtoB", Grow::NtoB),
    (b" NtoT", Grow::NtoT),
    (b" BtoT", Grow::BtoT),
];

const CAPS: [(&[u8], Cap); 3] = [
    (b" toT", Cap::ToT),
    (b" toB", Cap::ToB),
    (b" toN", Cap::ToN),
];

const CHANGES: [(&[u8], Change); 6] = [
    (b" TtoB", Change::TtoB),
    (b" TtoN", Change::TtoN),
    (b" BtoN", Change::BtoN),
    (b" TtoT", Change::TtoT),
    (b" BtoB", Change::BtoB),
    (b" NtoN", Change::NtoN),
];

const PROBE_ENDINGS: [(&[u8], Name); 3] = [
    (b"Block ", Name::ProbeBlock),
    (b"Ack ", Name::ProbeAck),
    (b"AckData ", Name::ProbeAckData),
];

const RELEASE_ENDINGS: [(&[u8], Name); 3] = [
    (b" ", Name::Release),
    (b"Data ", Name::ReleaseData),
    (b"Ack ", Name::ReleaseAck),
];

const GRANT_ENDINGS: [(&[u8], Name); 3] = [
    (b" ", Name::Grant),
    (b"Data ", Name::GrantData),
    (b"Ack ", Name::GrantAck),
];

/// Whether a message was sent or taken (`s ` or `t `), and what stands behind that.
#[tactic(auto, unfolding(crate::specs::TraceReading::direction_at))]
pub fn direction_at(bytes: &[u8]) -> Option<(Direction, &[u8])>
    ensures { option_map (λ x. (x.0, x.1.now)) result ≡ reads.direction_at bytes.now }
{
    word_of(&DIRECTIONS, bytes)
}

/// Which permissions an Acquire asks for.
#[tactic(auto, unfolding(crate::specs::TraceReading::grow_at))]
fn grow_at(bytes: &[u8]) -> Option<(Grow, &[u8])>
    ensures { option_map (λ x. (x.0, x.1.now)) result ≡ reads.grow_at bytes.now }
{
    word_of(&GROWS, bytes)
}

/// The most that a copy may have.
#[tactic(auto, unfolding(crate::specs::TraceReading::cap_at))]
fn cap_at(bytes: &[u8]) -> Option<(Cap, &[u8])>
    ensures { option_map (λ x. (x.0, x.1.now)) result ≡ reads.cap_at bytes.now }
{
    word_of(&CAPS, bytes)
}

/// What a copy gave up.
#[inline(always)]
#[tactic(auto, unfolding(crate::specs::TraceReading::change_at))]
fn change_at(bytes: &[u8]) -> Option<(Change, &[u8])>
    ensures { option_map (λ x. (x.0, x.1.now)) result ≡ reads.change_at bytes.now }
{
    word_of(&CHANGES, bytes)
}

/// What follows Probe in a message's name.
fn probe_name_at(bytes: &[u8]) -> Option<(Name, &[u8])>
    ensures { option_map (λ x. (x.0, x.1.now)) result ≡ table_at reads.probe_endings bytes.now }
{
    word_of(&PROBE_ENDINGS, bytes)
}

/// What follows Release in a message's name.
fn release_name_at(bytes: &[u8]) -> Option<(Name, &[u8])>
    ensures { option_map (λ x. (x.0, x.1.now)) result ≡ table_at reads.release_endings bytes.now }
{
    word_of(&RELEASE_ENDINGS, bytes)
}

/// What follows Grant in a message's name.
fn grant_name_at(bytes: &[u8]) -> Option<(Name, &[u8])>
    ensures { option_map (λ x. (x.0, x.1.now)) result ≡ table_at reads.grant_endings bytes.now }
{
    word_of(&GRANT_ENDINGS, bytes)
}

/// A message's name.
#[inline(always)]
#[tactic(auto, using(crate::proofs::NameLaws::probe_led, crate::proofs::NameLaws::release_led, crate::proofs::NameLaws::grant_led, crate::proofs::NameLaws::not_led), unfolding(crate::specs::TraceReading::name_at))]
pub(crate) fn name_at(bytes: &[u8]) -> Option<(Name, &[u8])>
    ensures { option_map (λ x. (x.0, x.1.now)) result ≡ reads.name_at bytes.now }
{
    if let Some(rest) = after(b"Probe", bytes) {
        return probe_name_at(rest);
    }
    if let Some(rest) = after(b"Release", bytes) {
        return release_name_at(rest);
    }
    if let Some(rest) = after(b"Grant", bytes) {
        return grant_name_at(rest);
    }
    let rest = after(b"AcquireBlock ", bytes)?;
    Some((Name::AcquireBlock, rest))
}

/// A line's bytes, two digits each, and what stands behind them.
#[inline(always)]
#[tactic(auto, unfolding(crate::specs::TraceReading::data_at))]
pub fn data_at(bytes: &[u8], size: LineSize) -> Option<(LineData, &[u8])>
    ensures { option_map (λ x. (x.0, x.1.now)) result ≡ reads.data_at size bytes.now }
{
    match size {
        LineSize::Bytes16 => {
            let mut data = [0; 16];
            let rest = hex_into(&mut data, bytes)?;
            Some((LineData::Bytes16(data), rest))
        }
        LineSize::Bytes64 => {
            let mut data = [0; 64];
            let rest = hex_into(&mut data, bytes)?;
            Some((LineData::Bytes64(data), rest))
        }
    }
}

#[tactic(auto, unfolding(crate::specs::TraceReading::change_data_at))]
fn change_data_at(bytes: &[u8], size: LineSize) -> Option<((Change, LineData), &[u8])>
    ensures { option_map (λ x. (x.0, x.1.now)) result ≡ reads.change_data_at size bytes.now }
{
    let (change, rest) = ended(change_at(bytes), b' ')?;
    let (data, rest) = data_at(rest, size)?;
    Some(((change, data), rest))
}

#[tactic(auto, unfolding(crate::specs::TraceReading::cap_data_at))]
fn cap_data_at(bytes: &[u8], size: LineSize) -> Option<((Cap, LineData), &[u8])>
    ensures { option_map (λ x. (x.0, x.1.now)) result ≡ reads.cap_data_at size bytes.now }
{
    let (cap, rest) = ended(cap_at(bytes), b' ')?;
    let (data, rest) = data_at(rest, size)?;
    Some(((cap, data), rest))
}

/// What a message of this name says of its line.
#[inline(always)]
#[tactic(auto, unfolding(crate::specs::TraceReading::carried_at))]
fn carried_at(bytes: &[u8], size: LineSize, name: Name) -> Option<(Body, &[u8])>
    ensures { option_map (λ x. (x.0, x.1.now)) result ≡ reads.carried_at size name bytes.now }
{
    match name {
        Name::AcquireBlock => {
            let (grow, rest) = grow_at(bytes)?;
            Some((Body::AcquireBlock(grow), rest))
        }
        Name::ProbeBlock => {
            let (cap, rest) = cap_at(bytes)?;
            Some((Body::ProbeBlock(cap), rest))
        }
        Name::ProbeAck => {
            let (change, rest) = change_at(bytes)?;
            Some((Body::ProbeAck(change), rest))
        }
        Name::ProbeAckData => {
            let ((change, bytes), rest) = change_data_at(bytes, size)?;
            Some((Body::ProbeAckData { change, bytes }, rest))
        }
        Name::Release => {
            let (change, rest) = change_at(bytes)?;
            Some((Body::Release(change), rest))
        }
        Name::ReleaseData => {
            let ((change, bytes), rest) = change_data_at(bytes, size)?;
            Some((Body::ReleaseData { change, bytes }, rest))
        }
        Name::Grant => {
            let (cap, rest) = cap_at(bytes)?;
            Some((Body::Grant(cap), rest))
        }
        Name::GrantData => {
            let ((cap, bytes), rest) = cap_data_at(bytes, size)?;
            Some((Body::GrantData { cap, bytes }, rest))
        }
        Name::ReleaseAck => Some((Body::ReleaseAck, bytes)),
        Name::GrantAck => Some((Body::GrantAck, bytes)),
    }
}

/// A message: its name, its line, and what it says of it, with bytes of a line of this size where it carries some; and
/// what stands behind it.
#[inline(always)]
#[tactic(auto, unfolding(crate::specs::TraceReading::message_at))]
pub fn message_at(bytes: &[u8], size: LineSize) -> Option<(Msg, &[u8])>
    ensures { option_map (λ x. (x.0, x.1.now)) result ≡ reads.message_at size bytes.now }
{
    let (name, rest) = name_at(bytes)?;
    let (line, rest) = word_at(rest)?;
    let (body, rest) = carried_at(rest, size, name)?;
    Some((Msg { line, body }, rest))
}
