//! Reading a log.
ghost use Rattle.std.specs.Prelude.{◌≡◌, ◌==◌, IfErr, IfOk, IfSome, map};
ghost use Rattle.std.specs.Option.{option_map};
ghost use Rattle.trace_text.specs.TraceLines.{letter_of};
ghost use Rattle.tl_types.specs.Message.{channel_of};
ghost use Rattle.wide_logs.specs.Entries.{carries_second, first_of, second_of};
ghost use Rattle.wide_logs.specs.Logs.{IsLog, IsLogRefusal, IsReadAs, Log, text};
ghost use Rattle.wide_logs.specs.Reading as reads;
ghost use Rattle.wide_logs.specs.Shapes.{IsShape};
ghost use Rattle.wide_logs.specs.Stops.{IsEntriesStop, IsRead};

use crate::entry::{WideLogged, has_data};
use crate::fault::{NO_MEMORY, fault_at};
use crate::shape::{Shape, Width};
use std::alloc::{AllocError, Global};
use text_fields::{after, number_at};
use tl_types::{Body, Channel, LineData, Msg};
use trace_recorder::Logged;
use trace_text::{TextError, channel_at, data_at, direction_at, message_at};

/// A log of messages, each of which was sent or taken, in the order of time.
#[derive(Drop)]
pub struct WideLog {
    pub shape: Shape,
    /// The messages as those of lines of 16 or 64 bytes, which are halves of lines of 32 or 128 bytes: with the bytes of
    /// the first half.
    pub first: Vec<Logged>,
    /// The same messages with the bytes of the second half; none where lines have no halves.
    pub second: Vec<Logged>,
}

#[tactic(auto, unfolding(crate::specs::Reading::width_at))]
fn width_at(bytes: &[u8]) -> Option<(Width, &[u8])>
    ensures { option_map (λ x. (x.0, x.1.now)) result ≡ reads.width_at bytes.now }
{
    let (width, rest) = number_at(bytes, b'\n', 128)?;
    let width = Width::of_bytes(width)?;
    Some((width, rest))
}

/// The first line.
#[tactic(auto, unfolding(crate::specs::Reading::shape_at))]
fn shape_at(bytes: &[u8]) -> Option<(Shape, &[u8])>
    ensures value { option_map (λ x. (x.0, x.1.now)) result ≡ reads.shape_at bytes.now }
    ensures fits { IfSome result (λ x. IsShape x.0) }
{
    let rest = after(b"rvtl-log 1 ", bytes)?;
    let (clients, rest) = number_at(rest, b' ', 64)?;
    let (width, rest) = width_at(rest)?;
    if clients == 0 {
        return None;
    }
    let clients = clients as u8;
    Some((Shape { clients, width }, rest))
}

fn carries_second(width: Width, body: &Body) -> bool
    ensures { result ≡ carries_second width body.now }
{
    width.has_halves() && has_data(body)
}

/// The bytes of the second half, where a message carries some.
#[tactic(auto, unfolding(crate::specs::Reading::second_at))]
fn second_at<'a>(
    bytes: &'a [u8],
    width: Width,
    message: &Msg,
) -> Option<(Option<LineData>, &'a [u8])>
    ensures { option_map (λ x. (x.0, x.1.now)) result ≡ reads.second_at width message.now bytes.now }
{
    if !carries_second(width, &message.body) {
        return Some((None, bytes));
    }
    let (second, rest) = data_at(bytes, width.part())?;
    Some((Some(second), rest))
}

/// A message with the bytes of both halves.
#[tactic(auto, unfolding(crate::specs::Reading::message_parts_at))]
fn message_parts_at(bytes: &[u8], width: Width) -> Option<((Msg, Option<LineData>), &[u8])>
    ensures { option_map (λ x. (x.0, x.1.now)) result ≡ reads.message_parts_at width bytes.now }
{
    let (message, rest) = message_at(bytes, width.part())?;
    let (second, rest) = second_at(rest, width, &message)?;
    Some(((message, second), rest))
}

fn is_on(channel: Channel, message: &Msg) -> bool
    ensures { result ≡ (letter_of channel == letter_of (channel_of message.now)) }
{
    channel == message.channel()
}

/// Whether a message may stand on this channel, and a line begins at its address.
fn is_entry(width: Width, channel: Channel, message: &Msg) -> bool
    ensures { result ≡ reads.is_entry width channel message.now }
{
    is_on(channel, message) && message.line % width.bytes() == 0
}

/// A message that was sent or taken, behind the line's first word.
#[tactic(auto, unfolding(crate::specs::Reading::fields_at))]
fn fields_at(bytes: &[u8], shape: Shape) -> Option<(WideLogged, &[u8])>
    requires { IsShape shape }
    ensures { option_map (λ x. (x.0, x.1.now)) result ≡ reads.fields_at shape bytes.now }
{
    let (direction, rest) = direction_at(bytes)?;
    let (channel, rest) = channel_at(rest)?;
    let (hart, rest) = number_at(rest, b' ', u32::from(shape.clients) - 1)?;
    let ((message, second), rest) = message_parts_at(rest, shape.width)?;
    let rest = after(b"\n", rest)?;
    if !is_entry(shape.width, channel, &message) {
        return None;
    }
    let hart = hart as u8;
    let first = Logged {
        direction,
        hart,
        message,
    };
    Some((WideLogged { first, second }, rest))
}

/// A message's line.
#[tactic(auto, unfolding(crate::specs::Reading::line_at))]
fn line_at(bytes: &[u8], shape: Shape) -> Option<(WideLogged, &[u8])>
    requires { IsShape shape }
    ensures { option_map (λ x. (x.0, x.1.now)) result ≡ reads.line_at shape bytes.now }
{
    let rest = after(b"M ", bytes)?;
    fields_at(rest, shape)
}

/// The messages of a log whose first line stands before these bytes.
fn entries_of(alloc: Global, bytes: &[u8], shape: Shape) -> Result<Vec<WideLogged>, TextError>
    requires { IsShape shape }
    ensures read { IfOk result (λ entries. IsRead shape bytes.now entries.items) }
    ensures stop { IfErr result (IsEntriesStop shape bytes.now) }
{
    let mut entries = Vec::new(alloc);
    let mut rest = bytes;
    while !rest.is_empty() {
        match line_at(rest, shape) {
            Some((entry, later)) => match entries.push(entry) {
                Ok(()) => rest = later,
                Err(_) => return Err(NO_MEMORY),
            },
            None => return Err(fault_at(entries.len() + 2, rest)),
        }
    }
    Ok(entries)
}

fn first_part(alloc: Global, entries: &[WideLogged]) -> Result<Vec<Logged>, AllocError>
    ensures { IfOk result (λ part. part.items ≡ map first_of entries.now) }
{
    let mut part = Vec::new(alloc);
    for entry in entries {
        part.push(entry.first)?;
    }
    Ok(part)
}

fn second_part(alloc: Global, entries: &[WideLogged]) -> Result<Vec<Logged>, AllocError>
    ensures { IfOk result (λ part. part.items ≡ map second_of entries.now) }
{
    let mut part = Vec::new(alloc);
    for entry in entries {
        part.push(entry.second_part())?;
    }
    Ok(part)
}

fn parted(alloc: Global, shape: Shape, entries: &[WideLogged]) -> Result<WideLog, AllocError>
    ensures { IfOk result (λ w. IsReadAs w (record { shape = shape; entries = entries.now })) }
{
    let first = first_part(alloc, entries)?;
    let second = if shape.width.has_halves() {
        second_part(alloc, entries)?
    } else {
        Vec::new(alloc)
    };
    Ok(WideLog {
        shape,
        first,
        second,
    })
}

/// The log whose text this is, all of it. The fault names the first line that isn't a log's; `NoMemory` is the code
/// where memory is wanting.
pub fn read_log(alloc: Global, bytes: &[u8]) -> Result<WideLog, TextError>
    // What is read is a log, spelled so.
    ensures read { IfOk result (λ w. (log : Log) × IsLog log × (bytes.now ≡ text log) × IsReadAs w log) }
    // The line that is named is the first that isn't a log's.
    ensures refused { IfErr result (IsLogRefusal bytes.now) }
{
    let Some((shape, rest)) = shape_at(bytes) else {
        return Err(fault_at(1, bytes));
    };
    let entries = entries_of(alloc, rest, shape)?;
    match parted(alloc, shape, &entries) {
        Ok(log) => Ok(log),
        Err(_) => Err(NO_MEMORY),
    }
}
