//! Reading the lines of a trace.
ghost use Rattle.std.specs.Prelude.{◌≡◌, ◌<◌, length, IfSome};
ghost use Rattle.std.specs.Option.{option_map};
ghost use Rattle.tl_types.specs.Line.{length_of};
ghost use Rattle.trace_text.specs.TraceHeads.{IsTraceHead};
ghost use Rattle.trace_text.specs.TraceLines as reads;
ghost use Rattle.trace_text.specs.TraceReading as words_at;

use crate::head::TraceHead;
use crate::message_reading::{direction_at, message_at};
use crate::reading::{ended, word_of};
use crate::script_reading::{MOST, size_at, word_line_at};
use crate::trace_writing::any_set;
use crate::version::is_first_version;
use elf_loader::{BASE, is_memory_kib};
use hart::{Retired, Status};
use machine_types::{MAX_ENTRIES, MAX_HARTS};
use text_fields::{after, hex_into, number_at, word_at, word_text};
use tl_types::{Channel, LineSize};
use trace_recorder::{Logged, OpId};

/// Whether a machine can have such a header.
fn is_trace_head(head: &TraceHead) -> bool
    ensures { result ≡ reads.is_trace_head head.now }
{
    let harts = (1..=MAX_HARTS as usize).contains(&head.harts);
    let end = BASE as u64 + head.kib as u64 * 1024;
    let entry = head.entry % 4 == 0 && BASE <= head.entry && head.entry as u64 + 4 <= end;
    harts && is_memory_kib(head.kib) && entry
}

#[tactic(auto, unfolding(crate::specs::TraceLines::first_fields_at))]
fn first_fields_at(bytes: &[u8]) -> Option<(TraceHead, &[u8])>
    ensures { option_map (λ x. (x.0, x.1.now)) result ≡ reads.first_fields_at bytes.now }
{
    let (harts, rest) = number_at(bytes, b' ', MOST)?;
    let (kib, rest) = number_at(rest, b' ', MOST)?;
    let (entry, rest) = word_line_at(rest)?;
    let head = TraceHead {
        harts: harts as usize,
        kib,
        entry,
        line: LineSize::Bytes16,
    };
    Some((head, rest))
}

/// The second line of version 1 behind its first word.
#[tactic(auto, using(crate::proofs::TraceHeads::trace_head_bounds), unfolding(crate::specs::TraceLines::first_numbers_at))]
pub(crate) fn first_numbers_at(bytes: &[u8]) -> Option<(TraceHead, &[u8])>
    ensures value { option_map (λ x. (x.0, x.1.now)) result ≡ reads.first_numbers_at bytes.now }
    ensures fits { IfSome result (λ x. IsTraceHead x.0) }
{
    let (head, rest) = first_fields_at(bytes)?;
    if is_trace_head(&head) && is_first_version(head.harts as u64, LineSize::Bytes16) {
        Some((head, rest))
    } else {
        None
    }
}

/// A word, and the space behind it.
#[inline(always)]
#[tactic(auto, unfolding(crate::specs::TraceLines::word_field_at))]
pub(crate) fn word_field_at(bytes: &[u8]) -> Option<(u32, &[u8])>
    ensures { option_map (λ x. (x.0, x.1.now)) result ≡ reads.word_field_at bytes.now }
{
    ended(word_at(bytes), b' ')
}

#[tactic(auto, unfolding(crate::specs::TraceLines::second_fields_at))]
fn second_fields_at(bytes: &[u8]) -> Option<(TraceHead, &[u8])>
    ensures { option_map (λ x. (x.0, x.1.now)) result ≡ reads.second_fields_at bytes.now }
{
    let (harts, rest) = number_at(bytes, b' ', MOST)?;
    let (kib, rest) = number_at(rest, b' ', MOST)?;
    let (entry, rest) = word_field_at(rest)?;
    let (line, rest) = size_at(rest)?;
    let head = TraceHead {
        harts: harts as usize,
        kib,
        entry,
        line,
    };
    Some((head, rest))
}

/// The second line of version 2 behind its first word.
#[tactic(auto, using(crate::proofs::TraceHeads::trace_head_bounds), unfolding(crate::specs::TraceLines::second_numbers_at))]
pub(crate) fn second_numbers_at(bytes: &[u8]) -> Option<(TraceHead, &[u8])>
    ensures value { option_map (λ x. (x.0, x.1.now)) result ≡ reads.second_numbers_at bytes.now }
    ensures fits { IfSome result (λ x. IsTraceHead x.0) }
{
    let (head, rest) = second_fields_at(bytes)?;
    if is_trace_head(&head) && !is_first_version(head.harts as u64, head.line) {
        Some((head, rest))
    } else {
        None
    }
}

/// The first two lines.
#[tactic(auto, using(crate::proofs::TraceHeads::trace_head_bounds), unfolding(crate::specs::TraceLines::head_at))]
pub(crate) fn head_at(bytes: &[u8]) -> Option<(TraceHead, &[u8])>
    ensures value { option_map (λ x. (x.0, x.1.now)) result ≡ reads.head_at bytes.now }
    ensures fits { IfSome result (λ x. IsTraceHead x.0) }
{
    if let Some(rest) = after(b"rvtl-trace 1\nT ", bytes) {
        return first_numbers_at(rest);
    }
    let rest = after(b"rvtl-trace 2\nT ", bytes)?;
    second_numbers_at(rest)
}

/// What the line of the image at an address begins with.
fn image_lead(address: u32) -> [u8; 13]
    ensures { result ≡ reads.image_lead address }
{
    let [zero, x, a, b, c, d, e, f, g, h] = word_text(address);
    [b'I', b' ', zero, x, a, b, c, d, e, f, g, h, b' ']
}

/// The bytes of a line of the image, which are not all zero.
#[tactic(auto, unfolding(crate::specs::TraceLines::image_data_at))]
fn image_data_into<'a>(line: &mut [u8], bytes: &'a [u8]) -> Option<&'a [u8]>
    ensures { option_map (λ x. (line.new, x.now)) result ≡ reads.image_data_at (length line.old) bytes.now }
{
    let rest = hex_into(line, bytes)?;
    let rest = after(b"\n", rest)?;
    if any_set(line) { Some(rest) } else { None }
}

/// The image's bytes at this address: those of the line that stands here if it is that address's, else
/// `line` stays as it is.
#[tactic(auto, unfolding(crate::specs::TraceLines::image_line_at))]
pub(crate) fn image_line_into<'a>(
    line: &mut [u8],
    bytes: &'a [u8],
    address: u32,
) -> Option<&'a [u8]>
    ensures { option_map (λ x. (line.new, x.now)) result ≡ reads.image_line_at line.old address bytes.now }
{
    // Most lines of memory are zero, so most times no line of the image stands here.
    let [b'I', ..] = bytes else {
        return Some(bytes);
    };
    let lead = image_lead(address);
    match after(&lead, bytes) {
        Some(rest) => image_data_into(line, rest),
        None => Some(bytes),
    }
}

#[inline(always)]
#[tactic(auto, unfolding(crate::specs::TraceReading::loaded_at))]
fn loaded_at(bytes: &[u8]) -> Option<(Option<u32>, &[u8])>
    ensures { option_map (λ x. (x.0, x.1.now)) result ≡ words_at.loaded_at bytes.now }
{
    if let Some(rest) = after(b"-", bytes) {
        return Some((None, rest));
    }
    let (word, rest) = word_at(bytes)?;
    Some((Some(word), rest))
}

const ANSWERS: [(&[u8], Option<bool>); 3] = [
    (b"-", None),
    (b"ok", Some(true)),
    (b"fail", Some(false)),
];

#[inline(always)]
#[tactic(auto, unfolding(crate::specs::TraceReading::answer_at))]
fn answer_at(bytes: &[u8]) -> Option<(Option<bool>, &[u8])>
    ensures { option_map (λ x. (x.0, x.1.now)) result ≡ words_at.answer_at bytes.now }
{
    word_of(&ANSWERS, bytes)
}

#[inline(always)]
#[tactic(auto, unfolding(crate::specs::TraceLines::loaded_field_at))]
fn loaded_field_at(bytes: &[u8]) -> Option<(Option<u32>, &[u8])>
    ensures { option_map (λ x. (x.0, x.1.now)) result ≡ reads.loaded_field_at bytes.now }
{
    ended(loaded_at(bytes), b' ')
}

#[inline(always)]
#[tactic(auto, unfolding(crate::specs::TraceLines::answer_line_at))]
fn answer_line_at(bytes: &[u8]) -> Option<(Option<bool>, &[u8])>
    ensures { option_map (λ x. (x.0, x.1.now)) result ≡ reads.answer_line_at bytes.now }
{
    ended(answer_at(bytes), b'\n')
}

/// A retired instruction, behind its hart.
#[inline(always)]
#[tactic(auto, unfolding(crate::specs::TraceLines::retired_at))]
pub(crate) fn retired_at(bytes: &[u8]) -> Option<(Retired, &[u8])>
    ensures { option_map (λ x. (x.0, x.1.now)) result ≡ reads.retired_at bytes.now }
{
    let (pc, rest) = word_field_at(bytes)?;
    let (word, rest) = word_field_at(rest)?;
    let (loaded, rest) = loaded_field_at(rest)?;
    let (sc_ok, rest) = answer_line_at(rest)?;
    let entry = Retired {
        pc,
        word,
        loaded,
        sc_ok,
    };
    Some((entry, rest))
}

/// A performed operation of one of these harts, behind the line's first word.
#[inline(always)]
#[tactic(auto, unfolding(crate::specs::TraceLines::operation_at))]
pub(crate) fn operation_at(bytes: &[u8], harts: u8) -> Option<(OpId, &[u8])>
    requires { 0 < harts }
    ensures { option_map (λ x. (x.0, x.1.now)) result ≡ reads.operation_at harts bytes.now }
{
    let (hart, rest) = number_at(bytes, b' ', harts as u32 - 1)?;
    let (place, rest) = number_at(rest, b'\n', MAX_ENTRIES as u32 - 1)?;
    let hart = hart as u8;
    Some((OpId { hart, place }, rest))
}

/// Whether a line of memory begins at this address.
pub(crate) fn is_line(line: u32, kib: u32, size: LineSize) -> bool
    ensures { result ≡ reads.is_line kib (length_of size) line }
{
    let width = size.bytes();
    line % width == 0 && BASE <= line && (line as u64) < BASE as u64 + kib as u64 * 1024
}

fn letter_of(channel: Channel) -> u8
    ensures { result ≡ reads.letter_of channel }
{
    match channel {
        Channel::A => b'A',
        Channel::B => b'B',
        Channel::C => b'C',
        Channel::D => b'D',
        Channel::E => b'E',
    }
}

/// One byte and a space.
#[tactic(auto, unfolding(crate::specs::TraceLines::letter_at))]
fn letter_at(bytes: &[u8]) -> Option<(u8, &[u8])>
    ensures { option_map (λ x. (x.0, x.1.now)) result ≡ reads.letter_at bytes.now }
{
    let [letter, rest @ ..] = bytes else {
        return None;
    };
    let rest = after(b" ", rest)?;
    Some((*letter, rest))
}

/// A message that was sent or taken, behind the line's first word. It stands on its own channel.
#[inline(always)]
#[tactic(auto, unfolding(crate::specs::TraceLines::logged_at))]
pub(crate) fn logged_at(
    bytes: &[u8],
    harts: u8,
    kib: u32,
    size: LineSize,
) -> Option<(Logged, &[u8])>
    requires { 0 < harts }
    ensures { option_map (λ x. (x.0, x.1.now)) result ≡ reads.logged_at harts kib size bytes.now }
{
    let (direction, rest) = direction_at(bytes)?;
    let (letter, rest) = letter_at(rest)?;
    let (hart, rest) = number_at(rest, b' ', harts as u32 - 1)?;
    let (message, rest) = ended(message_at(rest, size), b'\n')?;
    let hart = hart as u8;
    if letter == letter_of(message.channel()) && is_line(message.line, kib, size) {
        let entry = Logged {
            direction,
            hart,
            message,
        };
        Some((entry, rest))
    } else {
        None
    }
}

#[tactic(auto, unfolding(crate::specs::TraceLines::stop_at))]
fn stop_at(bytes: &[u8]) -> Option<(Status, &[u8])>
    ensures { option_map (λ x. (x.0, x.1.now)) result ≡ reads.stop_at bytes.now }
{
    let rest = after(b"stop ", bytes)?;
    let (code, rest) = number_at(rest, b'\n', 8)?;
    Some((Status::Stopped(code as u8), rest))
}

#[tactic(auto, unfolding(crate::specs::TraceLines::exit_at))]
fn exit_at(bytes: &[u8]) -> Option<(Status, &[u8])>
    ensures { option_map (λ x. (x.0, x.1.now)) result ≡ reads.exit_at bytes.now }
{
    let rest = after(b"exit ", bytes)?;
    let (code, rest) = number_at(rest, b'\n', 255)?;
    Some((Status::Exited(code as u8), rest))
}

/// A hart's status, behind its hart.
#[tactic(auto, unfolding(crate::specs::TraceLines::status_at))]
pub(crate) fn status_at(bytes: &[u8]) -> Option<(Status, &[u8])>
    ensures { option_map (λ x. (x.0, x.1.now)) result ≡ reads.status_at bytes.now }
{
    if let Some(rest) = after(b"run\n", bytes) {
        return Some((Status::Running, rest));
    }
    if let Some(found) = stop_at(bytes) {
        return Some(found);
    }
    exit_at(bytes)
}
