//! Which line of a trace can't be read, and why. Only a refused trace comes here.
ghost use Rattle.std.specs.Prelude.{◌≡◌, ◌↔◌, IsTrue, true, Contains};
ghost use Rattle.std.specs.Option.{option_map};
ghost use Rattle.trace_text.specs.AnyLineReading.{left, numbers_at, image_fields_at, hart_at, retired_fields_at, status_fields_at, line_left};
ghost use Rattle.trace_text.specs.AnyLines.{IsTraceLine};
ghost use Rattle.trace_text.specs.Causes.{trace_cause};
ghost use Rattle.trace_text.specs.Reading.{IsFaultOf};
ghost use Rattle.trace_text.specs.Refusals.{has_line_feed, first_word};
ghost use Rattle.trace_text.specs.TraceHeads.{IsTraceHead};
ghost use Rattle.trace_text.specs.TraceLines as reads;
ghost use Rattle.trace_text.specs.TraceRefusals.{first_line, line_words, IsTraceRefusal};
ghost use Rattle.trace_text.specs.TraceStops.{IsTraceLeft, IsTraceStop, IsHeaderLeft, IsHeaderCode, IsLineCode};

use crate::cause::TextCause;
use crate::fault::{Stop, TextCode, TextError, is_word, line_at};
use crate::head::TraceHead;
use crate::message_reading::data_at;
use crate::reading::ended;
use crate::trace_lines::{
    first_numbers_at, head_at, is_line, logged_at, operation_at, retired_at, second_numbers_at,
    status_at, word_field_at,
};
use crate::trace_writing::any_set;
use crate::version::is_first_version;
use crate::words::line_text;
use text_fields::{Excerpt, after, number_at};

/// The fault of a trace whose reader stopped there.
pub(crate) fn trace_fault(bytes: &[u8], stop: Stop) -> TextError
    requires { IsTraceStop bytes.now stop }
    ensures memory { IsFaultOf stop result }
    ensures refused { ¬ (result.code ≡ TextCode.NoMemory) → IsTraceRefusal bytes.now result }
{
    match stop {
        Stop::Memory { left } => {
            let (line, _) = line_at(bytes, left);
            TextError {
                line,
                code: TextCode::NoMemory,
                cause: TextCause::Unsaid,
            }
        }
        Stop::Bytes { left } => fault_at(bytes, left),
    }
}

/// The fault of the line that begins where so many bytes are left, or of the header's line that is none.
fn fault_at(bytes: &[u8], left: usize) -> TextError
    requires { IsTraceLeft bytes.now left }
    ensures { IsTraceRefusal bytes.now result }
{
    match head_at(bytes) {
        None => {
            let (line, rest) = line_at(bytes, header_left(bytes));
            TextError {
                line,
                code: header_code(rest),
                cause: trace_cause(rest),
            }
        }
        Some((head, _)) => {
            let (line, rest) = line_at(bytes, left);
            TextError {
                line,
                code: code_at(rest, &head),
                cause: trace_cause(rest),
            }
        }
    }
}

/// The line that begins here.
fn trace_cause(rest: &[u8]) -> TextCause
    ensures { result ≡ trace_cause rest.now }
{
    let line = Excerpt::of(line_text(rest));
    TextCause::Trace { line }
}

/// What is wrong with the line that begins here, behind a header.
fn code_at(rest: &[u8], head: &TraceHead) -> TextCode
    requires { IsTraceHead head.now }
    ensures { IsLineCode head.now result rest.now }
{
    if !rest.contains(&b'\n') {
        TextCode::End
    } else if !is_known(rest) {
        TextCode::Word
    } else if is_good(rest, head) {
        TextCode::Order
    } else {
        TextCode::Fields
    }
}

/// How many bytes are left from the header's line that is none: the second, where the first is good.
fn header_left(bytes: &[u8]) -> usize
    ensures { IsHeaderLeft bytes.now result }
{
    if let Some(rest) = after(b"rvtl-trace 1\n", bytes) {
        return rest.len();
    }
    if let Some(rest) = after(b"rvtl-trace 2\n", bytes) {
        return rest.len();
    }
    bytes.len()
}

fn header_code(rest: &[u8]) -> TextCode
    ensures { IsHeaderCode result rest.now }
{
    if rest.contains(&b'\n') {
        TextCode::Header
    } else {
        TextCode::End
    }
}

/// Whether the first word of a line is that of a trace's line.
fn is_known(line: &[u8]) -> bool
    requires { has_line_feed line.now ≡ true }
    ensures { IsTrue result ↔ Contains line_words (first_word line.now) }
{
    is_word(line, b"rvtl-trace")
        || is_word(line, b"T")
        || is_word(line, b"I")
        || is_word(line, b"R")
        || is_word(line, b"P")
        || is_word(line, b"M")
        || is_word(line, b"H")
}

/// Whether a line that is well formed under this header stands here.
fn is_good(line: &[u8], head: &TraceHead) -> bool
    requires { IsTraceHead head.now }
    ensures { IsTrue result ↔ IsTraceLine head.now (first_line line.now) }
{
    after_line(line, head).is_some()
}

/// What stands behind such a line.
#[tactic(auto, unfolding(crate::specs::AnyLineReading::line_left))]
fn after_line<'a>(line: &'a [u8], head: &TraceHead) -> Option<&'a [u8]>
    requires { IsTraceHead head.now }
    ensures { option_map (λ r. r.now) result ≡ line_left head.now line.now }
{
    if let Some(rest) = after(b"T ", line) {
        return after_head(rest, head);
    }
    if let Some(rest) = after(b"I ", line) {
        return after_image(rest, head);
    }
    if let Some(rest) = after(b"R ", line) {
        return after_retired(rest, head);
    }
    if let Some(rest) = after(b"P ", line) {
        return after_operation(rest, head);
    }
    if let Some(rest) = after(b"M ", line) {
        return after_logged(rest, head);
    }
    if let Some(rest) = after(b"H ", line) {
        return after_status(rest, head);
    }
    if let Some(rest) = after(b"rvtl-trace 1\n", line) {
        return Some(rest);
    }
    after(b"rvtl-trace 2\n", line)
}

#[tactic(auto, unfolding(crate::specs::AnyLineReading::numbers_at))]
fn after_head<'a>(fields: &'a [u8], head: &TraceHead) -> Option<&'a [u8]>
    requires { IsTraceHead head.now }
    ensures { option_map (λ r. r.now) result ≡ left (numbers_at head.now fields.now) }
{
    if is_first_version(head.harts as u64, head.line) {
        let (_, rest) = first_numbers_at(fields)?;
        Some(rest)
    } else {
        let (_, rest) = second_numbers_at(fields)?;
        Some(rest)
    }
}

#[tactic(auto, unfolding(crate::specs::AnyLineReading::image_fields_at))]
fn after_image<'a>(fields: &'a [u8], head: &TraceHead) -> Option<&'a [u8]>
    requires { IsTraceHead head.now }
    ensures { option_map (λ r. r.now) result ≡ left (image_fields_at head.now fields.now) }
{
    let (address, rest) = word_field_at(fields)?;
    let (data, rest) = ended(data_at(rest, head.line), b'\n')?;
    if any_set(data.as_slice()) && is_line(address, head.kib, head.line) {
        Some(rest)
    } else {
        None
    }
}

/// What stands behind the number of a hart.
#[tactic(auto, unfolding(crate::specs::AnyLineReading::hart_at))]
fn after_hart<'a>(fields: &'a [u8], head: &TraceHead) -> Option<&'a [u8]>
    requires { IsTraceHead head.now }
    ensures { option_map (λ r. r.now) result ≡ left (hart_at head.now fields.now) }
{
    let (hart, rest) = number_at(fields, b' ', 255)?;
    if (hart as usize) < head.harts {
        Some(rest)
    } else {
        None
    }
}

#[tactic(auto, unfolding(crate::specs::AnyLineReading::retired_fields_at))]
fn after_retired<'a>(fields: &'a [u8], head: &TraceHead) -> Option<&'a [u8]>
    requires { IsTraceHead head.now }
    ensures { option_map (λ r. r.now) result ≡ left (retired_fields_at head.now fields.now) }
{
    let rest = after_hart(fields, head)?;
    let (_, rest) = retired_at(rest)?;
    Some(rest)
}

#[tactic(auto, using(crate::proofs::TraceHeads::harts_small, crate::proofs::TraceHeads::some_hart))]
fn after_operation<'a>(fields: &'a [u8], head: &TraceHead) -> Option<&'a [u8]>
    requires { IsTraceHead head.now }
    ensures { option_map (λ r. r.now) result ≡ left (reads.operation_at head.now.harts fields.now) }
{
    let (_, rest) = operation_at(fields, head.harts as u8)?;
    Some(rest)
}

#[tactic(auto, using(crate::proofs::TraceHeads::harts_small, crate::proofs::TraceHeads::some_hart))]
fn after_logged<'a>(fields: &'a [u8], head: &TraceHead) -> Option<&'a [u8]>
    requires { IsTraceHead head.now }
    ensures { option_map (λ r. r.now) result ≡ left (reads.logged_at head.now.harts head.now.kib head.now.line fields.now) }
{
    let (_, rest) = logged_at(fields, head.harts as u8, head.kib, head.line)?;
    Some(rest)
}

#[tactic(auto, unfolding(crate::specs::AnyLineReading::status_fields_at))]
fn after_status<'a>(fields: &'a [u8], head: &TraceHead) -> Option<&'a [u8]>
    requires { IsTraceHead head.now }
    ensures { option_map (λ r. r.now) result ≡ left (status_fields_at head.now fields.now) }
{
    let rest = after_hart(fields, head)?;
    let (_, rest) = status_at(rest)?;
    Some(rest)
}
