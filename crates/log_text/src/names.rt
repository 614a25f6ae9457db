//! Names that stand behind the messages of a log's text.
ghost use Rattle.std.specs.Prelude.{◌≡◌, ◌==◌, ◌+◌, ◌^◌, ◌∷◌, ◌≤◌, ◌<◌, IfOk, IfSome, ℕ, length, option_map, position, true};
ghost use Rattle.std.specs.List.{list_all};
ghost use Rattle.log_text.specs.Names as names;
ghost use Rattle.log_text.specs.Places.{message_line};

use std::alloc::{AllocError, Global};
use text_fields::after;

/// How many bytes a name has at most.
const MOST: usize = 72;

/// The text of a log, each message without the name that stands behind it. The only error is want of memory.
pub fn without_names(alloc: Global, text: &[u8]) -> Result<Vec<u8>, AllocError>
    ensures value { IfOk result (λ kept. kept.items ≡ names.without_names text.now) }
    // Each message stands on the same line.
    ensures lines { IfOk result (λ kept. (index : ℕ) → message_line true 0 index kept.items ≡ message_line true 0 index text.now) }
{
    let mut kept = Vec::new(alloc);
    let mut rest = text;
    loop {
        let (line, behind) = first_line(rest);
        kept.extend_from_slice(without_name(line))?;
        match behind {
            Some(tail) => {
                kept.push(b'\n')?;
                rest = tail;
            }
            None => return Ok(kept),
        }
    }
}

/// The name of the message of this index, counted from 0, in a log's text. None where it has no name, or there is no
/// such message.
pub fn name_of_message(text: &[u8], index: usize) -> Option<&[u8]>
    ensures { option_map (λ name. name.now) result ≡ names.name_at index text.now }
{
    let mut rest = Some(text);
    let mut messages_before = index;
    while let Some(text) = rest {
        let (line, behind) = first_line(text);
        if is_message_line(line) {
            if messages_before == 0 {
                return name_of(line);
            }
            messages_before -= 1;
        }
        rest = behind;
    }
    None
}

/// The first line, counted from 1, of a message behind whose ` ; ` no name stands.
pub fn misnamed_line(text: &[u8]) -> Option<usize>
    ensures { result ≡ names.misnamed_in text.now }
{
    let mut rest = Some(text);
    let mut lines_before = 0;
    while let Some(text) = rest {
        let (line, behind) = first_line(text);
        if is_misnamed(line) {
            return Some(lines_before + 1);
        }
        lines_before += 1;
        rest = behind;
    }
    None
}

// The first line, without its line feed, and what stands behind that.
pub(crate) fn first_line(text: &[u8]) -> (&[u8], Option<&[u8]>)
    ensures lines { names.lines_of text.now ≡ result.0.now ∷ names.lines_left (option_map (λ rest. rest.now) result.1) }
    ensures shorter { IfSome result.1 (λ rest. length rest.now < length text.now) }
{
    match line_feed(text) {
        Some(at) => (&text[..at], Some(&text[at + 1..])),
        None => (text, None),
    }
}

// Where the first line feed stands.
fn line_feed(text: &[u8]) -> Option<usize>
    ensures value { result ≡ position (λ byte. byte == 10) text.now }
    ensures inside { IfSome result (λ at. at < length text.now) }
{
    text.iter().position(|byte| *byte == b'\n')
}

pub(crate) fn is_message_line(line: &[u8]) -> bool
    ensures { result ≡ names.is_message_line line.now }
{
    after(b"M ", line).is_some()
}

fn without_name(line: &[u8]) -> &[u8]
    ensures { result.now ≡ names.without_name line.now }
{
    match named(line) {
        Some((before, _)) => &line[..before],
        None => line,
    }
}

fn name_of(line: &[u8]) -> Option<&[u8]>
    ensures { option_map (λ name. name.now) result ≡ names.name_of line.now }
{
    match named(line) {
        Some((_, name)) => Some(name),
        None => None,
    }
}

fn is_misnamed(line: &[u8]) -> bool
    ensures { result ≡ names.is_misnamed line.now }
{
    match message_parts(line) {
        Some((_, rest)) => !is_name(rest),
        None => false,
    }
}

// How many bytes stand before a message's name, and the name.
fn named(line: &[u8]) -> Option<(usize, &[u8])>
    ensures value { option_map (λ parts. (parts.0, parts.1.now)) result ≡ names.named line.now }
    ensures within { IfSome result (λ parts. parts.0 ≤ length line.now) }
{
    let (before, rest) = message_parts(line)?;
    if is_name(rest) {
        Some((before, rest))
    } else {
        None
    }
}

// How many bytes of a message's line stand before the first ` ; `, and what stands behind it.
fn message_parts(line: &[u8]) -> Option<(usize, &[u8])>
    ensures value { option_map (λ parts. (parts.0, parts.1.now)) result ≡ names.message_parts line.now }
    ensures within { IfSome result (λ parts. parts.0 ≤ length line.now) }
{
    parted(2, after(b"M ", line)?)
}

// The same of bytes before which so many stand.
fn parted(lead: usize, bytes: &[u8]) -> Option<(usize, &[u8])>
    requires { lead + length bytes.now < 2 ^ 64 }
    ensures value { option_map (λ parts. (parts.0, parts.1.now)) result ≡ names.parted lead bytes.now }
    ensures within { IfSome result (λ parts. parts.0 ≤ lead + length bytes.now) }
{
    let mut before = lead;
    let mut rest = bytes;
    while let [_, tail @ ..] = rest {
        if let Some(name) = after(b" ; ", rest) {
            return Some((before, name));
        }
        before += 1;
        rest = tail;
    }
    None
}

fn is_name(bytes: &[u8]) -> bool
    ensures { result ≡ names.is_name bytes.now }
{
    bytes.len() <= MOST && are_shown(bytes)
}

fn are_shown(bytes: &[u8]) -> bool
    ensures { result ≡ list_all names.is_shown bytes.now }
{
    bytes.iter().all(|byte| is_shown(*byte))
}

fn is_shown(byte: u8) -> bool
    ensures { result ≡ names.is_shown byte }
{
    32 <= byte && byte != 127
}
