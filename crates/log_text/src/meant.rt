//! A log's text that begins in the middle of a run, or that has messages of other protocols.
ghost use Rattle.std.specs.Prelude.{◌≡◌, ◌==◌, ◌++◌, ◌<◌, ◌+◌, ◌≤◌, ◌^◌, IfOk, IfSome, OnOk, [], ◌∷◌, length, option_map, position};
ghost use Rattle.log_text.specs.Meant as meaning;
ghost use Rattle.log_text.specs.Names.{lines_of};
ghost use Rattle.log_text.specs.Opened.{seen};

use crate::names::{first_line, is_message_line};
use std::alloc::{AllocError, Global};
use text_fields::after;

/// The text that a log's text stands for. A line `S HART LINE PERM DATA` before all messages says what a hart holds at
/// the start, PERM `Branch` or `Trunk`, and stands for the six messages by which it came to hold that; DATA is the line
/// as memory has it, and may be left out where an I line tells it. Messages of TL-UL and TL-UH are left out where they
/// are to be skipped. The only error is want of memory.
pub fn meant_text(alloc: Global, text: &[u8], skip: bool) -> Result<Vec<u8>, AllocError>
    ensures { IfOk result (λ meant. meant.items ≡ meaning.meant skip text.now) }
{
    let mut meant = Vec::new(alloc);
    let mut rest = text;
    let mut begun = false;
    loop {
        let (line, behind) = first_line(rest);
        match behind {
            Some(tail) => {
                put_meant(&mut meant, text, line, skip, begun)?;
                begun = begun || is_message_line(line);
                rest = tail;
            }
            None => {
                meant.extend_from_slice(line)?;
                return Ok(meant);
            }
        }
    }
}

/// What a line stands for, behind a message or before all.
fn put_meant(
    meant: &mut Vec<u8>,
    text: &[u8],
    line: &[u8],
    skip: bool,
    begun: bool,
) -> Result<(), AllocError>
    ensures { OnOk result (meant.new.items ≡ meant.old.items ++ meaning.line_meant skip begun text.now line.now) }
{
    if skip && is_foreign(line) {
        return Ok(());
    }
    match opening_of(text, line, begun) {
        Some(opening) => put_opening(meant, opening),
        None => put_line(meant, line),
    }
}

/// What a hart holds a line for.
#[derive(Clone, Copy)]
enum Kept {
    Branch,
    Trunk,
}

/// What a line says that a hart holds at the start, word for word.
#[derive(Clone, Copy)]
struct Opening<'a> {
    hart: &'a [u8],
    address: &'a [u8],
    kept: Kept,
    /// The line as memory has it.
    bytes: &'a [u8],
}

/// What a line before all messages says that a hart holds.
fn opening_of<'a>(text: &'a [u8], line: &'a [u8], begun: bool) -> Option<Opening<'a>>
    ensures { option_map seen result ≡ meaning.start_of begun text.now line.now }
{
    if begun {
        return None;
    }
    let (hart, rest) = cut_word(after(b"S ", line)?)?;
    let (address, held) = cut_word(rest)?;
    let (kept, bytes) = holding_of(text, address, held)?;
    Some(Opening {
        hart,
        address,
        kept,
        bytes,
    })
}

/// What is held of a line at this address, and its bytes.
fn holding_of<'a>(text: &'a [u8], address: &[u8], held: &'a [u8]) -> Option<(Kept, &'a [u8])>
    ensures { option_map (λ holding. (holding.0, holding.1.now)) result ≡ meaning.holding_of text.now address.now held.now }
{
    match after(b"Branch", held) {
        Some(told) => with_data(Kept::Branch, data_of(text, address, told)),
        None => with_data(Kept::Trunk, data_of(text, address, after(b"Trunk", held)?)),
    }
}

fn with_data(kept: Kept, bytes: Option<&[u8]>) -> Option<(Kept, &[u8])>
    ensures { option_map (λ holding. (holding.0, holding.1.now)) result ≡ meaning.with_data kept (option_map (λ b. b.now) bytes.entry) }
{
    Some((kept, bytes?))
}

/// The bytes that stand behind the permission, or those that an I line tells.
fn data_of<'a>(text: &'a [u8], address: &[u8], told: &'a [u8]) -> Option<&'a [u8]>
    ensures { option_map (λ bytes. bytes.now) result ≡ meaning.data_of text.now address.now told.now }
{
    match told {
        [] => memory_of(text, address),
        [_, ..] => after(b" ", told),
    }
}

/// The bytes that an I line tells of the line at this address.
fn memory_of<'a>(text: &'a [u8], address: &[u8]) -> Option<&'a [u8]>
    ensures { option_map (λ bytes. bytes.now) result ≡ meaning.memory_of address.now (lines_of text.now) }
{
    let mut rest = Some(text);
    while let Some(bytes) = rest {
        let (line, behind) = first_line(bytes);
        if is_message_line(line) {
            return None;
        }
        if let Some(data) = memory_in(line, address) {
            return Some(data);
        }
        rest = behind;
    }
    None
}

fn memory_in<'a>(line: &'a [u8], address: &[u8]) -> Option<&'a [u8]>
    ensures { option_map (λ bytes. bytes.now) result ≡ meaning.memory_in address.now line.now }
{
    let (there, data) = cut_word(after(b"I ", line)?)?;
    if is_word(there, address) {
        Some(data)
    } else {
        None
    }
}

/// The messages by which a hart came to hold a line.
fn put_opening(meant: &mut Vec<u8>, opening: Opening<'_>) -> Result<(), AllocError>
    ensures { OnOk result (meant.new.items ≡ meant.old.items ++ meaning.opening_text (seen opening.entry)) }
{
    let (asks, gives) = (asks_text(opening.kept), gives_text(opening.kept));
    put_message(meant, b"M s A ", b" AcquireBlock ", asks, b"", opening)?;
    put_message(meant, b"M t A ", b" AcquireBlock ", asks, b"", opening)?;
    put_message(
        meant,
        b"M s D ",
        b" GrantData ",
        gives,
        opening.bytes,
        opening,
    )?;
    put_message(
        meant,
        b"M t D ",
        b" GrantData ",
        gives,
        opening.bytes,
        opening,
    )?;
    put_message(meant, b"M s E ", b" GrantAck ", b"", b"", opening)?;
    put_message(meant, b"M t E ", b" GrantAck ", b"", b"", opening)?;
    Ok(())
}

fn put_message(
    meant: &mut Vec<u8>,
    lead: &[u8],
    kind: &[u8],
    more: &[u8],
    bytes: &[u8],
    opening: Opening<'_>,
) -> Result<(), AllocError>
    ensures { OnOk result (meant.new.items ≡ meant.old.items ++ meaning.message_text lead.now kind.now more.now bytes.now (seen opening.entry)) }
{
    meant.extend_from_slice(lead)?;
    meant.extend_from_slice(opening.hart)?;
    meant.extend_from_slice(kind)?;
    meant.extend_from_slice(opening.address)?;
    meant.extend_from_slice(more)?;
    put_line(meant, bytes)
}

fn asks_text(kept: Kept) -> &'static [u8]
    ensures { result.now ≡ meaning.asks_text kept }
{
    match kept {
        Kept::Branch => b" NtoB",
        Kept::Trunk => b" NtoT",
    }
}

fn gives_text(kept: Kept) -> &'static [u8]
    ensures { result.now ≡ meaning.gives_text kept }
{
    match kept {
        Kept::Branch => b" toB ",
        Kept::Trunk => b" toT ",
    }
}

fn put_line(meant: &mut Vec<u8>, line: &[u8]) -> Result<(), AllocError>
    ensures { OnOk result (meant.new.items ≡ meant.old.items ++ (line.now ++ 10 ∷ [])) }
{
    meant.extend_from_slice(line)?;
    meant.push(b'\n')?;
    Ok(())
}

/// The line of a text, counted from 1, for which the one of this number stands in what is meant; the last one beyond
/// that.
pub fn source_line(text: &[u8], skip: bool, number: usize) -> usize
    ensures { result ≡ meaning.source_line skip text.now number }
{
    let mut rest = Some(text);
    let mut before = 0;
    let mut left = number;
    let mut begun = false;
    while let Some(bytes) = rest {
        let (line, behind) = first_line(bytes);
        let meant = lines_meant(text, line, skip, begun);
        if left <= meant {
            return before + 1;
        }
        begun = begun || is_message_line(line);
        before += 1;
        left -= meant;
        rest = behind;
    }
    before
}

/// For how many lines a line stands.
fn lines_meant(text: &[u8], line: &[u8], skip: bool, begun: bool) -> usize
    ensures { result ≡ meaning.lines_meant skip begun text.now line.now }
{
    if skip && is_foreign(line) {
        return 0;
    }
    match opening_of(text, line, begun) {
        Some(_) => 6,
        None => 1,
    }
}

/// How many messages of TL-UL and TL-UH a text has.
pub fn foreign_messages(text: &[u8]) -> usize
    ensures { result ≡ meaning.foreign_in text.now }
{
    let mut rest = Some(text);
    let mut count = 0;
    while let Some(bytes) = rest {
        let (line, behind) = first_line(bytes);
        if is_foreign(line) {
            count += 1;
        }
        rest = behind;
    }
    count
}

/// Whether a line is a message of TL-UL or TL-UH.
fn is_foreign(line: &[u8]) -> bool
    ensures { result ≡ meaning.is_foreign line.now }
{
    match opcode_of(line) {
        Some(opcode) => is_other(opcode),
        None => false,
    }
}

/// Whether it is an opcode of TL-UL or TL-UH (TileLink 1.8.1), or Put or Hint, as some say for them.
fn is_other(opcode: &[u8]) -> bool
    ensures { result ≡ meaning.is_other opcode.now }
{
    is_word(opcode, b"Get")
        || is_word(opcode, b"Put")
        || is_word(opcode, b"PutFullData")
        || is_word(opcode, b"PutPartialData")
        || is_word(opcode, b"ArithmeticData")
        || is_word(opcode, b"LogicalData")
        || is_word(opcode, b"Hint")
        || is_word(opcode, b"Intent")
        || is_word(opcode, b"AccessAck")
        || is_word(opcode, b"AccessAckData")
        || is_word(opcode, b"HintAck")
}

fn opcode_of(line: &[u8]) -> Option<&[u8]>
    ensures { option_map (λ opcode. opcode.now) result ≡ meaning.opcode_of line.now }
{
    let (_, rest) = cut_word(after(b"M ", line)?)?;
    let (_, rest) = cut_word(rest)?;
    let (_, rest) = cut_word(rest)?;
    Some(first_word(rest))
}

fn first_word(bytes: &[u8]) -> &[u8]
    ensures { result.now ≡ meaning.first_word bytes.now }
{
    match cut_word(bytes) {
        Some((word, _)) => word,
        None => bytes,
    }
}

fn is_word(bytes: &[u8], word: &[u8]) -> bool
    ensures { result ≡ meaning.is_word bytes.now word.now }
{
    bytes == word
}

// What stands before the first blank, and what behind it.
fn cut_word(bytes: &[u8]) -> Option<(&[u8], &[u8])>
    ensures { option_map (λ parts. (parts.0.now, parts.1.now)) result ≡ meaning.cut_word bytes.now }
{
    match blank(bytes) {
        Some(at) => Some((&bytes[..at], &bytes[at + 1..])),
        None => None,
    }
}

fn blank(bytes: &[u8]) -> Option<usize>
    ensures value { result ≡ position (λ byte. byte == 32) bytes.now }
    ensures inside { IfSome result (λ at. at < length bytes.now) }
{
    bytes.iter().position(|byte| *byte == b' ')
}
