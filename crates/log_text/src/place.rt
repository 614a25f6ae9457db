//! Where in a text a message stands.
ghost use Rattle.std.specs.Prelude.{◌≡◌, ◌++◌, Some, codes, decimal, true};
ghost use Rattle.std.specs.Char.Escape.{escape_ascii};
ghost use Rattle.log_text.specs.Places.{IsPlace, message_line};
ghost use Rattle.log_text.specs.Words.{name_text, place_text};
ghost use Rattle.std.specs.List.{flat_map};
ghost use Rattle.text_fields.specs.Writing.{Writes};

use crate::meant::source_line;
use crate::names::name_of_message;
use std::io::{self, Write};
use text_fields::Piece::{Number, Text};
use text_fields::{after, put, put_pieces};

/// A log's text, and what it stands for.
#[derive(Clone, Copy)]
pub struct LogText<'a> {
    pub source: &'a [u8],
    /// Whether messages of TL-UL and TL-UH were skipped in it.
    pub skip: bool,
    /// What it stands for (`meant_text`), with its messages' names.
    pub meant: &'a [u8],
}

/// Where a message stands in a log's text, and the name that it has there. Its text is as `line 5`, or `line 5 (at 120)`.
#[derive(Clone, Copy)]
pub struct Place<'a> {
    /// The line of the text, counted from 1.
    pub line: usize,
    pub name: Option<&'a [u8]>,
}

impl<'a> Place<'a> {
    /// Of the message of this index, counted from 0. A line that says what a hart holds at the start stands for
    /// six messages. None where the text has no such message.
    pub fn of(text: LogText<'a>, index: usize) -> Option<Place<'a>>
        ensures { IsPlace index text.entry result }
    {
        let line = line_of_message(text.meant, index)?;
        Some(Place {
            line: source_line(text.source, text.skip, line),
            name: name_of_message(text.meant, index),
        })
    }

    /// Writes it. After the writer's fault a beginning of it went out.
    pub fn put<W: Write>(&self, out: &mut W) -> io::Result<()>
        ensures { Writes (W.contents out.old) (W.contents out.new) (place_text self.now) result }
    {
        put_line(self.line, out)?;
        match self.name {
            Some(name) => put_name(name, out),
            None => Ok(()),
        }
    }
}

fn put_line<W: Write>(line: usize, out: &mut W) -> io::Result<()>
    ensures { Writes (W.contents out.old) (W.contents out.new) (codes "line " ++ decimal line) result }
{
    put_pieces(out, &[Text(b"line "), Number(line as u64)])
}

/// Writes a name in brackets, behind a space.
fn put_name<W: Write>(name: &[u8], out: &mut W) -> io::Result<()>
    ensures { Writes (W.contents out.old) (W.contents out.new) (name_text (Some name.now)) result }
{
    put(out, b" (")?;
    put_escaped(name, out)?;
    put(out, b")")
}

fn put_escaped<W: Write>(name: &[u8], out: &mut W) -> io::Result<()>
    ensures { Writes (W.contents out.old) (W.contents out.new) (flat_map escape_ascii name.now) result }
{
    for byte in name {
        put_byte(*byte, out)?;
    }
    Ok(())
}

fn put_byte<W: Write>(byte: u8, out: &mut W) -> io::Result<()>
    ensures { Writes (W.contents out.old) (W.contents out.new) (escape_ascii byte) result }
{
    for written in byte.escape_ascii() {
        put(out, &[written])?;
    }
    Ok(())
}

/// The line, counted from 1, on which the message of this index, counted from 0, stands in a trace's text.
pub fn line_of_message(bytes: &[u8], index: usize) -> Option<usize>
    ensures { result ≡ message_line true 0 index bytes.now }
{
    let mut rest = bytes;
    let mut lines_before = 0;
    let mut messages_before = index;
    let mut is_start = true;
    while let [byte, tail @ ..] = rest {
        if is_start && after(b"M ", rest).is_some() {
            if messages_before == 0 {
                return Some(lines_before + 1);
            }
            messages_before -= 1;
        }
        is_start = *byte == b'\n';
        if is_start {
            lines_before += 1;
        }
        rest = tail;
    }
    None
}
