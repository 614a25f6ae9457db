//! What is wrong with a trace.

use crate::flaw::Flaw;
use crate::form::{Form, FormNote};
use crate::kind::Kind;
use crate::lines::{UNENDED, blemish_of, first_word, line_of, number_of_line, word_of};
use crate::machine::Machine;
use crate::number::is_padded;
use crate::quoted::Quoted;
use std::fmt::{self, Display, Formatter};
use trace_text::{TextCode, TextError};

/// What is wrong with the bytes of a trace, which was refused so.
#[derive(Clone, Copy)]
pub struct TraceNote<'a> {
    pub bytes: &'a [u8],
    pub error: TextError,
}

impl Display for TraceNote<'_> {
    fn fmt<W: fmt::Write>(&self, f: &mut Formatter<W>) -> fmt::Result {
        let line = line_of(self.bytes, self.error.line);
        match Kind::of(self.bytes) {
            None => return beginning(line, f),
            Some(Kind::Trace) => {}
            Some(kind) => return write!(f, "this is {kind}, and a trace is wanted"),
        }
        if self.error.code == TextCode::End {
            return f.write_str(what_is_missing(self.bytes, self.error.line));
        }
        if let Some(blemish) = blemish_of(line) {
            return f.write_str(blemish);
        }
        match self.error.code {
            TextCode::Header if self.error.line == 1 => beginning(line, f),
            TextCode::Header if has_padded(line) => write!(f, "{}", Flaw::Padded),
            TextCode::Header => write!(f, "{}, not {}", sizes_of(self.bytes), Quoted(line)),
            TextCode::Fields | TextCode::Order => self.misplaced_or_misformed(line, f),
            _ => write!(
                f,
                "no line of a trace begins with {}: they are T, I, R, P, M and H",
                Quoted(first_word(line))
            ),
        }
    }
}

impl TraceNote<'_> {
    /// What is wrong with a line behind the first two that begins as lines of traces do.
    fn misplaced_or_misformed<W: fmt::Write>(
        &self,
        line: &[u8],
        f: &mut Formatter<W>,
    ) -> fmt::Result {
        match form_of(line) {
            Some(form) if self.error.code == TextCode::Fields => {
                write!(f, "{}", misformed(form, line, line_of(self.bytes, 2)))
            }
            _ => write!(
                f,
                "{} may not stand here: I, R by hart (at most 1000000 of each), P, M and H lines follow each other",
                Quoted(line)
            ),
        }
    }
}

/// What stands behind a trace of so many bytes.
#[derive(Clone, Copy)]
pub struct BehindNote<'a> {
    pub bytes: &'a [u8],
    pub length: usize,
}

impl Display for BehindNote<'_> {
    fn fmt<W: fmt::Write>(&self, f: &mut Formatter<W>) -> fmt::Result {
        let number = number_of_line(self.bytes, self.length);
        let line = line_of(self.bytes, number);
        write!(
            f,
            "line {number}, {}, stands behind the last hart's H line, which ends a trace",
            Quoted(line)
        )
    }
}

fn beginning<W: fmt::Write>(line: &[u8], f: &mut Formatter<W>) -> fmt::Result {
    write!(
        f,
        "a trace begins with `rvtl-trace 1` or `rvtl-trace 2`, not with {}",
        Quoted(line)
    )
}

// What a text lacks that ends within the line of this number, or before it.
fn what_is_missing(bytes: &[u8], number: usize) -> &'static str {
    if !bytes.ends_with(b"\n") {
        UNENDED
    } else if number == 2 {
        "the second line is missing, which is a T line"
    } else if line_of(bytes, number.saturating_sub(1)).starts_with(b"M ") {
        "a hart's H line is missing: those of all harts end a trace (`check --messages` judges a log of messages alone)"
    } else {
        "a hart's H line is missing: those of all harts end a trace"
    }
}

// Whether a number of a T line has a sign, or a zero before it.
fn has_padded(line: &[u8]) -> bool {
    [1, 2, 4]
        .iter()
        .any(|index| is_padded(word_of(line, *index)))
}

// How the second line of a trace is written whose first line is this text's.
fn sizes_of(bytes: &[u8]) -> &'static str {
    if bytes.starts_with(b"rvtl-trace 1") {
        "`T HARTS KIB ENTRY` is wanted, with HARTS 1 to 4, KIB a multiple of 4 from 4 to 1024, ENTRY a word in memory such as 0x80000000 (`rvtl-trace 2` has 5 to 8 harts, and lines of 64 bytes)"
    } else {
        "`T HARTS KIB ENTRY LINE` is wanted, with HARTS 1 to 8, KIB a multiple of 4 from 4 to 1024, ENTRY a word in memory such as 0x80000000, LINE 16 (of 5 harts or more) or 64"
    }
}

// What is wrong with a line that isn't of this form, where this is the T line.
fn misformed<'a>(form: Form, line: &'a [u8], sizes: &'a [u8]) -> FormNote<'a> {
    FormNote {
        form,
        line,
        machine: Machine::said("trace", sizes, [1, 2, 4]),
        sizes,
    }
}

// How the line is written whose word stands first, where it may stand behind the first two.
fn form_of(line: &[u8]) -> Option<Form> {
    Some(match first_word(line) {
        b"I" => Form::noted("I LINE DATA", " not all zero,"),
        b"R" => Form::noted(
            "R HART PC WORD LOADED SC",
            ", with `-` where nothing was loaded, or no SC stands,",
        ),
        b"P" => Form::noted("P HART PLACE", ", with a place of at most 999999,"),
        b"M" => message_form(word_of(line, 2), word_of(line, 4)),
        b"H" => ending_form(word_of(line, 2)),
        _ => return None,
    })
}

// How it is written that a hart ended so.
fn ending_form(ending: &[u8]) -> Form {
    match ending {
        b"stop" => Form::noted("H HART stop CODE", ", with a code of at most 8,"),
        b"exit" => Form::noted("H HART exit CODE", ", with a code of at most 255,"),
        _ => Form::noted("H HART run", ", `H HART stop CODE` or `H HART exit CODE`"),
    }
}

// How messages are written on a channel.
fn message_form(channel: &[u8], message: &[u8]) -> Form {
    match channel {
        b"A" => Form::plain("M s|t A HART AcquireBlock LINE NtoB|NtoT|BtoT"),
        b"B" => Form::plain("M s|t B HART ProbeBlock LINE toT|toB|toN"),
        b"C" => answer_form(message),
        b"D" => grant_form(message),
        b"E" => Form::plain("M s|t E HART GrantAck LINE"),
        _ => Form::noted(
            "M s|t CHANNEL HART MESSAGE LINE ..",
            ", with a channel from A to E,",
        ),
    }
}

// How messages are written on channel C.
fn answer_form(message: &[u8]) -> Form {
    match message {
        b"ProbeAckData" | b"ReleaseData" => Form::plain(
            "M s|t C HART ProbeAckData|ReleaseData LINE TtoB|TtoN|BtoN|TtoT|BtoB|NtoN DATA",
        ),
        _ => Form::noted(
            "M s|t C HART ProbeAck|Release LINE TtoB|TtoN|BtoN|TtoT|BtoB|NtoN",
            ", or `ProbeAckData|ReleaseData` with a line's bytes behind,",
        ),
    }
}

// How messages are written on channel D.
fn grant_form(message: &[u8]) -> Form {
    match message {
        b"GrantData" => Form::plain("M s|t D HART GrantData LINE toT|toB|toN DATA"),
        b"ReleaseAck" => Form::plain("M s|t D HART ReleaseAck LINE"),
        _ => Form::noted(
            "M s|t D HART Grant LINE toT|toB|toN",
            ", `GrantData` with a line's bytes behind, or `ReleaseAck LINE`",
        ),
    }
}
