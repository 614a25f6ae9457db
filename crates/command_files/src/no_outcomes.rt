//! Lines of what is allowed that are no outcome at all.

ghost use Rattle.std.specs.Prelude.{◌≡◌};

use crate::escaped::Escaped;
use crate::files::Files;
use crate::remarked::remark;
use bstr::ByteSlice;
use std::alloc::Global;
use std::fmt::{self, Display, Formatter};
use std::str;

/// How lines begin that `explore` prints behind outcomes.
const CLOSING: [&str; 7] = [
    "complete: ",
    "failure ",
    "incomplete: ",
    "searched: ",
    "sampled: ",
    "stuck: ",
    "unended: ",
];

/// How many lines of a file are no outcome, and which is the first.
#[derive(Clone, Copy)]
struct NoOutcomeNote<'a> {
    file: &'a str,
    /// The first one's number, from 1.
    line: usize,
    count: usize,
}

impl Display for NoOutcomeNote<'_> {
    fn fmt<W: fmt::Write>(&self, f: &mut Formatter<W>) -> fmt::Result {
        let NoOutcomeNote { file, line, count } = *self;
        let file = Escaped(file);
        write!(f, "{file}: line {line}")?;
        if count > 1 {
            let others = count.saturating_sub(1);
            write!(f, ", as {others} behind it,")?;
        }
        f.write_str(
            " is no outcome: one is as in `hart 0: exit 0 output 1`, with a * for any number",
        )
    }
}

/// Remarks which lines of the file of what is allowed are no outcome, but for empty ones and those that `explore` prints
/// behind outcomes.
pub(crate) fn remark_no_outcomes<F: Files>(alloc: Global, files: &mut F, file: &str, bytes: &[u8])
    ensures { F.held files.new ≡ F.held files.old }
{
    if let Some(note) = note_of(file, bytes) {
        remark(alloc, files, note);
    }
}

fn note_of<'a>(file: &'a str, bytes: &[u8]) -> Option<NoOutcomeNote<'a>> {
    let mut first = None;
    let mut count: usize = 0;
    let mut number: usize = 0;
    let mut rest = bytes.lines();
    while let Some(line) = rest.next() {
        number = number.saturating_add(1);
        if !is_expected(line) {
            count = count.saturating_add(1);
            if first.is_none() {
                first = Some(number);
            }
        }
    }
    let line = first?;
    Some(NoOutcomeNote { file, line, count })
}

fn is_expected(line: &[u8]) -> bool {
    let Ok(line) = str::from_utf8(line) else {
        return false;
    };
    let told = line.trim_start_matches(|c: char| c == ' ' || c.is_ascii_digit());
    told.is_empty()
        || told.split("   ").all(|part| is_part(part))
        || CLOSING.iter().any(|start| line.starts_with(start))
}

/// Whether a part of a line tells how a hart ended, what a word of memory is, or who comes to the outcome.
fn is_part(part: &str) -> bool {
    if let Some(hart) = part.strip_prefix("hart ") {
        return match hart.split_once(": ") {
            Some((number, end)) => is_number(number) && is_end(end),
            None => false,
        };
    }
    match part.split_once(" = ") {
        Some((_name, value)) => is_number(value),
        None => matches!(
            part,
            "this machine" | "without a script" | "RVWMO alone" | "Ztso alone" | "RVWMO" | "Ztso"
        ),
    }
}

/// Whether a hart may have ended so, as in `exit 0 output 1 2`.
fn is_end(end: &str) -> bool {
    let mut words = end.split(' ');
    let is_named = match words.next() {
        Some("run") => true,
        Some("exit" | "stop") => match words.next() {
            Some(code) => is_number(code),
            None => false,
        },
        _ => false,
    };
    let is_whole = match words.next() {
        Some("output") => words.all(|word| is_number(word)),
        Some(_) => false,
        None => true,
    };
    is_named && is_whole
}

/// Whether it is a number, in decimal or as a word's value, or what stands for any.
fn is_number(text: &str) -> bool {
    text == "*" || text.chars().all(|c| c == 'x' || c.is_ascii_hexdigit())
}
