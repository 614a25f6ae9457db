//! Why a text can't be read.
ghost use Rattle.std.specs.Prelude.{◌≡◌, ◌-◌, ◌^◌, ◌<◌, length, drop};
ghost use Rattle.text_fields.specs.Reading as reads;
ghost use Rattle.trace_text.specs.Faults.{text_code_number};
ghost use Rattle.trace_text.specs.Stops.{left_of, line_number, is_parted};

use crate::cause::TextCause;
use text_fields::after;
use thiserror::Error;

/// What is wrong with a line. Of the causes that hold, the first of `End`, `Header`, `Word`, `Fields`,
/// `Order` is answered.
#[derive(Clone, Copy, Debug, PartialEq, Eq, Error)]
pub enum TextCode {
    /// A header line isn't one: the first line of a script, the first two of a trace.
    #[error("Header")]
    Header = 1,
    /// The line's first word is that of no line.
    #[error("Word")]
    Word = 2,
    /// A field is missing, misspelt, out of range or too many; or a line of the image is all zero.
    #[error("Fields")]
    Fields = 3,
    /// The line may not stand here.
    #[error("Order")]
    Order = 4,
    /// The text ends before the line, where one is needed, or within it.
    #[error("End")]
    End = 5,
    /// Memory was refused.
    #[error("NoMemory")]
    NoMemory = 6,
}

impl TextCode {
    /// 1 to 6, the number by which the fault is printed.
    pub fn number(self) -> u8
        ensures { result ≡ text_code_number self }
    {
        self as u8
    }
}

/// The first line that can't be read, counted from 1, and what is wrong with it: by a code, and by what stands there.
#[derive(Clone, Copy, Debug, PartialEq, Eq)]
pub struct TextError {
    pub line: usize,
    pub code: TextCode,
    pub cause: TextCause,
}

/// What ended a reader, and how many bytes were left from the line that it then read.
#[derive(Clone, Copy)]
pub(crate) enum Stop {
    Memory { left: usize },
    Bytes { left: usize },
}

impl Stop {
    pub(crate) fn left(self) -> usize
        ensures { result ≡ left_of self }
    {
        match self {
            Stop::Memory { left } | Stop::Bytes { left } => left,
        }
    }
}

/// The number of the line that begins where so many bytes are left, and those bytes.
pub(crate) fn line_at(bytes: &[u8], left: usize) -> (usize, &[u8])
    ensures line { line_number bytes.now left < 2 ^ 64 → result.0 ≡ line_number bytes.now left }
    ensures rest { result.1.now ≡ drop (length bytes.now - left) bytes.now }
    ensures fits { length bytes.now < 2 ^ 64 }
{
    let (before, rest) = bytes.split_at(bytes.len().saturating_sub(left));
    let mut line: usize = 1;
    for byte in before {
        if *byte == b'\n' {
            line = line.saturating_add(1);
        }
    }
    (line, rest)
}

/// Whether the first word of a line is this one.
pub(crate) fn is_word(line: &[u8], word: &[u8]) -> bool
    ensures { result ≡ is_parted (reads.after word.now line.now) }
{
    matches!(after(word, line), Some([b' ' | b'\n', ..]))
}
