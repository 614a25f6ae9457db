//! How a line is written, and which of its words isn't written so.

use crate::flaw::Flaw;
use crate::lines::word_of;
use crate::machine::Machine;
use crate::number::{address_of, is_padded, number_of};
use crate::quoted::Quoted;
use std::fmt::{self, Display, Formatter};

/// No form has more words.
const MOST: usize = 8;

/// How a line is written: its words, names of fields among them, and what is said of them.
#[derive(Clone, Copy)]
pub(crate) struct Form {
    words: &'static str,
    note: &'static str,
}

impl Form {
    /// A form of which nothing more is said.
    pub(crate) fn plain(words: &'static str) -> Form {
        Form { words, note: "" }
    }

    /// A form, and what is said of its words behind a comma.
    pub(crate) fn noted(words: &'static str, note: &'static str) -> Form {
        Form { words, note }
    }
}

/// What is wrong with a line that isn't of its form.
#[derive(Clone, Copy)]
pub(crate) struct FormNote<'a> {
    pub(crate) form: Form,
    pub(crate) line: &'a [u8],
    pub(crate) machine: Machine,
    /// The line of the text that says the machine's size.
    pub(crate) sizes: &'a [u8],
}

impl Display for FormNote<'_> {
    fn fmt<W: fmt::Write>(&self, f: &mut Formatter<W>) -> fmt::Result {
        match self.flaw() {
            Some(flaw) if flaw.is_by_size() => write!(f, "{flaw}, by {}", Quoted(self.sizes)),
            Some(flaw) => write!(f, "{flaw}"),
            None => self.wanted(f),
        }
    }
}

impl<'a> FormNote<'a> {
    /// What is wrong with the first word that isn't what the form names.
    fn flaw(&self) -> Option<Flaw<'a>> {
        for index in 1..MOST {
            let name = word_of(self.form.words.as_bytes(), index);
            let flaw = flaw_of(name, word_of(self.line, index), self.machine);
            if flaw.is_some() {
                return flaw;
            }
        }
        None
    }

    /// The form, with the number of digits where it has data.
    fn wanted<W: fmt::Write>(&self, f: &mut Formatter<W>) -> fmt::Result {
        let Form { words, note } = self.form;
        write!(f, "`{words}`")?;
        if words.as_bytes().ends_with(b" DATA") {
            write!(
                f,
                ", with DATA of {} lower-case hexadecimal digits,",
                self.machine.digits()
            )?;
        }
        write!(f, "{note} is wanted, not {}", Quoted(self.line))
    }
}

/// The fields of decimal numbers.
static NUMBERS: [&[u8]; 4] = [b"HART", b"PLACE", b"COUNT", b"CODE"];

/// The fields of addresses and words.
static HEXADECIMALS: [&[u8]; 5] = [b"LINE", b"ADDRESS", b"PC", b"WORD", b"LOADED"];

/// What is wrong with the word of a field of this name. Nothing is, where it rather is another field's.
fn flaw_of<'a>(name: &[u8], word: &'a [u8], machine: Machine) -> Option<Flaw<'a>> {
    if NUMBERS.contains(&name) && is_padded(word) {
        return Some(Flaw::Padded);
    }
    if HEXADECIMALS.contains(&name) && is_misspelt(word) {
        return Some(Flaw::Misspelt(word));
    }
    match name {
        b"HART" => machine.hart_flaw(number_of(word)?),
        b"LINE" => machine.address_flaw(address_of(word)?, machine.line),
        b"DATA" if !word.is_empty() => machine.data_flaw(word),
        _ => None,
    }
}

/// Whether 0x begins what is no address and no word.
fn is_misspelt(word: &[u8]) -> bool {
    word.starts_with(b"0x") && address_of(word).is_none()
}
