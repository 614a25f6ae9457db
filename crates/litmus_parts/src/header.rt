//! The first lines: architecture, name, a quoted text, and what the test's maker noted.
ghost use Rattle.std.specs.Prelude.{◌≡◌};
ghost use Rattle.std.specs.List.{list_all, list_any};
ghost use Rattle.litmus_parts.specs.Header as header;
ghost use Rattle.litmus_parts.specs.Scanning.{is_same};
ghost use Rattle.litmus_parts.specs.Stops.{seen};

use crate::scanning::{is_same, split_until};
use crate::stop::{Cause, Stop};
use text_fields::after;
use text_words::{LONGEST_NAME, Name, is_name, skip_blanks, split_word, symbol_at};

/// Other architectures whose tests are written so.
const OTHERS: [&[u8]; 14] = [
    b"AArch64", b"AARCH64", b"ARM", b"ASL", b"BPF", b"Bell", b"C", b"CPP", b"JAVA", b"LISA",
    b"MIPS", b"PPC", b"X86", b"X86_64",
];

/// No more lines are read before the initial values.
const MOST_ENTRIES: u32 = 1000;

fn is_among(words: &[&[u8]], word: &[u8]) -> bool
    ensures { result ≡ list_any (λ other. is_same other.now word.now) words.now }
{
    words.iter().any(|other| is_same(other, word))
}

fn is_other(word: &[u8]) -> bool
    ensures { result ≡ header.is_other word.now }
{
    is_among(&OTHERS, word)
}

/// Why a test doesn't begin with this word.
fn architecture_cause(word: &[u8]) -> Cause
    ensures { result ≡ header.architecture_cause word.now }
{
    if is_other(word) {
        Cause::OtherArchitecture
    } else {
        Cause::Architecture
    }
}

/// What stands behind the architecture.
#[tactic(auto, unfolding(crate::specs::Header::past_architecture))]
fn past_architecture(bytes: &[u8]) -> Result<&[u8], Stop>
    ensures { seen (λ x. x.now) result ≡ header.past_architecture bytes.now }
{
    let (word, rest) = split_word(skip_blanks(bytes));
    if is_same(b"RISCV", word) {
        Ok(rest)
    } else {
        Err(Stop::at(architecture_cause(word), bytes))
    }
}

fn is_name_byte(byte: u8) -> bool
    ensures { result ≡ header.is_name_byte byte }
{
    byte.is_ascii_graphic() && byte != b'/'
}

fn are_name_bytes(word: &[u8]) -> bool
    ensures { result ≡ list_all header.is_name_byte word.now }
{
    word.iter().all(|byte| is_name_byte(*byte))
}

fn has_name_length(word: &[u8]) -> bool
    ensures { result ≡ header.has_name_length word.now }
{
    1 <= word.len() && word.len() <= LONGEST_NAME
}

/// Whether a word can name a test, and so a file.
fn is_test_name(word: &[u8]) -> bool
    ensures { result ≡ header.is_test_name word.now }
{
    has_name_length(word) && are_name_bytes(word)
}

/// The test's name, up to the end of its line.
#[tactic(auto, unfolding(crate::specs::Header::name_line))]
fn name_line(bytes: &[u8]) -> Result<(Name, &[u8]), Stop>
    ensures { seen (λ x. (x.0, x.1.now)) result ≡ header.name_line bytes.now }
{
    let (line, rest) = split_until(b"\n", bytes);
    let (name, behind) = split_until(b" \t\r", skip_blanks(line));
    if is_test_name(name) && skip_blanks(behind).is_empty() {
        Ok((Name::of(name), rest))
    } else {
        Err(Stop::here(Cause::Name, bytes))
    }
}

/// What stands behind a quoted text, if one stands here.
#[tactic(auto, unfolding(crate::specs::Header::past_quotation))]
fn past_quotation(bytes: &[u8]) -> Result<&[u8], Stop>
    ensures { seen (λ x. x.now) result ≡ header.past_quotation bytes.now }
{
    match symbol_at(b"\"", bytes) {
        Some(text) => {
            let (_, rest) = split_until(b"\"", text);
            match after(b"\"", rest) {
                Some(rest) => Ok(rest),
                None => Err(Stop::at(Cause::Quotation, bytes)),
            }
        }
        None => Ok(bytes),
    }
}

/// What stands behind a line `KEY=text`.
#[tactic(auto, using(crate::proofs::Labels::entry_none, crate::proofs::Labels::entry_open, crate::proofs::Labels::entry_some))]
fn past_entry(bytes: &[u8]) -> Result<&[u8], Stop>
    ensures { seen (λ x. x.now) result ≡ header.past_entry bytes.now }
{
    let (line, rest) = split_until(b"\n", skip_blanks(bytes));
    let (key, behind) = split_word(skip_blanks(line));
    if !is_name(key) {
        return Err(Stop::at(Cause::Entry, bytes));
    }
    match symbol_at(b"=", behind) {
        Some(_) => Ok(rest),
        None => Err(Stop::at(Cause::Entry, bytes)),
    }
}

/// What stands behind the brace that opens the initial values.
fn past_entries(bytes: &[u8]) -> Result<&[u8], Stop>
    ensures { seen (λ x. x.now) result ≡ header.past_entries MOST_ENTRIES bytes.now }
{
    let mut rest = bytes;
    for taken in 0..MOST_ENTRIES {
        match symbol_at(b"{", rest) {
            Some(later) => return Ok(later),
            None => match past_entry(rest) {
                Ok(later) => rest = later,
                Err(stop) => return Err(stop),
            },
        }
    }
    Err(Stop::at(Cause::FewEntries, rest))
}

/// What stands behind the quoted text, the entries, and the brace that opens the initial values.
#[tactic(auto, unfolding(crate::specs::Header::past_notes))]
fn past_notes(bytes: &[u8]) -> Result<&[u8], Stop>
    ensures { seen (λ x. x.now) result ≡ header.past_notes bytes.now }
{
    match past_quotation(bytes) {
        Ok(rest) => past_entries(rest),
        Err(stop) => Err(stop),
    }
}

/// The test's name behind the architecture, and what stands behind the brace that opens the initial values.
#[tactic(auto, unfolding(crate::specs::Header::titled_at))]
fn titled_at(bytes: &[u8]) -> Result<(Name, &[u8]), Stop>
    ensures { seen (λ x. (x.0, x.1.now)) result ≡ header.titled_at bytes.now }
{
    match name_line(bytes) {
        Ok((name, rest)) => match past_notes(rest) {
            Ok(rest) => Ok((name, rest)),
            Err(stop) => Err(stop),
        },
        Err(stop) => Err(stop),
    }
}

/// The test's name, and what stands behind the brace that opens the initial values.
#[tactic(auto, unfolding(crate::specs::Header::header_at))]
pub fn header_at(bytes: &[u8]) -> Result<(Name, &[u8]), Stop>
    ensures { seen (λ x. (x.0, x.1.now)) result ≡ header.header_at bytes.now }
{
    match past_architecture(bytes) {
        Ok(rest) => titled_at(rest),
        Err(stop) => Err(stop),
    }
}
