//! The program's message for a fault.

ghost use Rattle.std.specs.Prelude.{◌≡◌, ◌⊎◌, ◌↔◌, ◌++◌, IsTrue, codes};
ghost use Rattle.std.specs.IoError.{error_kind};
ghost use Rattle.command_files.specs.Messages.{HasPlainName, IsLost, IsToldOf, apply_error_name, check_error_name, fault_line, fault_text, is_plain, is_plain_byte, line_text, load_error_name, numbered_cause, text_code_name, unshown_text};
ghost use Rattle.command_files.specs.Status.{status_of};
ghost use Rattle.text_fields.specs.Writing.{Writes, pieces};

use crate::escaped::Escaped;
use crate::fault::{Fault, Unshown};
use elf_loader::LoadError;
use event_stream::coherent_machine::ApplyError;
use event_stream::outcome_name;
use machine_types::Outcome;
use rvwmo_order::CheckError;
use std::io::{self, ErrorKind, Write};
use text_fields::Piece::{Number, Text, Word};
use text_fields::{Piece, put, put_pieces};
use trace_text::{TextCode, TextError};

/// Puts a fault's message on standard error as far as that takes it, and answers the program's exit status.
pub fn tell<E: Write>(fault: &Fault<'_>, err: &mut E) -> u8
    ensures told { IsToldOf fault.now (E.contents err.old) (E.contents err.new) }
    ensures status { result ≡ status_of fault.now }
{
    // Standard error has no other place to tell that it takes no more.
    let _ = put_fault(fault, err);
    fault.status()
}

/// Tells that standard output took no more, and answers the program's exit status.
pub fn tell_lost<E: Write>(error: io::Error, err: &mut E) -> u8
    ensures lost { IsLost (E.contents err.old) (E.contents err.new) result }
    ensures status { (result ≡ 1) ⊎ (result ≡ 4) }
    ensures memory { (result ≡ 4) ↔ (error_kind error ≡ ErrorKind.OutOfMemory) }
{
    tell(&Fault::writing(error), err)
}

/// Puts a fault's message, one line. What would end it or steer a terminal is escaped in a file's name.
pub fn put_fault<E: Write>(fault: &Fault<'_>, err: &mut E) -> io::Result<()>
    ensures { HasPlainName fault.now → Writes (E.contents err.old) (E.contents err.new) (fault_line fault.now) result }
{
    put_text(fault, err)?;
    put(err, b"\n")
}

fn put_text<E: Write>(fault: &Fault<'_>, err: &mut E) -> io::Result<()>
    ensures { HasPlainName fault.now → Writes (E.contents err.old) (E.contents err.new) (fault_text fault.now) result }
{
    match fault {
        Fault::CannotRead { file } => put_of(file, b": cannot read", err),
        Fault::CannotMake { file } => put_of(file, b": cannot write", err),
        Fault::CannotWrite => put(err, b"rvtl: cannot write"),
        Fault::Image { file, error } => put_image_fault(file, *error, err),
        Fault::Text { file, error } => put_text_fault(file, *error, err),
        Fault::Event { file, line, error } => put_event_fault(file, *line, *error, err),
        Fault::NothingHappens {
            file,
            line,
            outcome,
        } => put_idle(file, *line, *outcome, err),
        Fault::BytesAfterTrace { file } => put_of(file, b": bytes after the trace", err),
        Fault::Check { file, error } => put_check_fault(file, *error, err),
        Fault::OtherImage { file, address } => put_other_image(file, *address, err),
        Fault::TooManyRows { file } => put_too_many_rows(file, err),
        Fault::BadAddress { word } => put_bad_address(word, err),
        Fault::CannotShow { word, cause } => put_unshown(word, *cause, err),
        Fault::NoThread => put(err, b"rvtl: cannot start a thread"),
        Fault::Mismatch => put(err, b"rvtl: fabric mismatch"),
        Fault::BadEvent => put(err, b"rvtl: bad event"),
        Fault::Configuration => put(err, b"rvtl: bad configuration"),
        Fault::OutOfMemory => put(err, b"rvtl: out of memory"),
    }
}

fn put_of<E: Write>(file: &str, told: &[u8], err: &mut E) -> io::Result<()>
    ensures { IsTrue (is_plain file.now) → Writes (E.contents err.old) (E.contents err.new) (codes "rvtl: " ++ (file.now ++ told.now)) result }
{
    put_named(b"rvtl: ", file, &[Text(told)], err)
}

fn put_image_fault<E: Write>(file: &str, error: LoadError, err: &mut E) -> io::Result<()>
    ensures { IsTrue (is_plain file.now) → Writes (E.contents err.old) (E.contents err.new) (fault_text (Fault.Image file.entry error)) result }
{
    let name = load_error_name(error);
    put_cause(file, b": image fault ", error.number(), name, err)
}

fn put_check_fault<E: Write>(file: &str, error: CheckError, err: &mut E) -> io::Result<()>
    ensures { IsTrue (is_plain file.now) → Writes (E.contents err.old) (E.contents err.new) (fault_text (Fault.Check file.entry error)) result }
{
    let name = check_error_name(error);
    put_cause(file, b": check fault ", error.number(), name, err)
}

fn put_text_fault<E: Write>(file: &str, error: TextError, err: &mut E) -> io::Result<()>
    ensures { IsTrue (is_plain file.now) → Writes (E.contents err.old) (E.contents err.new) (fault_text (Fault.Text file.entry error)) result }
{
    let name = text_code_name(error.code);
    put_at_line(
        file,
        error.line,
        b": text fault ",
        error.code.number(),
        name,
        err,
    )
}

fn put_event_fault<E: Write>(
    file: &str,
    line: usize,
    error: ApplyError,
    err: &mut E,
) -> io::Result<()>
    ensures { IsTrue (is_plain file.now) → Writes (E.contents err.old) (E.contents err.new) (fault_text (Fault.Event file.entry line error)) result }
{
    let name = apply_error_name(error);
    put_at_line(file, line, b": event fault ", error.number(), name, err)
}

fn put_idle<E: Write>(file: &str, line: usize, outcome: Outcome, err: &mut E) -> io::Result<()>
    ensures { IsTrue (is_plain file.now) → Writes (E.contents err.old) (E.contents err.new) (fault_text (Fault.NothingHappens file.entry line outcome)) result }
{
    let told = [
        Text(b": line "),
        Number(line as u64),
        Text(b": nothing happens: "),
        Text(outcome_name(outcome).as_bytes()),
    ];
    put_named(b"rvtl: ", file, &told, err)
}

fn put_other_image<E: Write>(file: &str, address: u32, err: &mut E) -> io::Result<()>
    ensures { IsTrue (is_plain file.now) → Writes (E.contents err.old) (E.contents err.new) (fault_text (Fault.OtherImage file.entry address)) result }
{
    let told = [
        Text(b": the trace of another image: the word at "),
        Word(address),
        Text(b" differs"),
    ];
    put_named(b"rvtl: ", file, &told, err)
}

fn put_too_many_rows<E: Write>(file: &str, err: &mut E) -> io::Result<()>
    ensures { IsTrue (is_plain file.now) → Writes (E.contents err.old) (E.contents err.new) (fault_text (Fault.TooManyRows file.entry)) result }
{
    let told =
        b": too much to draw (400 rows, or 65535 lines of text, at most): choose less by --line, or by a shorter script";
    put_of(file, told, err)
}

fn put_bad_address<E: Write>(word: &str, err: &mut E) -> io::Result<()>
    ensures { IsTrue (is_plain word.now) → Writes (E.contents err.old) (E.contents err.new) (fault_text (Fault.BadAddress word.entry)) result }
{
    let remedy = b": no address: give one in decimal, or in hexadecimal behind 0x";
    put_named(b"rvtl: --line ", word, &[Text(remedy)], err)
}

fn put_unshown<E: Write>(word: &str, cause: Unshown, err: &mut E) -> io::Result<()>
    ensures { IsTrue (is_plain word.now) → Writes (E.contents err.old) (E.contents err.new) (fault_text (Fault.CannotShow word.entry cause)) result }
{
    let cause = Text(unshown_text(cause).as_bytes());
    put_named(b"rvtl: --show ", word, &[Text(b": "), cause], err)
}

/// A cause of a file, by its number and its name.
fn put_cause<'a, E: Write>(
    file: &str,
    kind: &'a [u8],
    number: u8,
    name: &'a str,
    err: &mut E,
) -> io::Result<()>
    ensures { IsTrue (is_plain file.now) → Writes (E.contents err.old) (E.contents err.new) (codes "rvtl: " ++ (file.now ++ (kind.now ++ numbered_cause number name.now))) result }
{
    let told = [
        Text(kind),
        Number(u64::from(number)),
        Text(b" "),
        Text(name.as_bytes()),
    ];
    put_named(b"rvtl: ", file, &told, err)
}

/// A cause of a line of a file.
fn put_at_line<'a, E: Write>(
    file: &str,
    line: usize,
    kind: &'a [u8],
    number: u8,
    name: &'a str,
    err: &mut E,
) -> io::Result<()>
    ensures { IsTrue (is_plain file.now) → Writes (E.contents err.old) (E.contents err.new) (codes "rvtl: " ++ (file.now ++ line_text line (kind.now ++ numbered_cause number name.now))) result }
{
    let told = [
        Text(b": line "),
        Number(line as u64),
        Text(kind),
        Number(u64::from(number)),
        Text(b" "),
        Text(name.as_bytes()),
    ];
    put_named(b"rvtl: ", file, &told, err)
}

/// Writes what stands before a name, the name as messages have it (`Escaped`), and what stands behind it.
pub fn put_named<E: Write>(
    lead: &[u8],
    name: &str,
    behind: &[Piece<'_>],
    err: &mut E,
) -> io::Result<()>
    ensures { IsTrue (is_plain name.now) → Writes (E.contents err.old) (E.contents err.new) (lead.now ++ (name.now ++ pieces behind.now)) result }
{
    if is_plain(name) {
        return put_plain(lead, name.as_bytes(), behind, err);
    }
    put(err, lead)?;
    write!(err, "{}", Escaped(name))?;
    put_pieces(err, behind)
}

/// The same of a name that stands as it is.
#[tactic(auto, using(crate::proofs::Messages::named_stops, crate::proofs::Messages::named_writes))]
fn put_plain<'a, E: Write>(
    lead: &'a [u8],
    name: &'a [u8],
    behind: &[Piece<'_>],
    err: &mut E,
) -> io::Result<()>
    ensures { Writes (E.contents err.old) (E.contents err.new) (lead.now ++ (name.now ++ pieces behind.now)) result }
{
    put_pieces(err, &[Text(lead), Text(name)])?;
    put_pieces(err, behind)
}

/// Whether each byte is printable ASCII, and none is a backslash.
fn is_plain(name: &str) -> bool
    ensures { result ≡ is_plain name.now }
{
    name.as_bytes().iter().all(|byte| is_plain_byte(*byte))
}

fn is_plain_byte(byte: u8) -> bool
    ensures { result ≡ is_plain_byte byte }
{
    byte >= b' ' && byte < 127 && byte != b'\\'
}

fn load_error_name(error: LoadError) -> &'static str
    ensures { result.now ≡ load_error_name error }
{
    match error {
        LoadError::Short => "Short",
        LoadError::Magic => "Magic",
        LoadError::Class => "Class",
        LoadError::FileType => "FileType",
        LoadError::Machine => "Machine",
        LoadError::Flags => "Flags",
        LoadError::HeaderTable => "HeaderTable",
        LoadError::SegmentOutside => "SegmentOutside",
        LoadError::SegmentOverlap => "SegmentOverlap",
        LoadError::Entry => "Entry",
        LoadError::NoMemory => "NoMemory",
    }
}

fn text_code_name(code: TextCode) -> &'static str
    ensures { result.now ≡ text_code_name code }
{
    match code {
        TextCode::Header => "Header",
        TextCode::Word => "Word",
        TextCode::Fields => "Fields",
        TextCode::Order => "Order",
        TextCode::End => "End",
        TextCode::NoMemory => "NoMemory",
    }
}

fn apply_error_name(error: ApplyError) -> &'static str
    ensures { result.now ≡ apply_error_name error }
{
    match error {
        ApplyError::BadEvent => "BadEvent",
        ApplyError::Limit => "Limit",
        ApplyError::NoMemory => "NoMemory",
    }
}

fn check_error_name(error: CheckError) -> &'static str
    ensures { result.now ≡ check_error_name error }
{
    match error {
        CheckError::NotAnOrder => "NotAnOrder",
        CheckError::NotARun => "NotARun",
        CheckError::TooLong => "TooLong",
        CheckError::NoMemory => "NoMemory",
    }
}

fn unshown_text(cause: Unshown) -> &'static str
    ensures { result.now ≡ unshown_text cause }
{
    match cause {
        Unshown::Elsewhere => "not with --sample: leave out one of them",
        Unshown::NoSymbol =>
            "no such symbol in IMAGE, and no number below 2^32: name another (nm lists them, none where -s linked it) or give an address",
        Unshown::NoWord =>
            "no aligned word of memory: choose a multiple of 4 from 0x80000000 to the end of --memory (hexadecimal stands behind 0x)",
    }
}
