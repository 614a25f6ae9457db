//! The log of standard input, judged as it comes.

ghost use Rattle.std.specs.Prelude.{ℕ, ◌≡◌, ◌==◌, ◌<◌, List, IfErr, IfOk, IfSome, Option, false, length, true};
ghost use Rattle.std.specs.Io.KnownBytes.{Consumes, IsAtEnd};
ghost use Rattle.std.specs.List.{list_any};
ghost use Rattle.check_command.specs.Piped.{HasPiped, IsBrokenBy, IsLongFirstOf};
ghost use Rattle.command_files.specs.Contents.{IsUnread, is_input};
ghost use Rattle.command_files.specs.Faults.{IsReadFault, IsTextFault};

use crate::messages::{MessageCheck, ReadLog};
use crate::watch::Watch;
use command_files::notes::FileNote;
use command_files::{Fault, Files, remark};
use std::alloc::Global;
use std::io::{self, ErrorKind, Read};
use trace_text::{TextCause, TextCode, TextError};

/// How many bytes are read at a time, at most.
const PIECE: usize = 65_536;

/// How many bytes may stand in a text's first line, and how many in a text, as of any file.
const FIRST: usize = 65_536;

const MOST: usize = 1 << 31;

/// What was read of standard input.
#[derive(Drop)]
pub(crate) enum Piped {
    /// All of it.
    Whole(Vec<u8>),
    /// As much as has a message that breaks a rule.
    Broken(ReadLog),
}

/// Reads standard input as it comes, to its end, or until a message breaks a rule.
pub(crate) fn piped_log<'a, F: Files>(
    alloc: Global,
    files: &mut F,
    file: &'a str,
    check: MessageCheck,
) -> Result<Piped, Fault<'a>>
    requires input { is_input file.now ≡ true }
    requires first { check.all ≡ false }
    ensures read { IfOk result (HasPiped (F.held files.old) file.entry.now check) }
    ensures fault { IfErr result (IsTextFault (F.held files.old) file.entry) }
    ensures spared { F.held files.new ≡ F.held files.old }
{
    match files.open(file) {
        Ok(reader) => read_on(alloc, files, file, check, reader),
        Err(error) => Err(unread(alloc, files, file, error)),
    }
}

/// Reads piece after piece.
fn read_on<'a, F: Files>(
    alloc: Global,
    files: &mut F,
    file: &'a str,
    check: MessageCheck,
    mut reader: F::Reader,
) -> Result<Piped, Fault<'a>>
    requires input { is_input file.now ≡ true }
    requires first { check.all ≡ false }
    requires unread { IsUnread (F.held files.old file.now) (F.Reader.remaining reader) }
    ensures read { IfOk result (HasPiped (F.held files.old) file.entry.now check) }
    ensures fault { IfErr result (IsTextFault (F.held files.old) file.entry) }
    ensures spared { F.held files.new ≡ F.held files.old }
{
    let mut watch = Watch::new(alloc);
    let mut bytes = Vec::new(alloc);
    for _ in 0..u64::MAX {
        match read_more(alloc, &mut reader, &mut bytes) {
            Ok(true) => {}
            Ok(false) => return Ok(Piped::Whole(bytes)),
            Err(error) => return Err(unread(alloc, files, file, error)),
        }
        if let Some(fault) = too_long(alloc, files, file, &bytes) {
            return Err(fault);
        }
        match watch.broken_log(alloc, &bytes, check) {
            Ok(Some(log)) => return Ok(Piped::Broken(log)),
            Ok(None) => {}
            Err(_) => return Err(Fault::OutOfMemory),
        }
    }
    Err(Fault::CannotRead { file })
}

/// Reads what has come, behind the bytes. False at the end.
fn read_more<R: Read>(alloc: Global, reader: &mut R, bytes: &mut Vec<u8>) -> io::Result<bool>
    ensures read { IfOk result (λ more. (known : Option (List ℕ)) → Consumes known (R.remaining reader.old) bytes.old.items → Consumes known (R.remaining reader.new) bytes.new.items) }
    ensures end { IfOk result (λ more. more ≡ false → IsAtEnd (R.remaining reader.new)) }
{
    let mut piece = vec![in alloc; 0u8; PIECE]?;
    read_piece(reader, &mut piece, bytes)
}

/// The same by way of a buffer.
fn read_piece<R: Read>(reader: &mut R, piece: &mut [u8], bytes: &mut Vec<u8>) -> io::Result<bool>
    requires { 0 < length piece.old }
    ensures room { length piece.new ≡ length piece.old }
    ensures read { IfOk result (λ more. (known : Option (List ℕ)) → Consumes known (R.remaining reader.old) bytes.old.items → Consumes known (R.remaining reader.new) bytes.new.items) }
    ensures end { IfOk result (λ more. more ≡ false → IsAtEnd (R.remaining reader.new)) }
{
    let count = reader.read(piece)?;
    bytes.extend_from_slice(&piece[..count])?;
    Ok(count > 0)
}

/// Why no more of these bytes is read, if they begin with a longer line than any text, or are more than a text may have.
fn too_long<'a, F: Files>(
    alloc: Global,
    files: &mut F,
    file: &'a str,
    bytes: &[u8],
) -> Option<Fault<'a>>
    requires { (left : Option (List ℕ)) × Consumes (F.held files.old file.now) left bytes.now }
    ensures fault { IfSome result (IsTextFault (F.held files.old) file.entry) }
    ensures spared { F.held files.new ≡ F.held files.old }
{
    if has_long_first_line(bytes) {
        remark(alloc, files, "no line ends in its first 65536 bytes");
        let error = TextError {
            line: 1,
            code: TextCode::Header,
            cause: TextCause::LongLine,
        };
        return Some(Fault::Text { file, error });
    }
    if bytes.len() > MOST {
        let why = format_args!("it has more than {MOST} bytes, and no more is read");
        remark(alloc, files, why);
        return Some(Fault::CannotRead { file });
    }
    None
}

/// Whether no line ends in the first bytes, where there are so many.
fn has_long_first_line(bytes: &[u8]) -> bool
    ensures { result ≡ true → IsLongFirstOf bytes.now }
{
    if bytes.len() < FIRST {
        return false;
    }
    has_no_line_end(&bytes[..FIRST])
}

fn has_no_line_end(bytes: &[u8]) -> bool
    ensures { result ≡ true → list_any (λ byte. byte == 10) bytes.now ≡ false }
{
    !bytes.contains(&b'\n')
}

/// A file could not be opened or read, and why is remarked.
fn unread<'a, F: Files>(alloc: Global, files: &mut F, file: &'a str, error: io::Error) -> Fault<'a>
    ensures fault { IsReadFault file.entry result }
    ensures spared { F.held files.new ≡ F.held files.old }
{
    if error.kind() != ErrorKind::OutOfMemory {
        remark(alloc, files, FileNote(error));
    }
    Fault::reading(file, error)
}
