//! Writers of pieces of a text, to any `Write`.
ghost use Rattle.text_fields.specs.Fields.{hex_byte, hex};
ghost use Rattle.text_fields.specs.Writing.{piece, pieces, Writes};

use crate::digits::{digit, word_text};
use itoa::Buffer;
use std::io::{Error, ErrorKind, Write};

/// A part of a line.
#[derive(Clone, Copy)]
pub enum Piece<'a> {
    Text(&'a [u8]),
    Number(u64),
    Word(u32),
    Hex(&'a [u8]),
}

/// All of the bytes. A write that takes no byte is a fault, and one that was interrupted is tried again.
pub fn put<W: Write>(out: &mut W, bytes: &[u8]) -> Result<(), Error>
    ensures { Writes (W.contents out.old) (W.contents out.new) bytes.now result }
{
    let mut rest = bytes;
    for _ in 0..u64::MAX {
        if rest.is_empty() {
            return Ok(());
        }
        match out.write(rest) {
            Ok(0) => return Err(Error::from(ErrorKind::WriteZero)),
            Ok(taken) => {
                let (_, others) = rest.split_at(taken);
                rest = others;
            }
            Err(error) => {
                if error.kind() != ErrorKind::Interrupted {
                    return Err(error);
                }
            }
        }
    }
    Err(Error::from(ErrorKind::Interrupted))
}

fn put_hex_byte<W: Write>(out: &mut W, byte: u8) -> Result<(), Error>
    ensures { Writes (W.contents out.old) (W.contents out.new) (hex_byte byte) result }
{
    put(out, &[digit(byte / 16), digit(byte % 16)])
}

fn put_hex<W: Write>(out: &mut W, bytes: &[u8]) -> Result<(), Error>
    ensures { Writes (W.contents out.old) (W.contents out.new) (hex bytes.now) result }
{
    for byte in bytes {
        put_hex_byte(out, *byte)?;
    }
    Ok(())
}

fn put_piece<W: Write>(out: &mut W, part: Piece<'_>) -> Result<(), Error>
    ensures { Writes (W.contents out.old) (W.contents out.new) (piece part.entry) result }
{
    match part {
        Piece::Text(text) => put(out, text),
        Piece::Number(n) => {
            let mut digits = Buffer::new();
            put(out, digits.format(n).as_bytes())
        }
        Piece::Word(n) => put(out, &word_text(n)),
        Piece::Hex(bytes) => put_hex(out, bytes),
    }
}

/// The pieces, one after another.
pub fn put_pieces<W: Write>(out: &mut W, parts: &[Piece<'_>]) -> Result<(), Error>
    ensures { Writes (W.contents out.old) (W.contents out.new) (pieces parts.now) result }
{
    for part in parts {
        put_piece(out, *part)?;
    }
    Ok(())
}
