//! A hart's end and what it put out, as text.

ghost use Rattle.std.specs.List.{flat_map};
ghost use Rattle.hart_ends.specs.Ends.{hart_text, number_text, output_text, status_text};
ghost use Rattle.text_fields.specs.Writing.{Writes};

use hart::Status;
use std::io::{self, Write};
use text_fields::{Piece, put, put_pieces};

/// A hart's number, how it ended and what it put out, as in `hart 0: exit 0 output 7`. After the writer's fault a
/// beginning of this went out.
pub fn put_end<W: Write>(hart: usize, status: Status, output: &[u32], out: &mut W) -> io::Result<()>
    ensures { Writes (W.contents out.old) (W.contents out.new) (hart_text hart status output.now) result }
{
    let number = Piece::Number(hart as u64);
    put_pieces(out, &[Piece::Text(b"hart "), number, Piece::Text(b": ")])?;
    put_status(status, out)?;
    put_output(output, out)
}

fn put_status<W: Write>(status: Status, out: &mut W) -> io::Result<()>
    ensures { Writes (W.contents out.old) (W.contents out.new) (status_text status) result }
{
    let (word, code): (&[u8], u8) = match status {
        Status::Running => return put(out, b"run"),
        Status::Stopped(code) => (b"stop ", code),
        Status::Exited(code) => (b"exit ", code),
    };
    put_pieces(out, &[Piece::Text(word), Piece::Number(u64::from(code))])
}

fn put_output<W: Write>(output: &[u32], out: &mut W) -> io::Result<()>
    ensures { Writes (W.contents out.old) (W.contents out.new) (output_text output.now) result }
{
    if output.is_empty() {
        return Ok(());
    }
    put(out, b" output")?;
    put_numbers(output, out)
}

fn put_numbers<W: Write>(numbers: &[u32], out: &mut W) -> io::Result<()>
    ensures { Writes (W.contents out.old) (W.contents out.new) (flat_map number_text numbers.now) result }
{
    for number in numbers {
        let number = Piece::Number(u64::from(*number));
        put_pieces(out, &[Piece::Text(b" "), number])?;
    }
    Ok(())
}
