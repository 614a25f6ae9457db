//! Writing all that a machine holds.
ghost use Rattle.std.specs.Prelude.{◌≡◌, ◌+◌, ◌<◌, ◌≤◌, ◌/◌, ◌++◌, length};
ghost use Rattle.coherent_machine.specs.Machine.{IsReached};
ghost use Rattle.event_stream.specs.States as states;
ghost use Rattle.machine_model.specs.Ready.{line_count};
ghost use Rattle.text_fields.specs.Pages.{HasLineRoom, Spells};
ghost use Rattle.text_fields.specs.Writing.{Writes};
ghost use Rattle.tl_types.specs.Line.{bytes_of, length_of};

use crate::holding::{put_held, spell_bytes};
use crate::noting::put_noted;
use crate::waits::{line_address, size_of};
use coherent_machine::Machine;
use machine_model::sound_always;
use std::io::{Result, Write};
use text_fields::Page;
use tl_types::{LineData, LineSize};

/// Of memory's bytes those of its line of this number.
fn piece(size: LineSize, number: u32, bytes: &[u8]) -> &[u8]
    requires few { number < 65536 }
    requires inside { number < length bytes.now / length_of size }
    ensures { result.now ≡ states.piece size number bytes.now }
{
    let start = number as usize;
    match size {
        LineSize::Bytes16 => &bytes[start * 16..start * 16 + 16],
        LineSize::Bytes64 => &bytes[start * 64..start * 64 + 64],
    }
}

fn spell_data(page: &mut Page, line: u32, bytes: &LineData)
    requires { HasLineRoom page.old }
    ensures { page.new ≡ page.old ++ states.data_line line (bytes_of bytes.now) }
{
    page.text(b"D ");
    page.word(line);
    page.text(b" ");
    spell_bytes(page, bytes);
    page.text(b"\n");
}

/// A line of memory, where it is other than at reset.
fn spell_changed(page: &mut Page, line: u32, reset: &[u8], bytes: &LineData)
    requires { HasLineRoom page.old }
    ensures { page.new ≡ page.old ++ states.changed_line line reset.now (bytes_of bytes.now) }
{
    if bytes.as_slice() != reset {
        spell_data(page, line, bytes);
    }
}

fn spell_changed_at(page: &mut Page, machine: &Machine, number: u32)
    requires room { HasLineRoom page.old }
    requires few { number < 65536 }
    requires line { number < length machine.now.views.memory }
    requires image { number < line_count machine.now }
    ensures { page.new ≡ page.old ++ states.changed_at machine.now number }
{
    let size = size_of(machine);
    let reset = piece(size, number, machine.trace().image().bytes());
    let bytes = machine.views().memory().line(number);
    spell_changed(page, line_address(size, number), reset, &bytes);
}

/// The lines of memory that are other than at reset.
fn put_changed<W: Write>(page: &mut Page, out: &mut W, machine: &Machine) -> Result<()>
    requires { length machine.now.views.memory ≡ line_count machine.now }
    ensures { Spells (W.contents out.old) (W.contents out.new) page.old page.new (states.changed_lines machine.now) result }
{
    let count = machine.views().memory().line_count();
    let mut number = 0;
    while number < count {
        page.make_room(out)?;
        spell_changed_at(page, machine, number);
        number += 1;
    }
    Ok(())
}

/// Writes what a machine holds: its harts' registers, stores that wait, reservations, copies, requests and
/// messages, its manager's notes, and what memory has that it had not at reset. A write that takes no byte
/// is a writer's fault.
pub fn write_state<W: Write>(machine: &Machine, out: &mut W) -> Result<()>
    requires { IsReached machine.now }
    ensures { Writes (W.contents out.old) (W.contents out.new) (states.state_lines machine.now) result }
{
    sound_always();
    let mut page = Page::new();
    put_held(&mut page, out, machine)?;
    put_noted(&mut page, out, machine)?;
    put_changed(&mut page, out, machine)?;
    page.hand_on(out)
}
