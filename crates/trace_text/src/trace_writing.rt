//! Writing a trace.
ghost use Rattle.std.specs.Prelude.{◌≡◌, ◌+◌, ◌≤◌, ◌∷◌, ◌++◌, ◌/◌, [], codes, length};
ghost use Rattle.elf_loader.specs.Size.{base};
ghost use Rattle.trace_text.specs.Widths.{IsWidth};
ghost use Rattle.std.specs.List.{flat_map};
ghost use Rattle.text_fields.specs.Fields.{numbered, word, hex};
ghost use Rattle.text_fields.specs.Pages.{size, HasLineRoom, Spells};
ghost use Rattle.text_fields.specs.Writing.{Writes};
ghost use Rattle.trace_text.specs.Traces as spelled;
ghost use Rattle.trace_text.specs.Words as words;

use crate::head::TraceHead;
use crate::spellings::{spell_channel, spell_data, spell_direction, spell_name, spell_permissions};
use crate::version::is_first_version;
use elf_loader::BASE;
use hart::{Retired, Status};
use std::io::{Result, Write};
use text_fields::Page;
use trace_recorder::{Logged, OpId, Trace};

fn spell_head(page: &mut Page, head: TraceHead)
    requires { HasLineRoom page.old }
    ensures { page.new ≡ page.old ++ spelled.head head }
{
    if is_first_version(head.harts as u64, head.line) {
        page.text(b"rvtl-trace 1\nT ");
        page.number(head.harts as u64, b' ');
        page.number(head.kib as u64, b' ');
        page.word(head.entry);
        page.text(b"\n");
    } else {
        page.text(b"rvtl-trace 2\nT ");
        page.number(head.harts as u64, b' ');
        page.number(head.kib as u64, b' ');
        page.word(head.entry);
        page.text(b" ");
        page.number(head.line.bytes() as u64, b'\n');
    }
}

pub(crate) fn any_set(bytes: &[u8]) -> bool
    ensures { result ≡ spelled.any_set bytes.now }
{
    let mut rest = bytes;
    while let [byte, others @ ..] = rest {
        if *byte != 0 {
            return true;
        }
        rest = others;
    }
    false
}

/// A line of the image that isn't all zero.
fn spell_set_line(page: &mut Page, address: u32, bytes: &[u8])
    requires room { HasLineRoom page.old }
    requires width { length bytes.now ≤ 64 }
    ensures { page.new ≡ page.old ++ (codes "I " ++ (word address ++ (32 ∷ (hex bytes.now ++ 10 ∷ [])))) }
{
    page.text(b"I ");
    page.word(address);
    page.text(b" ");
    page.hex(bytes);
    page.text(b"\n");
}

fn spell_image_line(page: &mut Page, address: u32, bytes: &[u8])
    requires room { HasLineRoom page.old }
    requires width { length bytes.now ≤ 64 }
    ensures { page.new ≡ page.old ++ spelled.image_line address bytes.now }
{
    if any_set(bytes) {
        spell_set_line(page, address, bytes);
    }
}

/// Appends the I lines of memory, in lines of so many bytes, from the image's first address on. What has
/// no room on the page is handed on.
pub fn put_image<W: Write>(page: &mut Page, out: &mut W, bytes: &[u8], width: u32) -> Result<()>
    requires fits { length bytes.now ≤ 1048576 }
    requires width { IsWidth width }
    ensures { Spells (W.contents out.old) (W.contents out.new) page.old page.new (spelled.image_lines width (length bytes.now / width) base bytes.now) result }
{
    let mut address = BASE;
    let mut rest = bytes;
    while rest.len() >= width as usize {
        let (line, others) = rest.split_at(width as usize);
        page.make_room(out)?;
        spell_image_line(page, address, line);
        address += width;
        rest = others;
    }
    Ok(())
}

/// What a load, an LR or an AMO read.
fn spell_loaded(page: &mut Page, word: Option<u32>)
    requires { length page.old + 10 ≤ size }
    ensures value { page.new ≡ page.old ++ words.loaded word }
    ensures len { length page.new ≤ length page.old + 10 }
{
    match word {
        None => page.text(b"-"),
        Some(value) => page.word(value),
    }
}

/// Whether an SC wrote.
fn spell_answer(page: &mut Page, sc_ok: Option<bool>)
    requires { length page.old + 4 ≤ size }
    ensures value { page.new ≡ page.old ++ words.answer sc_ok }
    ensures len { length page.new ≤ length page.old + 4 }
{
    match sc_ok {
        None => page.text(b"-"),
        Some(true) => page.text(b"ok"),
        Some(false) => page.text(b"fail"),
    }
}

/// Appends an R line, but with this byte at its end.
pub fn spell_retired(page: &mut Page, hart: u64, entry: &Retired, end: u8)
    requires { HasLineRoom page.old }
    ensures value { page.new ≡ page.old ++ (spelled.retired_lead hart ++ spelled.retired_ended end entry.now) }
    ensures len { length page.new ≤ length page.old + 61 }
{
    page.text(b"R ");
    page.number(hart, b' ');
    page.word(entry.pc);
    page.text(b" ");
    page.word(entry.word);
    page.text(b" ");
    spell_loaded(page, entry.loaded);
    page.text(b" ");
    spell_answer(page, entry.sc_ok);
    page.text(&[end]);
}

fn put_list<W: Write>(page: &mut Page, out: &mut W, hart: u64, entries: &[Retired]) -> Result<()>
    ensures { Spells (W.contents out.old) (W.contents out.new) page.old page.new (spelled.entries hart entries.now) result }
{
    for entry in entries {
        page.make_room(out)?;
        spell_retired(page, hart, entry, b'\n');
    }
    Ok(())
}

fn put_entries<W: Write>(page: &mut Page, out: &mut W, trace: &Trace) -> Result<()>
    ensures { Spells (W.contents out.old) (W.contents out.new) page.old page.new (numbered spelled.entries 0 trace.now.history.entries) result }
{
    for hart in 0..trace.harts() {
        put_list(page, out, hart as u64, trace.entries(hart))?;
    }
    Ok(())
}

fn spell_operation(page: &mut Page, operation: OpId)
    requires { HasLineRoom page.old }
    ensures { page.new ≡ page.old ++ spelled.operation operation }
{
    page.text(b"P ");
    page.number(operation.hart as u64, b' ');
    page.number(operation.place as u64, b'\n');
}

/// Appends a P line for each operation. What has no room on the page is handed on.
pub fn put_performed<W: Write>(page: &mut Page, out: &mut W, performed: &[OpId]) -> Result<()>
    ensures { Spells (W.contents out.old) (W.contents out.new) page.old page.new (flat_map spelled.operation performed.now) result }
{
    for operation in performed {
        page.make_room(out)?;
        spell_operation(page, *operation);
    }
    Ok(())
}

fn spell_logged(page: &mut Page, entry: &Logged)
    requires { HasLineRoom page.old }
    ensures { page.new ≡ page.old ++ spelled.logged entry.now }
{
    let message = &entry.message;
    page.text(b"M ");
    spell_direction(page, entry.direction);
    spell_channel(page, message.channel());
    page.number(entry.hart as u64, b' ');
    spell_name(page, message);
    page.word(message.line);
    spell_permissions(page, message);
    spell_data(page, message);
    page.text(b"\n");
}

/// Appends an M line for each message. What has no room on the page is handed on.
pub fn put_log<W: Write>(page: &mut Page, out: &mut W, log: &[Logged]) -> Result<()>
    ensures { Spells (W.contents out.old) (W.contents out.new) page.old page.new (flat_map spelled.logged log.now) result }
{
    for entry in log {
        page.make_room(out)?;
        spell_logged(page, entry);
    }
    Ok(())
}

/// Appends a hart's H line, but with this byte at its end.
pub fn spell_status(page: &mut Page, hart: u64, status: Status, end: u8)
    requires { HasLineRoom page.old }
    ensures value { page.new ≡ page.old ++ spelled.status_ended end hart status }
    ensures len { length page.new ≤ length page.old + 49 }
{
    page.text(b"H ");
    page.number(hart, b' ');
    match status {
        Status::Running => {
            page.text(b"run");
            page.text(&[end]);
        }
        Status::Stopped(code) => {
            page.text(b"stop ");
            page.number(code as u64, end);
        }
        Status::Exited(code) => {
            page.text(b"exit ");
            page.number(code as u64, end);
        }
    }
}

/// Appends the H lines. What has no room on the page is handed on.
pub fn put_statuses<W: Write>(page: &mut Page, out: &mut W, statuses: &[Status]) -> Result<()>
    ensures { Spells (W.contents out.old) (W.contents out.new) page.old page.new (numbered spelled.status 0 statuses.now) result }
{
    let mut hart: u64 = 0;
    let mut rest = statuses;
    while let [status, others @ ..] = rest {
        page.make_room(out)?;
        spell_status(page, hart, *status, b'\n');
        hart += 1;
        rest = others;
    }
    Ok(())
}

/// Writes the trace's text: two header lines, the image's lines that aren't all zero, the retired
/// instructions by hart, the performed operations, the messages, and each hart's status. After the
/// writer's fault a beginning of the text went out; a write that takes no byte is such a fault.
pub fn write_trace<W: Write>(trace: &Trace, out: &mut W) -> Result<()>
    ensures { Writes (W.contents out.old) (W.contents out.new) (spelled.text trace.now.history) result }
{
    let mut page = Page::new();
    spell_head(&mut page, TraceHead::of(trace));
    let memory = trace.image().bytes();
    let width = trace.line_size().bytes();
    put_image(&mut page, out, memory, width)?;
    put_entries(&mut page, out, trace)?;
    put_performed(&mut page, out, trace.performed())?;
    put_log(&mut page, out, trace.log())?;
    put_statuses(&mut page, out, trace.statuses())?;
    page.hand_on(out)
}
