//! Writing the lines of a report.
ghost use Rattle.std.specs.Prelude.{◌≡◌, ◌+◌, ◌<◌, ◌≤◌, ◌^◌, ◌∷◌, ◌++◌, [], Some, is_some, length, decimal};
ghost use Rattle.std.specs.List.{flat_map};
ghost use Rattle.coherent_machine.specs.Machine.{IsReached};
ghost use Rattle.rv32_decode.specs.Rows.{decoded};
ghost use Rattle.text_fields.specs.Pages.{HasLineRoom, Spells, size};
ghost use Rattle.event_stream.specs.Accesses.{accessed};
ghost use Rattle.event_stream.specs.Comments.{start};
ghost use Rattle.event_stream.specs.Disassembly.{AreKept};
ghost use Rattle.event_stream.specs.Lines as lines;
ghost use Rattle.event_stream.specs.Telling.{report_of};

use crate::accesses::spell_access;
use crate::disassembly::Disassembly;
use crate::report::{Report, hart_of};
use crate::spellings::spell_outcome;
use crate::stalls::put_stall;
use coherent_machine::Machine;
use elf_symbols::Symbols;
use hart::Retired;
use machine_types::{Event, Outcome};
use rv32_decode::decode;
use rv32_exec::Action;
use std::io::{Result, Write};
use text_fields::Page;
use trace_text::{put_log, put_performed, spell_event, spell_retired};

/// An event behind the number of its line in the script, and its outcome.
fn spell_told(page: &mut Page, index: usize, event: Event, outcome: Outcome)
    requires room { HasLineRoom page.old }
    requires few { index + 2 < 2 ^ 64 }
    ensures { page.new ≡ page.old ++ lines.event_text (decimal (index + 2)) event outcome }
{
    page.text(b"E ");
    page.number(index as u64 + 2, b' ');
    spell_event(page, event, b' ');
    spell_outcome(page, outcome);
}

fn put_line_feed<W: Write>(page: &mut Page, out: &mut W) -> Result<()>
    ensures { Spells (W.contents out.old) (W.contents out.new) page.old page.new (10 ∷ []) result }
{
    page.make_room(out)?;
    page.text(b"\n");
    Ok(())
}

/// An event's line.
fn put_event_line<W: Write>(
    page: &mut Page,
    out: &mut W,
    machine: &Machine,
    index: usize,
    event: Event,
    outcome: Outcome,
) -> Result<()>
    requires few { index + 2 < 2 ^ 64 }
    requires reached { IsReached machine.now }
    ensures { Spells (W.contents out.old) (W.contents out.new) page.old page.new (lines.event_line machine.now index event outcome) result }
{
    page.make_room(out)?;
    spell_told(page, index, event, outcome);
    put_stall(page, out, machine, event, outcome)?;
    put_line_feed(page, out)
}

/// An R line up to the end of its instruction, and whether there is one: else the line is whole.
fn spell_start(
    page: &mut Page,
    names: &Symbols,
    instructions: &mut Disassembly,
    hart: u8,
    entry: &Retired,
) -> bool
    requires room { HasLineRoom page.old }
    requires kept { AreKept names.now instructions.old }
    ensures instruction { result ≡ is_some (decoded entry.now.word) }
    ensures value { page.new ≡ page.old ++ start names.now hart entry.now }
    ensures len { length page.new ≤ length page.old + 251 }
    ensures kept { AreKept names.now instructions.new }
{
    if let Some(text) = instructions.text(entry.pc, entry.word) {
        spell_retired(page, hart as u64, entry, b' ');
        page.text(text);
        return true;
    }
    match decode(entry.word) {
        Some(instr) => {
            spell_retired(page, hart as u64, entry, b' ');
            instructions.spell(page, names, entry.pc, entry.word, &instr);
            true
        }
        None => {
            spell_retired(page, hart as u64, entry, b'\n');
            false
        }
    }
}

/// What an instruction did to memory, and the end of its line.
fn spell_end(page: &mut Page, names: &Symbols, action: Action, entry: &Retired)
    requires { HasLineRoom page.old }
    ensures { page.new ≡ page.old ++ (accessed names.now (Some action) entry.now ++ 10 ∷ []) }
{
    spell_access(page, names, action, entry);
    page.text(b"\n");
}

/// The same, where it is known what the instruction was to do.
fn put_end<W: Write>(
    page: &mut Page,
    out: &mut W,
    names: &Symbols,
    action: Option<Action>,
    entry: &Retired,
) -> Result<()>
    requires { length page.old + 1 ≤ size }
    ensures { Spells (W.contents out.old) (W.contents out.new) page.old page.new (accessed names.now action entry.now ++ 10 ∷ []) result }
{
    match action {
        Some(action) => {
            page.make_room(out)?;
            spell_end(page, names, action, entry);
        }
        None => page.text(b"\n"),
    }
    Ok(())
}

/// An R line, with the instruction behind it and what that did to memory.
fn put_entry<W: Write>(
    page: &mut Page,
    out: &mut W,
    names: &Symbols,
    instructions: &mut Disassembly,
    hart: u8,
    action: Option<Action>,
    entry: &Retired,
) -> Result<()>
    requires { AreKept names.now instructions.old }
    ensures line { Spells (W.contents out.old) (W.contents out.new) page.old page.new (lines.retired_line names.now hart action entry.now) result }
    ensures kept { AreKept names.now instructions.new }
{
    page.make_room(out)?;
    if spell_start(page, names, instructions, hart, entry) {
        put_end(page, out, names, action, entry)
    } else {
        Ok(())
    }
}

fn put_entries<W: Write>(
    page: &mut Page,
    out: &mut W,
    names: &Symbols,
    instructions: &mut Disassembly,
    hart: u8,
    action: Option<Action>,
    entries: &[Retired],
) -> Result<()>
    requires { AreKept names.now instructions.old }
    ensures lines { Spells (W.contents out.old) (W.contents out.new) page.old page.new (flat_map (lines.retired_line names.now hart action) entries.now) result }
    ensures kept { AreKept names.now instructions.new }
{
    for entry in entries {
        put_entry(page, out, names, instructions, hart, action, entry)?;
    }
    Ok(())
}

fn spell_number(page: &mut Page, hart: u8, number: u32)
    requires { HasLineRoom page.old }
    ensures { page.new ≡ page.old ++ lines.output_line hart number }
{
    page.text(b"O ");
    page.number(hart as u64, b' ');
    page.number(number as u64, b'\n');
}

fn put_output<W: Write>(page: &mut Page, out: &mut W, hart: u8, output: &[u32]) -> Result<()>
    ensures { Spells (W.contents out.old) (W.contents out.new) page.old page.new (flat_map (lines.output_line hart) output.now) result }
{
    for number in output {
        page.make_room(out)?;
        spell_number(page, hart, *number);
    }
    Ok(())
}

/// The event's line, and the lines of what it made longer.
pub(crate) fn put_report<W: Write>(
    page: &mut Page,
    out: &mut W,
    names: &Symbols,
    instructions: &mut Disassembly,
    report: &Report<'_>,
) -> Result<()>
    requires few { report.now.index + 2 < 2 ^ 64 }
    requires reached { IsReached report.now.machine.now }
    requires kept { AreKept names.now instructions.old }
    ensures lines { Spells (W.contents out.old) (W.contents out.new) page.old page.new (lines.report_lines names.now (report_of report.now)) result }
    ensures kept { AreKept names.now instructions.new }
{
    let hart = hart_of(report.event);
    put_event_line(
        page,
        out,
        report.machine,
        report.index,
        report.event,
        report.outcome,
    )?;
    put_entries(
        page,
        out,
        names,
        instructions,
        hart,
        report.action,
        report.entries,
    )?;
    put_performed(page, out, report.performed)?;
    put_log(page, out, report.log)?;
    put_output(page, out, hart, report.output)
}
