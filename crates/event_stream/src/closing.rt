//! Writing each hart's H line, with what its next step would come to or why it stopped.
ghost use Rattle.std.specs.Prelude.{◌≡◌, ◌+◌, ◌<◌, ◌≤◌, ◌∷◌, ◌++◌, [], codes, length};
ghost use Rattle.coherent_machine.specs.Machine.{IsReached};
ghost use Rattle.event_stream.specs.Closing as closing;
ghost use Rattle.event_stream.specs.Lines.{disassembled};
ghost use Rattle.text_fields.specs.Fields.{numbered};
ghost use Rattle.text_fields.specs.Pages.{HasLineRoom, Spells, size};
ghost use Rattle.trace_text.specs.Traces.{status_ended};

use crate::naming::spell_instruction;
use crate::spellings::spell_outcome;
use crate::waits::put_waited;
use coherent_machine::{ApplyError, Machine};
use elf_symbols::Symbols;
use hart::{Status, instr_at};
use machine_model::sound_always;
use machine_types::{Event, Outcome};
use rv32_decode::Instr;
use std::io::{self, Write};
use text_fields::Page;
use trace_text::spell_status;

/// Why a hart stopped, by its code.
pub(crate) fn reason(code: u8) -> &'static str
    ensures value { result.now ≡ closing.reason code }
    ensures len { length result.now ≤ 35 }
{
    match code {
        0 => "jump target misaligned",
        1 => "fetch outside memory",
        2 => "illegal instruction",
        3 => "EBREAK",
        4 => "load misaligned",
        5 => "load outside memory",
        6 => "store, LR, SC or AMO misaligned",
        7 => "store, LR, SC or AMO outside memory",
        _ => "unknown call",
    }
}

fn error_name(error: ApplyError) -> &'static str
    ensures value { result.now ≡ closing.error_name error }
    ensures len { length result.now ≤ 8 }
{
    match error {
        ApplyError::BadEvent => "BadEvent",
        ApplyError::Limit => "Limit",
        ApplyError::NoMemory => "NoMemory",
    }
}

fn put_answer<W: Write>(
    page: &mut Page,
    out: &mut W,
    machine: &Machine,
    hart: usize,
    answer: Result<Outcome, ApplyError>,
) -> io::Result<()>
    requires room { length page.old + 36 ≤ size }
    requires hart { hart < length machine.now.views.nodes }
    requires sets { 0 < machine.now.views.config.sets }
    ensures { Spells (W.contents out.old) (W.contents out.new) page.old page.new (closing.answer machine.now hart answer) result }
{
    match answer {
        Ok(outcome) => {
            spell_outcome(page, outcome);
            put_waited(page, out, machine, hart, outcome)
        }
        Err(error) => {
            page.text(error_name(error).as_bytes());
            Ok(())
        }
    }
}

/// An instruction at this address behind a semicolon, where there is one.
fn spell_disassembled(page: &mut Page, names: &Symbols, pc: u32, instr: Option<Instr>)
    requires { length page.old + 191 ≤ size }
    ensures value { page.new ≡ page.old ++ disassembled names.now pc instr }
    ensures len { length page.new ≤ length page.old + 191 }
{
    if let Some(instr) = instr {
        page.text(b" ; ");
        spell_instruction(page, names, pc, &instr);
    }
}

/// The hart's next instruction, and the end of the line.
fn spell_next(page: &mut Page, names: &Symbols, machine: &Machine, hart: usize)
    requires room { HasLineRoom page.old }
    requires hart { hart < length machine.now.views.nodes }
    ensures { page.new ≡ page.old ++ (closing.next_text names.now machine.now hart ++ 10 ∷ []) }
{
    let pc = machine.views().hart(hart).pc;
    spell_disassembled(page, names, pc, instr_at(machine.trace().image(), pc));
    page.text(b"\n");
}

fn put_next<W: Write>(
    page: &mut Page,
    out: &mut W,
    names: &Symbols,
    machine: &Machine,
    hart: usize,
) -> io::Result<()>
    requires { hart < length machine.now.views.nodes }
    ensures { Spells (W.contents out.old) (W.contents out.new) page.old page.new (closing.next_text names.now machine.now hart ++ 10 ∷ []) result }
{
    page.make_room(out)?;
    spell_next(page, names, machine, hart);
    Ok(())
}

/// The beginning of a line on which more stands than in a trace.
fn spell_lead(page: &mut Page, hart: u8, status: Status)
    requires { HasLineRoom page.old }
    ensures value { page.new ≡ page.old ++ (status_ended 32 hart status ++ codes "; ") }
    ensures len { length page.new ≤ length page.old + 51 }
{
    spell_status(page, hart as u64, status, b' ');
    page.text(b"; ");
}

fn put_running<W: Write>(
    page: &mut Page,
    out: &mut W,
    names: &Symbols,
    machine: &Machine,
    hart: u8,
) -> io::Result<()>
    requires hart { hart < length machine.now.views.nodes }
    requires sets { 0 < machine.now.views.config.sets }
    ensures { Spells (W.contents out.old) (W.contents out.new) page.old page.new (closing.closing_line names.now machine.now hart Status.Running) result }
{
    page.make_room(out)?;
    spell_lead(page, hart, Status::Running);
    let answer = machine.foresee(Event::Step { hart });
    put_answer(page, out, machine, hart as usize, answer)?;
    put_next(page, out, names, machine, hart as usize)
}

/// The beginning of the line of a hart that stopped, and why it did.
fn spell_stop(page: &mut Page, hart: u8, code: u8)
    requires { HasLineRoom page.old }
    ensures { page.new ≡ page.old ++ ((status_ended 32 hart (Status.Stopped code) ++ codes "; ") ++ closing.reason code) }
{
    spell_lead(page, hart, Status::Stopped(code));
    page.text(reason(code).as_bytes());
}

fn put_stopped<W: Write>(
    page: &mut Page,
    out: &mut W,
    names: &Symbols,
    machine: &Machine,
    hart: u8,
    code: u8,
) -> io::Result<()>
    requires { hart < length machine.now.views.nodes }
    ensures { Spells (W.contents out.old) (W.contents out.new) page.old page.new (closing.closing_line names.now machine.now hart (Status.Stopped code)) result }
{
    page.make_room(out)?;
    spell_stop(page, hart, code);
    put_next(page, out, names, machine, hart as usize)
}

fn put_exited<W: Write>(
    page: &mut Page,
    out: &mut W,
    names: &Symbols,
    machine: &Machine,
    hart: u8,
    code: u8,
) -> io::Result<()>
    ensures { Spells (W.contents out.old) (W.contents out.new) page.old page.new (closing.closing_line names.now machine.now hart (Status.Exited code)) result }
{
    page.make_room(out)?;
    spell_status(page, hart as u64, Status::Exited(code), b'\n');
    Ok(())
}

/// A hart's H line.
fn put_status<W: Write>(
    page: &mut Page,
    out: &mut W,
    names: &Symbols,
    machine: &Machine,
    hart: u8,
    status: Status,
) -> io::Result<()>
    requires hart { hart < length machine.now.views.nodes }
    requires sets { 0 < machine.now.views.config.sets }
    ensures { Spells (W.contents out.old) (W.contents out.new) page.old page.new (closing.closing_line names.now machine.now hart status) result }
{
    match status {
        Status::Running => put_running(page, out, names, machine, hart),
        Status::Stopped(code) => put_stopped(page, out, names, machine, hart, code),
        Status::Exited(code) => put_exited(page, out, names, machine, hart, code),
    }
}

/// The H lines of a machine. What has no room on the page is handed on.
pub(crate) fn put_statuses<W: Write>(
    page: &mut Page,
    out: &mut W,
    names: &Symbols,
    machine: &Machine,
) -> io::Result<()>
    requires { IsReached machine.now }
    ensures { Spells (W.contents out.old) (W.contents out.new) page.old page.new (numbered (closing.closing_line names.now machine.now) 0 machine.now.trace.statuses) result }
{
    sound_always();
    let mut hart: u8 = 0;
    let mut rest = machine.trace().statuses();
    while let [status, others @ ..] = rest {
        put_status(page, out, names, machine, hart, *status)?;
        hart += 1;
        rest = others;
    }
    Ok(())
}
