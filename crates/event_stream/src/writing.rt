//! Writing a stream.
ghost use Rattle.std.specs.Prelude.{◌≡◌, ◌++◌, Err, IfErr, IfOk};
ghost use Rattle.coherent_machine.specs.Machine.{IsReached};
ghost use Rattle.elf_loader.specs.Image.{Initial};
ghost use Rattle.event_stream.specs.Reports.{StreamEnding};
ghost use Rattle.event_stream.specs.Streams as streams;
ghost use Rattle.event_stream.specs.Telling.{IsHandedOn, IsTold};
ghost use Rattle.event_stream.specs.Writing.{IsStreamUnfinished, IsWholeStream};
ghost use Rattle.machine_model.specs.Views.{opening};
ghost use Rattle.machine_types.specs.declared.config.Config.{Config};
ghost use Rattle.text_fields.specs.Pages.{HasLineRoom, Spells};
ghost use Rattle.text_fields.specs.Writing.{Writes};

use crate::closing::put_statuses;
use crate::disassembly::Disassembly;
use crate::errors::StreamError;
use crate::report::{Lengths, Report, action_of, hart_of};
use crate::report_writing::put_report;
use crate::strictness::Strictness;
use coherent_machine::Machine;
use elf_loader::Image;
use elf_symbols::Symbols;
use machine_model::changes_are_counted;
use machine_types::{Config, Event};
use std::alloc::Global;
use std::io::{self, Write};
use text_fields::Page;
use tl_types::LineSize;
use trace_text::trace_recorder::Trace;
use trace_text::{is_first_version, put_image};

fn spell_head(page: &mut Page, harts: usize, kib: u32, entry: u32, line: LineSize)
    requires { HasLineRoom page.old }
    ensures { page.new ≡ page.old ++ streams.head harts kib entry line }
{
    if is_first_version(harts as u64, line) {
        page.text(b"rvtl-stream 1\nT ");
        page.number(harts as u64, b' ');
        page.number(kib as u64, b' ');
        page.word(entry);
        page.text(b"\n");
    } else {
        page.text(b"rvtl-stream 2\nT ");
        page.number(harts as u64, b' ');
        page.number(kib as u64, b' ');
        page.word(entry);
        page.text(b" ");
        page.number(line.bytes() as u64, b'\n');
    }
}

/// The head, and memory at reset.
fn put_opening<W: Write>(page: &mut Page, out: &mut W, trace: &Trace) -> io::Result<()>
    requires { HasLineRoom page.old }
    ensures { Spells (W.contents out.old) (W.contents out.new) page.old page.new (streams.opening_lines trace.now.history) result }
{
    let memory = trace.image().bytes();
    let line = trace.line_size();
    let kib = trace.image().size() / 1024;
    spell_head(page, trace.harts(), kib, trace.image().entry(), line);
    put_image(page, out, memory, line.bytes())
}

/// Hands on what was told before an event at which the stream ends, and answers why it does.
fn ended_by<W: Write>(page: &mut Page, out: &mut W, error: StreamError) -> StreamError
    ensures { IsHandedOn (W.contents out.old) (W.contents out.new) page.old error result }
{
    match page.hand_on(out) {
        Ok(()) => error,
        Err(fault) => StreamError::Writing(fault),
    }
}

/// Applies the events in their order, and tells each. What is told stays on the page, but all of it goes
/// out where an event ends the stream.
fn tell<W: Write>(
    machine: &mut Machine,
    events: &[Event],
    strictness: Strictness,
    names: &Symbols,
    page: &mut Page,
    out: &mut W,
) -> Result<(), StreamError>
    requires { IsReached machine.old }
    ensures told { IsTold names.now strictness machine.old events.now (W.contents out.old) (W.contents out.new) page.old page.new result machine.new }
    ensures reached { IsReached machine.new }
{
    changes_are_counted();
    let mut instructions = Disassembly::new();
    let mut index = 0;
    let mut rest = events;
    while let [event, tail @ ..] = rest {
        let before = Lengths::of(machine, hart_of(*event));
        let action = action_of(machine, *event);
        let outcome = match machine.apply(*event) {
            Ok(outcome) => outcome,
            Err(error) => return Err(ended_by(page, out, StreamError::Refused(index, error))),
        };
        if strictness.ends_at(before.changes, machine.views().changes()) {
            return Err(ended_by(page, out, StreamError::Idle(index, outcome)));
        }
        let report = Report::behind(&before, action, machine, index, *event, outcome);
        if let Err(fault) = put_report(page, out, names, &mut instructions, &report) {
            return Err(StreamError::Writing(fault));
        }
        index += 1;
        rest = tail;
    }
    Ok(())
}

/// The H lines, and all that stands on the page.
fn put_closing<W: Write>(
    page: &mut Page,
    out: &mut W,
    names: &Symbols,
    machine: &Machine,
) -> io::Result<()>
    requires { IsReached machine.now }
    ensures { Writes (W.contents out.old) (W.contents out.new) (page.old ++ streams.closing_lines names.now (StreamEnding.Reached machine.now)) result }
{
    put_statuses(page, out, names, machine)?;
    page.hand_on(out)
}

/// Tells the events of a machine at reset, and all that stands around them.
fn write_events<W: Write>(
    machine: &mut Machine,
    events: &[Event],
    strictness: Strictness,
    names: &Symbols,
    out: &mut W,
) -> Result<(), StreamError>
    requires { IsReached machine.old }
    ensures whole { (image : Initial) (config : Config) → machine.old ≡ opening image config → IfOk result (λ _. IsWholeStream names.now strictness image config events.now (W.contents out.old) (W.contents out.new) machine.new) }
    ensures reached { IsReached machine.new }
    ensures unfinished { (image : Initial) (config : Config) → machine.old ≡ opening image config → IfErr result (λ error. IsStreamUnfinished names.now strictness image config events.now (W.contents out.old) (W.contents out.new) error) }
{
    let mut page = Page::new();
    if let Err(fault) = put_opening(&mut page, out, machine.trace()) {
        return Err(StreamError::Writing(fault));
    }
    if let Err(error) = tell(machine, events, strictness, names, &mut page, out) {
        return Err(error);
    }
    match put_closing(&mut page, out, names, machine) {
        Ok(()) => Ok(()),
        Err(fault) => Err(StreamError::Writing(fault)),
    }
}

/// Applies the events in their order to a machine at reset, and writes what each did, with the names that
/// addresses have. A write that takes no byte is a writer's fault.
pub fn write_stream<W: Write>(
    alloc: Global,
    image: Image,
    config: Config,
    events: &[Event],
    strictness: Strictness,
    names: &Symbols,
    out: &mut W,
) -> Result<Machine, StreamError>
    ensures whole { IfOk result (λ machine. IsWholeStream names.now strictness image config events.now (W.contents out.old) (W.contents out.new) machine) }
    ensures reached { IfOk result (λ machine. IsReached machine) }
    ensures unfinished { IfErr result (λ error. IsStreamUnfinished names.now strictness image config events.now (W.contents out.old) (W.contents out.new) error) }
{
    let mut machine = Machine::new(alloc, image, config)?;
    match write_events(&mut machine, events, strictness, names, out) {
        Ok(()) => Ok(machine),
        Err(error) => Err(error),
    }
}
