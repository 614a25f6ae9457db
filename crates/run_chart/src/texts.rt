//! The texts of a chart.
ghost use Rattle.std.specs.Prelude.{◌≡◌, ◌+◌, ◌≤◌, ◌++◌, length};
ghost use Rattle.event_stream.specs.Naming as naming;
ghost use Rattle.run_chart.specs.Names.{target_behind};
ghost use Rattle.run_chart.specs.Texts as texts;
ghost use Rattle.text_fields.specs.Pages.{HasLineRoom, size};

use crate::naming::{Manner, Naming, spell_address, spell_line, spell_target};
use crate::rows::{Note, Row, Story};
use crate::touching::spell_touched;
use assembly::spell_assembly;
use hart::Retired;
use machine_types::{Event, Outcome};
use rv32_decode::{Instr, decode};
use text_fields::Page;
use trace_text::spell_event;

/// Where a JAL or a branch at this address leads.
fn target(instr: &Instr, pc: u32) -> Option<u32>
    ensures { result ≡ naming.target pc instr.now }
{
    match *instr {
        Instr::Jal { offset, .. } => Some(pc.wrapping_add(offset.value())),
        Instr::Branch { offset, .. } => Some(pc.wrapping_add(offset.value())),
        _ => None,
    }
}

/// The name of where an instruction leads, if it leads elsewhere.
fn spell_target_behind(page: &mut Page, names: &Naming<'_>, manner: Manner, target: Option<u32>)
    requires { length page.old + 70 ≤ size }
    ensures value { page.new ≡ page.old ++ target_behind manner names.now.symbols.now target }
    ensures len { length page.new ≤ length page.old + 70 }
{
    if let Some(address) = target {
        spell_target(page, names, manner, address);
    }
}

/// The instruction as an assembler writes it, and the name of where it leads.
fn spell_instruction(page: &mut Page, names: &Naming<'_>, manner: Manner, entry: &Retired)
    requires { length page.old + 118 ≤ size }
    ensures value { page.new ≡ page.old ++ texts.instruction manner names.now.symbols.now entry.now }
    ensures len { length page.new ≤ length page.old + 118 }
{
    match decode(entry.word) {
        Some(instr) => {
            spell_assembly(page, &instr, Some(entry.pc));
            spell_target_behind(page, names, manner, target(&instr, entry.pc));
        }
        None => page.word(entry.word),
    }
}

/// What is told of something that a core did.
pub(crate) fn spell_note(page: &mut Page, names: &Naming<'_>, manner: Manner, note: &Note)
    requires { HasLineRoom page.old }
    ensures { page.new ≡ page.old ++ texts.note manner names.now.symbols.now note.now }
{
    match note {
        Note::Retired(entry) => spell_instruction(page, names, manner, entry),
        Note::Accessed(action, entry) => spell_touched(page, names, manner, *action, entry),
        Note::Performed(entry) => {
            page.text(b"performs ");
            spell_instruction(page, names, manner, entry);
        }
        Note::PutOut(number) => {
            page.text(b"puts out ");
            page.decimal(*number as u64);
        }
        Note::Reserved(word) => {
            page.text(b"reserves ");
            spell_address(page, names, manner, *word);
        }
        Note::Lost(word) => {
            page.text(b"loses ");
            spell_address(page, names, manner, *word);
        }
        Note::Exited(code) => {
            page.text(b"exits with ");
            page.decimal(*code as u64);
        }
        Note::Stopped(code) => {
            page.text(b"stops with code ");
            page.decimal(*code as u64);
        }
    }
}

/// Where the instruction lies of which a note tells.
pub(crate) fn site_of(note: &Note) -> Option<u32>
    ensures { result ≡ texts.site_of note.now }
{
    match note {
        Note::Retired(entry) | Note::Performed(entry) => Some(entry.pc),
        Note::Accessed(..)
        | Note::PutOut(_)
        | Note::Reserved(_)
        | Note::Lost(_)
        | Note::Exited(_)
        | Note::Stopped(_) => None,
    }
}

/// The event as its script spells it, but for the names of what it is about.
fn spell_about(page: &mut Page, names: &Naming<'_>, manner: Manner, event: Event)
    requires { length page.old + 106 ≤ size }
    ensures value { page.new ≡ page.old ++ texts.event manner names.now.symbols.now names.now.size event }
    ensures len { length page.new ≤ length page.old + 106 }
{
    match event {
        Event::Drain { hart, word } => {
            page.text(b"drain ");
            page.number(hart as u64, b' ');
            spell_address(page, names, manner, word);
            page.text(b" ");
        }
        Event::Evict { hart, line } => {
            page.text(b"evict ");
            page.number(hart as u64, b' ');
            spell_line(page, names, manner, line);
            page.text(b" ");
        }
        Event::Step { .. } | Event::Deliver { .. } | Event::Local { .. } => {
            spell_event(page, event, b' ');
        }
    }
}

/// That an event misses: a step names the line of memory.
fn spell_missed(page: &mut Page, names: &Naming<'_>, manner: Manner, event: Event, line: u32)
    requires { length page.old + 85 ≤ size }
    ensures { page.new ≡ page.old ++ texts.missed manner names.now.symbols.now names.now.size event line }
{
    match event {
        Event::Step { .. } => {
            page.text(b"misses ");
            spell_line(page, names, manner, line);
        }
        Event::Drain { .. } | Event::Evict { .. } | Event::Deliver { .. } | Event::Local { .. } => {
            page.text(b"misses");
        }
    }
}

/// What an event that changes the machine came to, beside what its notes tell.
fn spell_outcome(
    page: &mut Page,
    names: &Naming<'_>,
    manner: Manner,
    event: Event,
    outcome: Outcome,
)
    requires { length page.old + 85 ≤ size }
    ensures { page.new ≡ page.old ++ texts.outcome manner names.now.symbols.now names.now.size event outcome }
{
    if let Outcome::Missed(line) = outcome {
        spell_missed(page, names, manner, event, line);
    }
}

/// The event of a row, behind the number of its line in the script.
pub(crate) fn spell_row(page: &mut Page, names: &Naming<'_>, manner: Manner, row: &Row)
    requires { HasLineRoom page.old }
    ensures { page.new ≡ page.old ++ texts.row manner names.now.symbols.now names.now.size row.now }
{
    page.number(row.script_line as u64, b' ');
    spell_about(page, names, manner, row.event);
    spell_outcome(page, names, manner, row.event, row.outcome);
}

pub(crate) fn spell_title(page: &mut Page, harts: u8)
    requires { HasLineRoom page.old }
    ensures { page.new ≡ page.old ++ texts.title harts }
{
    page.text(b"A run, harts: ");
    page.decimal(harts as u64);
}

/// What a screen reader tells of the picture.
pub(crate) fn spell_description(page: &mut Page, story: &Story)
    requires { HasLineRoom page.old }
    ensures { page.new ≡ page.old ++ texts.description story.now }
{
    page.text(
        b"Time goes down. Each hart has a lane for its core and one for its cache. Events drawn: ",
    );
    page.decimal(story.rows.len() as u64);
}
