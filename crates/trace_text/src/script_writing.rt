//! Writing a script.
ghost use Rattle.std.specs.Prelude.{◌≡◌, ◌+◌, ◌≤◌, ◌∷◌, ◌++◌, [], length};
ghost use Rattle.std.specs.List.{flat_map};
ghost use Rattle.text_fields.specs.Fields.{number, word};
ghost use Rattle.text_fields.specs.Pages.{size, HasLineRoom, Spells};
ghost use Rattle.text_fields.specs.Writing.{Writes};
ghost use Rattle.trace_text.specs.Scripts.{event as event_text, event_ended, head as head_text, head_of, text};

use crate::script::Script;
use crate::spellings::spell_channel;
use crate::version::is_first_version;
use machine_types::Event;
use std::io::{Result, Write};
use text_fields::Page;

/// A hart and an address, and the byte that ends them.
fn spell_place(page: &mut Page, hart: u8, address: u32, end: u8)
    requires { length page.old + 32 ≤ size }
    ensures value { page.new ≡ page.old ++ (number 32 hart ++ (word address ++ end ∷ [])) }
    ensures len { length page.new ≤ length page.old + 32 }
{
    page.number(hart as u64, b' ');
    page.word(address);
    page.text(&[end]);
}

/// Appends an event as a script spells it, and the byte that ends it: at most 48 bytes.
pub fn spell_event(page: &mut Page, event: Event, end: u8)
    requires { length page.old + 48 ≤ size }
    ensures value { page.new ≡ page.old ++ event_ended end event }
    ensures len { length page.new ≤ length page.old + 48 }
{
    match event {
        Event::Step { hart } => {
            page.text(b"step ");
            page.number(hart as u64, end);
        }
        Event::Drain { hart, word } => {
            page.text(b"drain ");
            spell_place(page, hart, word, end);
        }
        Event::Evict { hart, line } => {
            page.text(b"evict ");
            spell_place(page, hart, line, end);
        }
        Event::Deliver { channel, hart } => {
            page.text(b"deliver ");
            spell_channel(page, channel);
            page.number(hart as u64, end);
        }
        Event::Local { hart, count } => {
            page.text(b"local ");
            page.number(hart as u64, b' ');
            page.number(count as u64, end);
        }
    }
}

fn spell_head(page: &mut Page, script: &Script)
    requires { HasLineRoom page.old }
    ensures { page.new ≡ page.old ++ head_text (head_of script.now) }
{
    if is_first_version(script.harts as u64, script.line) {
        page.text(b"rvtl-script 1 ");
        page.number(script.harts as u64, b' ');
        page.number(script.kib as u64, b' ');
        page.number(script.sets as u64, b' ');
        page.number(script.ways as u64, b'\n');
    } else {
        page.text(b"rvtl-script 2 ");
        page.number(script.harts as u64, b' ');
        page.number(script.kib as u64, b' ');
        page.number(script.sets as u64, b' ');
        page.number(script.ways as u64, b' ');
        page.number(script.line.bytes() as u64, b'\n');
    }
}

fn put_events<W: Write>(page: &mut Page, out: &mut W, events: &[Event]) -> Result<()>
    ensures { Spells (W.contents out.old) (W.contents out.new) page.old page.new (flat_map event_text events.now) result }
{
    for event in events {
        page.make_room(out)?;
        spell_event(page, *event, b'\n');
    }
    Ok(())
}

/// Writes the script's text: its first line, and a line for each event. After the writer's fault a
/// beginning of the text went out; a write that takes no byte is such a fault.
pub fn write_script<W: Write>(script: &Script, out: &mut W) -> Result<()>
    ensures { Writes (W.contents out.old) (W.contents out.new) (text script.now) result }
{
    let mut page = Page::new();
    spell_head(&mut page, script);
    put_events(&mut page, out, script.events.as_slice())?;
    page.hand_on(out)
}
