//! Writing the waves of a run.
ghost use Rattle.std.specs.Prelude.{◌≡◌, ◌≤◌, IfErr, IfOk, OnOk, length};
ghost use Rattle.machine_model.specs.Views.{opening};
ghost use Rattle.run_waves.specs.Touched as touched;
ghost use Rattle.run_waves.specs.Waves as waves;
ghost use Rattle.text_fields.specs.Pages.{Spells};
ghost use Rattle.text_fields.specs.Writing.{Writes};

use crate::errors::{TellError, WavesError, handed_on};
use crate::groups::Group;
use crate::running::tell;
use crate::telling::{put_all_declared, put_all_dumped};
use crate::touched::parts_of;
use coherent_machine::{Machine, replay};
use elf_loader::Image;
use machine_types::{Config, Event};
use std::alloc::{AllocError, Global};
use std::io::{self, Write};
use text_fields::Page;

fn put_text<W: Write>(page: &mut Page, out: &mut W, text: &[u8]) -> io::Result<()>
    requires { length text.now ≤ 256 }
    ensures { Spells (W.contents out.old) (W.contents out.new) page.old page.new text.now result }
{
    page.make_room(out)?;
    page.text(text);
    Ok(())
}

fn put_head<W: Write>(page: &mut Page, out: &mut W) -> io::Result<()>
    ensures { Spells (W.contents out.old) (W.contents out.new) page.old page.new waves.head result }
{
    put_text(
        page,
        out,
        b"$version rvtl $end\n$comment time N is behind the event on line N of the script, 1 is reset $end\n$timescale 1 ns $end\n",
    )
}

/// The head, the signals of these parts, and their values.
fn put_opening<W: Write>(
    page: &mut Page,
    out: &mut W,
    machine: &Machine,
    parts: &[Group],
) -> io::Result<()>
    ensures { Spells (W.contents out.old) (W.contents out.new) page.old page.new (waves.opening_lines parts.now machine.now) result }
{
    put_head(page, out)?;
    put_all_declared(page, out, parts)?;
    put_text(page, out, b"$enddefinitions $end\n#1\n$dumpvars\n")?;
    put_all_dumped(page, out, machine, parts)?;
    put_text(page, out, b"$end\n")
}

/// The waves of these parts of a machine, from where it stands.
fn put_waves<W: Write>(
    alloc: Global,
    machine: &mut Machine,
    parts: &[Group],
    events: &[Event],
    out: &mut W,
) -> Result<(), TellError>
    ensures { Writes (W.contents out.old) (W.contents out.new) (waves.waves_from parts.now machine.old events.now) result }
{
    let mut page = Page::new();
    put_opening(&mut page, out, machine, parts)?;
    tell(alloc, machine, events, &mut page, out)?;
    page.hand_on(out)?;
    Ok(())
}

/// Another machine at reset, with the image of this one.
fn again(alloc: Global, config: Config, reached: &Machine) -> Result<Machine, AllocError>
    ensures { IfOk result (λ machine. machine ≡ opening reached.now.trace.image config) }
{
    let image = reached.trace().image().try_copy(alloc)?;
    Machine::new(alloc, image, config)
}

/// Tells a run that was replayed.
fn tell_again<W: Write>(
    alloc: Global,
    config: Config,
    events: &[Event],
    reached: Machine,
    out: &mut W,
) -> Result<(), TellError>
    ensures { Writes (W.contents out.old) (W.contents out.new) (waves.waves_from (touched.parts_of reached) (opening reached.trace.image config) events.now) result }
{
    let parts = parts_of(alloc, &reached)?;
    let mut machine = again(alloc, config, &reached)?;
    drop(reached); // the run needs the room
    put_waves(alloc, &mut machine, parts.as_slice(), events, out)
}

/// Applies the events in their order to a machine at reset, and writes what each changed, as a value change dump whose
/// time is the line of the script on which the event stands. The events are applied twice: lines that the run touches
/// are declared before. A write that takes no byte is a writer's fault.
pub fn write_waves<W: Write>(
    alloc: Global,
    image: Image,
    config: Config,
    events: &[Event],
    out: &mut W,
) -> Result<(), WavesError>
    ensures written { OnOk result (waves.AreWritten image config events.now (W.contents out.old) (W.contents out.new)) }
    ensures unfinished { IfErr result (waves.AreUnfinished image config events.now (W.contents out.old) (W.contents out.new)) }
{
    let reached = replay(alloc, image, config, events)?;
    match tell_again(alloc, config, events, reached, out) {
        Ok(()) => Ok(()),
        Err(error) => Err(handed_on(error)),
    }
}
