//! `rvtl explain`: a script of events is applied to a machine, and told event by event.

ghost use Rattle.std.specs.Prelude.{◌≡◌, IfErr, OnOk};
ghost use Rattle.event_stream.specs.Machine.{IsReached};
ghost use Rattle.command_files.specs.Contents.{HoldsBytes};
ghost use Rattle.script_commands.specs.Explaining.{IsExplainFault, IsExplained, IsPartOfStream, IsStreamCutOff, IsWholeExplanation, LeavesOfStream, state_if};
ghost use Rattle.text_fields.specs.Writing.{Writes};

use crate::idle::{IdleNote, remark_idle};
use command_files::{
    Fault, Files, NamedImage, config_of, named_image_in, remark_refused, script_from,
};
use command_settings::Replay;
use event_stream::coherent_machine::Machine;
use event_stream::{StreamError, Strictness, write_state, write_stream};
use machine_types::{Config, Event};
use std::alloc::Global;
use std::io::{self, Write};

/// What a machine holds, where it is to be told.
fn tell_state<O: Write>(machine: &Machine, with_state: bool, out: &mut O) -> io::Result<()>
    requires { IsReached machine.now }
    ensures { Writes (O.contents out.old) (O.contents out.new) (state_if with_state machine.now) result }
{
    if with_state {
        write_state(machine, out)
    } else {
        Ok(())
    }
}

/// The stream, and behind it what the machine holds at its end, where that is to be told. Whether most of the events
/// changed nothing is left behind.
fn tell<O: Write>(
    alloc: Global,
    named: NamedImage,
    config: Config,
    events: &[Event],
    strictness: Strictness,
    with_state: bool,
    out: &mut O,
    idle: &mut Option<IdleNote>,
) -> Result<(), StreamError>
    ensures whole { OnOk result (IsWholeExplanation named.names strictness with_state named.image config events.now (O.contents out.old) (O.contents out.new)) }
    ensures unfinished { IfErr result (IsPartOfStream named.names strictness with_state named.image config events.now (O.contents out.old) (O.contents out.new)) }
{
    let NamedImage { image, names } = named;
    let machine = write_stream(alloc, image, config, events, strictness, &names, out)?;
    *idle = IdleNote::of(alloc, &machine, config, events);
    match tell_state(&machine, with_state, out) {
        Ok(()) => Ok(()),
        Err(fault) => Err(StreamError::Writing(fault)),
    }
}

/// Judges the script, of which the file's bytes are the text, reads and judges the image, applies the events, and
/// prints on `out` what each did, with the names that an ELF file has for addresses, and behind it what the machine
/// holds at the end, if that is to be told.
/// Where an event is refused, or changes nothing in a strict stream, the stream up to there is printed.
pub fn explain_script<'a, F: Files, O: Write>(
    alloc: Global,
    files: &mut F,
    wanted: Replay<'a>,
    bytes: Vec<u8>,
    strictness: Strictness,
    with_state: bool,
    out: &mut O,
) -> Result<(), Fault<'a>>
    requires { HoldsBytes (F.held files.old) wanted.script.now bytes.items }
    ensures explained { OnOk result (IsExplained (F.held files.old) wanted.entry strictness with_state (O.contents out.old) (O.contents out.new)) }
    ensures unfinished { IfErr result (λ fault. LeavesOfStream fault (O.contents out.old) (O.contents out.new)
        (IsStreamCutOff (F.held files.old) wanted.entry strictness with_state (O.contents out.old) (O.contents out.new))) }
    ensures told { IfErr result (IsExplainFault (F.held files.old) wanted.entry strictness (O.contents out.old) (O.contents out.new)) }
    ensures spared { F.held files.new ≡ F.held files.old }
{
    let script = script_from(alloc, files, wanted.script, bytes.as_slice())?;
    drop(bytes); // the machine needs the room
    let named = named_image_in(alloc, files, wanted.raw, wanted.image, script.kib)?;
    let config = config_of(&script, wanted.model);
    let events = script.events.as_slice();
    let mut idle = None;
    let told = tell(
        alloc, named, config, events, strictness, with_state, out, &mut idle,
    );
    if let Err(error) = out.flush() {
        return Err(Fault::writing(error));
    }
    match told {
        Ok(()) => {
            remark_idle(alloc, files, idle);
            Ok(())
        }
        Err(error) => {
            let fault = Fault::explaining(wanted.script, error);
            remark_refused(alloc, files, &script, &fault);
            Err(fault)
        }
    }
}
