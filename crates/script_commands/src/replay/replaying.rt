//! `rvtl replay`: a script of events is applied to a machine, and the trace printed.

ghost use Rattle.std.specs.Prelude.{◌≡◌, IfErr, IfOk, OnErr, OnOk};
ghost use Rattle.elf_loader.specs.Size.{IsMemoryKib};
ghost use Rattle.command_files.specs.Files.{HoldsImage, HoldsScript, IsTheScriptIn};
ghost use Rattle.command_files.specs.Contents.{HoldsBytes};
ghost use Rattle.script_commands.specs.Replaying.{IsCutOff, IsReplayEndTold, IsReplayed};
ghost use Rattle.command_files.specs.Faults.{IsImageFault, IsReadFault, IsScriptFault, LeavesAtFault};
ghost use Rattle.command_files.specs.Faults.{IsReplayFault};

use crate::idle::IdleNote;
use crate::replay::composing::{CompositionError, replay_and_write};
use crate::replay::ends::{EndNote, circles_behind};
use command_files::{
    Fault, Files, NamedImage, config_of, named_image_in, print_ends, remark_refused, script_in,
};
use command_settings::Replay;
use event_stream::coherent_machine::Machine;
use machine_types::MemoryModel;
use std::alloc::Global;
use std::io::Write;
use stop_text::{CircleNote, StopNote};
use trace_text::Script;

/// Reads and judges the script, then the image, replays, and prints the trace on `out` and each hart's
/// end on `err`; where and why harts stopped or go round is remarked, and where most events change nothing. Where an event is refused
/// nothing is printed.
pub fn replay_files<'a, F: Files, O: Write, E: Write>(
    alloc: Global,
    files: &mut F,
    wanted: Replay<'a>,
    out: &mut O,
    err: &mut E,
) -> Result<(), Fault<'a>>
    ensures replayed { OnOk result (IsReplayed (F.held files.old) wanted.entry (O.contents out.old) (O.contents out.new)) }
    ensures ends { OnOk result (IsReplayEndTold (F.held files.old) wanted.entry (E.contents err.old) (E.contents err.new)) }
    ensures silent { OnErr result (E.contents err.new ≡ E.contents err.old) }
    ensures unfinished { IfErr result (λ fault. LeavesAtFault fault (O.contents out.old) (O.contents out.new)
        (IsCutOff (F.held files.old) wanted.entry (O.contents out.old) (O.contents out.new))) }
    ensures told { IfErr result (IsReplayFault (F.held files.old) wanted.entry) }
    ensures spared { F.held files.new ≡ F.held files.old }
{
    let script = script_in(alloc, files, wanted.script)?;
    let NamedImage { image, names } = named_image_in(
        alloc,
        files,
        wanted.raw,
        wanted.image,
        script.kib,
    )?;
    let machine = match replay_and_write(alloc, image, &script, wanted.model, out) {
        Ok(machine) => machine,
        Err(CompositionError::Replay(error)) => {
            let fault = Fault::replay(wanted.script, error);
            remark_refused(alloc, files, &script, &fault);
            return Err(fault);
        }
        Err(CompositionError::Writing(error)) => return Err(Fault::writing(error)),
    };
    if let Err(error) = out.flush() {
        return Err(Fault::writing(error));
    }
    let idle = idle_in(alloc, &machine, &script, wanted.model);
    let (trace, outputs) = machine.into_parts();
    // Standard error has no other place to tell that it takes no more.
    let _ = print_ends(trace.statuses(), outputs.as_slice(), err);
    let found = circles_behind(alloc, &trace, &script, wanted.model);
    let note = EndNote {
        stops: StopNote {
            trace: &trace,
            names: &names,
        },
        circles: CircleNote {
            circles: found.as_slice(),
            image: trace.image(),
            names: &names,
        },
        idle,
    };
    note.tell(alloc, files);
    Ok(())
}

/// Whether most of a script's events changed nothing of the machine that they led to.
fn idle_in(
    alloc: Global,
    machine: &Machine,
    script: &Script,
    model: MemoryModel,
) -> Option<IdleNote> {
    let config = config_of(script, model);
    IdleNote::of(alloc, machine, config, script.events.as_slice())
}
