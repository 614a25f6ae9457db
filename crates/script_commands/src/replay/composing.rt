//! A replay and its text.

ghost use Rattle.std.specs.Prelude.{IfErr, IfOk};
ghost use Rattle.command_files.specs.Composition.{IsComposition};
ghost use Rattle.script_commands.specs.Unfinished.{IsTraceUnfinished};

use command_files::{config_of, every_trace_has_a_text};
use elf_loader::Image;
use event_stream::coherent_machine::{Machine, ReplayError, replay};
use machine_types::MemoryModel;
use std::alloc::Global;
use std::io::{self, Write};
use trace_text::{Script, write_trace};

/// Why a replay is not printed.
#[derive(Debug, Drop)]
pub enum CompositionError {
    /// Memory for the machine was refused, or an event: nothing was written.
    Replay(ReplayError),
    /// The writer's fault: a beginning of the text went out.
    Writing(io::Error),
}

/// Replays a script's events from reset, and writes the trace.
pub fn replay_and_write<W: Write>(
    alloc: Global,
    image: Image,
    script: &Script,
    model: MemoryModel,
    out: &mut W,
) -> Result<Machine, CompositionError>
    ensures written { IfOk result (λ machine. IsComposition image script.now model (W.contents out.old) (W.contents out.new) machine) }
    ensures unfinished { IfErr result (λ error. IsTraceUnfinished image script.now model (W.contents out.old) (W.contents out.new) error) }
{
    every_trace_has_a_text();
    let config = config_of(script, model);
    let machine = match replay(alloc, image, config, script.events.as_slice()) {
        Ok(machine) => machine,
        Err(error) => return Err(CompositionError::Replay(error)),
    };
    match write_trace(machine.trace(), out) {
        Ok(()) => Ok(machine),
        Err(error) => Err(CompositionError::Writing(error)),
    }
}
