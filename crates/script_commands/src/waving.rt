//! `rvtl explain --vcd`: a script of events is applied to a machine, and what each changed is told as waves.

ghost use Rattle.std.specs.Prelude.{◌≡◌, IfErr, OnOk};
ghost use Rattle.command_files.specs.Faults.{IsReplayFault, LeavesAtFault};
ghost use Rattle.script_commands.specs.Waving.{AreTold, AreWavesCutOff, IsWavesFault};

use command_files::{Fault, Files, config_of, image_in, remark_refused, script_in};
use command_settings::Replay;
use run_waves::{WavesError, write_waves};
use std::alloc::Global;
use std::io::Write;

/// Why a script's waves aren't whole.
fn fault_of<'a>(script: &'a str, error: WavesError) -> Fault<'a>
    ensures { IsWavesFault script.entry error result }
{
    match error {
        WavesError::Replay(error) => Fault::replay(script, error),
        WavesError::NoMemory => Fault::OutOfMemory,
        WavesError::Writing(error) => Fault::writing(error),
    }
}

/// Reads and judges the script, then the image, applies the events, and prints on `out` what each changed, as a value
/// change dump. Where there is a fault, nothing is printed, but after `cannot write` or `out of memory` perhaps a
/// beginning of it.
pub fn wave_files<'a, F: Files, O: Write>(
    alloc: Global,
    files: &mut F,
    wanted: Replay<'a>,
    out: &mut O,
) -> Result<(), Fault<'a>>
    ensures waves { OnOk result (AreTold (F.held files.old) wanted.entry (O.contents out.old) (O.contents out.new)) }
    ensures unfinished { IfErr result (λ fault. LeavesAtFault fault (O.contents out.old) (O.contents out.new)
        (AreWavesCutOff (F.held files.old) wanted.entry (O.contents out.old) (O.contents out.new))) }
    ensures told { IfErr result (IsReplayFault (F.held files.old) wanted.entry) }
    ensures spared { F.held files.new ≡ F.held files.old }
{
    let script = script_in(alloc, files, wanted.script)?;
    let image = image_in(alloc, files, wanted.raw, wanted.image, script.kib)?;
    let config = config_of(&script, wanted.model);
    let events = script.events.as_slice();
    let written = write_waves(alloc, image, config, events, out);
    if let Err(error) = written {
        let fault = fault_of(wanted.script, error);
        remark_refused(alloc, files, &script, &fault);
        return Err(fault);
    }
    match out.flush() {
        Ok(()) => Ok(()),
        Err(error) => Err(Fault::writing(error)),
    }
}
