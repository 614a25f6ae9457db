//! `rvtl explain`: a trace's order is told, or a script's events, as the file's first line asks.

ghost use Rattle.std.specs.Prelude.{◌≡◌, IfErr, OnOk};
ghost use Rattle.command_files.specs.Contents.{HoldsBytes};
ghost use Rattle.script_commands.specs.Explaining.{LeavesOfStream};
ghost use Rattle.trace_commands.specs.Kinds as spec;
ghost use Rattle.trace_commands.specs.Kinds.{IsHalfTold, IsTellingFault, IsTold};

use crate::explaining::explain_trace;
use command_files::event_stream::Strictness;
use command_files::{Fault, Files, text_in};
use command_settings::Replay;
use script_commands::explain_script;
use std::alloc::Global;
use std::io::Write;

/// How the first line of a trace begins, whatever its version.
const TRACE_START: [u8; 11] = *b"rvtl-trace ";

// Whether a text begins as a trace does.
fn begins_as_trace(bytes: &[u8]) -> bool
    ensures { result ≡ spec.begins_as_trace bytes.now }
{
    bytes.starts_with(&TRACE_START)
}

/// Reads a file. If it begins as a trace, prints on `out` what is told of the trace's order; else takes it as a script, and
/// prints what each of its events does, up to one that changes nothing where the stream is strict, and behind it what the
/// machine holds at the end, if that is to be told: a trace has neither. Addresses have the names that an ELF file has.
pub fn explain_files<'a, F: Files, O: Write>(
    alloc: Global,
    files: &mut F,
    wanted: Replay<'a>,
    strictness: Strictness,
    with_state: bool,
    out: &mut O,
) -> Result<(), Fault<'a>>
    ensures explained { OnOk result (IsTold (F.held files.old) wanted.entry strictness with_state (O.contents out.old) (O.contents out.new)) }
    ensures unfinished { IfErr result (λ fault. LeavesOfStream fault (O.contents out.old) (O.contents out.new)
        (IsHalfTold (F.held files.old) wanted.entry strictness with_state (O.contents out.old) (O.contents out.new))) }
    ensures told { IfErr result (IsTellingFault (F.held files.old) wanted.entry strictness (O.contents out.old) (O.contents out.new)) }
    ensures spared { F.held files.new ≡ F.held files.old }
{
    let bytes = text_in(alloc, files, wanted.script)?;
    if begins_as_trace(bytes.as_slice()) {
        return explain_trace(alloc, files, wanted, bytes, out);
    }
    explain_script(alloc, files, wanted, bytes, strictness, with_state, out)
}
