//! The trace that a file's bytes are.

ghost use Rattle.std.specs.Prelude.{◌≡◌, IfErr, IfOk};
ghost use Rattle.check_command.specs.Checking.{IsTraceFault};
ghost use Rattle.trace_text.specs.TraceLimits.{IsTrace};
ghost use Rattle.trace_text.specs.Traces.{text};

use command_files::notes::{BehindNote, TraceNote};
use command_files::{Fault, Files, remark};
use std::alloc::Global;
use trace_recorder::Trace;
use trace_text::{TextCode, read_trace};

/// The trace whose text these bytes of the file are. Where they are none, what is wrong is remarked.
pub fn whole_trace<'a, F: Files>(
    alloc: Global,
    files: &mut F,
    file: &'a str,
    bytes: &[u8],
) -> Result<Trace, Fault<'a>>
    ensures read { IfOk result (λ trace. IsTrace trace.history × (bytes.now ≡ text trace.history)) }
    ensures told { IfErr result (IsTraceFault bytes.now file.entry) }
    ensures spared { F.held files.new ≡ F.held files.old }
{
    let (trace, length) = match read_trace(alloc, bytes) {
        Ok(read) => read,
        Err(error) => {
            if error.code != TextCode::NoMemory {
                remark(alloc, files, TraceNote { bytes, error });
            }
            return Err(Fault::text(file, error));
        }
    };
    if length < bytes.len() {
        remark(alloc, files, BehindNote { bytes, length });
        return Err(Fault::BytesAfterTrace { file });
    }
    Ok(trace)
}
