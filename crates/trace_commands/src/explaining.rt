//! A trace's order, told.

ghost use Rattle.std.specs.Prelude.{◌≡◌, IfErr, IfOk, OnOk};
ghost use Rattle.command_files.specs.Contents.{HoldsBytes};
ghost use Rattle.command_files.specs.Faults.{LeavesAtFault};
ghost use Rattle.order_text.specs.Text.{text};
ghost use Rattle.text_fields.specs.Writing.{Writes};
ghost use Rattle.trace_commands.specs.Orders.{AreLines, IsLineFault, IsOrderCutOff, IsOrderFault, IsOrderTold};

use crate::image::names_of;
use check_command::{remark_unjudged, whole_trace};
use command_files::{Fault, Files};
use command_settings::Replay;
use elf_symbols::Symbols;
use order_text::{Line, order_lines, write_lines};
use std::alloc::Global;
use std::io::{self, Write};
use trace_recorder::Trace;

/// Judges the trace, of which the file's bytes are the text, then the image in which it begins, then its order, and prints on
/// `out` what is told of it, with the names that an ELF file has for addresses. An order that isn't legal is told too, and
/// first what it breaks; one that isn't judged is not.
pub(crate) fn explain_trace<'a, F: Files, O: Write>(
    alloc: Global,
    files: &mut F,
    wanted: Replay<'a>,
    bytes: Vec<u8>,
    out: &mut O,
) -> Result<(), Fault<'a>>
    requires { HoldsBytes (F.held files.old) wanted.script.now bytes.items }
    ensures explained { OnOk result (IsOrderTold (F.held files.old) wanted.entry (O.contents out.old) (O.contents out.new)) }
    ensures unfinished { IfErr result (λ fault. LeavesAtFault fault (O.contents out.old) (O.contents out.new)
        (IsOrderCutOff (F.held files.old) wanted.entry (O.contents out.old) (O.contents out.new))) }
    ensures told { IfErr result (IsOrderFault (F.held files.old) wanted.entry) }
    ensures spared { F.held files.new ≡ F.held files.old }
{
    let trace = whole_trace(alloc, files, wanted.script, bytes.as_slice())?;
    drop(bytes); // judging needs the room
    let names = names_of(alloc, files, wanted, &trace)?;
    let lines = lines_of(alloc, files, wanted, &trace)?;
    match print(&names, &lines, out) {
        Ok(()) => Ok(()),
        Err(error) => Err(Fault::writing(error)),
    }
}

// The lines on the order of a trace. Where it isn't judged, why is remarked.
fn lines_of<'a, F: Files>(
    alloc: Global,
    files: &mut F,
    wanted: Replay<'a>,
    trace: &Trace,
) -> Result<Vec<Line>, Fault<'a>>
    ensures lines { IfOk result (λ lines. AreLines wanted.entry.model trace.now.history lines.items) }
    ensures told { IfErr result (IsLineFault wanted.entry.script trace.now.history) }
    ensures spared { F.held files.new ≡ F.held files.old }
{
    match order_lines(alloc, trace, wanted.model) {
        Ok(lines) => Ok(lines),
        Err(error) => {
            remark_unjudged(alloc, files, trace, error);
            Err(Fault::check(wanted.script, error))
        }
    }
}

fn print<O: Write>(names: &Symbols, lines: &[Line], out: &mut O) -> io::Result<()>
    ensures { Writes (O.contents out.old) (O.contents out.new) (text names.now lines.now) result }
{
    write_lines(names, lines, out)?;
    out.flush()
}
