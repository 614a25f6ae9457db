//! `rvtl check`: the order of a trace's memory operations is judged, and the verdict printed.

ghost use Rattle.std.specs.Prelude.{◌≡◌, ◌≢◌, IfErr, IfOk};
ghost use Rattle.memory_model.specs.Traces as traces;
ghost use Rattle.rvwmo_order.specs.Answers.{refusal};
ghost use Rattle.text_fields.specs.Writing.{Writes};
ghost use Rattle.check_command.specs.Checking.{IsVerdictTold, IsVerdict, IsVerdictCutOff, verdict_text};
ghost use Rattle.check_command.specs.Checking.{IsCheckFault};
ghost use Rattle.command_files.specs.Faults.{LeavesAtFault};

use crate::reading::whole_trace;
use command_files::notes::{LengthNote, NamingNote, OrderNote, RunNote};
use command_files::{Fault, Files, remark, text_in};
use machine_types::MemoryModel;
use rvwmo_order::{CheckError, Verdict, check_model};
use std::alloc::Global;
use std::io::{self, Write};
use text_fields::{Piece, put_pieces};
use trace_operations::{completed, few_names, has_too_many};
use trace_recorder::Trace;

/// Which order is judged where a trace states none.
const UNSTATED: &str =
    "no P line states an order, so that of hart 0's operations, then hart 1's, and so on, was judged";

/// Reads a trace, judges its completed order under the model, and prints the verdict on `out`.
pub fn check_file<'a, F: Files, O: Write>(
    alloc: Global,
    files: &mut F,
    file: &'a str,
    model: MemoryModel,
    out: &mut O,
) -> Result<Verdict, Fault<'a>>
    ensures judged { IfOk result (λ verdict. IsVerdictTold (F.held files.old) file.entry.now model verdict (O.contents out.old) (O.contents out.new)) }
    ensures unfinished { IfErr result (λ fault. LeavesAtFault fault (O.contents out.old) (O.contents out.new)
        (IsVerdictCutOff (F.held files.old) file.entry.now model (O.contents out.old) (O.contents out.new))) }
    ensures told { IfErr result (IsCheckFault (F.held files.old) file.entry) }
    ensures spared { F.held files.new ≡ F.held files.old }
{
    let bytes = text_in(alloc, files, file)?;
    let trace = whole_trace(alloc, files, file, bytes.as_slice())?;
    drop(bytes); // judging needs the room
    let verdict = match judged(alloc, &trace, model) {
        Ok(verdict) => verdict,
        Err(error) => {
            remark_unjudged(alloc, files, &trace, error);
            return Err(Fault::check(file, error));
        }
    };
    remark_judged(alloc, files, &trace, verdict);
    match print(verdict, out) {
        Ok(()) => Ok(verdict),
        Err(error) => Err(Fault::writing(error)),
    }
}

/// Remarks what a verdict says of a trace's order, and which order it is of where the trace states none.
fn remark_judged<F: Files>(alloc: Global, files: &mut F, trace: &Trace, verdict: Verdict)
    ensures { F.held files.new ≡ F.held files.old }
{
    let is_unstated = states_no_order(alloc, trace);
    match verdict {
        Verdict::Legal if is_unstated => remark(alloc, files, UNSTATED),
        Verdict::Legal => {}
        Verdict::Fault(code, first, second) => {
            let note = OrderNote {
                trace,
                code,
                first,
                second,
            };
            if is_unstated {
                remark(alloc, files, format_args!("{note}; {UNSTATED}"));
            } else {
                remark(alloc, files, note);
            }
        }
    }
}

/// Whether a trace has several memory operations, and no P line.
fn states_no_order(alloc: Global, trace: &Trace) -> bool {
    if !trace.performed().is_empty() {
        return false;
    }
    match few_names(alloc, trace) {
        Ok(Some(names)) => names.len() > 1,
        _ => false,
    }
}

/// Remarks why a trace isn't judged.
pub fn remark_unjudged<F: Files>(alloc: Global, files: &mut F, trace: &Trace, error: CheckError)
    ensures { F.held files.new ≡ F.held files.old }
{
    match error {
        CheckError::NotARun => remark(alloc, files, RunNote(trace)),
        CheckError::TooLong => remark(alloc, files, LengthNote(trace)),
        CheckError::NotAnOrder => remark(alloc, files, NamingNote(trace)),
        CheckError::NoMemory => {}
    }
}

fn judged(alloc: Global, trace: &Trace, model: MemoryModel) -> Result<Verdict, CheckError>
    ensures judged { IfOk result (IsVerdict model trace.now.history) }
    ensures refused { IfErr result (λ error. error ≢ CheckError.NoMemory → refusal trace.now.history (traces.completed trace.now.history) ≡ Some error) }
{
    if has_too_many(trace) {
        // An order of so many isn't looked at.
        return check_model(alloc, trace, &[], model);
    }
    let order = completed(alloc, trace)?;
    check_model(alloc, trace, order.as_slice(), model)
}

fn print<O: Write>(verdict: Verdict, out: &mut O) -> io::Result<()>
    ensures { Writes (O.contents out.old) (O.contents out.new) (verdict_text verdict) result }
{
    put_verdict(verdict, out)?;
    out.flush()
}

fn put_verdict<O: Write>(verdict: Verdict, out: &mut O) -> io::Result<()>
    ensures { Writes (O.contents out.old) (O.contents out.new) (verdict_text verdict) result }
{
    match verdict {
        Verdict::Legal => put_pieces(out, &[Piece::Text(b"legal\n")]),
        Verdict::Fault(code, a, b) => put_pieces(
            out,
            &[
                Piece::Text(b"fault "),
                Piece::Number(u64::from(code.number())),
                Piece::Text(b" "),
                Piece::Number(u64::from(a.hart)),
                Piece::Text(b":"),
                Piece::Number(u64::from(a.place)),
                Piece::Text(b" "),
                Piece::Number(u64::from(b.hart)),
                Piece::Text(b":"),
                Piece::Number(u64::from(b.place)),
                Piece::Text(b"\n"),
            ],
        ),
    }
}
