//! Blocks and lines.
ghost use Rattle.std.specs.Prelude.{◌≡◌, ◌++◌, OnOk};
ghost use Rattle.litmus_answers.specs.Blocks as text;

use crate::answer::{Answer, Tally};
use crate::report::Report;
use crate::states::{put_number, put_states};
use litmus_text::Kind;
use std::alloc::AllocError;

fn put_kind(out: &mut Vec<u8>, kind: Kind) -> Result<(), AllocError>
    ensures { OnOk result (out.new.items ≡ out.old.items ++ text.kind_text kind) }
{
    match kind {
        Kind::Exists => out.extend_from_slice(b"Allowed")?,
        Kind::NotExists => out.extend_from_slice(b"Forbidden")?,
        Kind::Forall => out.extend_from_slice(b"Required")?,
    }
    Ok(())
}

fn put_answer(out: &mut Vec<u8>, answer: Answer) -> Result<(), AllocError>
    ensures { OnOk result (out.new.items ≡ out.old.items ++ text.answer_text answer) }
{
    match answer {
        Answer::Ok => out.extend_from_slice(b"Ok")?,
        Answer::No => out.extend_from_slice(b"No")?,
        Answer::Undecided => out.extend_from_slice(b"Undecided")?,
        Answer::NoRun => out.extend_from_slice(b"No run ends")?,
    }
    Ok(())
}

fn put_whole(out: &mut Vec<u8>, is_whole: bool, word: &[u8]) -> Result<(), AllocError>
    ensures { OnOk result (out.new.items ≡ out.old.items ++ text.whole_text is_whole word.now) }
{
    if is_whole {
        out.extend_from_slice(word)?;
    } else {
        out.extend_from_slice(b"Unknown")?;
    }
    Ok(())
}

fn put_often(out: &mut Vec<u8>, is_whole: bool, tally: Tally) -> Result<(), AllocError>
    ensures { OnOk result (out.new.items ≡ out.old.items ++ text.often_text is_whole tally) }
{
    if tally.positive == 0 {
        return put_whole(out, is_whole, b"Never");
    }
    if tally.negative == 0 {
        return put_whole(out, is_whole, b"Always");
    }
    out.extend_from_slice(b"Sometimes")?;
    Ok(())
}

/// How often the proposition holds, and of how many states it holds and doesn't.
pub fn put_counts(out: &mut Vec<u8>, is_whole: bool, tally: Tally) -> Result<(), AllocError>
    ensures { OnOk result (out.new.items ≡ out.old.items ++ text.counts_text is_whole tally) }
{
    put_often(out, is_whole, tally)?;
    out.extend_from_slice(b" ")?;
    put_number(out, tally.positive as u64)?;
    out.extend_from_slice(b" ")?;
    put_number(out, tally.negative as u64)
}

fn put_head(out: &mut Vec<u8>, report: Report<'_>) -> Result<(), AllocError>
    ensures { OnOk result (out.new.items ≡ out.old.items ++ text.head_text report.entry) }
{
    out.extend_from_slice(b"Test ")?;
    out.extend_from_slice(report.name)?;
    out.extend_from_slice(b" ")?;
    put_kind(out, report.kind)?;
    out.extend_from_slice(b"\nStates ")?;
    put_number(out, report.states.len() as u64)?;
    out.extend_from_slice(b"\n")?;
    Ok(())
}

fn put_tail(out: &mut Vec<u8>, report: Report<'_>) -> Result<(), AllocError>
    ensures { OnOk result (out.new.items ≡ out.old.items ++ text.tail_text report.entry) }
{
    put_answer(out, report.answer)?;
    out.extend_from_slice(b"\nWitnesses\nPositive: ")?;
    put_number(out, report.tally.positive as u64)?;
    out.extend_from_slice(b" Negative: ")?;
    put_number(out, report.tally.negative as u64)?;
    out.extend_from_slice(b"\n")?;
    Ok(())
}

fn put_end(out: &mut Vec<u8>, report: Report<'_>) -> Result<(), AllocError>
    ensures { OnOk result (out.new.items ≡ out.old.items ++ text.end_text report.entry) }
{
    out.extend_from_slice(b"Condition ")?;
    out.extend_from_slice(report.question)?;
    out.extend_from_slice(b"\nObservation ")?;
    out.extend_from_slice(report.name)?;
    out.extend_from_slice(b" ")?;
    put_counts(out, report.is_whole, report.tally)?;
    out.extend_from_slice(b"\n\n")?;
    Ok(())
}

/// Adds a test's block, as herd7 has it, without its lines of time and hash.
pub fn put_block(out: &mut Vec<u8>, report: Report<'_>) -> Result<(), AllocError>
    ensures { OnOk result (out.new.items ≡ out.old.items ++ text.block_text report.entry) }
{
    put_head(out, report)?;
    put_states(out, report.names, report.told, report.states)?;
    put_tail(out, report)?;
    put_end(out, report)
}

/// Adds a test's name, answer and counts.
pub fn put_brief(out: &mut Vec<u8>, report: Report<'_>) -> Result<(), AllocError>
    ensures { OnOk result (out.new.items ≡ out.old.items ++ text.brief_text report.entry) }
{
    out.extend_from_slice(report.name)?;
    out.extend_from_slice(b"   ")?;
    put_answer(out, report.answer)?;
    out.extend_from_slice(b"   ")?;
    put_counts(out, report.is_whole, report.tally)
}
