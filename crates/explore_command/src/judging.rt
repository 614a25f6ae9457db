//! Whether the outcomes that were found are those that a file allows, and nothing else was that may not be.

ghost use Rattle.std.specs.Prelude.{◌≡◌, ◌++◌, ◌||◌, IfErr, IfOk, OnErr, OnOk, map, option_map};
ghost use Rattle.explore_command.specs.Judging.{IsToldBy, fail_lines, have_failure, judgement_of_lines, refusal_line, refusal_lines, refusals};

use crate::failing::fails_of;
use crate::findings::Findings;
use allowed_outcomes::{Allowed, without_number};
use command_files::{Fault, Judgement};
use command_settings::Explore;
use std::alloc::{AllocError, Global};
use std::io::Write;
use text_fields::put;

/// Whether what was found is allowed by a text, if there is one, and is nothing that the search may not come to. Where it
/// is, but memory ended, there may be more: that is an error. Of outcomes that aren't the numbers are told, and then what
/// else the search came to.
pub(crate) fn judge<'a, T: Findings, E: Write>(
    alloc: Global,
    wanted: Explore<'_>,
    allowed: &Option<Vec<u8>>,
    found: &T,
    err: &mut E,
) -> Result<Judgement, Fault<'a>>
    ensures judged { IfOk result (λ judgement. judgement ≡ judgement_of_lines (option_map (λ bytes. bytes.items) allowed.now) (map (T.line found.now) (T.outcomes found.now))
        (fail_lines wanted.entry.fail_on (T.has_failures found.now || have_failure (map T.harts (T.outcomes found.now))) (T.is_stuck found.now) (T.is_incomplete found.now))) }
    ensures whole { IfOk result (λ judgement. judgement ≡ Judgement.Allowed → T.IsWhole found.now) }
    ensures told { IfErr result (λ fault. fault ≡ Fault.OutOfMemory) }
    ensures noted { IfOk result (λ judgement. IsToldBy judgement (E.contents err.old) (E.contents err.new)
        (refusals (option_map (λ bytes. bytes.items) allowed.now) (map (T.line found.now) (T.outcomes found.now))
        ++ fail_lines wanted.entry.fail_on (T.has_failures found.now || have_failure (map T.harts (T.outcomes found.now))) (T.is_stuck found.now) (T.is_incomplete found.now))) }
    ensures silent { OnErr result (E.contents err.new ≡ E.contents err.old) }
{
    let Ok(lines) = lines_of(alloc, wanted, allowed, found) else {
        return Err(Fault::OutOfMemory);
    };
    if !lines.is_empty() {
        // Standard error has no other place to tell that it takes no more.
        let _ = put(err, &lines);
        return Ok(Judgement::NotAllowed);
    }
    if found.is_whole() {
        Ok(Judgement::Allowed)
    } else {
        Err(Fault::OutOfMemory)
    }
}

/// What there is to be told.
fn lines_of<T: Findings>(
    alloc: Global,
    wanted: Explore<'_>,
    allowed: &Option<Vec<u8>>,
    found: &T,
) -> Result<Vec<u8>, AllocError>
    ensures { IfOk result (λ lines. lines.items ≡ refusals (option_map (λ bytes. bytes.items) allowed.now) (map (T.line found.now) (T.outcomes found.now))
        ++ fail_lines wanted.entry.fail_on (T.has_failures found.now || have_failure (map T.harts (T.outcomes found.now))) (T.is_stuck found.now) (T.is_incomplete found.now)) }
{
    let mut lines = refusals_by(alloc, allowed, found)?;
    let fails = fails_of(alloc, wanted, found)?;
    lines.extend_from_slice(&fails)?;
    Ok(lines)
}

/// A line with the number of each outcome for which the text has none, if there is a text.
fn refusals_by<T: Findings>(
    alloc: Global,
    allowed: &Option<Vec<u8>>,
    found: &T,
) -> Result<Vec<u8>, AllocError>
    ensures { IfOk result (λ lines. lines.items ≡ refusals (option_map (λ bytes. bytes.items) allowed.now) (map (T.line found.now) (T.outcomes found.now))) }
{
    match allowed {
        Some(text) => refusals_of(alloc, text, found),
        None => Ok(Vec::new(alloc)),
    }
}

/// A line with the number of each outcome for which the text has none.
fn refusals_of<T: Findings>(alloc: Global, text: &[u8], found: &T) -> Result<Vec<u8>, AllocError>
    ensures { IfOk result (λ lines. lines.items ≡ refusal_lines text.now 1 (map (T.line found.now) (T.outcomes found.now))) }
{
    let allowed = Allowed::new(alloc, text)?;
    let mut lines = Vec::new(alloc);
    let mut rest = found.outcomes();
    let mut number: usize = 0;
    while let [first, tail @ ..] = rest {
        number += 1;
        let line = found.line(alloc, first)?;
        if !allowed.has(without_number(&line)) {
            add_refusal(alloc, &mut lines, number)?;
        }
        rest = tail;
    }
    Ok(lines)
}

fn add_refusal(alloc: Global, lines: &mut Vec<u8>, number: usize) -> Result<(), AllocError>
    ensures { OnOk result (lines.new.items ≡ lines.old.items ++ refusal_line number) }
{
    let line = format!(in alloc; "outcome {number} is not allowed\n")?;
    lines.extend_from_slice(line.as_bytes())
}
