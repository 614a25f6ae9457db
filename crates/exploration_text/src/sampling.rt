//! The lines that tell of random runs.
ghost use Rattle.std.specs.Prelude.{◌≡◌, ◌++◌, IfOk, OnOk};
ghost use Rattle.exploration_text.specs.Sampling as text;
ghost use Rattle.explorer.specs.Ends.{outcome_of, outcomes_of};

use crate::spelling::{spell_harts, spell_number};
use explorer::{Found, Sampled};
use std::alloc::{AllocError, Global};

fn spell_end(into: &mut Vec<u8>, number: usize, times: u64, end: &Found) -> Result<(), AllocError>
    ensures { OnOk result (into.new.items ≡ into.old.items ++ text.counted_line number times (outcome_of end.now)) }
{
    spell_number(into, number as u64)?;
    into.extend_from_slice(b"  ")?;
    spell_number(into, times)?;
    spell_harts(into, &end.harts)?;
    into.extend_from_slice(b"\n")?;
    Ok(())
}

fn spell_ends(into: &mut Vec<u8>, ends: &[Found], times: &[u64]) -> Result<(), AllocError>
    ensures { OnOk result (into.new.items ≡ into.old.items ++ text.counted_lines 1 (outcomes_of ends.now) times.now) }
{
    let mut rest = ends;
    let mut counts = times;
    let mut number = 1;
    while let [first, tail @ ..] = rest {
        let [count, others @ ..] = counts else {
            return Ok(());
        };
        spell_end(into, number, *count, first)?;
        rest = tail;
        counts = others;
        number += 1;
    }
    Ok(())
}

fn spell_unended(into: &mut Vec<u8>, runs: u64) -> Result<(), AllocError>
    ensures { OnOk result (into.new.items ≡ into.old.items ++ text.unended_line runs) }
{
    if runs > 0 {
        into.extend_from_slice(b"unended: ")?;
        spell_number(into, runs)?;
        into.extend_from_slice(b" runs\n")?;
    }
    Ok(())
}

fn spell_runs(into: &mut Vec<u8>, runs: u64) -> Result<(), AllocError>
    ensures { OnOk result (into.new.items ≡ into.old.items ++ text.runs_line runs) }
{
    into.extend_from_slice(b"sampled: ")?;
    spell_number(into, runs)?;
    into.extend_from_slice(b" runs, not complete\n")?;
    Ok(())
}

/// A line for each end, in order and counted from 1: its number, how many runs came there, and how each
/// hart ended; one for the runs in which a hart hadn't ended, if there are any; and one for the number of
/// runs.
pub fn sampled_text(alloc: Global, sampled: &Sampled) -> Result<Vec<u8>, AllocError>
    ensures { IfOk result (λ bytes. bytes.items ≡ text.sampled_text sampled.now) }
{
    let mut bytes = Vec::new(alloc);
    spell_ends(&mut bytes, &sampled.ends, &sampled.times)?;
    spell_unended(&mut bytes, sampled.unended)?;
    spell_runs(&mut bytes, sampled.runs)?;
    Ok(bytes)
}
