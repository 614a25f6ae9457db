//! The parts of lines.
ghost use Rattle.std.specs.Prelude.{◌≡◌, ◌++◌, IfOk, OnOk, decimal};
ghost use Rattle.exploration_text.specs.Text as text;
ghost use Rattle.explorer.specs.Ranks.{result_of};
ghost use Rattle.explorer.specs.Shown.{told};

use crate::failures::spell_failure_count;
use explorer::Stuck;
use explorer::flat_model::HartResult;
use hart_ends::put_end;
use itoa::Buffer;
use state_search::{Ending, Extent};
use std::alloc::{AllocError, Global};

pub(crate) fn spell_number(into: &mut Vec<u8>, number: u64) -> Result<(), AllocError>
    ensures { OnOk result (into.new.items ≡ into.old.items ++ decimal number) }
{
    let mut digits = Buffer::new();
    into.extend_from_slice(digits.format(number).as_bytes())?;
    Ok(())
}

fn spell_gap(into: &mut Vec<u8>, hart: usize) -> Result<(), AllocError>
    ensures { OnOk result (into.new.items ≡ into.old.items ++ text.gap_before hart) }
{
    if hart == 0 {
        into.extend_from_slice(b"  ")?;
    } else {
        into.extend_from_slice(b"   ")?;
    }
    Ok(())
}

fn spell_hart(into: &mut Vec<u8>, hart: usize, ended: &HartResult) -> Result<(), AllocError>
    ensures { OnOk result (into.new.items ≡ into.old.items ++ text.hart_field hart (result_of ended.now)) }
{
    spell_gap(into, hart)?;
    if put_end(hart, ended.status, &ended.output, into).is_err() {
        return Err(AllocError);
    }
    Ok(())
}

pub(crate) fn spell_harts(into: &mut Vec<u8>, harts: &[HartResult]) -> Result<(), AllocError>
    ensures { OnOk result (into.new.items ≡ into.old.items ++ text.harts_text 0 (told harts.now)) }
{
    let mut rest = harts;
    let mut hart = 0;
    while let [first, tail @ ..] = rest {
        spell_hart(into, hart, first)?;
        rest = tail;
        hart += 1;
    }
    Ok(())
}

pub(crate) fn spell_stuck(into: &mut Vec<u8>, stuck: &Option<Stuck>) -> Result<(), AllocError>
    ensures { OnOk result (into.new.items ≡ into.old.items ++ text.stuck_line stuck.now) }
{
    if let Some(stuck) = stuck {
        into.extend_from_slice(b"stuck: ")?;
        spell_number(into, stuck.states as u64)?;
        into.extend_from_slice(b" states from which no schedule ends\n")?;
    }
    Ok(())
}

fn spell_ending(into: &mut Vec<u8>, ending: Ending) -> Result<(), AllocError>
    ensures { OnOk result (into.new.items ≡ into.old.items ++ text.ending_text ending) }
{
    match ending {
        Ending::First => into.extend_from_slice(b"incomplete: ended at the first, ")?,
        Ending::Time => into.extend_from_slice(b"incomplete: ended by --seconds, ")?,
    }
    Ok(())
}

pub(crate) fn spell_extent(
    into: &mut Vec<u8>,
    extent: Extent,
    outcomes: usize,
    failures: usize,
    states: usize,
) -> Result<(), AllocError>
    ensures { OnOk result (into.new.items ≡ into.old.items ++ text.last_line extent outcomes failures states) }
{
    match extent {
        Extent::Complete => {
            into.extend_from_slice(b"complete: ")?;
            spell_number(into, outcomes as u64)?;
            into.extend_from_slice(b" outcomes, ")?;
            spell_failure_count(into, failures)?;
            spell_number(into, states as u64)?;
            into.extend_from_slice(b" states\n")?;
        }
        Extent::LimitMet => {
            into.extend_from_slice(b"incomplete: ")?;
            spell_number(into, states as u64)?;
            into.extend_from_slice(b" states met\n")?;
        }
        Extent::Ended(ending) => {
            spell_ending(into, ending)?;
            spell_number(into, states as u64)?;
            into.extend_from_slice(b" states met\n")?;
        }
        Extent::OutOfMemory => into.extend_from_slice(b"incomplete: out of memory\n")?,
    }
    Ok(())
}

/// How each hart ended, by hart, as a line of `text_of` has it behind its number: two spaces stand before the first hart.
pub fn harts_text(alloc: Global, harts: &[HartResult]) -> Result<Vec<u8>, AllocError>
    ensures { IfOk result (λ bytes. bytes.items ≡ text.harts_text 0 (told harts.now)) }
{
    let mut bytes = Vec::new(alloc);
    spell_harts(&mut bytes, harts)?;
    Ok(bytes)
}
