//! States, read off runs' ends.
ghost use Rattle.std.specs.Prelude.{◌≡◌, ◌≤◌, ◌<◌, length, IfOk};
ghost use Rattle.litmus_command.specs.States as states;

use flat_model::HartResult;
use hart::Status;
use litmus_answers::{Layout, Scene, holds, shown};
use litmus_parts::{Step, Told};
use std::alloc::{AllocError, Global};

/// The number at a place, 0 where there is none.
fn number_at(numbers: &[u32], index: usize) -> u32
    ensures { result ≡ states.number_at numbers.now index }
{
    match numbers.get(index) {
        Some(number) => *number,
        None => 0,
    }
}

/// What a hart put out at a place of its output, 0 where there is nothing.
fn output_of(harts: &[HartResult], hart: usize, index: usize) -> u32
    ensures { result ≡ states.output_of harts.now hart index }
{
    match harts.get(hart) {
        Some(result) => number_at(&result.output, index),
        None => 0,
    }
}

/// A place's value behind a run.
fn value_of(told: &Told, harts: &[HartResult], words: &[u32]) -> u32
    ensures { result ≡ states.value_of harts.now words.now told.now }
{
    let number = match told {
        Told::Register { hart, index, .. } => output_of(harts, *hart as usize, *index),
        Told::Location { number, .. } => number_at(words, *number),
    };
    shown(told, number)
}

/// The values of the places that are told.
pub(crate) fn row_of(
    alloc: Global,
    told: &[Told],
    harts: &[HartResult],
    words: &[u32],
) -> Result<Vec<u32>, AllocError>
    ensures { IfOk result (λ row. row.items ≡ states.row_of told.now harts.now words.now) }
{
    let mut row = Vec::new(alloc);
    let mut rest = told;
    while let [first, tail @ ..] = rest {
        row.push(value_of(first, harts, words))?;
        rest = tail;
    }
    Ok(row)
}

/// The first hart that stopped before its end, and why.
pub(crate) fn stopped(harts: &[HartResult]) -> Option<(usize, u8)>
    ensures { result ≡ states.stopped_from 0 harts.now }
{
    let mut number = 0;
    let mut rest = harts;
    while let [first, tail @ ..] = rest {
        if let Status::Stopped(cause) = first.status {
            return Some((number, cause));
        }
        number += 1;
        rest = tail;
    }
    None
}

/// Whether a state counts: it keeps what is asked of all, if anything.
pub(crate) fn counts(
    alloc: Global,
    layout: &Layout,
    filter: &Option<Vec<Step>>,
    state: &[u32],
) -> Result<bool, AllocError>
    requires { length layout.now.names.items ≤ 64 }
    ensures { IfOk result (λ truth. truth ≡ states.counts layout.now filter.now state.now) }
{
    let Some(steps) = filter else {
        return Ok(true);
    };
    let scene = Scene {
        names: &layout.names,
        told: &layout.told,
        state,
    };
    holds(alloc, scene, steps)
}
