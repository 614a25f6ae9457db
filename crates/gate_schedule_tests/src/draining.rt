//! Small programs whose ends, with their final words of memory, were worked out by hand.

use crate::exploring::{Found, is_whole};
use crate::programs::{ONE_WORD, S, TWO_WRITES, TWO_WRITES_FENCED, X, Y, config_of, image_of};
use elf_loader::Image;
use flat_machine::{FlatMachine, Outcome, Tables};
use hart::Status;
use machine_types::MemoryModel;
use state_search::{Throughout, Unwatched, search};
use std::alloc::{AllocError, Global};
use std::process::Abort;
use std::test::Fail;

/// The code that the last hart exits with, and the words X and Y.
type Drained = (u8, u32, u32);

/// A program under a model, and all its ends.
#[derive(Clone, Copy)]
struct Case {
    words: &'static [u32],
    harts: u32,
    model: MemoryModel,
    ends: &'static [Drained],
}

fn is_end(outcome: &Outcome, end: Drained) -> bool {
    let (code, x, y) = end;
    match outcome.results().harts().last() {
        Some(last) => last.status == Status::Exited(code) && outcome.words() == [x, y].as_slice(),
        None => false,
    }
}

fn is_among(found: &[Outcome], end: Drained) -> bool {
    found.iter().any(|outcome| is_end(outcome, end))
}

/// Whether these are the ends, in any order.
fn are_ends(found: &[Outcome], ends: &[Drained]) -> bool {
    found.len() == ends.len() && ends.iter().all(|end| is_among(found, *end))
}

fn found_by(
    alloc: Global,
    machine: &FlatMachine<'_>,
    ends: &[Drained],
) -> Result<Found, AllocError> {
    let findings = search(
        machine,
        Tables::new(alloc),
        alloc,
        1000,
        &Unwatched,
        &Throughout,
    )?;
    Ok(Found {
        extent: findings.extent,
        has_outcomes: are_ends(findings.outcomes.outcomes.as_slice(), ends),
        states: findings.table.keys.len(),
        stuck: findings.stuck.len(),
    })
}

fn found_in(alloc: Global, image: &Image, case: &Case) -> Result<Found, Fail> {
    let mut config = config_of(case.harts, 2)?;
    config.model = case.model;
    let machine = FlatMachine::new(alloc, image, config, &[X, Y])?;
    Ok(found_by(alloc, &machine, case.ends)?)
}

fn find(alloc: Global, case: &Case) -> Result<Found, Fail> {
    let image = image_of(alloc, case.words)?;
    found_in(alloc, &image, case)
}

fn ends_so(rt: &(impl Abort + AllocGlobal), case: &Case) -> Result<(), Fail> {
    is_whole(rt, find(rt.alloc(), case)?);
    Ok(())
}

// The stores of a group leave in any order.
const ANY_LAST: Case = Case {
    words: &TWO_WRITES,
    harts: 2,
    model: MemoryModel::Rvwmo,
    ends: &[(1, 1, 1), (1, 1, 2), (1, 2, 1), (1, 2, 2)],
};

#[test]
fn either_hart_may_store_last_to_each_word(rt: HostRuntime) -> Result<(), Fail> {
    ends_so(&rt, &ANY_LAST)
}

// Not both words 1: each hart's second store came before the other's first, and so before itself.
const FENCED: Case = Case {
    words: &TWO_WRITES_FENCED,
    ends: &[(1, 1, 2), (1, 2, 1), (1, 2, 2)],
    ..ANY_LAST
};

static TOTAL: Case = Case {
    words: &TWO_WRITES,
    model: MemoryModel::Ztso,
    ..FENCED
};

#[test]
fn stores_in_order_are_not_both_overtaken(rt: HostRuntime) -> Result<(), Fail> {
    ends_so(&rt, &FENCED)?;
    ends_so(&rt, &TOTAL)
}

static BEHIND_A_LOAD: Case = Case {
    words: &S,
    ends: &[(0, 1, 1), (0, 2, 1), (1, 1, 1)],
    ..ANY_LAST
};

#[test]
fn a_store_behind_a_load_is_later_than_what_the_load_saw(rt: HostRuntime) -> Result<(), Fail> {
    ends_so(&rt, &BEHIND_A_LOAD)
}

static LAST_STAYS: Case = Case {
    words: &ONE_WORD,
    harts: 1,
    ends: &[(0, 2, 0)],
    ..ANY_LAST
};

#[test]
fn the_last_store_to_a_word_stays(rt: HostRuntime) -> Result<(), Fail> {
    ends_so(&rt, &LAST_STAYS)
}
