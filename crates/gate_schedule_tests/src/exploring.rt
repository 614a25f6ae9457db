//! Small programs whose outcomes were worked out by hand.

use crate::programs::{
    CIRCLE, COUNT, End, RESERVED, RIVAL, STORE_BUFFERING, STORE_BUFFERING_FENCED, UNASKED, UNREAD,
    are_ends, config_of, image_of,
};
use crate::same::same;
use elf_loader::Image;
use flat_machine::{FlatMachine, Outcome, Tables};
use state_search::{Extent, Throughout, Unwatched, search};
use std::alloc::{AllocError, Global};
use std::process::Abort;
use std::test::Fail;

/// A program on harts with caches of one set, and all its outcomes, each by hart.
#[derive(Clone, Copy)]
struct Case {
    words: &'static [u32],
    harts: u32,
    ways: u32,
    outcomes: &'static [&'static [End]],
}

/// What a search finds.
#[derive(Clone, Copy)]
pub struct Found {
    pub extent: Extent,
    /// Whether it finds just the outcomes that there are.
    pub has_outcomes: bool,
    pub states: usize,
    pub stuck: usize,
}

fn is_among(found: &[Outcome], ends: &[End]) -> bool {
    found
        .iter()
        .any(|outcome| are_ends(outcome.results().harts(), ends))
}

/// Whether these are the outcomes, in any order.
fn are_outcomes(found: &[Outcome], outcomes: &[&[End]]) -> bool {
    found.len() == outcomes.len() && outcomes.iter().all(|ends| is_among(found, ends))
}

fn found_by(
    alloc: Global,
    machine: &FlatMachine<'_>,
    outcomes: &[&[End]],
) -> Result<Found, AllocError> {
    let findings = search(
        machine,
        Tables::new(alloc),
        alloc,
        1000,
        &Unwatched,
        &Throughout,
    )?;
    Ok(Found {
        extent: findings.extent,
        has_outcomes: are_outcomes(findings.outcomes.outcomes.as_slice(), outcomes),
        states: findings.table.keys.len(),
        stuck: findings.stuck.len(),
    })
}

fn found_in(alloc: Global, image: &Image, case: &Case) -> Result<Found, Fail> {
    let config = config_of(case.harts, case.ways)?;
    let machine = FlatMachine::new(alloc, image, config, &[])?;
    Ok(found_by(alloc, &machine, case.outcomes)?)
}

fn find(alloc: Global, case: &Case) -> Result<Found, Fail> {
    let image = image_of(alloc, case.words)?;
    found_in(alloc, &image, case)
}

/// Ends the test unless the search has found all states, each with an end before it, and just the outcomes that there
/// are.
pub fn is_whole(rt: &impl Abort, found: Found) {
    same(rt, found.extent, Extent::Complete);
    same(rt, found.has_outcomes, true);
    same(rt, found.stuck, 0);
}

/// How many states a program has, all of which are found.
fn explored(rt: &(impl Abort + AllocGlobal), case: &Case) -> Result<usize, Fail> {
    let found = find(rt.alloc(), case)?;
    is_whole(rt, found);
    Ok(found.states)
}

fn is_explored(rt: &(impl Abort + AllocGlobal), case: &Case) -> Result<(), Fail> {
    let _states = explored(rt, case)?;
    Ok(())
}

fn has_states(rt: &(impl Abort + AllocGlobal), case: &Case, count: usize) -> Result<(), Fail> {
    same(rt, explored(rt, case)?, count);
    Ok(())
}

const BOTH_WAIT: Case = Case {
    words: &STORE_BUFFERING,
    harts: 2,
    ways: 2,
    outcomes: &[
        &[(0, None), (0, None)],
        &[(0, None), (1, None)],
        &[(1, None), (0, None)],
        &[(1, None), (1, None)],
    ],
};

#[test]
fn store_buffering(rt: HostRuntime) -> Result<(), Fail> {
    is_explored(&rt, &BOTH_WAIT)
}

// Not both load 0.
const FENCED: Case = Case {
    words: &STORE_BUFFERING_FENCED,
    outcomes: &[
        &[(0, None), (1, None)],
        &[(1, None), (0, None)],
        &[(1, None), (1, None)],
    ],
    ..BOTH_WAIT
};

#[test]
fn store_buffering_with_fences(rt: HostRuntime) -> Result<(), Fail> {
    is_explored(&rt, &FENCED)
}

// At most one of two harts fails by the other's access; each may fail by itself.
static CONDITIONAL: Case = Case {
    words: &RESERVED,
    ..BOTH_WAIT
};

#[test]
fn a_store_conditional_may_fail(rt: HostRuntime) -> Result<(), Fail> {
    is_explored(&rt, &CONDITIONAL)
}

const RIVAL_OF_ONE_WAY: Case = Case {
    words: &RIVAL,
    harts: 1,
    ways: 1,
    outcomes: &[&[(1, None)]],
};

static RIVAL_OF_TWO_WAYS: Case = Case {
    ways: 2,
    outcomes: &[&[(0, None)], &[(1, None)]],
    ..RIVAL_OF_ONE_WAY
};

#[test]
fn an_own_access_ends_a_reservation_in_one_way(rt: HostRuntime) -> Result<(), Fail> {
    is_explored(&rt, &RIVAL_OF_ONE_WAY)?;
    is_explored(&rt, &RIVAL_OF_TWO_WAYS)
}

const COUNTED: Case = Case {
    words: &COUNT,
    outcomes: &[&[(0, Some(0)), (1, Some(1))], &[(1, Some(1)), (0, Some(0))]],
    ..BOTH_WAIT
};

#[test]
fn what_is_put_out_is_told(rt: HostRuntime) -> Result<(), Fail> {
    is_explored(&rt, &COUNTED)
}

// Hart 0's store waits, or has drained; hart 1 stands before its first load, or before its second: four states, and
// the end. The numbers of states here are those of `tools/plain_explorer --live`, too.

const SET_AGAIN: Case = Case {
    words: &UNREAD,
    outcomes: &[&[(0, None), (1, None)]],
    ..BOTH_WAIT
};

#[test]
fn a_register_that_is_set_again_tells_no_states_apart(rt: HostRuntime) -> Result<(), Fail> {
    has_states(&rt, &SET_AGAIN, 5)
}

static RESERVED_IN_VAIN: Case = Case {
    words: &UNASKED,
    ..SET_AGAIN
};

#[test]
fn a_reservation_that_no_sc_asks_for_tells_no_states_apart(rt: HostRuntime) -> Result<(), Fail> {
    has_states(&rt, &RESERVED_IN_VAIN, 5)
}

#[test]
fn what_may_be_read_tells_states_apart(rt: HostRuntime) -> Result<(), Fail> {
    has_states(&rt, &BOTH_WAIT, 20)?;
    has_states(&rt, &CONDITIONAL, 15)
}

const CIRCLING: Case = Case {
    words: &CIRCLE,
    outcomes: &[],
    ..BOTH_WAIT
};

#[test]
fn a_circle_never_ends(rt: HostRuntime) -> Result<(), Fail> {
    let found = find(rt.alloc(), &CIRCLING)?;
    same(&rt, found.extent, Extent::Complete);
    same(&rt, found.has_outcomes, true);
    same(&rt, found.stuck, found.states);
    Ok(())
}
