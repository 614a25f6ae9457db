//! Schedules that are shortened. What is left was worked out by hand.

use crate::programs::{
    CIRCLE, DEKKER, READERS, RESERVED, STORE_BUFFERING, TWICE, X, config_of, image_of,
};
use crate::realising::{DRAIN_X, STEP_0, STEP_1, STEP_2, realised};
use crate::same::same;
use coherent_machine::{Machine, replay};
use flat_model::{FlatEvent, HartResult};
use hart::Status;
use machine_types::Event;
use schedules::{Goal, HartResults, Schedule, shorten};
use std::alloc::{AllocError, Global};
use std::process::Abort;
use std::test::Fail;
use tl_types::Channel;

const STEP: Event = Event::Step { hart: 0 };

const ASKED: Event = Event::Deliver {
    channel: Channel::A,
    hart: 0,
};

const GRANTED: Event = Event::Deliver {
    channel: Channel::D,
    hart: 0,
};

/// A program on caches of one set with two ways.
#[derive(Clone, Copy)]
struct Program {
    words: &'static [u32],
    harts: u32,
}

const CIRCLING: Program = Program {
    words: &CIRCLE,
    harts: 2,
};

const RESERVING: Program = Program {
    words: &RESERVED,
    ..STORING
};

const BUFFERING: Program = Program {
    words: &STORE_BUFFERING,
    ..CIRCLING
};

const STORING: Program = Program {
    words: &TWICE,
    harts: 1,
};

const LOCKING: Program = Program {
    words: &DEKKER,
    ..CIRCLING
};

const READING: Program = Program {
    words: &READERS,
    harts: 3,
};

/// No hart runs, and no store waits.
#[derive(Clone, Copy)]
struct Drained;

impl Goal for Drained {
    ghost CanBeAsked = { λ goal. Unit {0} };

    ghost Holds = { λ goal s. Unit {0} };

    fn is_met(&self, machine: &Machine) -> Result<bool, AllocError> {
        let views = machine.views();
        for hart in 0..views.harts() {
            if views.hart(hart).status.is_running() || !views.buffer(hart).is_empty() {
                return Ok(false);
            }
        }
        Ok(true)
    }
}

/// The events that are left, which lead there too.
fn shortened<G: Goal>(
    alloc: Global,
    program: Program,
    events: &[Event],
    goal: &G,
    most_played: u64,
) -> Result<Vec<Event>, Fail>
    requires asked { G.CanBeAsked goal.now }
{
    let config = config_of(program.harts, 2)?;
    let image = image_of(alloc, program.words)?;
    Ok(shorten(alloc, &image, config, events, goal, most_played)?)
}

/// What is left of a program's realised events where the harts are to end as these end.
fn shortened_play(alloc: Global, program: Program, long: &Schedule) -> Result<Vec<Event>, Fail> {
    let harts = &long.results;
    shortened(
        alloc,
        program,
        &long.events,
        &HartResults { harts },
        100_000,
    )
}

fn put_others(rest: &mut Vec<Event>, events: &[Event], left_out: usize) -> Result<(), AllocError> {
    for index in 0..events.len() {
        if index != left_out {
            rest.push(events[index])?;
        }
    }
    Ok(())
}

/// What is left of a program's schedule where the harts are to end as they do.
fn ends_by(
    rt: &(impl Abort + AllocGlobal),
    program: Program,
    long: &Schedule,
    left: &[Event],
) -> Result<(), Fail> {
    let short = shortened_play(rt.alloc(), program, long)?;
    same(rt, short.as_slice(), left);
    Ok(())
}

/// The events but for one, in their order.
fn without(alloc: Global, events: &[Event], left_out: usize) -> Result<Vec<Event>, AllocError> {
    let mut rest = Vec::new(alloc);
    put_others(&mut rest, events, left_out)?;
    Ok(rest)
}

/// The machine to which the events lead.
fn led_by(alloc: Global, program: Program, events: &[Event]) -> Result<Machine, Fail> {
    let config = config_of(program.harts, 2)?;
    let image = image_of(alloc, program.words)?;
    Ok(replay(alloc, image, config, events)?)
}

fn leads_there(
    alloc: Global,
    program: Program,
    events: &[Event],
    goal: &HartResults<'_>,
) -> Result<bool, Fail> {
    let machine = led_by(alloc, program, events)?;
    Ok(goal.is_met(&machine)?)
}

/// Whether the events lead there where one of them is left out.
fn leads_there_without(
    alloc: Global,
    program: Program,
    events: &[Event],
    left_out: usize,
    goal: &HartResults<'_>,
) -> Result<bool, Fail> {
    leads_there(alloc, program, &without(alloc, events, left_out)?, goal)
}

/// Whether the events lead there, and no longer do where any one of them is left out.
fn are_all_needed(
    alloc: Global,
    program: Program,
    events: &[Event],
    goal: &HartResults<'_>,
) -> Result<bool, Fail> {
    if !leads_there(alloc, program, events, goal)? {
        return Ok(false);
    }
    for index in 0..events.len() {
        if leads_there_without(alloc, program, events, index, goal)? {
            return Ok(false);
        }
    }
    Ok(true)
}

/// The events are fewer than those of a program's schedule, and nothing more can be left out, one event at a time.
fn is_shortest(
    rt: &(impl Abort + AllocGlobal),
    program: Program,
    long: &Schedule,
    short: &[Event],
) -> Result<(), Fail> {
    same(rt, short.len() < long.events.len(), true);
    let harts = &long.results;
    let needed = are_all_needed(rt.alloc(), program, short, &HartResults { harts })?;
    same(rt, needed, true);
    Ok(())
}

fn length_left(
    rt: &(impl Abort + AllocGlobal),
    program: Program,
    long: &Schedule,
) -> Result<usize, Fail> {
    let short = shortened_play(rt.alloc(), program, long)?;
    is_shortest(rt, program, long, &short)?;
    Ok(short.len())
}

/// How many events are left of those that realise the steps.
fn shortest(
    rt: &(impl Abort + AllocGlobal),
    program: Program,
    steps: &[FlatEvent],
) -> Result<usize, Fail> {
    let long = realised(rt.alloc(), program.words, program.harts, steps)?;
    length_left(rt, program, &long)
}

fn result(alloc: Global, status: Status) -> HartResult {
    HartResult {
        status,
        output: Vec::new(alloc),
    }
}

static RUNNING: [Event; 8] = [
    STEP,
    Event::Step { hart: 1 },
    ASKED,
    Event::Step { hart: 1 },
    Event::Drain { hart: 1, word: X },
    Event::Step { hart: 1 },
    STEP,
    Event::Step { hart: 1 },
];

/// Neither the delivery nor the drain changes anything.
static CHANGING: [Event; 6] = [
    STEP,
    Event::Step { hart: 1 },
    Event::Step { hart: 1 },
    Event::Step { hart: 1 },
    STEP,
    Event::Step { hart: 1 },
];

/// What is left where the two harts are to stand so.
fn is_left(
    rt: &(impl Abort + AllocGlobal),
    statuses: (Status, Status),
    most_played: u64,
    left: &[Event],
) -> Result<(), Fail> {
    let alloc = rt.alloc();
    let harts = [result(alloc, statuses.0), result(alloc, statuses.1)];
    is_left_for(rt, &harts, most_played, left)
}

fn is_left_for(
    rt: &(impl Abort + AllocGlobal),
    harts: &[HartResult],
    most_played: u64,
    left: &[Event],
) -> Result<(), Fail> {
    let goal = HartResults { harts };
    let short = shortened(rt.alloc(), CIRCLING, &RUNNING, &goal, most_played)?;
    same(rt, short.as_slice(), left);
    Ok(())
}

#[test]
fn what_changes_no_result_is_left_out(rt: HostRuntime) -> Result<(), Fail> {
    let one_ends = (Status::Exited(0), Status::Running);
    is_left(&rt, one_ends, 1000, &[STEP, STEP])?;
    is_left(&rt, one_ends, 0, &CHANGING)?;
    // The events don't lead to where both harts have exited.
    is_left(&rt, (Status::Exited(0), Status::Exited(0)), 1000, &CHANGING)
}

// The load reserves its word as soon as the Grant is there.
static RESERVES: [Event; 7] = [
    Event::Local { hart: 0, count: 2 },
    STEP,
    ASKED,
    GRANTED,
    STEP,
    STEP,
    STEP,
];

#[test]
fn acknowledgement_is_left_out(rt: HostRuntime) -> Result<(), Fail> {
    let long = realised(rt.alloc(), &RESERVED, 1, &[STEP_0, STEP_0])?;
    ends_by(&rt, RESERVING, &long, &RESERVES)
}

/// Each hart's private instructions, its store, its load that misses, the Acquire, the Grant, its load and its exit.
#[test]
fn both_loads_read_0_by_seven_events_a_hart(rt: HostRuntime) -> Result<(), Fail> {
    same(&rt, shortest(&rt, BUFFERING, &[STEP_0, STEP_1])?, 14);
    Ok(())
}

const DRAINS: Event = Event::Drain { hart: 0, word: X };

/// Behind its exit the hart asks for the line, and the store drains as soon as the Grant is there.
static DRAINED: [Event; 8] = [
    Event::Local { hart: 0, count: 2 },
    STEP,
    STEP,
    STEP,
    DRAINS,
    ASKED,
    GRANTED,
    DRAINS,
];

/// What is left where no store may wait.
fn drains_by(
    rt: &(impl Abort + AllocGlobal),
    events: &[Event],
    left: &[Event],
) -> Result<(), Fail> {
    let short = shortened(rt.alloc(), STORING, events, &Drained, 1000)?;
    same(rt, short.as_slice(), left);
    Ok(())
}

#[test]
fn a_drain_stays_where_no_store_may_wait(rt: HostRuntime) -> Result<(), Fail> {
    let long = realised(rt.alloc(), &TWICE, 1, &[STEP_0, DRAIN_X])?;
    drains_by(&rt, &long.events, &DRAINED)?;
    ends_by(&rt, STORING, &long, &DRAINED[..4])
}

#[test]
fn no_event_is_left_that_is_not_needed(rt: HostRuntime) -> Result<(), Fail> {
    let both_inside = [STEP_0, STEP_1, STEP_0, STEP_0, STEP_1, STEP_1];
    let _left = shortest(&rt, LOCKING, &both_inside)?;
    let _left = shortest(&rt, READING, &[STEP_1, STEP_2, DRAIN_X, STEP_1, STEP_2])?;
    Ok(())
}
