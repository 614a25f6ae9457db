//! Small programs whose flat plays and random runs were worked out by hand.

use crate::programs::{
    CIRCLE, COUNT, DEKKER, End, LOAD, MESSAGE_PASSING, READERS, RESERVED, RIVALS, SPIN_LOCK,
    STORE_BUFFERING, STORE_BUFFERING_FENCED, TWICE, TWO_LINES, TWO_LOADS, X, Y, are_ends,
    config_of, image_of,
};
use crate::same::{same, same_of};
use flat_model::FlatEvent;
use hart::Status;
use machine_types::{Config, Event};
use schedules::{RealiseError, Schedule, realise, sample};
use std::alloc::{AllocError, Global};
use std::process::Abort;
use std::test::Fail;
use tl_types::Channel;

/// The word behind X's line: the flag of `MESSAGE_PASSING`, the counter of `SPIN_LOCK`.
const BEHIND_X: u32 = 0x8000_0140;

pub const STEP_0: FlatEvent = FlatEvent::Step { hart: 0 };

pub const STEP_1: FlatEvent = FlatEvent::Step { hart: 1 };

pub const STEP_2: FlatEvent = FlatEvent::Step { hart: 2 };

pub const DRAIN_X: FlatEvent = FlatEvent::Drain { hart: 0, word: X };

const DRAIN_Y: FlatEvent = FlatEvent::Drain { hart: 0, word: Y };

/// Hart 1's store to Y.
const DRAIN_Y_1: FlatEvent = FlatEvent::Drain { hart: 1, word: Y };

const DRAIN_BEHIND_X: FlatEvent = FlatEvent::Drain {
    hart: 0,
    word: BEHIND_X,
};

/// Hart 1's store there.
const DRAIN_BEHIND_X_1: FlatEvent = FlatEvent::Drain {
    hart: 1,
    word: BEHIND_X,
};

/// Flat events, and how the harts end, by hart, or why the machine isn't brought to them.
type Play = (&'static [FlatEvent], Result<&'static [End], RealiseError>);

/// A program on caches of one set, and what comes of its flat events.
struct Plays {
    words: &'static [u32],
    harts: u32,
    ways: u32,
    plays: &'static [Play],
}

pub fn realised(
    alloc: Global,
    words: &[u32],
    harts: u32,
    steps: &[FlatEvent],
) -> Result<Schedule, Fail> {
    let config = config_of(harts, 2)?;
    let image = image_of(alloc, words)?;
    Ok(realise(alloc, image, config, steps)?)
}

fn is_answer(
    answer: &Result<Schedule, RealiseError>,
    expected: &Result<&[End], RealiseError>,
) -> bool {
    match (answer, expected) {
        (Ok(schedule), Ok(ends)) => are_ends(&schedule.results, ends),
        (Err(error), Err(expected)) => error == expected,
        _ => false,
    }
}

fn comes_so(
    alloc: Global,
    of: &Plays,
    steps: &[FlatEvent],
    ends: &Result<&[End], RealiseError>,
) -> Result<bool, Fail> {
    let config = config_of(of.harts, of.ways)?;
    let image = image_of(alloc, of.words)?;
    let answer = realise(alloc, image, config, steps);
    Ok(is_answer(&answer, ends))
}

fn all_come_so(rt: &(impl Abort + AllocGlobal), of: &Plays) -> Result<(), Fail> {
    for (steps, ends) in of.plays {
        same_of(rt, comes_so(rt.alloc(), of, steps, ends)?, true, steps);
    }
    Ok(())
}

fn last_status(schedule: &Schedule) -> Option<Status> {
    schedule.results.last().map(|hart| hart.status)
}

// The last step stops at the word behind the program, which is no instruction.
static LOADED: [Event; 7] = [
    Event::Step { hart: 0 },
    Event::Step { hart: 0 },
    Event::Deliver {
        channel: Channel::A,
        hart: 0,
    },
    Event::Deliver {
        channel: Channel::D,
        hart: 0,
    },
    Event::Deliver {
        channel: Channel::E,
        hart: 0,
    },
    Event::Step { hart: 0 },
    Event::Step { hart: 0 },
];

#[test]
fn load_takes_one_round_of_messages(rt: HostRuntime) -> Result<(), Fail> {
    let schedule = realised(rt.alloc(), &LOAD, 1, &[STEP_0])?;
    same(&rt, schedule.events.as_slice(), &LOADED);
    same(&rt, schedule.results.len(), 1);
    same(&rt, last_status(&schedule), Some(Status::Stopped(2)));
    Ok(())
}

static STORE_BUFFERING_PLAYS: Plays = Plays {
    words: &STORE_BUFFERING,
    harts: 2,
    ways: 2,
    plays: &[
        // Both loads come before both drains.
        (&[STEP_0, STEP_1], Ok(&[(0, None), (0, None)])),
        (&[STEP_0, DRAIN_X, STEP_1], Ok(&[(0, None), (1, None)])),
        (
            &[DRAIN_Y_1, DRAIN_X, STEP_1, STEP_0],
            Ok(&[(1, None), (1, None)]),
        ),
    ],
};

#[test]
fn store_buffering(rt: HostRuntime) -> Result<(), Fail> {
    all_come_so(&rt, &STORE_BUFFERING_PLAYS)
}

static FENCED_PLAYS: Plays = Plays {
    words: &STORE_BUFFERING_FENCED,
    harts: 2,
    ways: 2,
    plays: &[
        // The next instruction is the fence, which stalls.
        (&[STEP_0], Err(RealiseError::Unrealised(0))),
        (
            &[DRAIN_X, STEP_0, DRAIN_Y_1, STEP_1],
            Ok(&[(0, None), (1, None)]),
        ),
    ],
};

#[test]
fn fenced_load_waits_for_the_drain(rt: HostRuntime) -> Result<(), Fail> {
    all_come_so(&rt, &FENCED_PLAYS)
}

static MESSAGE_PLAYS: Plays = Plays {
    words: &MESSAGE_PASSING,
    harts: 2,
    ways: 2,
    plays: &[
        (
            &[DRAIN_BEHIND_X, STEP_1, STEP_1],
            Ok(&[(0, None), (0, Some(0))]),
        ),
        (
            &[DRAIN_X, DRAIN_BEHIND_X, STEP_1, STEP_1],
            Ok(&[(0, None), (0, Some(42))]),
        ),
    ],
};

#[test]
fn flag_may_be_seen_before_the_message(rt: HostRuntime) -> Result<(), Fail> {
    all_come_so(&rt, &MESSAGE_PLAYS)
}

// Hart 1 finds the lock taken, and takes it once hart 0 has given it back.
static LOCKED: Plays = Plays {
    words: &SPIN_LOCK,
    harts: 2,
    ways: 1,
    plays: &[(
        &[
            STEP_0,
            STEP_1,
            STEP_0,
            DRAIN_BEHIND_X,
            STEP_0,
            STEP_1,
            STEP_1,
            DRAIN_BEHIND_X_1,
            STEP_1,
        ],
        Ok(&[(0, Some(1)), (0, Some(2))]),
    )],
};

#[test]
fn spin_lock_lets_one_in_after_the_other(rt: HostRuntime) -> Result<(), Fail> {
    all_come_so(&rt, &LOCKED)
}

// Both load the other's flag, and then the counter, before anything drains. The store that lowers the own flag joins
// the one that raised it.
static BOTH_INSIDE: Plays = Plays {
    words: &DEKKER,
    harts: 2,
    ways: 2,
    plays: &[(
        &[STEP_0, STEP_1, STEP_0, STEP_0, STEP_1, STEP_1],
        Ok(&[(0, Some(1)), (0, Some(1))]),
    )],
};

#[test]
fn both_are_inside_at_once(rt: HostRuntime) -> Result<(), Fail> {
    all_come_so(&rt, &BOTH_INSIDE)
}

static RESERVED_PLAYS: Plays = Plays {
    words: &RESERVED,
    harts: 1,
    ways: 2,
    plays: &[
        (&[STEP_0, STEP_0], Ok(&[(0, None)])),
        (&[STEP_0, FlatEvent::Fail { hart: 0 }], Ok(&[(1, None)])),
    ],
};

#[test]
fn store_conditional_may_fail(rt: HostRuntime) -> Result<(), Fail> {
    all_come_so(&rt, &RESERVED_PLAYS)
}

const RIVAL_OF_ONE_WAY: Plays = Plays {
    words: &RIVALS,
    harts: 1,
    ways: 1,
    plays: &[
        // The load of the rival line gives up the reserved one, and the store conditional is quiet.
        (&[STEP_0, STEP_0, STEP_0], Ok(&[(1, None)])),
    ],
};

static RIVALS_OF_TWO_WAYS: Plays = Plays {
    words: &RIVALS,
    harts: 1,
    ways: 2,
    plays: &[
        // The second load gives up the first load's line.
        (&[STEP_0, STEP_0, STEP_0, STEP_0], Ok(&[(0, None)])),
    ],
};

#[test]
fn rival_line_ends_a_reservation_in_one_way(rt: HostRuntime) -> Result<(), Fail> {
    all_come_so(&rt, &RIVAL_OF_ONE_WAY)?;
    all_come_so(&rt, &RIVALS_OF_TWO_WAYS)
}

static BACK_AND_FORTH: Plays = Plays {
    words: &TWO_LINES,
    harts: 1,
    ways: 1,
    plays: &[(&[DRAIN_X, DRAIN_Y, STEP_0], Ok(&[(5, None)]))],
};

#[test]
fn dirty_line_comes_back(rt: HostRuntime) -> Result<(), Fail> {
    all_come_so(&rt, &BACK_AND_FORTH)
}

static TWICE_PLAYS: Plays = Plays {
    words: &TWICE,
    harts: 1,
    ways: 2,
    plays: &[
        (&[DRAIN_X, DRAIN_X], Ok(&[(0, None)])),
        // The second store joins the first one's entry, which drains once.
        (
            &[STEP_0, DRAIN_X, DRAIN_X],
            Err(RealiseError::Unrealised(2)),
        ),
    ],
};

#[test]
fn second_store_to_a_word_is_no_quiet_step(rt: HostRuntime) -> Result<(), Fail> {
    all_come_so(&rt, &TWICE_PLAYS)
}

fn put_probed(harts: &mut Vec<u8>, events: &[Event]) -> Result<(), AllocError> {
    for event in events {
        if let Event::Deliver {
            channel: Channel::B,
            hart,
        } = event
        {
            harts.push(*hart)?;
        }
    }
    Ok(())
}

/// The harts that were probed, in their order.
fn probed(alloc: Global, events: &[Event]) -> Result<Vec<u8>, AllocError> {
    let mut harts = Vec::new(alloc);
    put_probed(&mut harts, events)?;
    Ok(harts)
}

fn are_probed(rt: &(impl Abort + AllocGlobal), events: &[Event], harts: &[u8]) -> Result<(), Fail> {
    let probed = probed(rt.alloc(), events)?;
    same(rt, probed.as_slice(), harts);
    Ok(())
}

#[test]
fn drain_probes_both_readers(rt: HostRuntime) -> Result<(), Fail> {
    let steps = [STEP_1, STEP_2, DRAIN_X, STEP_1, STEP_2];
    let schedule = realised(rt.alloc(), &READERS, 3, &steps)?;
    let ends = [(0, None), (7, None), (7, None)];
    same(&rt, are_ends(&schedule.results, &ends), true);
    // The drain takes the line from harts 1 and 2, and the load of hart 1 makes hart 0 share it.
    are_probed(&rt, &schedule.events, &[1, 2, 0])
}

const COUNTED: Plays = Plays {
    words: &COUNT,
    harts: 2,
    ways: 1,
    plays: &[(&[STEP_1, STEP_0], Ok(&[(1, Some(1)), (0, Some(0))]))],
};

#[test]
fn numbers_put_out_are_told(rt: HostRuntime) -> Result<(), Fail> {
    all_come_so(&rt, &COUNTED)
}

static IMPOSSIBLE: Plays = Plays {
    words: &RESERVED,
    harts: 1,
    ways: 2,
    plays: &[
        (&[DRAIN_X], Err(RealiseError::Unrealised(0))),
        (
            &[FlatEvent::Fail { hart: 0 }],
            Err(RealiseError::Unrealised(0)),
        ),
        (&[STEP_1], Err(RealiseError::Unrealised(0))),
        (
            &[FlatEvent::Fail { hart: 1 }],
            Err(RealiseError::Unrealised(0)),
        ),
        // The hart has exited behind the second step.
        (&[STEP_0, STEP_0, STEP_0], Err(RealiseError::Unrealised(2))),
    ],
};

#[test]
fn what_cannot_happen_is_told(rt: HostRuntime) -> Result<(), Fail> {
    all_come_so(&rt, &IMPOSSIBLE)
}

fn sampled(
    alloc: Global,
    words: &[u32],
    config: Config,
    seed: u64,
    most_events: u64,
) -> Result<Schedule, Fail> {
    let image = image_of(alloc, words)?;
    Ok(sample(alloc, image, config, seed, most_events)?)
}

/// One hart finds 0 and the other 1.
fn has_counted(schedule: &Schedule) -> bool {
    are_ends(&schedule.results, &[(0, Some(0)), (1, Some(1))])
        || are_ends(&schedule.results, &[(1, Some(1)), (0, Some(0))])
}

/// The sample ends as it may, and the same seed gives it again.
fn ends_as_it_may(rt: &(impl Abort + AllocGlobal), ways: u32, seed: u64) -> Result<(), Fail> {
    let schedule = sampled(rt.alloc(), &COUNT, config_of(2, ways)?, seed, 100_000)?;
    same_of(rt, has_counted(&schedule), true, &seed);
    is_given_again(rt, ways, seed, &schedule.events)
}

fn is_given_again(
    rt: &(impl Abort + AllocGlobal),
    ways: u32,
    seed: u64,
    events: &[Event],
) -> Result<(), Fail> {
    let again = sampled(rt.alloc(), &COUNT, config_of(2, ways)?, seed, 100_000)?;
    same(rt, events, again.events.as_slice());
    Ok(())
}

#[test]
fn samples_end_as_they_may(rt: HostRuntime) -> Result<(), Fail> {
    for seed in 0..16u64 {
        let ways = if seed < 8 { 1 } else { 2 };
        ends_as_it_may(&rt, ways, seed)?;
    }
    Ok(())
}

// The second line has room once the first is given up, also where that is picked before the first has come.
#[test]
fn samples_make_room(rt: HostRuntime) -> Result<(), Fail> {
    for seed in 0..20u64 {
        let schedule = sampled(rt.alloc(), &TWO_LOADS, config_of(1, 1)?, seed, 10_000)?;
        same_of(&rt, are_ends(&schedule.results, &[(0, None)]), true, &seed);
    }
    Ok(())
}

#[test]
fn sample_stops_after_its_tries(rt: HostRuntime) -> Result<(), Fail> {
    let schedule = sampled(rt.alloc(), &CIRCLE, config_of(2, 2)?, 1, 50)?;
    // Until hart 0 has exited each try is a step of either hart, and then of hart 1.
    same(&rt, schedule.events.len(), 50);
    same(&rt, schedule.results.len(), 2);
    same(&rt, last_status(&schedule), Some(Status::Running));
    Ok(())
}
