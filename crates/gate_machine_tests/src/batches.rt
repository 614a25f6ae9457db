//! Batches that a machine adopts, and the limit on a hart's list, worked by hand.
use crate::answers::{Answer, adopted, applied};
use crate::images::image_of;
use crate::same::{same, same_of};
use coherent_machine::{AdoptError, ApplyError, Machine};
use hart::{Batch, run_local};
use machine_types::{Config, Event, MemoryModel, Outcome};
use std::alloc::Global;
use std::process::Abort;
use std::test::Fail;
use tl_types::LineSize;

/// Two private instructions, then a store.
const TWO_AND_A_STORE: [u32; 3] = [0x80000637, 0x00100693, 0x10d62023];

/// Puts 5 into x10, and ends with it.
const EXITS: [u32; 2] = [0x00500513, 0x00000073];

/// Ends at once; a private instruction follows.
const EXITS_AT_ONCE: [u32; 2] = [0x00000073, 0x00000013];

/// A jump to itself.
const SPIN: [u32; 1] = [0x0000006f];

const STEP: Event = Event::Step { hart: 0 };

/// What a machine is asked.
#[derive(Clone, Copy, Debug)]
enum Call {
    Apply(Event),
    /// To adopt the batch as this hart's.
    Adopt(u8),
    /// To adopt what hart 0 runs by itself from where it stands.
    AdoptNext,
}

/// A call with its answer, and how many events have changed the machine by then.
type Line = (Call, Answer, u32);

fn machine_of(alloc: Global, words: &[u32], harts: u32) -> Result<Machine, Fail> {
    let config = Config::new(harts, 4, 2, LineSize::Bytes16, MemoryModel::Rvwmo).ok_or("limits")?;
    Ok(Machine::new(alloc, image_of(alloc, words)?, config)?)
}

/// What hart 0 runs by itself from where it stands.
fn batch_of(alloc: Global, machine: &Machine) -> Result<Batch, Fail> {
    let views = machine.views();
    if views.harts() == 0 {
        return Err(Fail::from("a hart"));
    }
    Ok(run_local(alloc, machine.trace().image(), views.hart(0), 256)?)
}

fn ask(alloc: Global, machine: &mut Machine, batch: &Batch, call: Call) -> Result<Answer, Fail> {
    match call {
        Call::Apply(event) => Ok(applied(machine.apply(event))),
        Call::Adopt(hart) => Ok(adopted(machine.adopt(hart, batch))),
        Call::AdoptNext => {
            let next = batch_of(alloc, machine)?;
            Ok(adopted(machine.adopt(0, &next)))
        }
    }
}

fn answers_so(
    rt: &(impl Abort + AllocGlobal),
    machine: &mut Machine,
    batch: &Batch,
    lines: &[Line],
) -> Result<(), Fail> {
    for (call, answer, changes) in lines {
        same_of(rt, ask(rt.alloc(), machine, batch, *call)?, *answer, call);
        same_of(rt, machine.views().changes(), *changes, call);
    }
    Ok(())
}

/// A machine at reset that is asked to adopt what hart 0 runs by itself from there.
fn answers_from_reset(
    rt: &(impl Abort + AllocGlobal),
    words: &[u32],
    harts: u32,
    lines: &[Line],
) -> Result<(), Fail> {
    let mut machine = machine_of(rt.alloc(), words, harts)?;
    let batch = batch_of(rt.alloc(), &machine)?;
    answers_so(rt, &mut machine, &batch, lines)
}

const ROW_39: [Line; 4] = [
    (
        Call::Apply(Event::Local { hart: 0, count: 3 }),
        Answer::Came(Outcome::NotLocal),
        0,
    ),
    (Call::Adopt(0), Answer::Came(Outcome::Retired), 1),
    (Call::Adopt(0), Answer::NotAdopted(AdoptError::Stale), 1),
    (Call::AdoptNext, Answer::NotAdopted(AdoptError::Empty), 1),
];

#[test]
fn row_39(rt: HostRuntime) -> Result<(), Fail> {
    answers_from_reset(&rt, &TWO_AND_A_STORE, 1, &ROW_39)
}

static OF_ANOTHER_PROGRAM: [Line; 2] = [
    (Call::Adopt(0), Answer::NotAdopted(AdoptError::Stale), 0),
    (Call::Adopt(1), Answer::NotAdopted(AdoptError::Stale), 0),
];

#[test]
fn row_39_of_another_program(rt: HostRuntime) -> Result<(), Fail> {
    let other = machine_of(rt.alloc(), &EXITS, 1)?;
    let batch = batch_of(rt.alloc(), &other)?;
    let mut machine = machine_of(rt.alloc(), &TWO_AND_A_STORE, 1)?;
    answers_so(&rt, &mut machine, &batch, &OF_ANOTHER_PROGRAM)
}

const BESIDE_ANOTHER_HART: [Line; 3] = [
    (
        Call::Apply(Event::Step { hart: 1 }),
        Answer::Came(Outcome::Retired),
        1,
    ),
    (Call::Adopt(1), Answer::NotAdopted(AdoptError::Stale), 1),
    (Call::Adopt(0), Answer::Came(Outcome::Retired), 2),
];

#[test]
fn row_39_beside_another_hart(rt: HostRuntime) -> Result<(), Fail> {
    answers_from_reset(&rt, &TWO_AND_A_STORE, 2, &BESIDE_ANOTHER_HART)
}

const OF_AN_ENDED_HART: [Line; 2] = [
    (Call::Apply(STEP), Answer::Came(Outcome::Exited(0)), 1),
    (Call::AdoptNext, Answer::NotAdopted(AdoptError::Empty), 1),
];

#[test]
fn row_39_of_an_ended_hart(rt: HostRuntime) -> Result<(), Fail> {
    answers_from_reset(&rt, &EXITS_AT_ONCE, 1, &OF_AN_ENDED_HART)
}

static AT_THE_LIMIT: [Line; 5] = [
    (
        Call::Apply(Event::Local { hart: 0, count: 65 }),
        Answer::Refused(ApplyError::Limit),
        3906,
    ),
    (
        Call::Apply(Event::Local { hart: 0, count: 64 }),
        Answer::Came(Outcome::Retired),
        3907,
    ),
    (Call::Apply(STEP), Answer::Refused(ApplyError::Limit), 3907),
    (Call::AdoptNext, Answer::NotAdopted(AdoptError::Limit), 3907),
    (
        Call::Apply(Event::Drain {
            hart: 0,
            word: 0x8000_0000,
        }),
        Answer::Came(Outcome::NoEntry),
        3907,
    ),
];

#[test]
fn row_47(rt: HostRuntime) -> Result<(), Fail> {
    let mut machine = machine_of(rt.alloc(), &SPIN, 1)?;
    let batch = batch_of(rt.alloc(), &machine)?;
    let row = Event::Local {
        hart: 0,
        count: 256,
    };
    for _ in 0..3906 {
        let answer = applied(machine.apply(row));
        same(&rt, answer, Answer::Came(Outcome::Retired));
    }
    answers_so(&rt, &mut machine, &batch, &AT_THE_LIMIT)
}
