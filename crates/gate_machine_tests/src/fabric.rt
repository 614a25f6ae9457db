//! Worked rows, each played by one worker thread through a port. A call that wants memory is made once more,
//! so a row ends alike where an allocation of its calls is refused.

ghost use Rattle.std.specs.Prelude.{◌≡◌, ◌<◌, IfOk, length};

use crate::answers::{Answer, adopted, applied};
use crate::images::image_of;
use crate::same::{same, same_of};
use coherent_machine::{AdoptError, ApplyError, Machine, Views};
use elf_loader::Image;
use hart::{Hart, Retired, Status, run_local};
use locked_fabric::{Fabric, Port, Share, Turn, Visit};
use machine_types::{Config, Event, MemoryModel, Outcome};
use progress_board::{Board, Seat};
use std::alloc::Global;
use std::marker::Brand;
use std::process::Abort;
use std::sync::ledger::{Blank, Ledger};
use std::sync::{Mutex, Wait};
use std::test::Fail;
use std::thread;
use std::thread::Threads;
use tl_types::{Body, Cap, Channel, Grow, LineData, LineSize, Msg};
use trace_recorder::{Direction, Logged, OpId, Trace};

/// Puts 5 into x10, and ends with it.
const ROW_1: [u32; 2] = [0x00500513, 0x00000073];

/// Two private instructions, then a store.
const ROW_7: [u32; 3] = [0x80000637, 0x00100693, 0x10d62023];

/// Ends with the hart's number; a private instruction follows.
const ROW_39_EXITS: [u32; 2] = [0x00000073, 0x00000013];

/// Loads the word at the beginning of memory.
const ROW_18: [u32; 2] = [0x80000637, 0x00062703];

const STEP: Event = Event::Step { hart: 0 };

const ROW_18_EVENTS: [Event; 6] = [
    STEP,
    STEP,
    Event::Deliver {
        channel: Channel::A,
        hart: 0,
    },
    Event::Deliver {
        channel: Channel::D,
        hart: 0,
    },
    Event::Deliver {
        channel: Channel::E,
        hart: 0,
    },
    STEP,
];

static ROW_18_OUTCOMES: [Outcome; 6] = [
    Outcome::Retired,
    Outcome::Missed(0x80000000),
    Outcome::Delivered,
    Outcome::Delivered,
    Outcome::Delivered,
    Outcome::Retired,
];

/// What a worker does next.
#[derive(Clone, Copy, Debug)]
enum Call {
    Apply(Event),
    /// What a turn picks is applied.
    Picked,
    /// What hart 0 runs by itself from reset is committed.
    CommitFirst,
    /// The same from where it stands.
    CommitNext,
    /// The same by row 1's program.
    CommitOther,
}

/// Picks row 18's events one after the other, where it is told the outcome of the one before.
#[derive(Drop)]
struct Listed;

impl Turn for Listed {
    fn pick(&mut self, views: &Views<'_>, last: Option<Outcome>) -> Option<Event> {
        let next = views.changes() as usize;
        let expected = match next.checked_sub(1) {
            Some(before) => ROW_18_OUTCOMES.get(before).copied(),
            None => None,
        };
        if last != expected {
            return None;
        }
        ROW_18_EVENTS.get(next).copied()
    }
}

impl Visit for Listed {
    fn holds_back(&self) -> bool {
        false
    }

    fn see(&mut self, _machine: &Machine) {}
}

/// The program of a row with as many harts, and row 1's.
#[derive(Drop)]
struct Programs {
    own: Image,
    harts: u32,
    other: Image,
}

fn commit_run<L: Ledger, R: Wait + AllocGlobal>(
    rt: &R,
    port: &mut Port<'_, L>,
    image: &Image,
    hart: &Hart,
) -> Answer {
    match run_local(rt.alloc(), image, hart, 256) {
        Ok(batch) => adopted(port.commit(rt, &batch, &mut Listed)),
        Err(_) => Answer::NotAdopted(AdoptError::NoMemory),
    }
}

fn ask<L: Ledger, R: Wait + AllocGlobal>(
    rt: &R,
    port: &mut Port<'_, L>,
    programs: &Programs,
    last: Option<Outcome>,
    call: Call,
) -> Answer {
    let Some(hart) = port.hart(rt, 0) else {
        return Answer::Nothing;
    };
    match call {
        Call::Apply(event) => applied(port.apply(rt, event, &mut Listed)),
        Call::Picked => match port.pick(rt, &mut Listed, last) {
            Some(event) => applied(port.apply(rt, event, &mut Listed)),
            None => Answer::Nothing,
        },
        Call::CommitFirst => {
            let reset = Hart::at_reset(0, programs.own.entry(), programs.harts);
            commit_run(rt, port, &programs.own, &reset)
        }
        Call::CommitNext => commit_run(rt, port, &programs.own, &hart),
        Call::CommitOther => commit_run(rt, port, &programs.other, &hart),
    }
}

/// The first call that isn't answered so, with its answer.
fn play<L: Ledger, R: Wait + AllocGlobal>(
    rt: &R,
    port: &mut Port<'_, L>,
    programs: &Programs,
    calls: &[(Call, Answer)],
) -> Option<(Call, Answer)> {
    let mut last = None;
    for (call, expected) in calls {
        let mut answer = ask(rt, port, programs, last, *call);
        if matches!(
            answer,
            Answer::Refused(ApplyError::NoMemory) | Answer::NotAdopted(AdoptError::NoMemory)
        ) {
            answer = ask(rt, port, programs, last, *call);
        }
        if answer != *expected {
            return Some((*call, answer));
        }
        if let Answer::Came(outcome) = answer {
            last = Some(outcome);
        }
    }
    None
}

/// What a worker leaves.
#[derive(Drop)]
struct Done<L: Ledger> {
    wrong: Option<(Call, Answer)>,
    /// The length of hart 0's list and its status.
    seen: Option<(u64, Status)>,
    share: Share<L>,
}

/// Plays in a thread of its own, which takes the lock for each call; none where there is no thread.
fn play_locked<L: Ledger + Send + Sync, R: Threads + Wait + AllocGlobal + Sync>(
    rt: &R,
    mut port: Port<'_, L>,
    programs: &Programs,
    calls: &[(Call, Answer)],
) -> Option<Done<L>> {
    thread::scope(thread::scope_env(), rt, |scope| {
        let worker = scope.spawn(move || {
            let wrong = play(rt, &mut port, programs, calls);
            let seen = port.seen(rt, 0);
            Done {
                wrong,
                seen,
                share: port.end().1,
            }
        });
        match worker {
            Ok(worker) => Some(worker.join(rt)),
            Err(_) => None,
        }
    })
}

/// How a row ends.
#[derive(Drop)]
struct Ended {
    wrong: Option<(Call, Answer)>,
    seen: Option<(u64, Status)>,
    trace: Trace,
    journal: Vec<Event>,
    counts: Vec<u64>,
}

fn programs_of(alloc: Global, words: &[u32], harts: u32) -> Result<Programs, Fail>
    ensures { IfOk result (λ programs. programs.harts ≡ harts) }
{
    Ok(Programs {
        own: image_of(alloc, words)?,
        harts,
        other: image_of(alloc, &ROW_1)?,
    })
}

fn only_seat(alloc: Global) -> Result<Seat, Fail> {
    let (_board, mut seats) = Board::new(alloc, 1)?;
    Ok(seats.pop().ok_or("a seat")?)
}

/// How a row ends whose shares have come back.
fn end_of<L: Ledger>(
    fabric: Fabric<L>,
    shares: Vec<Share<L>>,
    harts: u32,
    wrong: Option<(Call, Answer)>,
    seen: Option<(u64, Status)>,
) -> Result<Ended, Fail>
    requires all { length shares.items ≡ L.parts }
    requires harts { L.parts ≡ harts }
{
    if fabric.machine().views().config().harts != harts {
        return Err(Fail::from("as many harts"));
    }
    let (machine, journal, counts) = fabric.into_parts(shares);
    Ok(Ended {
        wrong,
        seen,
        trace: machine.into_parts().0,
        journal,
        counts,
    })
}

/// A fabric of a program's machine at reset, and the share of each hart's worker.
fn fabric_of<L: Ledger>(
    alloc: Global,
    blank: Blank,
    image: Image,
    harts: u32,
) -> Result<(Fabric<L>, Vec<Share<L>>), Fail>
    requires name { blank.name ≡ L.name }
    requires parts { blank.parts ≡ L.parts }
    requires harts { blank.parts ≡ harts }
    ensures all { IfOk result (λ made. length made.1.items ≡ L.parts) }
{
    let config = Config::new(harts, 4, 2, LineSize::Bytes16, MemoryModel::Rvwmo).ok_or("limits")?;
    Ok(Fabric::<L>::new(alloc, blank, image, config)?)
}

/// Plays with one worker thread, which has the last share.
fn play_by<L: Ledger + Send + Sync, R: Threads + Wait + AllocGlobal + Sync>(
    rt: &R,
    fabric: Fabric<L>,
    mut shares: Vec<Share<L>>,
    programs: &Programs,
    calls: &[(Call, Answer)],
) -> Result<Ended, Fail>
    requires all { length shares.items ≡ L.parts }
    requires harts { (L.parts ≡ programs.now.harts) × (0 < programs.now.harts) }
{
    let seat = only_seat(rt.alloc())?;
    let share = shares.pop().ok_or("a share")?;
    let lock = Mutex::new(fabric);
    let done = play_locked(rt, Port::new(&lock, seat, share), programs, calls).ok_or("a thread")?;
    shares.push(done.share)?;
    end_of(
        lock.into_inner(),
        shares,
        programs.harts,
        done.wrong,
        done.seen,
    )
}

fn play_on<L: Ledger + Send + Sync, R: Threads + Wait + AllocGlobal + Sync>(
    rt: &R,
    blank: Blank,
    words: &[u32],
    programs: &Programs,
    calls: &[(Call, Answer)],
) -> Result<Ended, Fail>
    requires name { blank.name ≡ L.name }
    requires parts { blank.parts ≡ L.parts }
    requires harts { (blank.parts ≡ programs.now.harts) × (0 < programs.now.harts) }
{
    let image = image_of(rt.alloc(), words)?;
    let (fabric, shares) = fabric_of::<L>(rt.alloc(), blank, image, programs.harts)?;
    play_by(rt, fabric, shares, programs, calls)
}

fn played<R: Threads + Wait + AllocGlobal + Sync>(
    rt: &R,
    words: &[u32],
    harts: u32,
    calls: &[(Call, Answer)],
) -> Result<Ended, Fail>
    requires { 0 < harts }
{
    let programs = programs_of(rt.alloc(), words, harts)?;
    play_on::<Brand, R>(rt, Blank::new(u64::from(harts)), words, &programs, calls)
}

/// Calls on a program's machine, and how they are to end.
struct Row {
    words: &'static [u32],
    calls: &'static [(Call, Answer)],
    journal: &'static [Event],
    counts: &'static [u64],
    /// The length of hart 0's list and its status.
    seen: (u64, Status),
}

/// The trace of a row whose calls are answered so.
fn ends_so<R: Threads + Wait + Abort + AllocGlobal + Sync>(
    rt: &R,
    harts: u32,
    row: &Row,
) -> Result<Trace, Fail>
    requires { 0 < harts }
{
    let ended = played(rt, row.words, harts, row.calls)?;
    same_of(rt, ended.wrong.is_none(), true, &ended.wrong);
    same(rt, ended.journal.as_slice(), row.journal);
    same(rt, ended.counts.as_slice(), row.counts);
    same(rt, ended.seen, Some(row.seen));
    Ok(ended.trace)
}

static ROW_1_LOCKED: Row = Row {
    words: &ROW_1,
    calls: &[
        (Call::Apply(STEP), Answer::Came(Outcome::Retired)),
        (Call::Apply(STEP), Answer::Came(Outcome::Exited(5))),
    ],
    journal: &[STEP, STEP],
    counts: &[2],
    seen: (2, Status::Exited(5)),
};

#[test]
fn row_1_locked(rt: HostRuntime) -> Result<(), Fail> {
    let _trace = ends_so(&rt, 1, &ROW_1_LOCKED)?;
    Ok(())
}

const LOCAL_1: Event = Event::Local { hart: 0, count: 1 };

const LOCAL_2: Event = Event::Local { hart: 0, count: 2 };

static ROW_24: Row = Row {
    words: &ROW_1,
    calls: &[
        (Call::Apply(LOCAL_2), Answer::Came(Outcome::NotLocal)),
        (Call::Apply(LOCAL_1), Answer::Came(Outcome::Retired)),
        (
            Call::Apply(Event::Local { hart: 0, count: 0 }),
            Answer::Refused(ApplyError::BadEvent),
        ),
        (Call::CommitFirst, Answer::NotAdopted(AdoptError::Stale)),
    ],
    journal: &[LOCAL_1],
    counts: &[1],
    seen: (1, Status::Running),
};

#[test]
fn row_24(rt: HostRuntime) -> Result<(), Fail> {
    let _trace = ends_so(&rt, 1, &ROW_24)?;
    Ok(())
}

const ROW_39: Row = Row {
    words: &ROW_7,
    calls: &[
        (
            Call::Apply(Event::Local { hart: 0, count: 3 }),
            Answer::Came(Outcome::NotLocal),
        ),
        (Call::CommitOther, Answer::NotAdopted(AdoptError::Stale)),
        (Call::CommitFirst, Answer::Came(Outcome::Retired)),
        (Call::CommitFirst, Answer::NotAdopted(AdoptError::Stale)),
        (Call::CommitNext, Answer::NotAdopted(AdoptError::Empty)),
    ],
    journal: &[LOCAL_2],
    counts: &[1],
    seen: (2, Status::Running),
};

#[test]
fn row_39(rt: HostRuntime) -> Result<(), Fail> {
    let _trace = ends_so(&rt, 1, &ROW_39)?;
    Ok(())
}

const STEP_1: Event = Event::Step { hart: 1 };

const BESIDE_ANOTHER_HART: Row = Row {
    words: &ROW_7,
    calls: &[
        (Call::Apply(STEP_1), Answer::Came(Outcome::Retired)),
        (Call::CommitFirst, Answer::Came(Outcome::Retired)),
    ],
    journal: &[STEP_1, LOCAL_2],
    counts: &[0, 2],
    seen: (2, Status::Running),
};

#[test]
fn row_39_beside_another_hart(rt: HostRuntime) -> Result<(), Fail> {
    let _trace = ends_so(&rt, 2, &BESIDE_ANOTHER_HART)?;
    Ok(())
}

const OF_AN_ENDED_HART: Row = Row {
    words: &ROW_39_EXITS,
    calls: &[
        (Call::Apply(STEP), Answer::Came(Outcome::Exited(0))),
        (Call::CommitNext, Answer::NotAdopted(AdoptError::Empty)),
        (Call::CommitFirst, Answer::NotAdopted(AdoptError::Stale)),
    ],
    journal: &[STEP],
    counts: &[1],
    seen: (1, Status::Exited(0)),
};

#[test]
fn row_39_of_an_ended_hart(rt: HostRuntime) -> Result<(), Fail> {
    let _trace = ends_so(&rt, 1, &OF_AN_ENDED_HART)?;
    Ok(())
}

static ROW_18_PICKED: Row = Row {
    words: &ROW_18,
    calls: &[
        (Call::Picked, Answer::Came(Outcome::Retired)),
        (Call::Picked, Answer::Came(Outcome::Missed(0x80000000))),
        (Call::Picked, Answer::Came(Outcome::Delivered)),
        (Call::Picked, Answer::Came(Outcome::Delivered)),
        (Call::Picked, Answer::Came(Outcome::Delivered)),
        (Call::Picked, Answer::Came(Outcome::Retired)),
    ],
    journal: &ROW_18_EVENTS,
    counts: &[6],
    seen: (2, Status::Running),
};

static ROW_18_ENTRIES: [Retired; 2] = [
    Retired {
        pc: 0x80000000,
        word: 0x80000637,
        loaded: None,
        sc_ok: None,
    },
    Retired {
        pc: 0x80000004,
        word: 0x00062703,
        loaded: Some(0x80000637),
        sc_ok: None,
    },
];

const ACQUIRE: Msg = Msg {
    line: 0x80000000,
    body: Body::AcquireBlock(Grow::NtoB),
};

const GRANT: Msg = Msg {
    line: 0x80000000,
    body: Body::GrantData {
        cap: Cap::ToB,
        bytes: LineData::Bytes16([0x37, 6, 0, 0x80, 3, 0x27, 6, 0, 0, 0, 0, 0, 0, 0, 0, 0]),
    },
};

const GRANT_ACK: Msg = Msg {
    line: 0x80000000,
    body: Body::GrantAck,
};

static ROW_18_LOG: [Logged; 6] = [
    Logged {
        direction: Direction::Sent,
        hart: 0,
        message: ACQUIRE,
    },
    Logged {
        direction: Direction::Taken,
        hart: 0,
        message: ACQUIRE,
    },
    Logged {
        direction: Direction::Sent,
        hart: 0,
        message: GRANT,
    },
    Logged {
        direction: Direction::Taken,
        hart: 0,
        message: GRANT,
    },
    Logged {
        direction: Direction::Sent,
        hart: 0,
        message: GRANT_ACK,
    },
    Logged {
        direction: Direction::Taken,
        hart: 0,
        message: GRANT_ACK,
    },
];

fn is_row_18(trace: &Trace) -> bool {
    trace.harts() == 1
        && trace.entries(0) == ROW_18_ENTRIES.as_slice()
        && trace.performed() == [OpId { hart: 0, place: 1 }].as_slice()
        && trace.statuses() == [Status::Running].as_slice()
        && trace.log() == ROW_18_LOG.as_slice()
}

#[test]
fn port_row_18(rt: HostRuntime) -> Result<(), Fail> {
    let trace = ends_so(&rt, 1, &ROW_18_PICKED)?;
    same(&rt, is_row_18(&trace), true);
    Ok(())
}
