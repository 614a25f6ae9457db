//! Runs with threads: worked rows, and how a run ends.

use crate::images::image_of;
use crate::same::same;
use coherent_machine::{Views, replay};
use hart::Status;
use host_threads::{Gate, Report, RunError, run, run_with};
use locked_fabric::Turn;
use machine_types::{Config, Event, MemoryModel, Outcome};
use std::alloc::Global;
use std::process::Abort;
use std::sync::Wait;
use std::sync::atomic::{AtomicBool, AtomicU64, Ordering};
use std::test::Fail;
use std::thread;
use std::thread::Threads;
use tl_types::{Channel, LineSize};
use trace_recorder::Trace;

/// More events than any run here takes.
pub const LIMIT: u64 = 1_000_000_000;

const MOST_POLLS: u64 = 10_000_000;

/// Two instructions, the second an exit with 5.
const EXIT: [u32; 2] = [0x00500513, 0x00000073];

/// Adds 1 to a word a hundred times.
static HUNDRED: [u32; 8] = [
    0x80000637, 0x10060613, 0x00100693, 0x06400713, 0x00d627af, 0xfff70713, 0xfe071ce3, 0x00000073,
];

/// Each of two harts stores to a word of its own and loads the other's.
const STORE_BUFFERING: [u32; 9] = [
    0x80000637, 0x00100693, 0x00051863, 0x10d62023, 0x20062703, 0x00000073, 0x20d62023, 0x10062703,
    0x00000073,
];

/// Hart 0 exits, and each other hart jumps to itself.
const ONE_EXITS: [u32; 3] = [0x00050463, 0x0000006f, 0x00000073];

/// A jump to itself.
const SPIN: [u32; 1] = [0x0000006f];

/// Loads of the words at 0x80000200, 0x80000100 and 0x80000300, then an exit.
static THREE_LOADS: [u32; 5] = [0x80000637, 0x20062703, 0x10062703, 0x30062703, 0x00000073];

pub struct Open;

impl Gate for Open {
    fn pass(&self, _hart: u8, _turn: u64, _lengths: &[u64]) {}
}

/// Picks one event again and again.
#[derive(Drop)]
struct Always(Event);

impl Turn for Always {
    fn pick(&mut self, _views: &Views<'_>, _last: Option<Outcome>) -> Option<Event> {
        Some(self.0)
    }
}

fn config_of(harts: u32, line: LineSize) -> Result<Config, Fail> {
    Ok(Config::new(harts, 4, 2, line, MemoryModel::Rvwmo).ok_or("limits")?)
}

// Whether the lists of two traces are alike.
fn is_same(one: &Trace, other: &Trace) -> bool {
    if one.harts() != other.harts() || one.statuses() != other.statuses() {
        return false;
    }
    for hart in 0..one.harts() {
        if hart >= other.harts() || one.entries(hart) != other.entries(hart) {
            return false;
        }
    }
    one.performed() == other.performed() && one.log() == other.log()
}

/// Whether the journal leads a machine to the report's trace.
fn replays(alloc: Global, words: &[u32], config: Config, report: &Report) -> Result<bool, Fail> {
    let machine = replay(alloc, image_of(alloc, words)?, config, &report.journal)?;
    Ok(is_same(machine.trace(), &report.trace))
}

fn ran<G: Gate + Sync, R: Threads + Wait + AllocGlobal + Sync>(
    rt: &R,
    words: &[u32],
    config: Config,
    limit: u64,
    gate: &G,
) -> Result<Report, Fail> {
    let image = image_of(rt.alloc(), words)?;
    Ok(run(rt, rt.alloc(), image, config, limit, gate)?)
}

/// A run whose journal replays to its trace.
fn ran_and_replayed<G: Gate + Sync, R: Threads + Wait + Abort + AllocGlobal + Sync>(
    rt: &R,
    words: &[u32],
    config: Config,
    limit: u64,
    gate: &G,
) -> Result<Report, Fail> {
    let report = ran(rt, words, config, limit, gate)?;
    same(rt, replays(rt.alloc(), words, config, &report)?, true);
    Ok(report)
}

/// What comes of a run in which each hart's turn picks one event again and again.
fn ran_by<G: Gate + Sync, R: Threads + Wait + AllocGlobal + Sync>(
    rt: &R,
    words: &[u32],
    harts: u32,
    limit: u64,
    gate: &G,
    events: &[Event],
) -> Result<Result<Report, RunError>, Fail> {
    let alloc = rt.alloc();
    let mut turns = Vec::new(alloc);
    for event in events {
        turns.push(Always(*event))?;
    }
    let image = image_of(alloc, words)?;
    let config = config_of(harts, LineSize::Bytes16)?;
    Ok(run_with(rt, alloc, image, config, limit, gate, turns))
}

/// A run by one event a hart that comes to an error.
fn is_refused<R: Threads + Wait + Abort + AllocGlobal + Sync>(
    rt: &R,
    words: &[u32],
    harts: u32,
    events: &[Event],
    error: RunError,
) -> Result<(), Fail> {
    let answer = ran_by(rt, words, harts, LIMIT, &Open, events)?;
    same(rt, answer.err(), Some(error));
    Ok(())
}

#[test]
fn row_16(rt: HostRuntime) -> Result<(), Fail> {
    let report = ran_and_replayed(&rt, &EXIT, config_of(1, LineSize::Bytes16)?, LIMIT, &Open)?;
    let journal = [Event::Local { hart: 0, count: 1 }, Event::Step { hart: 0 }];
    same(&rt, report.journal.as_slice(), &journal);
    same(&rt, report.receipts.as_slice(), &[2]);
    same(&rt, report.trace.statuses(), &[Status::Exited(5)]);
    Ok(())
}

/// What the last operation that was performed has loaded.
fn last_loaded(trace: &Trace) -> Option<u32> {
    let last = trace.performed().last()?;
    let hart = usize::from(last.hart);
    if hart >= trace.harts() {
        return None;
    }
    trace.entries(hart).get(last.place as usize)?.loaded
}

/// Whether each hart has exited with its number, and has run four private instructions at once.
fn have_counted(report: &Report) -> bool {
    for (hart, status) in (0u8..8).zip(report.trace.statuses()) {
        let row = Event::Local { hart, count: 4 };
        if *status != Status::Exited(hart) || !report.journal.contains(&row) {
            return false;
        }
    }
    true
}

// Each hart adds 1 a hundred times, to `total` together.
fn counts_up<R: Threads + Wait + Abort + AllocGlobal + Sync>(
    rt: &R,
    config: Config,
    total: u32,
) -> Result<(), Fail> {
    let report = ran_and_replayed(rt, &HUNDRED, config, LIMIT, &Open)?;
    same(rt, have_counted(&report), true);
    same(rt, report.trace.performed().len(), total as usize);
    same(rt, last_loaded(&report.trace), total.checked_sub(1));
    Ok(())
}

#[test]
fn row_16_of_four_harts(rt: HostRuntime) -> Result<(), Fail> {
    counts_up(&rt, config_of(4, LineSize::Bytes16)?, 400)
}

#[test]
fn row_53(rt: HostRuntime) -> Result<(), Fail> {
    counts_up(&rt, config_of(8, LineSize::Bytes64)?, 800)
}

/// The first pass of hart 0 waits for a pass of hart 1 that has seen a length of its own, which waits for
/// such a pass of hart 0.
#[derive(Drop)]
struct Meeting {
    seen: [AtomicBool; 2],
    has_failed: AtomicBool,
}

impl Meeting {
    fn wait_for(&self, seen: &AtomicBool) {
        for _ in 0..MOST_POLLS {
            if seen.load(Ordering::SeqCst) {
                return;
            }
            thread::yield_now();
        }
        self.has_failed.store(true, Ordering::SeqCst);
    }
}

impl Gate for Meeting {
    fn pass(&self, hart: u8, turn: u64, lengths: &[u64]) {
        let [first, second] = &self.seen;
        let (own, other) = if hart == 0 {
            (first, second)
        } else {
            (second, first)
        };
        let has_begun = lengths
            .get(usize::from(hart))
            .is_some_and(|length| *length > 0);
        if has_begun {
            own.store(true, Ordering::SeqCst);
        }
        if (hart == 0 && turn == 0) || (hart == 1 && has_begun) {
            self.wait_for(other);
        }
    }
}

#[test]
fn two_harts_meet(rt: HostRuntime) -> Result<(), Fail> {
    let meeting = Meeting {
        seen: [AtomicBool::new(false), AtomicBool::new(false)],
        has_failed: AtomicBool::new(false),
    };
    let report = ran_and_replayed(
        &rt,
        &STORE_BUFFERING,
        config_of(2, LineSize::Bytes16)?,
        LIMIT,
        &meeting,
    )?;
    same(&rt, meeting.has_failed.load(Ordering::SeqCst), false);
    let ends = [Status::Exited(0), Status::Exited(1)];
    same(&rt, report.trace.statuses(), &ends);
    Ok(())
}

/// What each of two harts has seen published, its own length and the other's, and all passes.
#[derive(Drop)]
struct Progress {
    own: [AtomicU64; 2],
    other: [AtomicU64; 2],
    passes: AtomicU64,
    has_fallen: AtomicBool,
}

impl Progress {
    fn new() -> Self {
        Progress {
            own: [AtomicU64::new(0), AtomicU64::new(0)],
            other: [AtomicU64::new(0), AtomicU64::new(0)],
            passes: AtomicU64::new(0),
            has_fallen: AtomicBool::new(false),
        }
    }

    fn note(&self, seen: &AtomicU64, length: u64) {
        if seen.swap(length, Ordering::SeqCst) > length {
            self.has_fallen.store(true, Ordering::SeqCst);
        }
    }
}

impl Gate for Progress {
    fn pass(&self, hart: u8, _turn: u64, lengths: &[u64]) {
        self.passes.fetch_add(1, Ordering::SeqCst);
        if let [first, second] = lengths {
            if hart == 0 {
                self.note(&self.own[0], *first);
                self.note(&self.other[0], *second);
            } else {
                self.note(&self.own[1], *second);
                self.note(&self.other[1], *first);
            }
        }
    }
}

/// Whether two harts have seen no length fall, in the end their own, and no more than the other's.
fn has_seen_lengths(progress: &Progress, trace: &Trace) -> bool {
    if progress.has_fallen.load(Ordering::SeqCst) || trace.harts() != 2 {
        return false;
    }
    for hart in 0..2 {
        let length = trace.entries(hart).len() as u64;
        if progress.own[hart].load(Ordering::SeqCst) != length
            || progress.other[1 - hart].load(Ordering::SeqCst) > length
        {
            return false;
        }
    }
    true
}

#[test]
fn row_25_of_lengths(rt: HostRuntime) -> Result<(), Fail> {
    let progress = Progress::new();
    let report = ran(
        &rt,
        &HUNDRED,
        config_of(2, LineSize::Bytes16)?,
        LIMIT,
        &progress,
    )?;
    same(&rt, has_seen_lengths(&progress, &report.trace), true);
    Ok(())
}

const EMPTY: Event = Event::Deliver {
    channel: Channel::E,
    hart: 0,
};

// Both turns pick an event each time, which changes nothing: as many passes draw a number below the limit
// as there are such numbers, and one more of each hart ends it.
#[test]
fn row_25_of_numbers(rt: HostRuntime) -> Result<(), Fail> {
    let progress = Progress::new();
    let report = ran_by(&rt, &SPIN, 2, 1000, &progress, &[EMPTY, EMPTY])??;
    same(&rt, progress.passes.load(Ordering::SeqCst), 1002);
    same(&rt, report.journal.len(), 0);
    same(&rt, report.receipts.as_slice(), &[0, 0]);
    Ok(())
}

#[test]
fn row_47(rt: HostRuntime) -> Result<(), Fail> {
    let report = ran(&rt, &SPIN, config_of(1, LineSize::Bytes16)?, LIMIT, &Open)?;
    let row = Event::Local {
        hart: 0,
        count: 256,
    };
    let (rows, steps) = report.journal.split_at_checked(3906).ok_or("rows")?;
    same(&rt, rows.iter().all(|event| *event == row), true);
    same(&rt, steps.len(), 64);
    same(&rt, steps.iter().all(|event| *event == STEP), true);
    same(&rt, report.trace.statuses(), &[Status::Running]);
    Ok(())
}

/// Hart 0 stores to a word and then jumps to itself; each other hart loads that word and exits.
const ONE_SPINS: [u32; 7] = [
    0x80000637, 0x00051863, 0x00100693, 0x10d62023, 0x0000006f, 0x10062703, 0x00000073,
];

/// Hart 1 begins once hart 0 has published a list of the greatest length.
#[derive(Drop)]
struct AfterFull {
    is_full: AtomicBool,
}

impl Gate for AfterFull {
    fn pass(&self, hart: u8, turn: u64, lengths: &[u64]) {
        if hart == 0 {
            if lengths.first().is_some_and(|length| *length == 1_000_000) {
                self.is_full.store(true, Ordering::SeqCst);
            }
            return;
        }
        for _ in 0..if turn == 0 { MOST_POLLS } else { 0 } {
            if self.is_full.load(Ordering::SeqCst) {
                return;
            }
            thread::yield_now();
        }
    }
}

// A hart whose list is full gives up its line, which another one waits for, and the run ends.
#[test]
fn a_full_hart_answers_probes(rt: HostRuntime) -> Result<(), Fail> {
    let gate = AfterFull {
        is_full: AtomicBool::new(false),
    };
    let config = config_of(2, LineSize::Bytes16)?;
    let report = ran(&rt, &ONE_SPINS, config, LIMIT, &gate)?;
    same(&rt, gate.is_full.load(Ordering::SeqCst), true);
    let ends = [Status::Running, Status::Exited(1)];
    same(&rt, report.trace.statuses(), &ends);
    same(&rt, last_loaded(&report.trace), Some(1));
    Ok(())
}

#[test]
fn a_limit_of_one_allows_one_event(rt: HostRuntime) -> Result<(), Fail> {
    let report = ran_and_replayed(&rt, &EXIT, config_of(1, LineSize::Bytes16)?, 1, &Open)?;
    same(&rt, report.journal.len(), 1);
    Ok(())
}

#[test]
fn a_hart_spins_while_another_exits(rt: HostRuntime) -> Result<(), Fail> {
    let report = ran_and_replayed(
        &rt,
        &ONE_EXITS,
        config_of(2, LineSize::Bytes16)?,
        1000,
        &Open,
    )?;
    same(&rt, report.trace.statuses().len(), 2);
    let last = report.trace.statuses().last().copied();
    same(&rt, last, Some(Status::Running));
    Ok(())
}

const STEP: Event = Event::Step { hart: 0 };

const ASKED: Event = Event::Deliver {
    channel: Channel::A,
    hart: 0,
};

const GIVEN_BACK: Event = Event::Deliver {
    channel: Channel::C,
    hart: 0,
};

const ANSWERED: Event = Event::Deliver {
    channel: Channel::D,
    hart: 0,
};

static THREE_LINES: [Event; 20] = [
    Event::Local { hart: 0, count: 1 },
    STEP,
    ASKED,
    ANSWERED,
    STEP,
    EMPTY,
    STEP,
    ASKED,
    ANSWERED,
    STEP,
    EMPTY,
    Event::Evict {
        hart: 0,
        line: 0x8000_0100,
    },
    GIVEN_BACK,
    ANSWERED,
    STEP,
    ASKED,
    ANSWERED,
    STEP,
    EMPTY,
    STEP,
];

// Of a set of two lines, the lower one is given up for a third, though it came later.
#[test]
fn a_full_set_gives_its_lowest_line_up(rt: HostRuntime) -> Result<(), Fail> {
    let config = Config::new(1, 1, 2, LineSize::Bytes16, MemoryModel::Rvwmo).ok_or("limits")?;
    let report = ran(&rt, &THREE_LOADS, config, LIMIT, &Open)?;
    same(&rt, report.journal.as_slice(), &THREE_LINES);
    Ok(())
}

const NINTH_HART: Event = Event::Step { hart: 9 };

#[test]
fn a_bad_event_is_told(rt: HostRuntime) -> Result<(), Fail> {
    is_refused(&rt, &EXIT, 1, &[NINTH_HART], RunError::BadEvent)
}

// The other hart's thread would draw all numbers below the limit, were it not stopped.
#[test]
fn a_bad_event_ends_all_threads(rt: HostRuntime) -> Result<(), Fail> {
    let other = Event::Deliver {
        channel: Channel::E,
        hart: 1,
    };
    is_refused(&rt, &SPIN, 2, &[NINTH_HART, other], RunError::BadEvent)
}

#[test]
fn a_missing_turn_is_told(rt: HostRuntime) -> Result<(), Fail> {
    is_refused(&rt, &EXIT, 2, &[STEP], RunError::Config)
}

// Harts, sets and ways outside the limits, and at them.
static SIZES: [((u32, u32, u32), bool); 10] = [
    ((0, 4, 2), false),
    ((9, 4, 2), false),
    ((1, 0, 2), false),
    ((1, 3, 2), false),
    ((1, 128, 2), false),
    ((1, 4, 0), false),
    ((1, 4, 5), false),
    ((1, 1, 1), true),
    ((4, 4, 2), true),
    ((8, 64, 4), true),
];

#[test]
fn a_configuration_is_within_the_limits(rt: HostRuntime) -> Result<(), Fail> {
    for ((harts, sets, ways), is_one) in &SIZES {
        let config = Config::new(*harts, *sets, *ways, LineSize::Bytes16, MemoryModel::Rvwmo);
        same(&rt, config.is_some(), *is_one);
    }
    Ok(())
}
