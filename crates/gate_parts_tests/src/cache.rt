//! Worked rows as calls of a cache, every message at every permission, and sets that are full.
mod messages;
mod rows;
mod sets;

use crate::same::{same, same_of};
use client_cache::{ClientCache, Evict, Held, Probed, Want};
use std::process::Abort;
use tl_types::{Cap, Change, Grow, LineData, LineSize, Perm};

const X: u32 = 0x8000_0100;

const Y: u32 = 0x8000_0200;

/// A line of memory before anything was stored in it.
const ZERO: LineData = LineData::Bytes16([0; 16]);

/// The line once the word 1 was stored at its beginning.
const ONE: LineData = LineData::Bytes16([1, 0, 0, 0, 0, 0, 0, 0, 0, 0, 0, 0, 0, 0, 0, 0]);

/// The line once the word 2 was.
const TWO: LineData = LineData::Bytes16([2, 0, 0, 0, 0, 0, 0, 0, 0, 0, 0, 0, 0, 0, 0, 0]);

/// A call of a cache.
#[derive(Clone, Copy)]
enum Call {
    Want(u32, Grow),
    Grant(u32, Cap, Option<LineData>),
    /// Stores a word, which this is the lowest byte of, at the line's beginning.
    Store(u32, u8),
    /// Stores the marked bytes of a word of X.
    StoreBytes(u32, [bool; 4], [u8; 4]),
    /// Replaces the whole line.
    Write(u32, LineData),
    Probe(u32, Cap),
    ReleaseAck(u32),
    Evict(u32),
    Copy(u32),
}

/// What it answers.
#[derive(Clone, Copy, Debug, PartialEq, Eq)]
enum Answer {
    Done,
    Want(Want),
    Probe(Probed),
    Evict(Evict),
    Copy(Option<Held>),
}

const MISSED_B: Answer = Answer::Want(Want::Missed(Grow::NtoB));

const MISSED_T: Answer = Answer::Want(Want::Missed(Grow::NtoT));

const UPGRADES: Answer = Answer::Want(Want::Missed(Grow::BtoT));

const NO_COPY: Answer = Answer::Probe(Probed::Answered {
    change: Change::NtoN,
    bytes: None,
});

const EVICTED_BRANCH: Answer = Answer::Evict(Evict::Evicted {
    change: Change::BtoN,
    bytes: None,
});

const EVICTED_CLEAN: Answer = Answer::Evict(Evict::Evicted {
    change: Change::TtoN,
    bytes: None,
});

const EVICTED_ONE: Answer = Answer::Evict(Evict::Evicted {
    change: Change::TtoN,
    bytes: Some(ONE),
});

const LOST_BRANCH: Answer = Answer::Probe(Probed::Answered {
    change: Change::BtoN,
    bytes: None,
});

const LOST_CLEAN: Answer = Answer::Probe(Probed::Answered {
    change: Change::TtoN,
    bytes: None,
});

const LOST_ONE: Answer = Answer::Probe(Probed::Answered {
    change: Change::TtoN,
    bytes: Some(ONE),
});

const BRANCH: Option<Held> = Some(Held::Branch(ZERO));

const CLEAN: Option<Held> = Some(Held::Trunk {
    dirty: false,
    bytes: ZERO,
});

const CLEAN_ONE: Option<Held> = Some(Held::Trunk {
    dirty: false,
    bytes: ONE,
});

const DIRTY_ONE: Option<Held> = Some(Held::Trunk {
    dirty: true,
    bytes: ONE,
});

/// Plays calls and compares what they answer. A wrong answer is told with its call's place.
fn play(rt: &impl Abort, cache: &mut ClientCache, calls: &[(Call, Answer)]) {
    let mut place = 0usize;
    for (call, answer) in calls {
        same_of(rt, ask(rt, cache, *call), *answer, &place);
        place = place.wrapping_add(1);
    }
}

/// A cache's sets and ways, and the size of its lines.
type Shape = (u32, u32, LineSize);

const USUAL: Shape = (4, 2, LineSize::Bytes16);

/// A new cache. One that was refused, in runs in which one allocation fails, is asked for again; no call can take
/// memory.
fn cache_of(rt: &(impl Abort + AllocGlobal), shape: Shape) -> ClientCache {
    let (sets, ways, size) = shape;
    assert!(rt; 0 < sets && sets <= 64);
    assert!(rt; 0 < ways && ways <= 4);
    match ClientCache::new(rt.alloc(), sets, ways, size) {
        Ok(cache) => cache,
        Err(_) => ClientCache::new(rt.alloc(), sets, ways, size).expect(rt, "a second cache"),
    }
}

/// Plays calls, in parts, on a new cache.
fn plays_on(rt: &(impl Abort + AllocGlobal), shape: Shape, parts: &[&[(Call, Answer)]]) {
    let mut cache = cache_of(rt, shape);
    for calls in parts {
        play(rt, &mut cache, calls);
    }
}

fn ask(rt: &impl Abort, cache: &mut ClientCache, call: Call) -> Answer {
    match call {
        Call::Want(line, grow) => want(rt, cache, line, grow),
        Call::Grant(line, cap, bytes) => grant(rt, cache, line, cap, bytes),
        Call::Store(line, byte) => store(rt, cache, line, line, [true; 4], [byte, 0, 0, 0]),
        Call::StoreBytes(word, marks, bytes) => store(rt, cache, X, word, marks, bytes),
        Call::Write(line, bytes) => write(rt, cache, line, bytes),
        Call::Probe(line, cap) => Answer::Probe(cache.on_probe(line, cap)),
        Call::ReleaseAck(line) => release_ack(rt, cache, line),
        Call::Evict(line) => evict(rt, cache, line),
        Call::Copy(line) => copy(rt, cache, line),
    }
}

/// The answer to a miss, which `peek_want` has to foresee.
fn want(rt: &impl Abort, cache: &mut ClientCache, line: u32, grow: Grow) -> Answer {
    let foreseen = cache.peek_want(line, grow);
    let answer = cache.want(line, grow);
    same(rt, foreseen, answer);
    Answer::Want(answer)
}

/// Grants a line of which an Acquire has to be outstanding, and is no more.
fn grant(
    rt: &impl Abort,
    cache: &mut ClientCache,
    line: u32,
    cap: Cap,
    bytes: Option<LineData>,
) -> Answer {
    assert!(rt; cache.is_acquiring(line));
    cache.on_grant(line, cap, bytes);
    same(rt, cache.is_acquiring(line), false);
    Answer::Done
}

fn release_ack(rt: &impl Abort, cache: &mut ClientCache, line: u32) -> Answer {
    cache.on_release_ack(line);
    same(rt, cache.is_releasing(line), false);
    Answer::Done
}

/// The answer to an eviction, which `peek_evict` has to foresee.
fn evict(rt: &impl Abort, cache: &mut ClientCache, line: u32) -> Answer {
    let foreseen = cache.peek_evict(line);
    let answer = cache.evict(line);
    same(rt, foreseen, answer);
    Answer::Evict(answer)
}

/// The copy, whose bytes are those that are read.
fn copy(rt: &impl Abort, cache: &ClientCache, line: u32) -> Answer {
    let copy = cache.copy(line);
    let bytes = match &copy {
        Some(held) => Some(held.bytes()),
        None => None,
    };
    same(rt, cache.read(line), bytes);
    Answer::Copy(copy)
}

/// Stores the marked bytes of an aligned word of a copy that has to be Trunk.
fn store(
    rt: &impl Abort,
    cache: &mut ClientCache,
    line: u32,
    word: u32,
    marks: [bool; 4],
    bytes: [u8; 4],
) -> Answer {
    let Perm::Trunk = cache.perm(line) else {
        panic!(rt; "not Trunk")
    };
    assert!(rt; word % 4 == 0);
    cache.write_word(line, word, marks, bytes);
    Answer::Done
}

/// Replaces a line whose copy has to be Trunk.
fn write(rt: &impl Abort, cache: &mut ClientCache, line: u32, bytes: LineData) -> Answer {
    let Perm::Trunk = cache.perm(line) else {
        panic!(rt; "not Trunk")
    };
    cache.write(line, bytes);
    Answer::Done
}
