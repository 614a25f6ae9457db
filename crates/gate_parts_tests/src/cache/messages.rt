//! Every message that a cache takes, and its eviction, at every permission.
use super::*;

/// What the cache has of the line before the message.
#[derive(Clone, Copy)]
enum Start {
    Nothing,
    Branch,
    Clean,
    /// A Trunk copy in which the word 1 was stored.
    Dirty,
}

static READ: [(Call, Answer); 2] = [
    (Call::Want(X, Grow::NtoB), MISSED_B),
    (Call::Grant(X, Cap::ToB, Some(ZERO)), Answer::Done),
];

static OWNED: [(Call, Answer); 2] = [
    (Call::Want(X, Grow::NtoT), MISSED_T),
    (Call::Grant(X, Cap::ToT, Some(ZERO)), Answer::Done),
];

static STORED: [(Call, Answer); 3] = [
    (Call::Want(X, Grow::NtoT), MISSED_T),
    (Call::Grant(X, Cap::ToT, Some(ZERO)), Answer::Done),
    (Call::Store(X, 1), Answer::Done),
];

/// The calls by which a cache comes to have this of X.
fn coming_to(from: Start) -> &'static [(Call, Answer)] {
    match from {
        Start::Nothing => &[],
        Start::Branch => &READ,
        Start::Clean => &OWNED,
        Start::Dirty => &STORED,
    }
}

/// Plays the calls on a cache that has this of X.
fn plays_from(rt: &(impl Abort + AllocGlobal), from: Start, calls: &[(Call, Answer)]) {
    let mut cache = cache_of(rt, USUAL);
    play(rt, &mut cache, coming_to(from));
    play(rt, &mut cache, calls);
}

/// What the cache has before a Probe, the Probe, the change and the bytes that it answers, and what is left.
static PROBES: [(Start, Cap, Change, Option<LineData>, Option<Held>); 12] = [
    (Start::Nothing, Cap::ToT, Change::NtoN, None, None),
    (Start::Nothing, Cap::ToB, Change::NtoN, None, None),
    (Start::Nothing, Cap::ToN, Change::NtoN, None, None),
    (Start::Branch, Cap::ToT, Change::BtoB, None, BRANCH),
    (Start::Branch, Cap::ToB, Change::BtoB, None, BRANCH),
    (Start::Branch, Cap::ToN, Change::BtoN, None, None),
    (Start::Clean, Cap::ToT, Change::TtoT, None, CLEAN),
    (Start::Clean, Cap::ToB, Change::TtoB, None, BRANCH),
    (Start::Clean, Cap::ToN, Change::TtoN, None, None),
    (Start::Dirty, Cap::ToT, Change::TtoT, Some(ONE), CLEAN_ONE),
    (
        Start::Dirty,
        Cap::ToB,
        Change::TtoB,
        Some(ONE),
        Some(Held::Branch(ONE)),
    ),
    (Start::Dirty, Cap::ToN, Change::TtoN, Some(ONE), None),
];

/// A Probe shrinks the copy, and takes the bytes of a dirty one.
#[test]
fn probes(rt: HostRuntime) {
    for (from, cap, change, bytes, left) in &PROBES {
        let answer = Probed::Answered {
            change: *change,
            bytes: *bytes,
        };
        let calls = [
            (Call::Probe(X, *cap), Answer::Probe(answer)),
            (Call::Copy(X), Answer::Copy(*left)),
        ];
        plays_from(&rt, *from, &calls);
    }
}

const BRANCH_TWO: Option<Held> = Some(Held::Branch(TWO));

const CLEAN_TWO: Option<Held> = Some(Held::Trunk {
    dirty: false,
    bytes: TWO,
});

/// What the cache has before a Grant, the Grant with its bytes, and what is left.
static GRANTS: [(Start, Cap, Option<LineData>, Option<Held>); 12] = [
    (Start::Nothing, Cap::ToB, Some(TWO), BRANCH_TWO),
    (Start::Nothing, Cap::ToT, Some(TWO), CLEAN_TWO),
    (Start::Nothing, Cap::ToT, None, None),
    (Start::Branch, Cap::ToB, Some(TWO), BRANCH_TWO),
    (Start::Branch, Cap::ToT, Some(TWO), CLEAN_TWO),
    (Start::Branch, Cap::ToT, None, CLEAN),
    (Start::Clean, Cap::ToB, Some(TWO), BRANCH_TWO),
    (Start::Clean, Cap::ToT, Some(TWO), CLEAN_TWO),
    (Start::Clean, Cap::ToT, None, CLEAN),
    (Start::Dirty, Cap::ToB, Some(TWO), BRANCH_TWO),
    (Start::Dirty, Cap::ToT, Some(TWO), CLEAN_TWO),
    (Start::Dirty, Cap::ToT, None, CLEAN_ONE),
];

/// A Grant installs its bytes clean; without bytes the copy's own stay.
#[test]
fn grants(rt: HostRuntime) {
    for (from, cap, bytes, left) in &GRANTS {
        let calls = [
            (Call::Want(X, Grow::BtoT), UPGRADES),
            (Call::Grant(X, *cap, *bytes), Answer::Done),
            (Call::Copy(X), Answer::Copy(*left)),
        ];
        plays_from(&rt, *from, &calls);
    }
}

static NOTHING_TO_EVICT: [(Call, Answer); 3] = [
    (Call::Evict(X), Answer::Evict(Evict::NotHeld)),
    (Call::ReleaseAck(X), Answer::Done),
    (Call::Copy(X), Answer::Copy(None)),
];

/// What the cache has before an eviction, and what that answers.
static EVICTIONS: [(Start, Answer); 3] = [
    (Start::Branch, EVICTED_BRANCH),
    (Start::Clean, EVICTED_CLEAN),
    (Start::Dirty, EVICTED_ONE),
];

/// An eviction hands the dirty bytes back, and a Probe then waits for the ReleaseAck.
#[test]
fn evictions(rt: HostRuntime) {
    plays_from(&rt, Start::Nothing, &NOTHING_TO_EVICT);
    for (from, answer) in &EVICTIONS {
        let calls = [
            (Call::Evict(X), *answer),
            (Call::Copy(X), Answer::Copy(None)),
            (Call::Probe(X, Cap::ToN), Answer::Probe(Probed::Releasing)),
            (Call::ReleaseAck(X), Answer::Done),
            (Call::Probe(X, Cap::ToN), NO_COPY),
        ];
        plays_from(&rt, *from, &calls);
    }
}

/// What the cache has before and after a ReleaseAck.
static RELEASE_ACKS: [(Start, Option<Held>); 4] = [
    (Start::Nothing, None),
    (Start::Branch, BRANCH),
    (Start::Clean, CLEAN),
    (Start::Dirty, DIRTY_ONE),
];

/// A ReleaseAck leaves the copy and the outstanding Acquire as they are.
#[test]
fn release_acks(rt: HostRuntime) {
    for (from, left) in &RELEASE_ACKS {
        let calls = [
            (Call::Want(X, Grow::BtoT), UPGRADES),
            (Call::ReleaseAck(X), Answer::Done),
            (Call::Want(X, Grow::BtoT), Answer::Want(Want::WaitGrant)),
            (Call::Copy(X), Answer::Copy(*left)),
        ];
        plays_from(&rt, *from, &calls);
    }
}
