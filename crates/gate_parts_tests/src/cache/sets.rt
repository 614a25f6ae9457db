//! Sets that are full, lines of 64 bytes, and what a store writes.
use super::*;

static ACQUIRES_FILL_A_SET: [(Call, Answer); 9] = [
    (Call::Want(0x8000_0000, Grow::NtoB), MISSED_B),
    (Call::Want(0x8000_0040, Grow::NtoT), MISSED_T),
    (
        Call::Want(0x8000_0080, Grow::NtoB),
        Answer::Want(Want::SetFull),
    ),
    (Call::Want(0x8000_0090, Grow::NtoB), MISSED_B),
    (Call::Grant(0x8000_0040, Cap::ToT, Some(ZERO)), Answer::Done),
    (
        Call::Want(0x8000_0080, Grow::NtoB),
        Answer::Want(Want::SetFull),
    ),
    (Call::Grant(0x8000_0000, Cap::ToB, Some(ONE)), Answer::Done),
    (
        Call::Want(0x8000_0080, Grow::NtoB),
        Answer::Want(Want::SetFull),
    ),
    (
        Call::Copy(0x8000_0000),
        Answer::Copy(Some(Held::Branch(ONE))),
    ),
];

/// A set is full of lines of which Acquires are outstanding, before any copy is there.
#[test]
fn acquires_fill_a_set(rt: HostRuntime) {
    plays_on(&rt, USUAL, &[&ACQUIRES_FILL_A_SET]);
}

static A_SLOT_WAITS: [(Call, Answer); 11] = [
    (Call::Want(X, Grow::NtoB), MISSED_B),
    (Call::Grant(X, Cap::ToB, Some(ZERO)), Answer::Done),
    (Call::Want(X, Grow::BtoT), UPGRADES),
    (Call::Want(Y, Grow::NtoB), MISSED_B),
    (Call::Grant(Y, Cap::ToB, Some(ZERO)), Answer::Done),
    (Call::Probe(X, Cap::ToN), LOST_BRANCH),
    (
        Call::Want(0x8000_0300, Grow::NtoB),
        Answer::Want(Want::SetFull),
    ),
    (Call::Grant(X, Cap::ToT, Some(ONE)), Answer::Done),
    (Call::Copy(X), Answer::Copy(CLEAN_ONE)),
    (Call::Probe(X, Cap::ToN), LOST_CLEAN),
    (Call::Want(0x8000_0300, Grow::NtoB), MISSED_B),
];

/// A line that is both held and being acquired counts once, and keeps its slot once a Probe took it.
#[test]
fn a_slot_waits_for_its_grant(rt: HostRuntime) {
    plays_on(&rt, (1, 2, LineSize::Bytes16), &[&A_SLOT_WAITS]);
}

const WIDE_ZERO: LineData = LineData::Bytes64([0; 64]);

/// The wide line once the word 9 was stored at its beginning.
const WIDE_NINE: LineData = LineData::Bytes64([
    9, 0, 0, 0, 0, 0, 0, 0, 0, 0, 0, 0, 0, 0, 0, 0, 0, 0, 0, 0, 0, 0, 0, 0, 0, 0, 0, 0, 0, 0, 0, 0,
    0, 0, 0, 0, 0, 0, 0, 0, 0, 0, 0, 0, 0, 0, 0, 0, 0, 0, 0, 0, 0, 0, 0, 0, 0, 0, 0, 0, 0, 0, 0, 0,
]);

static WIDE_LINES: [(Call, Answer); 7] = [
    (Call::Want(X, Grow::NtoT), MISSED_T),
    (Call::Want(0x8000_0140, Grow::NtoB), MISSED_B),
    (Call::Want(Y, Grow::NtoB), Answer::Want(Want::SetFull)),
    (Call::Grant(X, Cap::ToT, Some(WIDE_ZERO)), Answer::Done),
    (Call::Store(X, 9), Answer::Done),
    (
        Call::Evict(X),
        Answer::Evict(Evict::Evicted {
            change: Change::TtoN,
            bytes: Some(WIDE_NINE),
        }),
    ),
    (Call::Want(Y, Grow::NtoB), MISSED_B),
];

/// Lines of 64 bytes that lie 256 bytes apart share one of four sets.
#[test]
fn wide_lines(rt: HostRuntime) {
    plays_on(&rt, (4, 1, LineSize::Bytes64), &[&WIDE_LINES]);
}

/// The word 0x44332211 at X.
const BEFORE: LineData = LineData::Bytes16([
    0x11, 0x22, 0x33, 0x44, 0, 0, 0, 0, 0, 0, 0, 0, 0, 0, 0, 0,
]);

/// The line once its second byte was stored to.
const BYTE: LineData = LineData::Bytes16([
    0x11, 0x55, 0x33, 0x44, 0, 0, 0, 0, 0, 0, 0, 0, 0, 0, 0, 0,
]);

/// The line once its last word was stored to as well.
const LAST: LineData = LineData::Bytes16([
    0x11, 0x55, 0x33, 0x44, 0, 0, 0, 0, 0, 0, 0, 0, 6, 7, 8, 9,
]);

const DIRTY_BYTE: Option<Held> = Some(Held::Trunk {
    dirty: true,
    bytes: BYTE,
});

const DIRTY_LAST: Option<Held> = Some(Held::Trunk {
    dirty: true,
    bytes: LAST,
});

const CLEAN_LAST: Option<Held> = Some(Held::Trunk {
    dirty: false,
    bytes: LAST,
});

static STORES: [(Call, Answer); 11] = [
    (Call::Want(X, Grow::NtoT), MISSED_T),
    (Call::Grant(X, Cap::ToT, Some(BEFORE)), Answer::Done),
    (
        Call::StoreBytes(X, [false, true, false, false], [0xaa, 0x55, 0xaa, 0xaa]),
        Answer::Done,
    ),
    (Call::Copy(X), Answer::Copy(DIRTY_BYTE)),
    (
        Call::StoreBytes(X + 12, [true; 4], [6, 7, 8, 9]),
        Answer::Done,
    ),
    (Call::Copy(X), Answer::Copy(DIRTY_LAST)),
    (Call::Want(X, Grow::BtoT), UPGRADES),
    (Call::Grant(X, Cap::ToT, None), Answer::Done),
    (Call::Copy(X), Answer::Copy(CLEAN_LAST)),
    (Call::Write(X, LAST), Answer::Done),
    (Call::Copy(X), Answer::Copy(DIRTY_LAST)),
];

/// A store writes its own bytes of the word, here the byte at X + 1 over the word 0x44332211, and then
/// the last word; also a store of what is there makes the copy dirty.
#[test]
fn stores(rt: HostRuntime) {
    plays_on(&rt, USUAL, &[&STORES]);
}

#[test]
fn a_dirty_copy_has_bytes_to_hand_back(rt: HostRuntime) {
    let held = Held::Trunk {
        dirty: true,
        bytes: LAST,
    };
    same(&rt, held.perm(), Perm::Trunk);
    same(&rt, held.dirty_bytes(), Some(LAST));
    same(&rt, Held::Branch(LAST).dirty_bytes(), None);
}

static EACH_CALL: [(Call, Answer); 8] = [
    (Call::Want(X, Grow::NtoT), MISSED_T),
    (Call::Grant(X, Cap::ToT, Some(ZERO)), Answer::Done),
    (Call::Store(X, 1), Answer::Done),
    (Call::Copy(X), Answer::Copy(DIRTY_ONE)),
    (Call::Write(X, TWO), Answer::Done),
    (
        Call::Probe(X, Cap::ToB),
        Answer::Probe(Probed::Answered {
            change: Change::TtoB,
            bytes: Some(TWO),
        }),
    ),
    (Call::Evict(X), EVICTED_BRANCH),
    (Call::ReleaseAck(X), Answer::Done),
];

/// Meant for runs in which one allocation fails: a cache that was made takes no more memory.
#[test]
fn memory_is_taken_at_making_alone(rt: HostRuntime) {
    plays_on(&rt, USUAL, &[&EACH_CALL]);
}
