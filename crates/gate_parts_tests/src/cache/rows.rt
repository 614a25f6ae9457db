//! The rows that a cache takes part in. A row's two harts have a cache each.
use super::*;

static ROW_10_FIRST: [(Call, Answer); 8] = [
    (Call::Want(Y, Grow::NtoT), MISSED_T),
    (Call::Grant(Y, Cap::ToT, Some(ZERO)), Answer::Done),
    (Call::Store(Y, 1), Answer::Done),
    (Call::Evict(Y), EVICTED_ONE),
    (Call::Probe(Y, Cap::ToB), Answer::Probe(Probed::Releasing)),
    (Call::Want(Y, Grow::NtoB), Answer::Want(Want::WaitRelease)),
    (Call::ReleaseAck(Y), Answer::Done),
    (Call::Probe(Y, Cap::ToB), NO_COPY),
];

static ROW_10_SECOND: [(Call, Answer); 4] = [
    (Call::Want(Y, Grow::NtoB), MISSED_B),
    (Call::Want(Y, Grow::NtoB), Answer::Want(Want::WaitGrant)),
    (Call::Grant(Y, Cap::ToB, Some(ONE)), Answer::Done),
    (Call::Copy(Y), Answer::Copy(Some(Held::Branch(ONE)))),
];

#[test]
fn row_10(rt: HostRuntime) {
    plays_on(&rt, USUAL, &[&ROW_10_FIRST]);
    plays_on(&rt, USUAL, &[&ROW_10_SECOND]);
}

const ROW_11: [(Call, Answer); 5] = [
    (Call::Want(Y, Grow::NtoT), MISSED_T),
    (Call::Grant(Y, Cap::ToT, Some(ZERO)), Answer::Done),
    (Call::Store(Y, 1), Answer::Done),
    (Call::Evict(Y), EVICTED_ONE),
    (Call::Evict(Y), Answer::Evict(Evict::NotHeld)),
];

#[test]
fn row_11(rt: HostRuntime) {
    plays_on(&rt, USUAL, &[&ROW_11]);
}

/// The hart reads a line, and then upgrades it.
static UPGRADE_IS_ASKED: [(Call, Answer); 4] = [
    (Call::Want(X, Grow::NtoB), MISSED_B),
    (Call::Grant(X, Cap::ToB, Some(ZERO)), Answer::Done),
    (Call::Copy(X), Answer::Copy(BRANCH)),
    (Call::Want(X, Grow::BtoT), UPGRADES),
];

static ROW_12_FIRST: [(Call, Answer); 4] = [
    (Call::Grant(X, Cap::ToT, None), Answer::Done),
    (Call::Store(X, 1), Answer::Done),
    (Call::Probe(X, Cap::ToN), LOST_ONE),
    (Call::Copy(X), Answer::Copy(None)),
];

static ROW_12_SECOND: [(Call, Answer); 8] = [
    (Call::Want(X, Grow::NtoB), MISSED_B),
    (Call::Grant(X, Cap::ToB, Some(ZERO)), Answer::Done),
    (Call::Want(X, Grow::BtoT), UPGRADES),
    (Call::Probe(X, Cap::ToN), LOST_BRANCH),
    (Call::Want(X, Grow::NtoT), Answer::Want(Want::WaitGrant)),
    (Call::Grant(X, Cap::ToT, Some(ONE)), Answer::Done),
    (Call::Store(X, 1), Answer::Done),
    (Call::Copy(X), Answer::Copy(DIRTY_ONE)),
];

/// Both harts upgrade a shared line; the second one's copy is probed away while its Acquire waits.
#[test]
fn row_12_and_row_48(rt: HostRuntime) {
    plays_on(&rt, USUAL, &[&UPGRADE_IS_ASKED, &ROW_12_FIRST]);
    plays_on(&rt, USUAL, &[&ROW_12_SECOND]);
}

static ROW_21: [(Call, Answer); 6] = [
    (Call::Want(X, Grow::NtoB), MISSED_B),
    (Call::Grant(X, Cap::ToB, Some(ZERO)), Answer::Done),
    (Call::Want(Y, Grow::NtoB), Answer::Want(Want::SetFull)),
    (Call::Evict(Y), Answer::Evict(Evict::NotHeld)),
    (Call::Evict(X), EVICTED_BRANCH),
    (Call::Want(Y, Grow::NtoB), MISSED_B),
];

#[test]
fn row_21(rt: HostRuntime) {
    plays_on(&rt, (1, 1, LineSize::Bytes16), &[&ROW_21]);
}

const MANY_SETS: Shape = (64, 2, LineSize::Bytes16);

static FIVE_ARE_TAKEN: [(Call, Answer); 10] = [
    (Call::Want(X, Grow::NtoB), MISSED_B),
    (Call::Grant(X, Cap::ToB, Some(ZERO)), Answer::Done),
    (Call::Want(0x8000_0110, Grow::NtoB), MISSED_B),
    (Call::Grant(0x8000_0110, Cap::ToB, Some(ZERO)), Answer::Done),
    (Call::Want(0x8000_0120, Grow::NtoB), MISSED_B),
    (Call::Grant(0x8000_0120, Cap::ToB, Some(ZERO)), Answer::Done),
    (Call::Want(0x8000_0130, Grow::NtoB), MISSED_B),
    (Call::Grant(0x8000_0130, Cap::ToB, Some(ZERO)), Answer::Done),
    (Call::Want(0x8000_0140, Grow::NtoB), MISSED_B),
    (Call::Grant(0x8000_0140, Cap::ToB, Some(ZERO)), Answer::Done),
];

static FOUR_ARE_GIVEN_UP: [(Call, Answer); 7] = [
    (Call::Evict(X), EVICTED_BRANCH),
    (Call::Evict(0x8000_0110), EVICTED_BRANCH),
    (Call::Evict(0x8000_0120), EVICTED_BRANCH),
    (Call::Evict(0x8000_0130), EVICTED_BRANCH),
    (Call::Evict(0x8000_0140), Answer::Evict(Evict::ReleaseFull)),
    (Call::ReleaseAck(X), Answer::Done),
    (Call::Evict(0x8000_0140), EVICTED_BRANCH),
];

/// Five lines are taken one after the other, and row 46 goes on to give them up: four Releases may be
/// unanswered.
#[test]
fn row_22_and_row_46(rt: HostRuntime) {
    plays_on(&rt, MANY_SETS, &[&FIVE_ARE_TAKEN, &FOUR_ARE_GIVEN_UP]);
}

const ROW_31: [(Call, Answer); 7] = [
    (Call::Evict(X), Answer::Evict(Evict::AcquirePending)),
    (Call::Grant(X, Cap::ToT, None), Answer::Done),
    (Call::Store(X, 1), Answer::Done),
    (Call::Evict(X), EVICTED_ONE),
    (Call::Probe(X, Cap::ToB), Answer::Probe(Probed::Releasing)),
    (Call::ReleaseAck(X), Answer::Done),
    (Call::Probe(X, Cap::ToB), NO_COPY),
];

/// The dirty line is evicted while its Probe is on the way.
#[test]
fn row_31(rt: HostRuntime) {
    plays_on(&rt, USUAL, &[&UPGRADE_IS_ASKED, &ROW_31]);
}

const ROW_45: [(Call, Answer); 9] = [
    (Call::Want(X, Grow::NtoT), MISSED_T),
    (Call::Want(0x8000_0110, Grow::NtoT), MISSED_T),
    (Call::Want(0x8000_0120, Grow::NtoT), MISSED_T),
    (Call::Want(0x8000_0130, Grow::NtoT), MISSED_T),
    (
        Call::Want(0x8000_0140, Grow::NtoT),
        Answer::Want(Want::NoTracker),
    ),
    (Call::Want(X, Grow::NtoT), Answer::Want(Want::WaitGrant)),
    (Call::Evict(X), Answer::Evict(Evict::NotHeld)),
    (Call::Grant(X, Cap::ToT, Some(ZERO)), Answer::Done),
    (Call::Want(0x8000_0140, Grow::NtoT), MISSED_T),
];

/// Four Acquires may be outstanding.
#[test]
fn row_45(rt: HostRuntime) {
    plays_on(&rt, MANY_SETS, &[&ROW_45]);
}
