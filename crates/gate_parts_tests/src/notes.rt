//! The worked rows from the manager's side: what it knows of a line, message by message.
ghost use Rattle.std.specs.Prelude.{◌≡◌, ◌≢◌, ◌<◌, length};
ghost use Rattle.tl_types.specs.Permission.{left_by};

use crate::same::{same, same_of};
use directory::{Acquired, Directory, Grant, HartSet, Known, Sent, Transaction};
use std::alloc::Global;
use std::process::Abort;
use std::test::Fail;
use tl_types::{Cap, Change, Grow, Perm};

const X: u32 = 16;

const Y: u32 = 32;

/// A message that the manager takes, and what it is to send.
#[derive(Clone, Copy)]
enum Step {
    /// An Acquire that is granted.
    Granted(u32, u8, Grow, Cap, bool),
    /// An Acquire for which these harts are probed.
    Probed(u32, u8, Grow, Cap, &'static [u8]),
    /// An Acquire that has to wait.
    Busy(u32, u8, Grow),
    /// A ProbeAck, and the Grant that it has sent: to whom, its permission, and whether with data.
    ProbeAck(u32, u8, Change, Option<(u8, Cap, bool)>),
    Release(u32, u8),
    GrantAck(u32),
    /// No message: a hart's record, and whether its ProbeAck is awaited.
    Known(u32, u8, Perm, bool),
    /// No message: where the line's transaction stands.
    Stands(u32, Transaction),
}

/// To whom a Grant goes, its permission, and whether it has data.
fn told(grant: Option<Grant>) -> Option<(u8, Cap, bool)> {
    match grant {
        Some(grant) => Some((grant.hart, grant.cap, grant.with_data)),
        None => None,
    }
}

/// The Grant that an Acquire has sent at once.
fn granted_by(answer: Acquired) -> Option<Grant> {
    match answer {
        Acquired::Handled(Sent::Granting(grant)) => Some(grant),
        _ => None,
    }
}

/// The set has these harts, in this order.
fn has_harts(rt: &impl Abort, set: &HartSet, harts: &[u8], place: usize) {
    let mut expected = harts.iter();
    for hart in set.iter() {
        same_of(rt, expected.next().copied(), Some(hart), &place);
    }
    same_of(rt, expected.next().copied(), None, &place);
}

fn expect_probes(rt: &impl Abort, answer: &Acquired, cap: Cap, harts: &[u8], place: usize) {
    match answer {
        Acquired::Handled(Sent::Probes(probe, set)) => {
            same_of(rt, *probe, cap, &place);
            has_harts(rt, set, harts, place);
        }
        _ => panic!(rt; "no Probe at {place}"),
    }
}

/// Asks for what a call needs, as every caller can.
fn is_there(rt: &impl Abort, directory: &Directory, line: u32, hart: u8)
    ensures line { line < length directory.now.lines }
    ensures hart { hart < directory.now.harts }
{
    let lines = directory.lines();
    let harts = directory.harts();
    assert!(rt; (line as usize) < lines);
    assert!(rt; hart < harts);
}

/// Probes toT are never sent, so no copy stays a Trunk.
fn is_pruned(rt: &impl Abort, change: Change)
    ensures { left_by change ≢ Perm.Trunk }
{
    match change {
        Change::TtoT => panic!(rt; "a Probe left a Trunk"),
        Change::TtoB => {}
        Change::TtoN => {}
        Change::BtoB => {}
        Change::BtoN => {}
        Change::NtoN => {}
    }
}

fn acquire(
    rt: &impl Abort,
    directory: &mut Directory,
    line: u32,
    hart: u8,
    grow: Grow,
) -> Acquired {
    is_there(rt, directory, line, hart);
    directory.on_acquire(line, hart, grow)
}

fn probe_ack(
    rt: &impl Abort,
    directory: &mut Directory,
    line: u32,
    hart: u8,
    change: Change,
) -> Option<Grant> {
    is_there(rt, directory, line, hart);
    is_pruned(rt, change);
    directory.on_probe_ack(line, hart, change)
}

fn release(rt: &impl Abort, directory: &mut Directory, line: u32, hart: u8) {
    is_there(rt, directory, line, hart);
    directory.on_release(line, hart);
}

fn grant_ack(rt: &impl Abort, directory: &mut Directory, line: u32) {
    is_there(rt, directory, line, 0);
    directory.on_grant_ack(line);
}

fn known(rt: &impl Abort, directory: &Directory, line: u32, hart: u8) -> Known {
    is_there(rt, directory, line, hart);
    directory.known(line, hart)
}

fn stands(rt: &impl Abort, directory: &Directory, line: u32) -> Transaction {
    is_there(rt, directory, line, 0);
    directory.transaction(line)
}

/// Takes the step at this place of its row.
fn take(rt: &impl Abort, directory: &mut Directory, step: Step, place: usize) {
    match step {
        Step::Granted(line, hart, grow, cap, with_data) => {
            let answer = acquire(rt, directory, line, hart, grow);
            let grant = told(granted_by(answer));
            same_of(rt, grant, Some((hart, cap, with_data)), &place);
        }
        Step::Probed(line, hart, grow, cap, harts) => {
            let answer = acquire(rt, directory, line, hart, grow);
            expect_probes(rt, &answer, cap, harts, place);
        }
        Step::Busy(line, hart, grow) => {
            let answer = acquire(rt, directory, line, hart, grow);
            same_of(rt, answer, Acquired::Busy, &place);
        }
        Step::ProbeAck(line, hart, change, due) => {
            let sent = told(probe_ack(rt, directory, line, hart, change));
            same_of(rt, sent, due, &place);
        }
        Step::Release(line, hart) => release(rt, directory, line, hart),
        Step::GrantAck(line) => grant_ack(rt, directory, line),
        Step::Known(line, hart, perm, awaited) => {
            let has = Known { perm, awaited };
            same_of(rt, known(rt, directory, line, hart), has, &place);
        }
        Step::Stands(line, transaction) => {
            same_of(rt, stands(rt, directory, line), transaction, &place);
        }
    }
}

fn take_all(rt: &impl Abort, directory: &mut Directory, steps: &[Step]) {
    let mut place = 0usize;
    for step in steps {
        take(rt, directory, *step, place);
        place = place.wrapping_add(1);
    }
}

/// Plays the steps on 8 harts and 64 lines that nobody has. A directory that was refused, in runs in which
/// one allocation fails, is asked for again; no step can take memory.
fn play(rt: &impl Abort, alloc: Global, steps: &[Step]) -> Result<(), Fail> {
    let mut directory = match Directory::new(alloc, 8, 64) {
        Ok(directory) => directory,
        Err(_) => Directory::new(alloc, 8, 64)?,
    };
    take_all(rt, &mut directory, steps);
    Ok(())
}

const ROW_10: [Step; 11] = [
    Step::Granted(Y, 0, Grow::NtoT, Cap::ToT, true),
    Step::GrantAck(Y),
    Step::Probed(Y, 1, Grow::NtoB, Cap::ToB, &[0]),
    Step::Known(Y, 0, Perm::Trunk, true),
    Step::Release(Y, 0),
    Step::Known(Y, 0, Perm::Nothing, true),
    Step::Stands(Y, Transaction::Probing(1, Grow::NtoB)),
    Step::ProbeAck(Y, 0, Change::NtoN, Some((1, Cap::ToB, true))),
    Step::Known(Y, 0, Perm::Nothing, false),
    Step::Known(Y, 1, Perm::Branch, false),
    Step::Stands(Y, Transaction::Granted(1)),
];

/// A Release while the hart's ProbeAck is awaited: the Grant waits for the ProbeAck.
#[test]
fn row_10(rt: HostRuntime) -> Result<(), Fail> {
    play(&rt, rt.alloc(), &ROW_10)
}

const ROW_11: [Step; 6] = [
    Step::Granted(Y, 0, Grow::NtoT, Cap::ToT, true),
    Step::Release(Y, 0),
    Step::Busy(Y, 1, Grow::NtoB),
    Step::GrantAck(Y),
    Step::Stands(Y, Transaction::Idle),
    Step::Granted(Y, 1, Grow::NtoB, Cap::ToB, true),
];

/// A second hart's Acquire waits for the first one's GrantAck, though the line was released meanwhile.
#[test]
fn row_11(rt: HostRuntime) -> Result<(), Fail> {
    play(&rt, rt.alloc(), &ROW_11)
}

static ROWS_12_AND_48: [Step; 11] = [
    Step::Granted(X, 0, Grow::NtoB, Cap::ToB, true),
    Step::GrantAck(X),
    Step::Granted(X, 1, Grow::NtoB, Cap::ToB, true),
    Step::GrantAck(X),
    Step::Probed(X, 0, Grow::BtoT, Cap::ToN, &[1]),
    Step::Busy(X, 1, Grow::BtoT),
    Step::ProbeAck(X, 1, Change::BtoN, Some((0, Cap::ToT, false))),
    Step::GrantAck(X),
    Step::Probed(X, 1, Grow::BtoT, Cap::ToN, &[0]),
    Step::ProbeAck(X, 0, Change::TtoN, Some((1, Cap::ToT, true))),
    Step::Known(X, 1, Perm::Trunk, false),
];

/// Two readers that both ask to write: the first is granted without data, the second, whose copy was
/// probed away, with data.
#[test]
fn rows_12_and_48(rt: HostRuntime) -> Result<(), Fail> {
    play(&rt, rt.alloc(), &ROWS_12_AND_48)
}

const ROW_22: [Step; 8] = [
    Step::Granted(16, 0, Grow::NtoB, Cap::ToB, true),
    Step::Granted(17, 0, Grow::NtoB, Cap::ToB, true),
    Step::Granted(18, 0, Grow::NtoB, Cap::ToB, true),
    Step::Granted(19, 0, Grow::NtoB, Cap::ToB, true),
    Step::Granted(20, 0, Grow::NtoB, Cap::ToB, true),
    Step::GrantAck(16),
    Step::Stands(16, Transaction::Idle),
    Step::Stands(20, Transaction::Granted(0)),
];

/// E is full with the GrantAcks of four lines: the fifth line's transaction is granted all the same.
#[test]
fn row_22(rt: HostRuntime) -> Result<(), Fail> {
    play(&rt, rt.alloc(), &ROW_22)
}

const ROW_31: [Step; 9] = [
    Step::Granted(X, 0, Grow::NtoB, Cap::ToB, true),
    Step::GrantAck(X),
    Step::Granted(X, 0, Grow::BtoT, Cap::ToT, false),
    Step::GrantAck(X),
    Step::Probed(X, 1, Grow::NtoB, Cap::ToB, &[0]),
    Step::Release(X, 0),
    Step::ProbeAck(X, 0, Change::NtoN, Some((1, Cap::ToB, true))),
    Step::Known(X, 0, Perm::Nothing, false),
    Step::Known(X, 1, Perm::Branch, false),
];

/// The only reader asks to write, and then gives the line up before the Probe reaches it.
#[test]
fn row_31(rt: HostRuntime) -> Result<(), Fail> {
    play(&rt, rt.alloc(), &ROW_31)
}

const ROW_45: [Step; 7] = [
    Step::Granted(16, 0, Grow::NtoT, Cap::ToT, true),
    Step::Granted(17, 0, Grow::NtoT, Cap::ToT, true),
    Step::Granted(18, 0, Grow::NtoT, Cap::ToT, true),
    Step::Granted(19, 0, Grow::NtoT, Cap::ToT, true),
    Step::Granted(20, 0, Grow::NtoT, Cap::ToT, true),
    Step::Known(16, 0, Perm::Trunk, false),
    Step::Known(20, 0, Perm::Trunk, false),
];

/// Four lines are asked for at once, and a fifth after the first Grant.
#[test]
fn row_45(rt: HostRuntime) -> Result<(), Fail> {
    play(&rt, rt.alloc(), &ROW_45)
}

const ROW_46: [Step; 9] = [
    Step::Granted(16, 0, Grow::NtoB, Cap::ToB, true),
    Step::GrantAck(16),
    Step::Release(16, 0),
    Step::Known(16, 0, Perm::Nothing, false),
    Step::Stands(16, Transaction::Idle),
    Step::Granted(17, 0, Grow::NtoB, Cap::ToB, true),
    Step::Release(17, 0),
    Step::Known(17, 0, Perm::Nothing, false),
    Step::Stands(17, Transaction::Granted(0)),
];

/// Releases in the middle of transactions and outside them.
#[test]
fn row_46(rt: HostRuntime) -> Result<(), Fail> {
    play(&rt, rt.alloc(), &ROW_46)
}

static SEVEN_READERS: [Step; 22] = [
    Step::Granted(X, 7, Grow::NtoB, Cap::ToB, true),
    Step::GrantAck(X),
    Step::Granted(X, 2, Grow::NtoB, Cap::ToB, true),
    Step::GrantAck(X),
    Step::Granted(X, 0, Grow::NtoB, Cap::ToB, true),
    Step::GrantAck(X),
    Step::Granted(X, 5, Grow::NtoB, Cap::ToB, true),
    Step::GrantAck(X),
    Step::Granted(X, 1, Grow::NtoB, Cap::ToB, true),
    Step::GrantAck(X),
    Step::Granted(X, 6, Grow::NtoB, Cap::ToB, true),
    Step::GrantAck(X),
    Step::Granted(X, 4, Grow::NtoB, Cap::ToB, true),
    Step::GrantAck(X),
    Step::Probed(X, 3, Grow::NtoT, Cap::ToN, &[0, 1, 2, 4, 5, 6, 7]),
    Step::ProbeAck(X, 4, Change::BtoN, None),
    Step::ProbeAck(X, 0, Change::BtoN, None),
    Step::ProbeAck(X, 7, Change::BtoN, None),
    Step::ProbeAck(X, 1, Change::BtoN, None),
    Step::ProbeAck(X, 6, Change::BtoN, None),
    Step::ProbeAck(X, 2, Change::BtoN, None),
    Step::ProbeAck(X, 5, Change::BtoN, Some((3, Cap::ToT, true))),
];

/// Eight harts: seven readers are probed in rising order, and the last answer sends the Grant.
#[test]
fn seven_readers_are_probed_rising(rt: HostRuntime) -> Result<(), Fail> {
    play(&rt, rt.alloc(), &SEVEN_READERS)
}

#[test]
fn sets_of_harts(rt: HostRuntime) {
    let none = HartSet::new();
    same(&rt, (none.is_empty(), none.first()), (true, None));
    let set = none.with(6).with(1).with(6);
    let has = [set.contains(6), set.contains(1), set.contains(0)];
    same(&rt, has, [true, true, false]);
    same(&rt, set.first(), Some(1));
    same(&rt, set.without(1).first(), Some(6));
    same(&rt, set.without(1).without(6), none);
}
