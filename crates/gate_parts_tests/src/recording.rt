//! Each call of a trace at least once.
use crate::same::same;
use elf_loader::{Image, raw, size_of_kib};
use hart::{Retired, Status};
use std::alloc::Global;
use std::process::Abort;
use std::test::Fail;
use tl_types::{Body, LineSize, Msg};
use trace_recorder::{Direction, Logged, OpId, Trace, are_within_limits};

static ENTRY: Retired = Retired {
    pc: 0x8000_0000,
    word: 0x0000_0013,
    loaded: None,
    sc_ok: None,
};

const ACK: Msg = Msg {
    line: 0x8000_0000,
    body: Body::GrantAck,
};

/// Of a trace of two harts, hart 1, which has done nothing, does one of everything.
fn fill(rt: &impl Abort, trace: &mut Trace) -> Result<(), Fail> {
    assert!(rt; trace.harts() == 2);
    assert!(rt; trace.entries(1).len() == 0);
    trace.reserve(1, 1, 1, 2)?;
    trace.retire(1, ENTRY);
    trace.perform(OpId { hart: 1, place: 0 });
    trace.send(1, ACK);
    trace.take(1, ACK);
    trace.halt(1, Status::Stopped(3));
    Ok(())
}

fn is_filled(rt: &impl Abort, trace: &Trace) {
    assert!(rt; trace.harts() == 2);
    same(rt, trace.entries(1).len(), 1);
    same(rt, trace.entries(0).len(), 0);
    same(rt, trace.performed().len(), 1);
    assert!(rt; trace.log().len() == 2);
    same(rt, trace.log()[0].direction, Direction::Sent);
    same(rt, trace.log()[1].direction, Direction::Taken);
    same(rt, trace.statuses().len(), 2);
    same(rt, trace.image().entry(), 0x8000_0000);
    same(rt, trace.line_size(), LineSize::Bytes16);
}

/// Memory of 4 KiB that begins with an instruction.
fn image_of_one(alloc: Global) -> Result<Image, Fail> {
    let size = size_of_kib(4).ok_or("a size")?;
    Ok(raw(alloc, &[0x13, 0, 0, 0], size)?)
}

#[test]
fn a_trace_keeps_what_happened(rt: HostRuntime) -> Result<(), Fail> {
    let image = image_of_one(rt.alloc())?;
    let mut trace = Trace::new(rt.alloc(), image, LineSize::Bytes16, 2)?;
    fill(&rt, &mut trace)?;
    is_filled(&rt, &trace);
    Ok(())
}

const SENT: Logged = Logged {
    direction: Direction::Sent,
    hart: 0,
    message: ACK,
};

/// What the one hart has retired.
fn retired(rt: &(impl Abort + AllocGlobal)) -> Vec<Vec<Retired>> {
    let own = vec![in rt.alloc(); ENTRY; 3].expect(rt, "entries");
    vec![in rt.alloc(); own].expect(rt, "a hart's list")
}

fn made_of_lists(rt: &(impl Abort + AllocGlobal), image: Image) -> Trace {
    let alloc = rt.alloc();
    let entries = retired(rt);
    let statuses = vec![in alloc; Status::Exited(7); 1].expect(rt, "statuses");
    let performed = vec![in alloc; OpId { hart: 0, place: 2 }; 1].expect(rt, "an order");
    let log = vec![in alloc; SENT; 1].expect(rt, "a log");
    assert!(rt; are_within_limits(&entries));
    assert!(rt; entries.len() == 1);
    Trace::from_parts(image, LineSize::Bytes64, entries, statuses, performed, log)
}

fn has_lists(rt: &impl Abort, trace: &Trace) {
    assert!(rt; trace.harts() == 1);
    same(rt, trace.entries(0).len(), 3);
    same(rt, trace.statuses()[0], Status::Exited(7));
    same(rt, trace.performed(), &[OpId { hart: 0, place: 2 }]);
    assert!(rt; trace.log().len() == 1);
    same(rt, trace.log()[0].hart, 0);
    same(rt, trace.line_size(), LineSize::Bytes64);
}

#[test]
fn a_trace_is_made_of_lists(rt: HostRuntime) -> Result<(), Fail> {
    let image = image_of_one(rt.alloc())?;
    let trace = made_of_lists(&rt, image);
    has_lists(&rt, &trace);
    Ok(())
}
