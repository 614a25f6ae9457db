//! How many operations are judged, and where bytes come from.
mod plain;

use crate::same::same;
use crate::streams::image_of;
use elf_loader::Image;
use hart::{Retired, Status};
use rvwmo_order::{CheckError, Verdict, check};
use std::alloc::{AllocError, Global};
use std::process::Abort;
use std::test::Fail;
use tl_types::LineSize;
use trace_operations::completed;
use trace_recorder::{OpId, Trace, are_within_limits};

/// `lui a2, 0x80000`, `sw a3, 0x100(a2)` and a jump back to the store.
const PROGRAM: [u32; 3] = [0x8000_0637, 0x10d6_2023, 0xffdf_f06f];

fn retired(pc: u32, word: u32) -> Retired {
    Retired {
        pc,
        word,
        loaded: None,
        sc_ok: None,
    }
}

/// What a hart has retired that runs the program so far, with so many stores.
fn entries_of(alloc: Global, count: usize) -> Result<Vec<Retired>, AllocError> {
    let mut entries = Vec::new(alloc);
    entries.push(retired(0x8000_0000, PROGRAM[0]))?;
    for _ in 0..count {
        entries.push(retired(0x8000_0004, PROGRAM[1]))?;
        entries.push(retired(0x8000_0008, PROGRAM[2]))?;
    }
    Ok(entries)
}

/// The lists of that one hart.
fn lists_of(rt: &(impl Abort + AllocGlobal), count: usize) -> Vec<Vec<Retired>> {
    let entries = entries_of(rt.alloc(), count).expect(rt, "entries");
    vec![in rt.alloc(); entries].expect(rt, "a hart's list")
}

/// The trace of running harts that have retired this, and of what was performed.
fn trace_of(
    rt: &(impl Abort + AllocGlobal),
    image: Image,
    harts: Vec<Vec<Retired>>,
    performed: Vec<OpId>,
) -> Trace {
    let alloc = rt.alloc();
    assert!(rt; are_within_limits(&harts));
    let statuses = vec![in alloc; Status::Running; harts.len()].expect(rt, "statuses");
    let log = Vec::new(alloc);
    Trace::from_parts(image, LineSize::Bytes16, harts, statuses, performed, log)
}

/// A hart that stores to one word so many times, in a loop, and none of its stores is performed.
fn stores(rt: &(impl Abort + AllocGlobal), count: usize) -> Result<Trace, Fail> {
    let image = image_of(rt.alloc(), &PROGRAM)?;
    let harts = lists_of(rt, count);
    Ok(trace_of(rt, image, harts, Vec::new(rt.alloc())))
}

fn is_judged(
    rt: &(impl Abort + AllocGlobal),
    trace: &Trace,
    order: &[OpId],
    answer: Result<Verdict, CheckError>,
) {
    same(rt, check(rt.alloc(), trace, order), answer);
}

/// The order of 4096 stores is legal, and is none without the first.
fn is_legal(rt: &(impl Abort + AllocGlobal), trace: &Trace) -> Result<(), Fail> {
    let order = completed(rt.alloc(), trace)?;
    assert!(rt; order.len() == 4096);
    is_judged(rt, trace, &order, Ok(Verdict::Legal));
    is_judged(rt, trace, &order[1..], Err(CheckError::NotAnOrder));
    Ok(())
}

#[test]
fn as_many_operations_as_are_judged(rt: HostRuntime) -> Result<(), Fail> {
    let trace = stores(&rt, 4096)?;
    is_legal(&rt, &trace)
}

/// Neither the whole order nor none of it is judged.
fn is_too_long(rt: &(impl Abort + AllocGlobal), trace: &Trace) -> Result<(), Fail> {
    let order = completed(rt.alloc(), trace)?;
    is_judged(rt, trace, &order, Err(CheckError::TooLong));
    is_judged(rt, trace, &[], Err(CheckError::TooLong));
    Ok(())
}

#[test]
fn one_operation_more(rt: HostRuntime) -> Result<(), Fail> {
    let trace = stores(&rt, 4097)?;
    is_too_long(&rt, &trace)
}
