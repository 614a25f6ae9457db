//! The store that a byte comes from, by the index and by a walk over the whole order as it is defined.
ghost use Rattle.std.specs.Prelude.{◌≡◌, ◌<◌};

use super::trace_of;
use crate::same::{same, same_of};
use crate::streams::image_of_kib;
use gate_plain_checker::source;
use hart::Retired;
use memory_model::Operation;
use std::alloc::{AllocError, Global};
use std::marker::Brand;
use std::process::Abort;
use std::sync::ledger::{Blank, Ledger};
use std::test::Fail;
use tl_types::Ticks;
use trace_operations::{Index, completed};
use trace_recorder::{OpId, Trace};

/// `lui a2, 0x80001`, then `sw`, `lw`, `sb` at the second byte, `lh`, `amoswap.w`, `lr.w` and `sc.w`, all
/// of one word.
const PROGRAM: [u32; 8] = [
    0x8000_1637,
    0x00d6_2023,
    0x0006_2703,
    0x00d6_00a3,
    0x0006_1703,
    0x08d6_272f,
    0x1006_272f,
    0x18d6_27af,
];

const WORD: u32 = 0x8000_1000;

/// What a hart retires at a place of the program: the loads read 0, and the SC succeeds.
fn retired(place: u32, word: u32) -> Retired {
    let loaded = if matches!(place, 2 | 4 | 5 | 6) {
        Some(0)
    } else {
        None
    };
    let sc_ok = if place == 7 { Some(true) } else { None };
    Retired {
        pc: 0x8000_0000u32.wrapping_add(place.wrapping_mul(4)),
        word,
        loaded,
        sc_ok,
    }
}

/// What a hart has retired that ran the program once.
fn entries_of(alloc: Global) -> Result<Vec<Retired>, AllocError> {
    let mut entries = Vec::new(alloc);
    let mut place = 0u32;
    for word in &PROGRAM {
        entries.push(retired(place, *word))?;
        place = place.wrapping_add(1);
    }
    Ok(entries)
}

/// What both harts have retired.
fn lists(rt: &(impl Abort + AllocGlobal)) -> Vec<Vec<Retired>> {
    let first = entries_of(rt.alloc()).expect(rt, "entries");
    let second = entries_of(rt.alloc()).expect(rt, "entries");
    vec![in rt.alloc(); first, second].expect(rt, "both lists")
}

const LOADS: [OpId; 2] = [OpId { hart: 1, place: 2 }, OpId { hart: 0, place: 2 }];

/// Both harts run the program once; of each only the load at place 2 is performed.
fn trace(rt: &(impl Abort + AllocGlobal)) -> Result<Trace, Fail> {
    let image = image_of_kib(rt.alloc(), &PROGRAM, 8)?;
    let performed = LOADS.to_vec(rt.alloc()).expect(rt, "an order");
    Ok(trace_of(rt, image, lists(rt), performed))
}

fn name_of(operation: &Operation) -> OpId {
    OpId {
        hart: operation.hart,
        place: operation.place,
    }
}

/// The index's answer, with looks that nobody counts.
fn indexed(index: &Index, load: OpId, byte: u32) -> Option<OpId> {
    told::<Brand>(index, load, byte, Blank::new(1))
}

fn told<L: Ledger>(index: &Index, load: OpId, byte: u32, blank: Blank) -> Option<OpId>
    requires name { blank.name ≡ L.name }
    requires parts { blank.parts ≡ L.parts }
    requires some { 0 < L.parts }
{
    index.source(load, byte, &mut Ticks::<L>::new(blank))
}

/// The walk's answer.
fn walked(index: &Index, load: &Operation, byte: u32) -> Option<OpId> {
    match source(index.order(), load, u64::from(byte)) {
        Some(store) => Some(name_of(&store)),
        None => None,
    }
}

/// Index and walk agree on each byte of the word, and of those beside it, at each operation of the order.
fn agree(rt: &impl Abort, index: &Index, exchanged: usize) {
    for load in index.order() {
        for byte in WORD - 1..WORD + 5 {
            let found = indexed(index, name_of(load), byte);
            same_of(rt, found, walked(index, load, byte), &(byte, exchanged));
        }
    }
}

fn agree_in(
    rt: &(impl Abort + AllocGlobal),
    trace: &Trace,
    order: &[OpId],
    exchanged: usize,
) -> Result<(), Fail> {
    let index = Index::new(rt.alloc(), trace, order)?;
    agree(rt, &index, exchanged);
    Ok(())
}

/// They agree with each two neighbours of the order exchanged.
fn agree_exchanged(
    rt: &(impl Abort + AllocGlobal),
    trace: &Trace,
    order: &mut [OpId],
) -> Result<(), Fail> {
    for exchanged in 1..order.len() {
        order.swap(exchanged - 1, exchanged);
        agree_in(rt, trace, order, exchanged)?;
        order.swap(exchanged - 1, exchanged);
    }
    Ok(())
}

/// They agree so in the order of all that the two harts have completed.
fn agree_throughout(rt: &(impl Abort + AllocGlobal), trace: &Trace) -> Result<(), Fail> {
    let mut order = completed(rt.alloc(), trace)?;
    same(rt, order.len(), 14);
    agree_exchanged(rt, trace, &mut order)
}

#[test]
fn exchanged_neighbours_have_the_same_sources(rt: HostRuntime) -> Result<(), Fail> {
    let trace = trace(&rt)?;
    agree_throughout(&rt, &trace)
}
