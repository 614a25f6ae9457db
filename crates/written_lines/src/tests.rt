//! Lines that leave a hart with bytes of its own, worked out by hand.

use crate::{Unwritten, first_unwritten};
use memory_model::{Kind, Operation};
use std::test::Fail;
use tl_types::{Body, Cap, Change, LineData, Msg};
use trace_recorder::{Direction, Logged};

const LINE: u32 = 0x8000_0100;

fn logged(direction: Direction, hart: u8, line: u32, body: Body) -> Logged {
    Logged {
        direction,
        hart,
        message: Msg { line, body },
    }
}

/// A hart takes a line of zeros to write.
fn granted(hart: u8) -> Logged {
    let bytes = LineData::Bytes16([0; 16]);
    let cap = Cap::ToT;
    logged(Direction::Taken, hart, LINE, Body::GrantData { cap, bytes })
}

/// It gives the line back, all zero but for its sixth byte.
fn released(hart: u8, sixth: u8) -> Logged {
    let mut line = [0; 16];
    line[5] = sixth;
    let bytes = LineData::Bytes16(line);
    let change = Change::TtoN;
    logged(
        Direction::Sent,
        hart,
        LINE,
        Body::ReleaseData { change, bytes },
    )
}

/// A halfword is stored at the line's fifth byte: 0x34, and behind it 0x12.
fn stored(hart: u8) -> Operation {
    Operation {
        hart,
        place: 0,
        kind: Kind::Store,
        address: LINE + 4,
        size: 2,
        read: 0,
        written: 0x1234,
        aq: false,
        rl: false,
    }
}

#[test]
fn bytes_that_were_written(rt: HostRuntime) -> Result<(), Fail> {
    let alloc = rt.alloc();
    let log = [granted(0), released(0, 0x12)];
    assert_eq!(&rt; first_unwritten(alloc, &log, &[stored(0)])?, None);
    let other = Some(Unwritten {
        index: 1,
        address: 0x8000_0105,
    });
    assert_eq!(&rt; first_unwritten(alloc, &log, &[])?, other);
    assert_eq!(&rt; first_unwritten(alloc, &log, &[stored(1)])?, other);
    Ok(())
}

#[test]
fn bytes_beside_those_that_were_written(rt: HostRuntime) -> Result<(), Fail> {
    let alloc = rt.alloc();
    let log = [granted(0), released(0, 0x34)];
    let other = Some(Unwritten {
        index: 1,
        address: 0x8000_0105,
    });
    assert_eq!(&rt; first_unwritten(alloc, &log, &[stored(0)])?, other);
    assert_eq!(&rt; first_unwritten(alloc, &log[1..], &[])?, None);
    Ok(())
}
