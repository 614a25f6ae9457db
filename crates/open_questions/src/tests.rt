//! Logs that end before each question has its answer, worked out by hand.

use crate::{Open, left_open};
use std::test::Fail;
use tl_types::{Body, Cap, Change, Grow, Msg};
use trace_recorder::Direction::{Sent, Taken};
use trace_recorder::{Direction, Logged};

const FIRST: u32 = 0x8000_0100;

const SECOND: u32 = 0x8000_0200;

/// A hart asks for a line, is granted it, and acknowledges: nothing is open behind the last message.
const GRANTED: [(Direction, u8, u32, Body); 6] = [
    (Sent, 0, FIRST, Body::AcquireBlock(Grow::BtoT)),
    (Taken, 0, FIRST, Body::AcquireBlock(Grow::BtoT)),
    (Sent, 0, FIRST, Body::Grant(Cap::ToT)),
    (Taken, 0, FIRST, Body::Grant(Cap::ToT)),
    (Sent, 0, FIRST, Body::GrantAck),
    (Taken, 0, FIRST, Body::GrantAck),
];

/// Two harts are probed of two lines, and each answers of one.
const PROBED: [(Direction, u8, u32, Body); 6] = [
    (Sent, 1, FIRST, Body::ProbeBlock(Cap::ToN)),
    (Sent, 1, SECOND, Body::ProbeBlock(Cap::ToN)),
    (Sent, 2, FIRST, Body::ProbeBlock(Cap::ToN)),
    (Sent, 2, SECOND, Body::ProbeBlock(Cap::ToN)),
    (Taken, 1, SECOND, Body::ProbeAck(Change::NtoN)),
    (Taken, 2, FIRST, Body::ProbeAck(Change::NtoN)),
];

fn logged(message: &(Direction, u8, u32, Body)) -> Logged {
    let (direction, hart, line, body) = *message;
    Logged {
        direction,
        hart,
        message: Msg { line, body },
    }
}

#[test]
fn a_grant_at_each_moment(rt: HostRuntime) -> Result<(), Fail> {
    let alloc = rt.alloc();
    let asked = Some(Open { first: 0, count: 1 });
    let both = Some(Open { first: 0, count: 2 });
    let granted = Some(Open { first: 2, count: 1 });
    let moments = [asked, asked, both, granted, granted, None];
    let mut log = Vec::new(alloc);
    for (message, open) in GRANTED.iter().zip(moments.iter()) {
        log.push(logged(message))?;
        assert_eq!(&rt; left_open(alloc, &log)?, *open);
    }
    Ok(())
}

#[test]
fn answers_of_other_harts_and_lines(rt: HostRuntime) -> Result<(), Fail> {
    let alloc = rt.alloc();
    let mut log = Vec::new(alloc);
    assert_eq!(&rt; left_open(alloc, &log)?, None);
    for message in &PROBED {
        log.push(logged(message))?;
    }
    assert_eq!(&rt; left_open(alloc, &log)?, Some(Open { first: 0, count: 2 }));
    Ok(())
}
