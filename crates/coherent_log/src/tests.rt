//! A log of two writers, and one of a reader that gives its line up for a writer.

use crate::{CoherenceRule, CoherenceVerdict, check_coherence};
use elf_loader::{Image, raw, size_of_kib};
use std::alloc::Global;
use std::test::Fail;
use tl_types::{Body, Cap, Change, Grow, LineData, Msg};
use trace_recorder::{Direction, Logged};

/// A line of zeros, as in the image.
const ZEROS: LineData = LineData::Bytes16([0; 16]);

/// What is sent and taken, by the hart whose queue it is in.
const WRITER: [(u8, Body); 3] = [
    (0, Body::AcquireBlock(Grow::NtoT)),
    (
        0,
        Body::GrantData {
            cap: Cap::ToT,
            bytes: ZEROS,
        },
    ),
    (0, Body::GrantAck),
];

const SECOND_WRITER: [(u8, Body); 2] = [
    (1, Body::AcquireBlock(Grow::NtoT)),
    (
        1,
        Body::GrantData {
            cap: Cap::ToT,
            bytes: ZEROS,
        },
    ),
];

const GIVEN_UP: [(u8, Body); 2] = [
    (0, Body::ProbeBlock(Cap::ToN)),
    (0, Body::ProbeAck(Change::TtoN)),
];

fn image(alloc: Global) -> Result<Image, Fail> {
    let size = size_of_kib(4).ok_or("a size")?;
    Ok(raw(alloc, &[], size)?)
}

/// Each message is sent and then taken.
fn add(log: &mut Vec<Logged>, messages: &[(u8, Body)]) -> Result<(), Fail> {
    for (hart, body) in messages {
        for direction in [Direction::Sent, Direction::Taken] {
            log.push(Logged {
                direction,
                hart: *hart,
                message: Msg {
                    line: 0x8000_0100,
                    body: *body,
                },
            })?;
        }
    }
    Ok(())
}

#[test]
fn two_writers(rt: HostRuntime) -> Result<(), Fail> {
    let alloc = rt.alloc();
    let mut log = Vec::new(alloc);
    add(&mut log, &WRITER)?;
    add(&mut log, &SECOND_WRITER)?;
    let image = image(alloc)?;
    match check_coherence(alloc, Some(&image), &log)? {
        CoherenceVerdict::Coherent => assert!(&rt; false, "two writers"),
        CoherenceVerdict::Incoherent { breach, index } => {
            assert_eq!(&rt; breach.rule(), CoherenceRule::OneWriter);
            assert_eq!(&rt; index, 8);
        }
    }
    Ok(())
}

#[test]
fn one_writer_after_the_other(rt: HostRuntime) -> Result<(), Fail> {
    let alloc = rt.alloc();
    let mut log = Vec::new(alloc);
    add(&mut log, &WRITER)?;
    add(&mut log, &GIVEN_UP)?;
    add(&mut log, &SECOND_WRITER)?;
    let image = image(alloc)?;
    let verdict = check_coherence(alloc, Some(&image), &log)?;
    assert_eq!(&rt; verdict, CoherenceVerdict::Coherent);
    Ok(())
}
