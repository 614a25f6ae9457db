//! Of atomics that all change one word a run's performed order is the only legal one: with any two of its operations
//! exchanged the checker refuses it.

use crate::images::image_of;
use crate::same::same;
use crate::threads::{LIMIT, Open};
use host_threads::run;
use machine_types::{Config, MemoryModel};
use rvwmo_order::{Verdict, check};
use std::alloc::{AllocError, Global};
use std::test::Fail;
use tl_types::LineSize;
use trace_recorder::{OpId, Trace};

/// Adds 1 to a word twelve times.
static TWELVE: [u32; 8] = [
    0x80000637, 0x10060613, 0x00100693, 0x00c00713, 0x00d627af, 0xfff70713, 0xfe071ce3, 0x00000073,
];

/// An order with the operations at two places exchanged.
fn exchanged(
    alloc: Global,
    order: &[OpId],
    (earlier, one): (usize, OpId),
    (later, other): (usize, OpId),
) -> Result<Vec<OpId>, AllocError> {
    let mut made = Vec::new(alloc);
    for (place, operation) in order.iter().enumerate() {
        let operation = if place == earlier {
            other
        } else if place == later {
            one
        } else {
            *operation
        };
        made.push(operation)?;
    }
    Ok(made)
}

/// Counts the pairs of a legal order's operations that can be exchanged, and those that can't.
fn pairs(alloc: Global, trace: &Trace, order: &[OpId]) -> Result<(u32, u32), Fail> {
    let (mut legal, mut refused) = (0u32, 0u32);
    for (later, other) in order.iter().enumerate() {
        for (earlier, one) in order.iter().enumerate().take(later) {
            let order = exchanged(alloc, order, (earlier, *one), (later, *other))?;
            match check(alloc, trace, &order)? {
                Verdict::Legal => legal = legal.saturating_add(1),
                Verdict::Fault(..) => refused = refused.saturating_add(1),
            }
        }
    }
    Ok((legal, refused))
}

#[test]
fn row_16_with_any_two_exchanged(rt: HostRuntime) -> Result<(), Fail> {
    let alloc = rt.alloc();
    let config = Config::new(4, 4, 2, LineSize::Bytes16, MemoryModel::Rvwmo).ok_or("limits")?;
    let image = image_of(alloc, &TWELVE)?;
    let report = run(&rt, alloc, image, config, LIMIT, &Open)?;
    let order = report.trace.performed();
    same(&rt, check(alloc, &report.trace, order)?, Verdict::Legal);
    same(&rt, pairs(alloc, &report.trace, order)?, (0, 1128));
    Ok(())
}
