//! Rows of private instructions, worked by hand.
ghost use Rattle.std.specs.Prelude.{◌≤◌};

use crate::same::same;
use elf_loader::{Image, raw, size_of_kib};
use hart::{Hart, Status, run_local};
use std::alloc::Global;
use std::process::Abort;
use std::test::Fail;

fn image_of(alloc: Global, words: &[u32]) -> Result<Image, Fail> {
    let size = size_of_kib(4).ok_or("a size")?;
    let mut bytes = Vec::new(alloc);
    for word in words {
        bytes.extend_from_slice(&word.to_le_bytes())?;
    }
    Ok(raw(alloc, &bytes, size)?)
}

static ROW_39: [u32; 7] = [
    0x80000637, 0x00100693, 0x10d62023, 0x0110000f, 0x00200693, 0x10d62023, 0x10062703,
];

/// How many instructions a hart retires by itself.
fn local_count(alloc: Global, image: &Image, hart: &Hart, limit: u32) -> Result<usize, Fail>
    requires some { 1 ≤ limit }
    requires few { limit ≤ 256 }
{
    let run = run_local(alloc, image, hart, limit)?;
    Ok(run.entries().len())
}

/// From reset the hart retires two instructions by itself, and no third.
fn runs_two(rt: &(impl Abort + AllocGlobal), image: &Image, reset: &Hart) -> Result<(), Fail> {
    let long = run_local(rt.alloc(), image, reset, 256)?;
    same(rt, long.entries().len(), 2);
    let places = (long.first().pc, long.last().pc);
    same(rt, places, (0x8000_0000, 0x8000_0008));
    same(rt, local_count(rt.alloc(), image, reset, 1)?, 1);
    same(rt, local_count(rt.alloc(), image, long.last(), 256)?, 0);
    Ok(())
}

#[test]
fn row_39(rt: HostRuntime) -> Result<(), Fail> {
    let image = image_of(rt.alloc(), &ROW_39)?;
    runs_two(&rt, &image, &Hart::at_reset(0, 0x8000_0000, 1))
}

#[test]
fn row_39_exits(rt: HostRuntime) -> Result<(), Fail> {
    let image = image_of(rt.alloc(), &[0x00000073, 0x00000013])?;
    let mut hart = Hart::at_reset(0, 0x8000_0000, 1);
    same(&rt, local_count(rt.alloc(), &image, &hart, 256)?, 0);
    hart.pc = 0x8000_0004;
    hart.status = Status::Exited(0);
    same(&rt, local_count(rt.alloc(), &image, &hart, 256)?, 0);
    Ok(())
}
