//! Worked rows.
use crate::same::same_of;
use rv32_decode::*;

// A word's one spelling.
fn spelled(word: u32) -> Option<u32> {
    let instr = decode(word)?;
    Some(encode(&instr))
}

#[test]
fn row_28(rt: HostRuntime) {
    assert!(rt; decode(0x4000_1013).is_none());
}

/// Words of fences, and the one spelling of each.
static ROW_33: [(u32, u32); 6] = [
    (0x0230_000f, 0x0230_000f),
    (0x0840_000f, 0x0840_000f),
    (0x0110_008f, 0x0110_000f),
    (0x1110_000f, 0x0110_000f),
    (0x8310_000f, 0x0310_000f),
    (0x8330_000f, 0x8330_000f),
];

#[test]
fn row_33(rt: HostRuntime) {
    for (word, want) in &ROW_33 {
        same_of(&rt, spelled(*word), Some(*want), word);
    }
}
