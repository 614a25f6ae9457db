//! A worked row.
use crate::same::same_of;
use amo_unit::combine;
use rv32_decode::AmoOp;

/// An operation, what memory holds, the other operand, and what memory then holds.
static ROW_36: [(AmoOp, u32, u32, u32); 5] = [
    (AmoOp::Min, 0x8000_0000, 1, 0x8000_0000),
    (AmoOp::Minu, 0x8000_0000, 1, 1),
    (AmoOp::Max, 0x8000_0000, 1, 1),
    (AmoOp::Maxu, 0x8000_0000, 1, 0x8000_0000),
    (AmoOp::Add, 0xffff_ffff, 1, 0),
];

#[test]
fn row_36(rt: HostRuntime) {
    for (op, held, operand, want) in &ROW_36 {
        same_of(&rt, combine(*op, *held, *operand), *want, op);
    }
}
