//! The programs, and how their harts are to end.

use elf_loader::{Image, raw, size_of_kib};
use flat_model::HartResult;
use hart::Status;
use machine_types::{Config, MemoryModel};
use std::alloc::Global;
use std::test::Fail;
use tl_types::LineSize;

pub const X: u32 = 0x8000_0100;

pub const Y: u32 = 0x8000_0200;

// Instructions of the small programs, which find the words X and Y by a2, and whose other harts branch by a0.

/// `lui a2, 0x80000`
const LUI_A2: u32 = 0x8000_0637;

/// `addi a2, a2, 0x100`
const ADDI_A2_X: u32 = 0x1006_0613;

/// `li t0, 1`
const LI_T0_1: u32 = 0x0010_0293;

/// `li t0, 5`
const LI_T0_5: u32 = 0x0050_0293;

/// `li t1, 2`
const LI_T1_2: u32 = 0x0020_0313;

/// `sw t0, 0x100(a2)`
const SW_T0_X: u32 = 0x1056_2023;

/// `sw t0, 0x200(a2)`
const SW_T0_Y: u32 = 0x2056_2023;

/// `sw t1, 0x100(a2)`
const SW_T1_X: u32 = 0x1066_2023;

/// `sw t1, 0x200(a2)`
const SW_T1_Y: u32 = 0x2066_2023;

/// `lw a0, 0x100(a2)`
const LW_A0_X: u32 = 0x1006_2503;

/// `lw a0, 0x200(a2)`
const LW_A0_Y: u32 = 0x2006_2503;

/// `lw t1, 0x100(a2)`
const LW_T1_X: u32 = 0x1006_2303;

/// `lw t1, 0x200(a2)`
const LW_T1_Y: u32 = 0x2006_2303;

/// `lr.w t0, (a2)`
const LR_T0: u32 = 0x1006_22af;

/// `sc.w a0, t0, (a2)`
const SC_A0: u32 = 0x1856_252f;

/// `fence rw, rw`
const FENCE: u32 = 0x0330_000f;

/// `fence w, w`
const FENCE_W: u32 = 0x0110_000f;

/// `bnez a0, .+16`
const BNEZ_A0_16: u32 = 0x0005_1863;

/// `bnez a0, .+20`
const BNEZ_A0_20: u32 = 0x0005_1a63;

/// `li a0, 0`
const LI_A0_0: u32 = 0x0000_0513;

/// `li a7, 1`
const LI_A7_1: u32 = 0x0010_0893;

/// `li a7, 0`
const LI_A7_0: u32 = 0x0000_0893;

/// `ecall`
const ECALL: u32 = 0x0000_0073;

/// `lui a2, 0x80000` and `lw a4, 0(a2)`; behind them lies no instruction.
pub const LOAD: [u32; 2] = [0x8000_0637, 0x0006_2703];

/// Hart 0 stores 1 to X and exits with Y, hart 1 stores 1 to Y and exits with X.
pub const STORE_BUFFERING: [u32; 9] = [
    LUI_A2, LI_T0_1, BNEZ_A0_16, SW_T0_X, LW_A0_Y, ECALL, SW_T0_Y, LW_A0_X, ECALL,
];

/// The same with a fence between store and load.
pub const STORE_BUFFERING_FENCED: [u32; 11] = [
    LUI_A2, LI_T0_1, BNEZ_A0_20, SW_T0_X, FENCE, LW_A0_Y, ECALL, SW_T0_Y, FENCE, LW_A0_X, ECALL,
];

/// Exits with 0 where the store conditional succeeds, else with 1.
pub const RESERVED: [u32; 5] = [LUI_A2, ADDI_A2_X, LR_T0, SC_A0, ECALL];

/// The same, and a line of the same set is loaded in between.
pub const RIVAL: [u32; 6] = [LUI_A2, ADDI_A2_X, LR_T0, LW_T1_X, SC_A0, ECALL];

/// The same with a second such line.
pub const RIVALS: [u32; 7] = [LUI_A2, ADDI_A2_X, LR_T0, LW_T1_X, LW_T1_Y, SC_A0, ECALL];

/// Loads from two lines, and exits with what it loads from the second.
pub const TWO_LOADS: [u32; 4] = [LUI_A2, LW_T1_X, LW_A0_Y, ECALL];

/// Stores 5 to two lines, and exits with what it loads from the first.
pub const TWO_LINES: [u32; 6] = [LUI_A2, LI_T0_5, SW_T0_X, SW_T0_Y, LW_A0_X, ECALL];

/// Stores 5 and then 0 to one word.
pub const TWICE: [u32; 5] = [
    LUI_A2,
    LI_T0_5,
    SW_T0_X,
    0x1006_2023, // sw zero, 0x100(a2)
    ECALL,
];

/// Hart 0 stores 7, the others load the word twice and exit with the second.
pub const READERS: [u32; 8] = [
    LUI_A2,
    BNEZ_A0_16,
    0x0070_0293, // li t0, 7
    SW_T0_X,
    ECALL,
    LW_T1_X,
    LW_A0_X,
    ECALL,
];

/// Adds 1 to a counter, puts out what it was, and exits with it.
pub const COUNT: [u32; 8] = [
    LUI_A2,
    ADDI_A2_X,
    LI_T0_1,
    0x0056_252f, // amoadd.w a0, t0, (a2)
    LI_A7_1,
    ECALL,
    LI_A7_0,
    ECALL,
];

/// Hart 0 exits with 0, the others run in a circle.
pub const CIRCLE: [u32; 2] = [
    0x0005_1063, // bnez a0, itself
    0x0000_0073, // ecall
];

/// The program `message_passing` of the examples.
pub const MESSAGE_PASSING: [u32; 18] = [
    0x8000_02b7, // lui t0, 0x80000
    0x1002_8293, // addi t0, t0, 0x100
    0x8000_0337, // lui t1, 0x80000
    0x1403_0313, // addi t1, t1, 0x140
    0x0005_1c63, // bnez a0, the loads
    0x02a0_0393, // li t2, 42
    0x0072_a023, // sw t2, 0(t0)
    0x0010_0e13, // li t3, 1
    0x01c3_2023, // sw t3, 0(t1)
    0x0180_006f, // j the end
    0x0003_2e03, // lw t3, 0(t1)
    0xfe0e_0ee3, // beqz t3, the load before
    0x0002_a503, // lw a0, 0(t0)
    0x0010_0893, // li a7, 1
    0x0000_0073, // ecall
    0x0000_0513, // li a0, 0
    0x0000_0893, // li a7, 0
    0x0000_0073, // ecall
];

/// The program `spin_lock` of the examples.
pub const SPIN_LOCK: [u32; 16] = [
    0x8000_02b7, // lui t0, 0x80000
    0x1002_8293, // addi t0, t0, 0x100
    0x8000_0337, // lui t1, 0x80000
    0x1403_0313, // addi t1, t1, 0x140
    0x0010_0393, // li t2, 1
    0x0c72_ae2f, // amoswap.w.aq t3, t2, (t0)
    0xfe0e_1ee3, // bnez t3, the swap before
    0x0003_2503, // lw a0, 0(t1)
    0x0015_0513, // addi a0, a0, 1
    0x00a3_2023, // sw a0, 0(t1)
    0x0a02_a02f, // amoswap.w.rl zero, zero, (t0)
    0x0010_0893, // li a7, 1
    0x0000_0073, // ecall
    0x0000_0513, // li a0, 0
    0x0000_0893, // li a7, 0
    0x0000_0073, // ecall
];

/// The program `dekker` of the examples.
pub const DEKKER: [u32; 34] = [
    0x8000_02b7, // lui t0, 0x80000
    0x1002_8293, // addi t0, t0, 0x100
    0x8000_0337, // lui t1, 0x80000
    0x1403_0313, // addi t1, t1, 0x140
    0x8000_0437, // lui s0, 0x80000
    0x1804_0413, // addi s0, s0, 0x180
    0x8000_04b7, // lui s1, 0x80000
    0x1c04_8493, // addi s1, s1, 0x1c0
    0x0010_0e13, // li t3, 1
    0x0015_4913, // xori s2, a0, 1
    0x0005_0993, // mv s3, a0
    0x0005_0863, // beqz a0, the store of the own flag
    0x0002_8393, // mv t2, t0
    0x0003_0293, // mv t0, t1
    0x0003_8313, // mv t1, t2
    0x01c2_a023, // sw t3, 0(t0)
    0x0003_2e83, // lw t4, 0(t1)
    0x000e_8e63, // beqz t4, the load of the counter
    0x0004_2f03, // lw t5, 0(s0)
    0xff3f_0ae3, // beq t5, s3, the load of the other flag
    0x0002_a023, // sw zero, 0(t0)
    0x0004_2f03, // lw t5, 0(s0)
    0xff3f_1ee3, // bne t5, s3, the load before
    0xfe1f_f06f, // j the store of the own flag
    0x0004_a503, // lw a0, 0(s1)
    0x0015_0513, // addi a0, a0, 1
    0x00a4_a023, // sw a0, 0(s1)
    0x0124_2023, // sw s2, 0(s0)
    0x0002_a023, // sw zero, 0(t0)
    0x0010_0893, // li a7, 1
    0x0000_0073, // ecall
    0x0000_0513, // li a0, 0
    0x0000_0893, // li a7, 0
    0x0000_0073, // ecall
];

/// Hart 0 stores and exits, hart 1 loads what hart 0 stores into a register that its next load sets again.
pub const UNREAD: [u32; 9] = [
    LUI_A2, LI_T0_1, BNEZ_A0_16, SW_T0_X, LI_A0_0, ECALL, LW_T1_X, LW_T1_Y, ECALL,
];

/// Hart 0 stores 0 and exits, hart 1 reserves the same word, which no SC asks for.
pub const UNASKED: [u32; 8] = [
    LUI_A2,
    ADDI_A2_X,
    0x0005_1663, // bnez a0, the second half
    0x00a6_2023, // sw a0, (a2)
    ECALL,
    0x1006_232f, // lr.w t1, (a2)
    LW_T1_X,
    ECALL,
];

/// 2+2W: hart 0 stores 1 to X and 2 to Y, hart 1 stores 1 to Y and 2 to X.
pub const TWO_WRITES: [u32; 10] = [
    LUI_A2, LI_T0_1, LI_T1_2, BNEZ_A0_16, SW_T0_X, SW_T1_Y, ECALL, SW_T0_Y, SW_T1_X, ECALL,
];

/// The same with a fence between the stores.
pub const TWO_WRITES_FENCED: [u32; 12] = [
    LUI_A2, LI_T0_1, LI_T1_2, BNEZ_A0_20, SW_T0_X, FENCE_W, SW_T1_Y, ECALL, SW_T0_Y, FENCE_W,
    SW_T1_X, ECALL,
];

/// S: hart 0 stores 2 to X and then 1 to Y, hart 1 loads Y, with which it exits, and then stores 1 to X.
pub const S: [u32; 11] = [
    LUI_A2, LI_T0_1, LI_T1_2, BNEZ_A0_20, SW_T1_X, FENCE_W, SW_T0_Y, ECALL, LW_A0_Y, SW_T0_X, ECALL,
];

/// Stores 1 and then 2 to X.
pub const ONE_WORD: [u32; 6] = [LUI_A2, LI_T0_1, LI_T1_2, SW_T0_X, SW_T1_X, ECALL];

/// How a hart ends: the code that it exits with, and the number that it has put out, if any.
pub type End = (u8, Option<u32>);

fn has_put_out(hart: &HartResult, number: Option<u32>) -> bool {
    match number {
        Some(number) => hart.output.len() == 1 && hart.output.first() == Some(&number),
        None => hart.output.is_empty(),
    }
}

fn is_end(hart: &HartResult, end: End) -> bool {
    let (code, number) = end;
    hart.status == Status::Exited(code) && has_put_out(hart, number)
}

/// Whether the harts have ended so.
pub fn are_ends(harts: &[HartResult], ends: &[End]) -> bool {
    harts.len() == ends.len() && harts.iter().zip(ends).all(|(hart, end)| is_end(hart, *end))
}

pub fn image_of(alloc: Global, words: &[u32]) -> Result<Image, Fail> {
    let size = size_of_kib(4).ok_or("a size")?;
    let mut bytes = Vec::new(alloc);
    for word in words {
        bytes.extend_from_slice(&word.to_le_bytes())?;
    }
    Ok(raw(alloc, &bytes, size)?)
}

/// Caches of one set.
pub fn config_of(harts: u32, ways: u32) -> Result<Config, Fail> {
    let config = Config::new(harts, 1, ways, LineSize::Bytes16, MemoryModel::Rvwmo);
    Ok(config.ok_or("limits")?)
}
