//! Words that the GNU assembler makes of the texts.

use crate::same::same_of;
use assembly::spell_assembly;
use rv32_decode::decode;
use std::alloc::Global;
use std::process::Abort;
use std::test::Fail;
use text_fields::Page;

/// Each text, and the word that `riscv64-unknown-elf-as -march=rv32ima -mabi=ilp32 -mno-relax` of
/// binutils 2.40 makes of it.
static ROWS: [(u32, &str); 87] = [
    (0x8000_0637, "lui a2, 0x80000"),
    (0x0000_0037, "lui zero, 0x00000"),
    (0xffff_ffb7, "lui t6, 0xfffff"),
    (0x0000_1097, "auipc ra, 0x00001"),
    (0xabcd_e117, "auipc sp, 0xabcde"),
    (0x0000_1617, "auipc a2, 0x00001"),
    (0xfedf_f06f, "jal zero, .-20"),
    (0x0e80_00ef, "jal ra, .+232"),
    (0xfc5f_f06f, "jal zero, .-60"),
    (0x0085_00e7, "jalr ra, 8(a0)"),
    (0x8002_8067, "jalr zero, -2048(t0)"),
    (0xfe0f_06e3, "beq t5, zero, .-20"),
    (0x000f_0463, "beq t5, zero, .+8"),
    (0xfdcd_9ce3, "bne s11, t3, .-40"),
    (0x7d39_4a63, "blt s2, s3, .+2004"),
    (0x015a_5063, "bge s4, s5, .+0"),
    (0x017b_6363, "bltu s6, s7, .+6"),
    (0x819c_7063, "bgeu s8, s9, .-4096"),
    (0x0005_8503, "lb a0, 0(a1)"),
    (0xffe6_9603, "lh a2, -2(a3)"),
    (0x0006_2703, "lw a4, 0(a2)"),
    (0xffc6_2703, "lw a4, -4(a2)"),
    (0x7ff8_4783, "lbu a5, 2047(a6)"),
    (0x8004_5883, "lhu a7, -2048(s0)"),
    (0x10d6_00a3, "sb a3, 257(a2)"),
    (0xfe91_9d23, "sh s1, -6(gp)"),
    (0x01a2_2223, "sw s10, 4(tp)"),
    (0x0050_0513, "addi a0, zero, 5"),
    (0x0000_0013, "addi zero, zero, 0"),
    (0xfff3_a313, "slti t1, t2, -1"),
    (0x001e_be13, "sltiu t3, t4, 1"),
    (0xffff_cf13, "xori t5, t6, -1"),
    (0x7ff1_6093, "ori ra, sp, 2047"),
    (0x8002_7193, "andi gp, tp, -2048"),
    (0x0005_9513, "slli a0, a1, 0"),
    (0x01f6_d613, "srli a2, a3, 31"),
    (0x4054_de13, "srai t3, s1, 5"),
    (0x00c5_8533, "add a0, a1, a2"),
    (0x41c3_8eb3, "sub t4, t2, t3"),
    (0x00f7_16b3, "sll a3, a4, a5"),
    (0x0124_a433, "slt s0, s1, s2"),
    (0x015a_39b3, "sltu s3, s4, s5"),
    (0x018b_cb33, "xor s6, s7, s8"),
    (0x01bd_5cb3, "srl s9, s10, s11"),
    (0x4073_52b3, "sra t0, t1, t2"),
    (0x01ee_ee33, "or t3, t4, t5"),
    (0x0020_ffb3, "and t6, ra, sp"),
    (0x0252_01b3, "mul gp, tp, t0"),
    (0x0283_9333, "mulh t1, t2, s0"),
    (0x02b5_24b3, "mulhsu s1, a0, a1"),
    (0x02e6_b633, "mulhu a2, a3, a4"),
    (0x0318_47b3, "div a5, a6, a7"),
    (0x0349_d933, "divu s2, s3, s4"),
    (0x037b_6ab3, "rem s5, s6, s7"),
    (0x03ac_fc33, "remu s8, s9, s10"),
    (0x0110_000f, "fence w, w"),
    (0x0230_000f, "fence r, rw"),
    (0x0310_000f, "fence rw, w"),
    (0x0ff0_000f, "fence iorw, iorw"),
    (0x0ca0_000f, "fence io, ir"),
    (0x0840_000f, "fence i, o"),
    (0x0d70_000f, "fence iow, orw"),
    (0x0560_000f, "fence ow, or"),
    (0x09b0_000f, "fence iw, irw"),
    (0x0ea0_000f, "fence ior, ir"),
    (0x8330_000f, "fence.tso"),
    (0x0000_0073, "ecall"),
    (0x0010_0073, "ebreak"),
    (0x1005_a52f, "lr.w a0, (a1)"),
    (0x1405_a52f, "lr.w.aq a0, (a1)"),
    (0x1406_a62f, "lr.w.aq a2, (a3)"),
    (0x1207_a72f, "lr.w.rl a4, (a5)"),
    (0x1608_a82f, "lr.w.aqrl a6, (a7)"),
    (0x18a5_a62f, "sc.w a2, a0, (a1)"),
    (0x1c99_242f, "sc.w.aq s0, s1, (s2)"),
    (0x1a03_22af, "sc.w.rl t0, zero, (t1)"),
    (0x1fce_a3af, "sc.w.aqrl t2, t3, (t4)"),
    (0x08b6_252f, "amoswap.w a0, a1, (a2)"),
    (0x0cb6_252f, "amoswap.w.aq a0, a1, (a2)"),
    (0x06c5_a52f, "amoadd.w.aqrl a0, a2, (a1)"),
    (0x234a_a9af, "amoxor.w.rl s3, s4, (s5)"),
    (0x61ef_a02f, "amoand.w zero, t5, (t6)"),
    (0x40e7_a6af, "amoor.w a3, a4, (a5)"),
    (0x857c_2b2f, "amomin.w.aq s6, s7, (s8)"),
    (0xa3ad_acaf, "amomax.w.rl s9, s10, (s11)"),
    (0xc621_a0af, "amominu.w.aqrl ra, sp, (gp)"),
    (0xe053_222f, "amomaxu.w tp, t0, (t1)"),
];

/// An address, the word there, and what `riscv64-unknown-elf-objdump -d -M no-aliases` of binutils 2.40
/// says of it, with a space behind each comma and addresses in eight digits.
static TARGETS: [(u32, u32, &str); 8] = [
    (0x8000_0014, 0xfedf_f06f, "jal zero, 0x80000000"),
    (0x8000_0018, 0x0e80_00ef, "jal ra, 0x80000100"),
    (0x8000_0024, 0xfe0f_06e3, "beq t5, zero, 0x80000010"),
    (0x8000_0028, 0xfdcd_9ce3, "bne s11, t3, 0x80000000"),
    (0x8000_002c, 0x7d39_4a63, "blt s2, s3, 0x80000800"),
    (0x8000_0030, 0x015a_5063, "bge s4, s5, 0x80000030"),
    (0x8000_0034, 0x017b_6363, "bltu s6, s7, 0x8000003a"),
    (0x8000_0038, 0x819c_7063, "bgeu s8, s9, 0x7ffff038"),
];

/// The text of a word's instruction, one at this address if it is given.
fn text_of(alloc: Global, word: u32, pc: Option<u32>) -> Result<Vec<u8>, Fail> {
    let instr = decode(word).ok_or("no instruction")?;
    let mut page = Page::new();
    spell_assembly(&mut page, &instr, pc);
    let mut out = Vec::new(alloc);
    page.hand_on(&mut out)?;
    Ok(out)
}

fn is_spelled(
    rt: &impl Abort,
    alloc: Global,
    word: u32,
    pc: Option<u32>,
    text: &str,
) -> Result<(), Fail> {
    let spelled = text_of(alloc, word, pc)?;
    same_of(rt, spelled.as_slice(), text.as_bytes(), &text);
    Ok(())
}

#[test]
fn texts_are_what_the_assembler_reads(rt: HostRuntime) -> Result<(), Fail> {
    for (word, text) in &ROWS {
        is_spelled(&rt, rt.alloc(), *word, None, text)?;
    }
    Ok(())
}

#[test]
fn jumps_lead_where_the_disassembler_says(rt: HostRuntime) -> Result<(), Fail> {
    for (pc, word, text) in &TARGETS {
        is_spelled(&rt, rt.alloc(), *word, Some(*pc), text)?;
    }
    Ok(())
}

// The GNU assembler has no word for a set of no access; LLVM's reads 0.
#[test]
fn a_set_of_no_access_is_0(rt: HostRuntime) -> Result<(), Fail> {
    is_spelled(&rt, rt.alloc(), 0x0010_000f, None, "fence 0, w")
}
