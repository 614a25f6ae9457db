//! From instructions to words.
ghost use Rattle.std.specs.Prelude.{◌≡◌, ◌<◌, ◌+◌, ◌*◌, ◌^◌};
ghost use Rattle.rv32_decode.specs.Encoding.{assembled as word_of, upper_opcode as opcode_of_upper, branch_funct3 as funct3_of_branch, load_funct3 as funct3_of_load, store_funct3 as funct3_of_store, immediate_funct3 as funct3_of_immediate, shift_funct3 as funct3_of_shift, shift_funct7 as funct7_of_shift, register_funct3 as funct3_of_register, register_funct7 as funct7_of_register, amo_funct5 as funct5_of_amo, annotation_bits as bits_of_annotations, branch_low as low_of_branch, branch_high as high_of_branch, jump_high as high_of_jump, encoded, part};
ghost use Rattle.rv32_decode.specs.Rows.{decoded};

use crate::fence::FenceSets;
use crate::immediates::{BranchOffset, Immediate12, JumpOffset, ShiftAmount, UpperImmediate};
use crate::instruction::{
    AmoOp, Annotations, BranchOp, ImmediateOp, Instr, LoadOp, RegisterOp, ShiftOp, StoreOp,
    SystemOp, UpperOp,
};
use crate::registers::Register;
use bitflags::Flags;

/// The word of an instruction, which is decoded to that instruction again. A FENCE has zeros for rd and rs1,
/// and the mode 8 where it is FENCE.TSO, else 0.
#[rattlefmt::skip]
pub fn encode(instr: &Instr) -> u32
    ensures word { result ≡ encoded instr.now }
    ensures read_back { decoded result ≡ Some instr.now }
{
    match *instr {
        Instr::Upper { op, rd, imm } => upper(op, rd, imm),
        Instr::Jal { rd, offset } => jal(rd, offset),
        Instr::Jalr { rd, rs1, offset } => jalr(rd, rs1, offset),
        Instr::Branch { op, rs1, rs2, offset } => branch(op, rs1, rs2, offset),
        Instr::Load { op, rd, rs1, offset } => load(op, rd, rs1, offset),
        Instr::Store { op, rs1, rs2, offset } => store(op, rs1, rs2, offset),
        Instr::Immediate { op, rd, rs1, imm } => immediate(op, rd, rs1, imm),
        Instr::Shift { op, rd, rs1, amount } => shift(op, rd, rs1, amount),
        Instr::Register { op, rd, rs1, rs2 } => register(op, rd, rs1, rs2),
        Instr::Fence(sets) => fence(sets),
        Instr::FenceTso => 0x8330_000f,
        Instr::System(op) => system(op),
        Instr::Lr { rd, rs1, bits } => load_reserved(rd, rs1, bits),
        Instr::Sc { rd, rs1, rs2, bits } => store_conditional(rd, rs1, rs2, bits),
        Instr::Amo { op, rd, rs1, rs2, bits } => amo(op, rd, rs1, rs2, bits),
    }
}

fn upper(op: UpperOp, rd: Register, imm: UpperImmediate) -> u32
    ensures word { result ≡ encoded (Instr.Upper op rd imm) }
    ensures read_back { decoded result ≡ Some (Instr.Upper op rd imm) }
{
    upper_opcode(op) + (field(rd) << 7) + imm.value()
}

fn jal(rd: Register, offset: JumpOffset) -> u32
    ensures word { result ≡ encoded (Instr.Jal rd offset) }
    ensures read_back { decoded result ≡ Some (Instr.Jal rd offset) }
{
    0x6f + (field(rd) << 7) + (jump_high(offset.value()) << 12)
}

fn jalr(rd: Register, rs1: Register, offset: Immediate12) -> u32
    ensures word { result ≡ encoded (Instr.Jalr rd rs1 offset) }
    ensures read_back { decoded result ≡ Some (Instr.Jalr rd rs1 offset) }
{
    assembled(0x67, field(rd), 0, field(rs1), low_12(offset.value()))
}

fn branch(op: BranchOp, rs1: Register, rs2: Register, offset: BranchOffset) -> u32
    ensures word { result ≡ encoded (Instr.Branch op rs1 rs2 offset) }
    ensures read_back { decoded result ≡ Some (Instr.Branch op rs1 rs2 offset) }
{
    let value = offset.value();
    let high = field(rs2) + (branch_high(value) << 5);
    assembled(0x63, branch_low(value), branch_funct3(op), field(rs1), high)
}

fn load(op: LoadOp, rd: Register, rs1: Register, offset: Immediate12) -> u32
    ensures word { result ≡ encoded (Instr.Load op rd rs1 offset) }
    ensures read_back { decoded result ≡ Some (Instr.Load op rd rs1 offset) }
{
    assembled(
        0x03,
        field(rd),
        load_funct3(op),
        field(rs1),
        low_12(offset.value()),
    )
}

fn store(op: StoreOp, rs1: Register, rs2: Register, offset: Immediate12) -> u32
    ensures word { result ≡ encoded (Instr.Store op rs1 rs2 offset) }
    ensures read_back { decoded result ≡ Some (Instr.Store op rs1 rs2 offset) }
{
    let value = offset.value();
    let high = field(rs2) + (store_high(value) << 5);
    assembled(0x23, store_low(value), store_funct3(op), field(rs1), high)
}

fn immediate(op: ImmediateOp, rd: Register, rs1: Register, imm: Immediate12) -> u32
    ensures word { result ≡ encoded (Instr.Immediate op rd rs1 imm) }
    ensures read_back { decoded result ≡ Some (Instr.Immediate op rd rs1 imm) }
{
    assembled(
        0x13,
        field(rd),
        immediate_funct3(op),
        field(rs1),
        low_12(imm.value()),
    )
}

fn shift(op: ShiftOp, rd: Register, rs1: Register, amount: ShiftAmount) -> u32
    ensures word { result ≡ encoded (Instr.Shift op rd rs1 amount) }
    ensures read_back { decoded result ≡ Some (Instr.Shift op rd rs1 amount) }
{
    let high = amount.value() + (shift_funct7(op) << 5);
    assembled(0x13, field(rd), shift_funct3(op), field(rs1), high)
}

fn register(op: RegisterOp, rd: Register, rs1: Register, rs2: Register) -> u32
    ensures word { result ≡ encoded (Instr.Register op rd rs1 rs2) }
    ensures read_back { decoded result ≡ Some (Instr.Register op rd rs1 rs2) }
{
    let high = field(rs2) + (register_funct7(op) << 5);
    assembled(0x33, field(rd), register_funct3(op), field(rs1), high)
}

fn fence(sets: FenceSets) -> u32
    ensures word { result ≡ encoded (Instr.Fence sets) }
    ensures read_back { decoded result ≡ Some (Instr.Fence sets) }
{
    0x0f + (u32::from(sets.before().bits()) << 24) + (u32::from(sets.after().bits()) << 20)
}

fn system(op: SystemOp) -> u32
    ensures word { result ≡ encoded (Instr.System op) }
    ensures read_back { decoded result ≡ Some (Instr.System op) }
{
    match op {
        SystemOp::Ecall => 0x0000_0073,
        SystemOp::Ebreak => 0x0010_0073,
    }
}

fn load_reserved(rd: Register, rs1: Register, bits: Annotations) -> u32
    ensures word { result ≡ encoded (Instr.Lr rd rs1 bits) }
    ensures read_back { decoded result ≡ Some (Instr.Lr rd rs1 bits) }
{
    let high = (annotation_bits(bits) << 5) + (0x02 << 7);
    assembled(0x2f, field(rd), 2, field(rs1), high)
}

fn store_conditional(rd: Register, rs1: Register, rs2: Register, bits: Annotations) -> u32
    ensures word { result ≡ encoded (Instr.Sc rd rs1 rs2 bits) }
    ensures read_back { decoded result ≡ Some (Instr.Sc rd rs1 rs2 bits) }
{
    let high = field(rs2) + (annotation_bits(bits) << 5) + (0x03 << 7);
    assembled(0x2f, field(rd), 2, field(rs1), high)
}

fn amo(op: AmoOp, rd: Register, rs1: Register, rs2: Register, bits: Annotations) -> u32
    ensures word { result ≡ encoded (Instr.Amo op rd rs1 rs2 bits) }
    ensures read_back { decoded result ≡ Some (Instr.Amo op rd rs1 rs2 bits) }
{
    let high = field(rs2) + (annotation_bits(bits) << 5) + (amo_funct5(op) << 7);
    assembled(0x2f, field(rd), 2, field(rs1), high)
}

fn field(register: Register) -> u32
    ensures value { result ≡ register }
    ensures in_range { result < 32 }
{
    u32::from(register.number())
}

// A word from its fields, `high` being its bits 31 to 20.
fn assembled(opcode: u32, rd: u32, funct3: u32, rs1: u32, high: u32) -> u32
    requires opcode { opcode < 128 }
    requires rd { rd < 32 }
    requires funct3 { funct3 < 8 }
    requires rs1 { rs1 < 32 }
    requires high { high < 4096 }
    ensures { result ≡ word_of opcode rd funct3 rs1 high }
{
    opcode + (rd << 7) + (funct3 << 12) + (rs1 << 15) + (high << 20)
}

fn annotation_bits(bits: Annotations) -> u32
    ensures value { result ≡ bits_of_annotations bits }
    ensures in_range { result < 4 }
{
    u32::from(bits.acquire) << 1 | u32::from(bits.release)
}

fn low_12(imm: u32) -> u32
    ensures value { result ≡ part imm 0 12 }
    ensures in_range { result < 4096 }
{
    imm & 0xfff
}

fn store_low(offset: u32) -> u32
    ensures value { result ≡ part offset 0 5 }
    ensures in_range { result < 32 }
{
    offset & 0x1f
}

fn store_high(offset: u32) -> u32
    ensures value { result ≡ part offset 5 7 }
    ensures in_range { result < 128 }
{
    (offset >> 5) & 0x7f
}

fn branch_low(offset: u32) -> u32
    ensures value { result ≡ low_of_branch offset }
    ensures in_range { result < 32 }
{
    ((offset >> 1) & 0xf) << 1 | (offset >> 11) & 1
}

fn branch_high(offset: u32) -> u32
    ensures value { result ≡ high_of_branch offset }
    ensures in_range { result < 128 }
{
    ((offset >> 12) & 1) << 6 | (offset >> 5) & 0x3f
}

fn jump_high(offset: u32) -> u32
    ensures value { result ≡ high_of_jump offset }
    ensures in_range { result < 2 ^ 20 }
{
    let sign = (offset >> 20) & 1;
    let low = (offset >> 1) & 0x3ff;
    let bit_11 = (offset >> 11) & 1;
    sign << 19 | (low << 9 | (bit_11 << 8 | (offset >> 12) & 0xff))
}

fn upper_opcode(op: UpperOp) -> u32
    ensures value { result ≡ opcode_of_upper op }
    ensures in_range { result < 128 }
{
    match op {
        UpperOp::Lui => 0x37,
        UpperOp::Auipc => 0x17,
    }
}

fn branch_funct3(op: BranchOp) -> u32
    ensures value { result ≡ funct3_of_branch op }
    ensures in_range { result < 8 }
{
    match op {
        BranchOp::Beq => 0,
        BranchOp::Bne => 1,
        BranchOp::Blt => 4,
        BranchOp::Bge => 5,
        BranchOp::Bltu => 6,
        BranchOp::Bgeu => 7,
    }
}

fn load_funct3(op: LoadOp) -> u32
    ensures value { result ≡ funct3_of_load op }
    ensures in_range { result < 8 }
{
    match op {
        LoadOp::Lb => 0,
        LoadOp::Lh => 1,
        LoadOp::Lw => 2,
        LoadOp::Lbu => 4,
        LoadOp::Lhu => 5,
    }
}

fn store_funct3(op: StoreOp) -> u32
    ensures value { result ≡ funct3_of_store op }
    ensures in_range { result < 8 }
{
    match op {
        StoreOp::Sb => 0,
        StoreOp::Sh => 1,
        StoreOp::Sw => 2,
    }
}

fn immediate_funct3(op: ImmediateOp) -> u32
    ensures value { result ≡ funct3_of_immediate op }
    ensures in_range { result < 8 }
{
    match op {
        ImmediateOp::Addi => 0,
        ImmediateOp::Slti => 2,
        ImmediateOp::Sltiu => 3,
        ImmediateOp::Xori => 4,
        ImmediateOp::Ori => 6,
        ImmediateOp::Andi => 7,
    }
}

fn shift_funct3(op: ShiftOp) -> u32
    ensures value { result ≡ funct3_of_shift op }
    ensures in_range { result < 8 }
{
    match op {
        ShiftOp::Slli => 1,
        ShiftOp::Srli | ShiftOp::Srai => 5,
    }
}

fn shift_funct7(op: ShiftOp) -> u32
    ensures value { result ≡ funct7_of_shift op }
    ensures in_range { result < 128 }
{
    match op {
        ShiftOp::Slli | ShiftOp::Srli => 0,
        ShiftOp::Srai => 0x20,
    }
}

fn register_funct3(op: RegisterOp) -> u32
    ensures value { result ≡ funct3_of_register op }
    ensures in_range { result < 8 }
{
    match op {
        RegisterOp::Add | RegisterOp::Sub | RegisterOp::Mul => 0,
        RegisterOp::Sll | RegisterOp::Mulh => 1,
        RegisterOp::Slt | RegisterOp::Mulhsu => 2,
        RegisterOp::Sltu | RegisterOp::Mulhu => 3,
        RegisterOp::Xor | RegisterOp::Div => 4,
        RegisterOp::Srl | RegisterOp::Sra | RegisterOp::Divu => 5,
        RegisterOp::Or | RegisterOp::Rem => 6,
        RegisterOp::And | RegisterOp::Remu => 7,
    }
}

fn register_funct7(op: RegisterOp) -> u32
    ensures value { result ≡ funct7_of_register op }
    ensures in_range { result < 128 }
{
    match op {
        RegisterOp::Add
        | RegisterOp::Sll
        | RegisterOp::Slt
        | RegisterOp::Sltu
        | RegisterOp::Xor
        | RegisterOp::Srl
        | RegisterOp::Or
        | RegisterOp::And => 0,
        RegisterOp::Sub | RegisterOp::Sra => 0x20,
        RegisterOp::Mul
        | RegisterOp::Mulh
        | RegisterOp::Mulhsu
        | RegisterOp::Mulhu
        | RegisterOp::Div
        | RegisterOp::Divu
        | RegisterOp::Rem
        | RegisterOp::Remu => 1,
    }
}

fn amo_funct5(op: AmoOp) -> u32
    ensures value { result ≡ funct5_of_amo op }
    ensures in_range { result < 32 }
{
    match op {
        AmoOp::Swap => 1,
        AmoOp::Add => 0,
        AmoOp::Xor => 4,
        AmoOp::And => 0xc,
        AmoOp::Or => 8,
        AmoOp::Min => 0x10,
        AmoOp::Max => 0x14,
        AmoOp::Minu => 0x18,
        AmoOp::Maxu => 0x1c,
    }
}
