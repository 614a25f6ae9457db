//! From words to instructions.
ghost use Rattle.std.specs.Prelude.{◌≡◌, ◌==◌, if◌then◌else◌};
ghost use Rattle.rv32_decode.specs.Decoding.{branch_of, load_of, store_of, immediate_of, shift_of, register_of, amo_of, branch_at, load_at, store_at, immediate_at, shift_at, register_at, jalr_at, fence_at, system_at, atomic_at};
ghost use Rattle.rv32_decode.specs.Fields.{rd_of, rs1_of, rs2_of, imm_u, annotations_of};
ghost use Rattle.rv32_decode.specs.Rows.{decoded};

use crate::fields::{
    annotations, branch_offset, fence_sets, funct3, funct5, funct7, immediate_i, immediate_s,
    jump_offset, opcode, rd, rs1, rs2, shift_amount, upper_immediate,
};
use crate::instruction::{
    AmoOp, BranchOp, ImmediateOp, Instr, LoadOp, RegisterOp, ShiftOp, StoreOp, SystemOp, UpperOp,
};

/// The instruction that a word is, or `None` where it is none of RV32I (without FENCE.I and the CSR
/// instructions), M and A.
pub fn decode(word: u32) -> Option<Instr>
    ensures { result ≡ decoded word }
{
    match opcode(word) {
        0x37 => Some(upper(UpperOp::Lui, word)),
        0x17 => Some(upper(UpperOp::Auipc, word)),
        0x6f => Some(Instr::Jal {
            rd: rd(word),
            offset: jump_offset(word),
        }),
        0x67 => jalr(word),
        0x63 => branch(word),
        0x03 => load(word),
        0x23 => store(word),
        0x13 => immediate(word),
        0x33 => register(word),
        0x0f => fence(word),
        0x73 => system(word),
        0x2f => atomic(word),
        _ => None,
    }
}

fn upper(op: UpperOp, word: u32) -> Instr
    ensures { result ≡ Instr.Upper op (rd_of word) (imm_u word) }
{
    Instr::Upper {
        op,
        rd: rd(word),
        imm: upper_immediate(word),
    }
}

fn jalr(word: u32) -> Option<Instr>
    ensures { result ≡ jalr_at word }
{
    if funct3(word) != 0 {
        return None;
    }
    Some(Instr::Jalr {
        rd: rd(word),
        rs1: rs1(word),
        offset: immediate_i(word),
    })
}

fn branch_op(funct3: u32) -> Option<BranchOp>
    ensures { result ≡ branch_of funct3 }
{
    match funct3 {
        0 => Some(BranchOp::Beq),
        1 => Some(BranchOp::Bne),
        4 => Some(BranchOp::Blt),
        5 => Some(BranchOp::Bge),
        6 => Some(BranchOp::Bltu),
        7 => Some(BranchOp::Bgeu),
        _ => None,
    }
}

fn branch(word: u32) -> Option<Instr>
    ensures { result ≡ branch_at word }
{
    let op = branch_op(funct3(word))?;
    Some(Instr::Branch {
        op,
        rs1: rs1(word),
        rs2: rs2(word),
        offset: branch_offset(word),
    })
}

fn load_op(funct3: u32) -> Option<LoadOp>
    ensures { result ≡ load_of funct3 }
{
    match funct3 {
        0 => Some(LoadOp::Lb),
        1 => Some(LoadOp::Lh),
        2 => Some(LoadOp::Lw),
        4 => Some(LoadOp::Lbu),
        5 => Some(LoadOp::Lhu),
        _ => None,
    }
}

fn load(word: u32) -> Option<Instr>
    ensures { result ≡ load_at word }
{
    let op = load_op(funct3(word))?;
    Some(Instr::Load {
        op,
        rd: rd(word),
        rs1: rs1(word),
        offset: immediate_i(word),
    })
}

fn store_op(funct3: u32) -> Option<StoreOp>
    ensures { result ≡ store_of funct3 }
{
    match funct3 {
        0 => Some(StoreOp::Sb),
        1 => Some(StoreOp::Sh),
        2 => Some(StoreOp::Sw),
        _ => None,
    }
}

fn store(word: u32) -> Option<Instr>
    ensures { result ≡ store_at word }
{
    let op = store_op(funct3(word))?;
    Some(Instr::Store {
        op,
        rs1: rs1(word),
        rs2: rs2(word),
        offset: immediate_s(word),
    })
}

fn immediate_op(funct3: u32) -> Option<ImmediateOp>
    ensures { result ≡ immediate_of funct3 }
{
    match funct3 {
        0 => Some(ImmediateOp::Addi),
        2 => Some(ImmediateOp::Slti),
        3 => Some(ImmediateOp::Sltiu),
        4 => Some(ImmediateOp::Xori),
        6 => Some(ImmediateOp::Ori),
        7 => Some(ImmediateOp::Andi),
        _ => None,
    }
}

fn immediate(word: u32) -> Option<Instr>
    ensures { result ≡ immediate_at word }
{
    match immediate_op(funct3(word)) {
        Some(op) => Some(Instr::Immediate {
            op,
            rd: rd(word),
            rs1: rs1(word),
            imm: immediate_i(word),
        }),
        None => shift(word),
    }
}

fn shift_op(funct7: u32, funct3: u32) -> Option<ShiftOp>
    ensures { result ≡ shift_of funct3 funct7 }
{
    match (funct7, funct3) {
        (0, 1) => Some(ShiftOp::Slli),
        (0, 5) => Some(ShiftOp::Srli),
        (0x20, 5) => Some(ShiftOp::Srai),
        _ => None,
    }
}

fn shift(word: u32) -> Option<Instr>
    ensures { result ≡ shift_at word }
{
    let op = shift_op(funct7(word), funct3(word))?;
    Some(Instr::Shift {
        op,
        rd: rd(word),
        rs1: rs1(word),
        amount: shift_amount(word),
    })
}

fn register_op(funct7: u32, funct3: u32) -> Option<RegisterOp>
    ensures { result ≡ register_of funct3 funct7 }
{
    match (funct7, funct3) {
        (0, 0) => Some(RegisterOp::Add),
        (0x20, 0) => Some(RegisterOp::Sub),
        (0, 1) => Some(RegisterOp::Sll),
        (0, 2) => Some(RegisterOp::Slt),
        (0, 3) => Some(RegisterOp::Sltu),
        (0, 4) => Some(RegisterOp::Xor),
        (0, 5) => Some(RegisterOp::Srl),
        (0x20, 5) => Some(RegisterOp::Sra),
        (0, 6) => Some(RegisterOp::Or),
        (0, 7) => Some(RegisterOp::And),
        (1, 0) => Some(RegisterOp::Mul),
        (1, 1) => Some(RegisterOp::Mulh),
        (1, 2) => Some(RegisterOp::Mulhsu),
        (1, 3) => Some(RegisterOp::Mulhu),
        (1, 4) => Some(RegisterOp::Div),
        (1, 5) => Some(RegisterOp::Divu),
        (1, 6) => Some(RegisterOp::Rem),
        (1, 7) => Some(RegisterOp::Remu),
        _ => None,
    }
}

fn register(word: u32) -> Option<Instr>
    ensures { result ≡ register_at word }
{
    let op = register_op(funct7(word), funct3(word))?;
    Some(Instr::Register {
        op,
        rd: rd(word),
        rs1: rs1(word),
        rs2: rs2(word),
    })
}

// The mode of a FENCE is only looked at where its sets are RW and RW; the registers that it names never are.
fn fence(word: u32) -> Option<Instr>
    ensures { result ≡ fence_at word }
{
    if funct3(word) != 0 {
        return None;
    }
    if word >> 20 == 0x833 {
        Some(Instr::FenceTso)
    } else {
        Some(Instr::Fence(fence_sets(word)))
    }
}

fn system(word: u32) -> Option<Instr>
    ensures { result ≡ system_at word }
{
    match word {
        0x0000_0073 => Some(Instr::System(SystemOp::Ecall)),
        0x0010_0073 => Some(Instr::System(SystemOp::Ebreak)),
        _ => None,
    }
}

fn atomic(word: u32) -> Option<Instr>
    ensures { result ≡ atomic_at word }
{
    if funct3(word) != 2 {
        return None;
    }
    match funct5(word) {
        0x02 => load_reserved(word),
        0x03 => Some(Instr::Sc {
            rd: rd(word),
            rs1: rs1(word),
            rs2: rs2(word),
            bits: annotations(word),
        }),
        funct => {
            let op = amo_op(funct)?;
            Some(Instr::Amo {
                op,
                rd: rd(word),
                rs1: rs1(word),
                rs2: rs2(word),
                bits: annotations(word),
            })
        }
    }
}

fn load_reserved(word: u32) -> Option<Instr>
    ensures { result
        ≡ (if rs2_of word == 0 then Some (Instr.Lr (rd_of word) (rs1_of word) (annotations_of word)) else None) }
{
    if rs2(word).number() != 0 {
        return None;
    }
    Some(Instr::Lr {
        rd: rd(word),
        rs1: rs1(word),
        bits: annotations(word),
    })
}

fn amo_op(funct5: u32) -> Option<AmoOp>
    ensures { result ≡ amo_of funct5 }
{
    match funct5 {
        0x01 => Some(AmoOp::Swap),
        0x00 => Some(AmoOp::Add),
        0x04 => Some(AmoOp::Xor),
        0x0c => Some(AmoOp::And),
        0x08 => Some(AmoOp::Or),
        0x10 => Some(AmoOp::Min),
        0x14 => Some(AmoOp::Max),
        0x18 => Some(AmoOp::Minu),
        0x1c => Some(AmoOp::Maxu),
        _ => None,
    }
}
