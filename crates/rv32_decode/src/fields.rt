//! The fields of a word (chapters 2.2 and 2.3).
ghost use Rattle.std.specs.Prelude.{◌≡◌, ◌<◌, ◌≤◌, ◌*◌, ◌+◌, ◌^◌, ◌%◌};
ghost use Rattle.rv32_decode.specs.Fields.{opcode_of, rd_of, rs1_of, rs2_of, funct3_of, funct7_of, funct5_of, extended_by, imm_i, imm_s, imm_b, imm_u, imm_j, acquire_of, release_of, fences_of};

use crate::fence::{FenceSet, FenceSets};
use crate::immediates::{BranchOffset, Immediate12, JumpOffset, ShiftAmount, UpperImmediate};
use crate::instruction::Annotations;
use crate::registers::Register;
use bitflags::Flags;

pub(crate) fn opcode(word: u32) -> u32
    ensures { result ≡ opcode_of word }
{
    word & 0x7f
}

pub(crate) fn funct3(word: u32) -> u32
    ensures { result ≡ funct3_of word }
{
    (word >> 12) & 7
}

pub(crate) fn funct5(word: u32) -> u32
    ensures { result ≡ funct5_of word }
{
    word >> 27
}

pub(crate) fn funct7(word: u32) -> u32
    ensures { result ≡ funct7_of word }
{
    word >> 25
}

pub(crate) fn rd(word: u32) -> Register
    ensures { result ≡ rd_of word }
{
    Register::new(((word >> 7) & 0x1f) as u8)
}

pub(crate) fn rs1(word: u32) -> Register
    ensures { result ≡ rs1_of word }
{
    Register::new(((word >> 15) & 0x1f) as u8)
}

pub(crate) fn rs2(word: u32) -> Register
    ensures { result ≡ rs2_of word }
{
    Register::new(((word >> 20) & 0x1f) as u8)
}

pub(crate) fn shift_amount(word: u32) -> ShiftAmount
    ensures { result ≡ rs2_of word }
{
    ShiftAmount::new((word >> 20) & 0x1f)
}

pub(crate) fn annotations(word: u32) -> Annotations
    ensures acquire { result.acquire ≡ acquire_of word }
    ensures release { result.release ≡ release_of word }
{
    Annotations {
        acquire: (word >> 26) & 1 == 1,
        release: (word >> 25) & 1 == 1,
    }
}

pub(crate) fn fence_sets(word: u32) -> FenceSets
    ensures { result ≡ fences_of word }
{
    let before = FenceSet::from_bits_retain(((word >> 24) & 0xf) as u8);
    let after = FenceSet::from_bits_retain(((word >> 20) & 0xf) as u8);
    FenceSets::new(before, after)
}

/// A number whose highest bit has the weight `sign`, a power of two, its sign extended to 32 bits.
pub fn sign_extended(number: u32, sign: u32) -> u32
    requires sign { sign ≤ 2 ^ 30 }
    requires number { number < 2 * sign }
    ensures { result ≡ extended_by sign number }
{
    if number < sign {
        number
    } else {
        number.wrapping_sub(2 * sign)
    }
}

pub(crate) fn immediate_i(word: u32) -> Immediate12
    ensures { result ≡ imm_i word }
{
    Immediate12::new(sign_extended(word >> 20, 0x800))
}

pub(crate) fn immediate_s(word: u32) -> Immediate12
    ensures { result ≡ imm_s word }
{
    let low = (word >> 7) & 0x1f;
    Immediate12::new(sign_extended((word >> 25) << 5 | low, 0x800))
}

pub(crate) fn branch_offset(word: u32) -> BranchOffset
    ensures { result ≡ imm_b word }
{
    let bit_11 = (word >> 7) & 1;
    let middle = (word >> 25) & 0x3f;
    let low = (word >> 8) & 0xf;
    let number = (word >> 31) << 12 | (bit_11 << 11 | (middle << 5 | low << 1));
    BranchOffset::new(sign_extended(number, 0x1000))
}

pub(crate) fn upper_immediate(word: u32) -> UpperImmediate
    ensures { result ≡ imm_u word }
{
    UpperImmediate::new((word >> 12) << 12)
}

pub(crate) fn jump_offset(word: u32) -> JumpOffset
    ensures { result ≡ imm_j word }
{
    let high = (word >> 12) & 0xff;
    let bit_11 = (word >> 20) & 1;
    let low = (word >> 21) & 0x3ff;
    let number = (word >> 31) << 20 | (high << 12 | (bit_11 << 11 | low << 1));
    JumpOffset::new(sign_extended(number, 0x10_0000))
}
