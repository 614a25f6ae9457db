//! What instructions compute (chapters 2.4, 2.5 and 7).

ghost use Rattle.std.specs.Prelude.{◌≡◌, ◌<◌, ◌^◌, ◌/◌, ◌-◌, ◌==◌, ◌≤◌, if◌then◌else◌, ℤ, pos, ◌≤ℤ◌, ◌<ℤ◌, int_div, int_rem};
ghost use Rattle.rv32_decode.specs.Numbers.{signed, modulo};
ghost use Rattle.rv32_exec.specs.Arithmetic as spec;

use rv32_decode::{BranchOp, ImmediateOp, RegisterOp, ShiftOp};

/// What an instruction on two registers writes (chapters 2.4 and 7).
pub(crate) fn computed(op: RegisterOp, a: u32, b: u32) -> u32
    ensures { result ≡ spec.computed op a b }
{
    match op {
        RegisterOp::Add => a.wrapping_add(b),
        RegisterOp::Sub => a.wrapping_sub(b),
        RegisterOp::Sll => shifted_left(a, b & 31),
        RegisterOp::Slt => u32::from(a.cast_signed() < b.cast_signed()),
        RegisterOp::Sltu => u32::from(a < b),
        RegisterOp::Xor => a ^ b,
        RegisterOp::Srl => a >> (b & 31),
        RegisterOp::Sra => shifted_right_signed(a, b & 31),
        RegisterOp::Or => a | b,
        RegisterOp::And => a & b,
        RegisterOp::Mul => a.wrapping_mul(b),
        RegisterOp::Mulh => high_word(i64::from(a.cast_signed()) * i64::from(b.cast_signed())),
        RegisterOp::Mulhsu => high_word(i64::from(a.cast_signed()) * i64::from(b)),
        RegisterOp::Mulhu => ((u64::from(a) * u64::from(b)) >> 32) as u32,
        RegisterOp::Div => quotient(a, b),
        RegisterOp::Divu => { if b == 0 { u32::MAX } else { a / b } }
        RegisterOp::Rem => remainder(a, b),
        RegisterOp::Remu => { if b == 0 { a } else { a % b } }
    }
}

/// What an instruction on a register and an immediate writes (chapter 2.4).
pub(crate) fn computed_immediate(op: ImmediateOp, a: u32, imm: u32) -> u32
    ensures { result ≡ spec.computed_immediate op a imm }
{
    match op {
        ImmediateOp::Addi => a.wrapping_add(imm),
        ImmediateOp::Slti => u32::from(a.cast_signed() < imm.cast_signed()),
        ImmediateOp::Sltiu => u32::from(a < imm),
        ImmediateOp::Xori => a ^ imm,
        ImmediateOp::Ori => a | imm,
        ImmediateOp::Andi => a & imm,
    }
}

/// What a shift by a constant writes (chapter 2.4).
pub(crate) fn shifted(op: ShiftOp, a: u32, amount: u32) -> u32
    requires { amount < 32 }
    ensures { result ≡ spec.shifted op a amount }
{
    match op {
        ShiftOp::Slli => shifted_left(a, amount),
        ShiftOp::Srli => a >> amount,
        ShiftOp::Srai => shifted_right_signed(a, amount),
    }
}

/// Whether a branch is taken (chapter 2.5).
pub(crate) fn is_taken(op: BranchOp, a: u32, b: u32) -> bool
    ensures { result ≡ spec.is_taken op a b }
{
    match op {
        BranchOp::Beq => a == b,
        BranchOp::Bne => a != b,
        BranchOp::Blt => a.cast_signed() < b.cast_signed(),
        BranchOp::Bge => a.cast_signed() >= b.cast_signed(),
        BranchOp::Bltu => a < b,
        BranchOp::Bgeu => a >= b,
    }
}

fn shifted_left(a: u32, amount: u32) -> u32
    requires { amount < 32 }
    ensures { result ≡ spec.shifted_left a amount }
{
    a << amount
}

fn shifted_right_signed(a: u32, amount: u32) -> u32
    requires { amount < 32 }
    ensures { result ≡ spec.shifted_signed a amount }
{
    (a.cast_signed() >> amount).cast_unsigned()
}

// The upper half of a product.
fn high_word(product: i64) -> u32
    ensures { result ≡ modulo 64 product / 2 ^ 32 }
{
    (product.cast_unsigned() >> 32) as u32
}

fn quotient(a: u32, b: u32) -> u32
    ensures { result ≡ (if b == 0 then 2 ^ 32 - 1 else modulo 32 (int_div (signed a) (signed b))) }
{
    if b == 0 {
        u32::MAX
    } else {
        a.cast_signed()
            .wrapping_div(b.cast_signed())
            .cast_unsigned()
    }
}

fn remainder(a: u32, b: u32) -> u32
    ensures { result ≡ (if b == 0 then a else modulo 32 (int_rem (signed a) (signed b))) }
{
    if b == 0 {
        a
    } else {
        a.cast_signed()
            .wrapping_rem(b.cast_signed())
            .cast_unsigned()
    }
}
