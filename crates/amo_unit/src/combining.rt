ghost use Rattle.std.specs.Prelude.{◌≡◌, int_lt, if◌then◌else◌};
ghost use Rattle.amo_unit.specs.Amo.{combined};
ghost use Rattle.rv32_decode.specs.Numbers.{signed};

use rv32_decode::AmoOp;

/// The word that an AMO writes, of the word that it found and its operand.
pub fn combine(op: AmoOp, old: u32, operand: u32) -> u32
    ensures { result ≡ combined op old operand }
{
    match op {
        AmoOp::Swap => operand,
        AmoOp::Add => old.wrapping_add(operand),
        AmoOp::Xor => old ^ operand,
        AmoOp::And => old & operand,
        AmoOp::Or => old | operand,
        AmoOp::Min => signed_min(old, operand),
        AmoOp::Max => signed_max(old, operand),
        AmoOp::Minu => old.min(operand),
        AmoOp::Maxu => old.max(operand),
    }
}

fn signed_min(a: u32, b: u32) -> u32
    ensures { result ≡ (if int_lt (signed a) (signed b) then a else b) }
{
    if a.cast_signed() < b.cast_signed() {
        a
    } else {
        b
    }
}

fn signed_max(a: u32, b: u32) -> u32
    ensures { result ≡ (if int_lt (signed a) (signed b) then b else a) }
{
    if a.cast_signed() < b.cast_signed() {
        b
    } else {
        a
    }
}
