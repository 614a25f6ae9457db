//! Spelling an instruction onto a page.
ghost use Rattle.std.specs.Prelude.{◌≡◌, ◌≤◌, ◌+◌, ◌++◌, [], ◌∷◌, length, codes};
ghost use Rattle.text_fields.specs.Pages.{size};
ghost use Rattle.assembly.specs.Assembly.{assembly, line};
ghost use Rattle.assembly.specs.Operands as operand;

use crate::mnemonics::{
    amo_name, branch_name, immediate_name, load_name, register_name, shift_name, store_name,
    system_name, upper_name,
};
use crate::operands::{Operand, accesses, register, spell_operand, spell_signed, suffix, upper};
use rv32_decode::{Annotations, FenceSets, Immediate12, Instr, Register, UpperImmediate};
use text_fields::Page;

/// A name and a register, before another operand.
fn spell_first(page: &mut Page, name: &[u8], first: Register)
    requires room { length page.old + 16 ≤ size }
    requires short { length name.now ≤ 9 }
    ensures value { page.new ≡ page.old ++ (name.now ++ (32 ∷ (operand.register first ++ (44 ∷ 32 ∷ [])))) }
    ensures len { length page.new ≤ length page.old + 16 }
{
    page.text(name);
    page.text(b" ");
    page.text(register(first));
    page.text(b", ");
}

/// A name and two operands.
fn spell_two(page: &mut Page, name: &[u8], first: Register, second: Operand)
    requires room { length page.old + 48 ≤ size }
    requires short { length name.now ≤ 9 }
    ensures value { page.new ≡ page.old ++ line name.now (operand.register first ∷ operand.text_of second ∷ []) }
    ensures len { length page.new ≤ length page.old + 48 }
{
    spell_first(page, name, first);
    spell_operand(page, second);
}

/// A name and three operands.
fn spell_three(page: &mut Page, name: &[u8], first: Register, second: Register, third: Operand)
    requires room { length page.old + 48 ≤ size }
    requires short { length name.now ≤ 9 }
    ensures value { page.new ≡ page.old ++ line name.now (operand.register first ∷ operand.register second ∷ operand.text_of third ∷ []) }
    ensures len { length page.new ≤ length page.old + 48 }
{
    spell_first(page, name, first);
    page.text(register(second));
    page.text(b", ");
    spell_operand(page, third);
}

/// A register that has an address, in parentheses.
fn spell_at(page: &mut Page, base: Register)
    requires { length page.old + 6 ≤ size }
    ensures value { page.new ≡ page.old ++ operand.at base }
    ensures len { length page.new ≤ length page.old + 6 }
{
    page.text(b"(");
    page.text(register(base));
    page.text(b")");
}

/// A name, a register, and a register with an offset.
fn spell_addressed(
    page: &mut Page,
    name: &[u8],
    first: Register,
    offset: Immediate12,
    base: Register,
)
    requires room { length page.old + 48 ≤ size }
    requires short { length name.now ≤ 9 }
    ensures value { page.new ≡ page.old ++ line name.now (operand.register first ∷ operand.address offset base ∷ []) }
    ensures len { length page.new ≤ length page.old + 48 }
{
    spell_first(page, name, first);
    spell_signed(page, offset.value());
    spell_at(page, base);
}

/// A name with the bits aq and rl, two registers, and the register that has the address.
fn spell_atomic(
    page: &mut Page,
    name: &[u8],
    bits: Annotations,
    first: Register,
    second: Register,
    base: Register,
)
    requires room { length page.old + 48 ≤ size }
    requires short { length name.now ≤ 9 }
    ensures value { page.new ≡ page.old ++ line (name.now ++ operand.suffix bits) (operand.register first ∷ operand.register second ∷ operand.at base ∷ []) }
    ensures len { length page.new ≤ length page.old + 48 }
{
    page.text(name);
    spell_first(page, suffix(bits), first);
    page.text(register(second));
    page.text(b", ");
    spell_at(page, base);
}

fn spell_load_reserved(page: &mut Page, bits: Annotations, rd: Register, base: Register)
    requires { length page.old + 48 ≤ size }
    ensures value { page.new ≡ page.old ++ line (codes "lr.w" ++ operand.suffix bits) (operand.register rd ∷ operand.at base ∷ []) }
    ensures len { length page.new ≤ length page.old + 48 }
{
    page.text(b"lr.w");
    spell_first(page, suffix(bits), rd);
    spell_at(page, base);
}

fn spell_upper(page: &mut Page, name: &[u8], rd: Register, imm: UpperImmediate)
    requires room { length page.old + 48 ≤ size }
    requires short { length name.now ≤ 9 }
    ensures value { page.new ≡ page.old ++ line name.now (operand.register rd ∷ operand.upper imm ∷ []) }
    ensures len { length page.new ≤ length page.old + 48 }
{
    spell_first(page, name, rd);
    page.text(&upper(imm.value()));
}

fn spell_fence(page: &mut Page, sets: FenceSets)
    requires { length page.old + 48 ≤ size }
    ensures value { page.new ≡ page.old ++ line (codes "fence") (operand.accesses sets.before ∷ operand.accesses sets.after ∷ []) }
    ensures len { length page.new ≤ length page.old + 48 }
{
    page.text(b"fence ");
    page.text(accesses(sets.before()));
    page.text(b", ");
    page.text(accesses(sets.after()));
}

/// Appends an instruction, one at this address if it is given: at most 48 bytes, with no line feed.
#[rattlefmt::skip]
pub fn spell_assembly(page: &mut Page, instr: &Instr, pc: Option<u32>)
    requires { length page.old + 48 ≤ size }
    ensures value { page.new ≡ page.old ++ assembly pc instr.now }
    ensures len { length page.new ≤ length page.old + 48 }
{
    match *instr {
        Instr::Upper { op, rd, imm } => spell_upper(page, upper_name(op), rd, imm),
        Instr::Jal { rd, offset } => spell_two(page, b"jal", rd, Operand::Target(pc, offset.value())),
        Instr::Jalr { rd, rs1, offset } => spell_addressed(page, b"jalr", rd, offset, rs1),
        Instr::Branch { op, rs1, rs2, offset } => spell_three(page, branch_name(op), rs1, rs2, Operand::Target(pc, offset.value())),
        Instr::Load { op, rd, rs1, offset } => spell_addressed(page, load_name(op), rd, offset, rs1),
        Instr::Store { op, rs1, rs2, offset } => spell_addressed(page, store_name(op), rs2, offset, rs1),
        Instr::Immediate { op, rd, rs1, imm } => spell_three(page, immediate_name(op), rd, rs1, Operand::Signed(imm.value())),
        Instr::Shift { op, rd, rs1, amount } => spell_three(page, shift_name(op), rd, rs1, Operand::Amount(amount.value())),
        Instr::Register { op, rd, rs1, rs2 } => spell_three(page, register_name(op), rd, rs1, Operand::Register(rs2)),
        Instr::Fence(sets) => spell_fence(page, sets),
        Instr::FenceTso => page.text(b"fence.tso"),
        Instr::System(op) => page.text(system_name(op)),
        Instr::Lr { rd, rs1, bits } => spell_load_reserved(page, bits, rd, rs1),
        Instr::Sc { rd, rs1, rs2, bits } => spell_atomic(page, b"sc.w", bits, rd, rs2, rs1),
        Instr::Amo { op, rd, rs1, rs2, bits } => spell_atomic(page, amo_name(op), bits, rd, rs2, rs1),
    }
}
