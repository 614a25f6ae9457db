//! What an instruction works on, in an assembler's spelling.
ghost use Rattle.std.specs.Prelude.{◌≡◌, ◌<◌, ◌≤◌, ◌+◌, ◌++◌, [], ◌∷◌, length};
ghost use Rattle.text_fields.specs.Pages.{size};
ghost use Rattle.assembly.specs.Operands as operand;

use bitflags::Flags;
use rv32_decode::{Annotations, FenceSet, Register};
use text_fields::Page;

/// The last operand of an instruction that has two or three.
#[derive(Clone, Copy)]
pub(crate) enum Operand {
    Register(Register),
    /// A number modulo 2^32, read as signed.
    Signed(u32),
    /// By how many places a shift moves.
    Amount(u32),
    /// Where a jump leads: the instruction's own address, where it is known, and the offset.
    Target(Option<u32>, u32),
}

/// The names of x0 to x31 in the calling convention.
const REGISTERS: [&[u8]; 32] = [
    b"zero", b"ra", b"sp", b"gp", b"tp", b"t0", b"t1", b"t2", b"s0", b"s1", b"a0", b"a1", b"a2",
    b"a3", b"a4", b"a5", b"a6", b"a7", b"s2", b"s3", b"s4", b"s5", b"s6", b"s7", b"s8", b"s9",
    b"s10", b"s11", b"t3", b"t4", b"t5", b"t6",
];

/// A register as the calling convention names it.
pub fn register(register: Register) -> &'static [u8]
    ensures value { result.now ≡ operand.register register }
    ensures len { length result.now ≤ 4 }
{
    REGISTERS[register.number() as usize]
}

/// The letters of the sixteen sets, by the set's bits.
const ACCESSES: [&[u8]; 16] = [
    b"0", b"w", b"r", b"rw", b"o", b"ow", b"or", b"orw", b"i", b"iw", b"ir", b"irw", b"io", b"iow",
    b"ior", b"iorw",
];

pub(crate) fn accesses(set: FenceSet) -> &'static [u8]
    requires { set.0 < 16 }
    ensures value { result.now ≡ operand.accesses set.0 }
    ensures len { length result.now ≤ 4 }
{
    ACCESSES[set.bits() as usize]
}

/// The bits aq and rl.
pub(crate) fn suffix(bits: Annotations) -> &'static [u8]
    ensures value { result.now ≡ operand.suffix bits }
    ensures len { length result.now ≤ 5 }
{
    match (bits.acquire, bits.release) {
        (false, false) => b"",
        (true, false) => b".aq",
        (false, true) => b".rl",
        (true, true) => b".aqrl",
    }
}

/// A number modulo 2^32, read as signed: its sign and its amount.
pub(crate) fn spell_signed(page: &mut Page, number: u32)
    requires { length page.old + 21 ≤ size }
    ensures value { page.new ≡ page.old ++ operand.signed number }
    ensures len { length page.new ≤ length page.old + 21 }
{
    if number < 1 << 31 {
        page.decimal(number as u64);
    } else {
        page.text(b"-");
        page.decimal((1 << 32) - number as u64);
    }
}

/// Where a jump leads.
fn spell_target(page: &mut Page, pc: Option<u32>, offset: u32)
    requires { length page.old + 22 ≤ size }
    ensures value { page.new ≡ page.old ++ operand.target pc offset }
    ensures len { length page.new ≤ length page.old + 22 }
{
    match pc {
        Some(pc) => page.word(pc.wrapping_add(offset)),
        None if offset < 1 << 31 => {
            page.text(b".+");
            page.decimal(offset as u64);
        }
        None => {
            page.text(b".-");
            page.decimal((1 << 32) - offset as u64);
        }
    }
}

pub(crate) fn spell_operand(page: &mut Page, last: Operand)
    requires { length page.old + 22 ≤ size }
    ensures value { page.new ≡ page.old ++ operand.text_of last }
    ensures len { length page.new ≤ length page.old + 22 }
{
    match last {
        Operand::Register(name) => page.text(register(name)),
        Operand::Signed(number) => spell_signed(page, number),
        Operand::Amount(places) => page.decimal(places as u64),
        Operand::Target(pc, offset) => spell_target(page, pc, offset),
    }
}

fn hex_digit(number: u32) -> u8
    ensures { result ≡ operand.hex_digit_of number }
{
    let digit = (number % 16) as u8;
    if digit < 10 {
        b'0' + digit
    } else {
        b'a' + (digit - 10)
    }
}

/// Bits 31 to 12 of a number, in hexadecimal.
pub(crate) fn upper(number: u32) -> [u8; 7]
    ensures { result ≡ operand.upper number }
{
    [
        b'0',
        b'x',
        hex_digit(number >> 28),
        hex_digit(number >> 24),
        hex_digit(number >> 20),
        hex_digit(number >> 16),
        hex_digit(number >> 12),
    ]
}
