//! What is wrong with a word of a line.

use crate::machine::Machine;
use crate::quoted::Quoted;
use elf_loader::BASE;
use std::fmt::{self, Display, Formatter};

/// What is wrong with a word of a line.
#[derive(Clone, Copy)]
pub(crate) enum Flaw<'a> {
    /// A decimal number has a sign, or a zero before it.
    Padded,
    /// 0x begins what is no address and no word.
    Misspelt(&'a [u8]),
    Hart { hart: u32, machine: Machine },
    Unaligned { address: u32, piece: u32 },
    Outside { address: u32, machine: Machine },
    /// A line's bytes have so many digits.
    Length { length: usize, machine: Machine },
    /// A line's bytes have what is no digit.
    Digit(u8),
}

impl Flaw<'_> {
    /// Whether the machine's harts or its memory say that this is wrong.
    pub(crate) fn is_by_size(self) -> bool {
        matches!(self, Flaw::Hart { .. } | Flaw::Outside { .. })
    }
}

impl Display for Flaw<'_> {
    fn fmt<W: fmt::Write>(&self, f: &mut Formatter<W>) -> fmt::Result {
        match *self {
            Flaw::Padded => f.write_str("numbers have no sign, and no zero before them"),
            Flaw::Misspelt(word) => write!(
                f,
                "0x and 8 lower-case digits are wanted, not {}",
                Quoted(word)
            ),
            Flaw::Hart { hart, machine } => no_hart(hart, machine, f),
            Flaw::Unaligned { address, piece } => {
                write!(f, "0x{address:08x} is not a multiple of {piece}")
            }
            Flaw::Outside { address, machine } => write!(
                f,
                "0x{address:08x} is outside memory, 0x{BASE:08x} to 0x{:08x}",
                machine.last()
            ),
            Flaw::Length { length, machine } => write!(
                f,
                "DATA has {} digits, two for each of a line's {} bytes, not {length}",
                machine.digits(),
                machine.line
            ),
            Flaw::Digit(byte) => write!(
                f,
                "DATA has lower-case hexadecimal digits alone, not {}",
                Quoted(&[byte])
            ),
        }
    }
}

fn no_hart<W: fmt::Write>(hart: u32, machine: Machine, f: &mut Formatter<W>) -> fmt::Result {
    let Machine { text, harts, .. } = machine;
    match harts {
        1 => write!(f, "no hart {hart}: the {text}'s only hart is 0"),
        _ => write!(
            f,
            "no hart {hart}: the {text}'s harts are 0 to {}",
            harts.saturating_sub(1)
        ),
    }
}
