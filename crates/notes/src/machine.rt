//! The machine that a text is of.

use crate::flaw::Flaw;
use crate::lines::word_of;
use crate::number::{is_hexadecimal, number_of};
use elf_loader::BASE;

/// What a text says of its machine.
#[derive(Clone, Copy)]
pub(crate) struct Machine {
    /// What the text is: a script or a trace.
    pub(crate) text: &'static str,
    pub(crate) harts: u32,
    pub(crate) kib: u32,
    /// How many bytes a line has.
    pub(crate) line: u32,
}

impl Machine {
    /// The machine of such a text by the line of its sizes: by the words for its harts, its memory and a line's bytes,
    /// which are 16 where there is no such word.
    pub(crate) fn said(text: &'static str, sizes: &[u8], places: [usize; 3]) -> Machine {
        let [harts, kib, line] = places;
        let number = |place: usize| number_of(word_of(sizes, place));
        Machine {
            text,
            harts: number(harts).unwrap_or(0),
            kib: number(kib).unwrap_or(0),
            line: number(line).unwrap_or(16),
        }
    }

    /// The last address of memory.
    pub(crate) fn last(self) -> u32 {
        BASE.wrapping_add(self.kib.wrapping_mul(1024))
            .wrapping_sub(1)
    }

    /// What is wrong with the number of a hart.
    pub(crate) fn hart_flaw<'a>(self, hart: u32) -> Option<Flaw<'a>> {
        if hart < self.harts {
            return None;
        }
        Some(Flaw::Hart {
            hart,
            machine: self,
        })
    }

    /// What is wrong with the address of a piece of memory of so many bytes.
    pub(crate) fn address_flaw<'a>(self, address: u32, piece: u32) -> Option<Flaw<'a>> {
        if address % piece.max(1) != 0 {
            Some(Flaw::Unaligned { address, piece })
        } else if address < BASE || address > self.last() {
            Some(Flaw::Outside {
                address,
                machine: self,
            })
        } else {
            None
        }
    }

    /// What is wrong with a line's bytes.
    pub(crate) fn data_flaw<'a>(self, data: &'a [u8]) -> Option<Flaw<'a>> {
        if data.len() != self.digits() {
            return Some(Flaw::Length {
                length: data.len(),
                machine: self,
            });
        }
        let other = data.iter().find(|byte| !is_hexadecimal(**byte))?;
        Some(Flaw::Digit(*other))
    }

    /// How many digits a line's bytes have.
    pub(crate) fn digits(self) -> usize {
        (self.line as usize).wrapping_mul(2)
    }
}
