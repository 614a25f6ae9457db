//! The places that a final state tells, and where their values come from.

use rv32_decode::Register;
use text_words::Name;

/// A place whose value a state tells.
#[derive(Clone, Copy)]
pub enum Told {
    /// A hart's register, put out at this place of the hart's output.
    Register {
        hart: u8,
        register: Register,
        index: usize,
    },
    /// A location, whose word is of this number among those that are shown; `mask` has the bits that count.
    Location {
        name: Name,
        mask: u32,
        number: usize,
    },
}
