//! What happens to a flat machine.

/// One atomic step of the flat machine. Harts are counted from 0.
#[derive(Clone, Copy, Debug, PartialEq, Eq)]
pub enum FlatEvent {
    /// The hart's next instruction.
    Step { hart: u8 },
    /// The store buffer's oldest entry of the word at this address is written to memory.
    Drain { hart: u8, word: u32 },
    /// The hart's next instruction, a store conditional, fails.
    Fail { hart: u8 },
}
