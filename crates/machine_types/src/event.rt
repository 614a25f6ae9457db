//! What happens to a machine.

use tl_types::Channel;

/// One atomic step of the machine. Harts are counted from 0.
#[derive(Clone, Copy, Debug, PartialEq, Eq)]
pub enum Event {
    /// The hart's next instruction.
    Step { hart: u8 },
    /// The store buffer's oldest entry of the word at this address goes to the hart's cache.
    Drain { hart: u8, word: u32 },
    /// The hart's cache gives up the line that begins at this address.
    Evict { hart: u8, line: u32 },
    /// The first message of the hart's queue of this channel arrives.
    Deliver { channel: Channel, hart: u8 },
    /// The hart's next `count` instructions, 1 to 256, none of which touches memory, fences, calls or stops.
    Local { hart: u8, count: u32 },
}
