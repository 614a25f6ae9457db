//! What an event changes, once it is decided on.

use hart::Retired;
use machine_types::Outcome;
use rv32_decode::Instr;
use store_buffer::Store;
use tl_types::{Grow, Msg};

/// What an event comes to, before anything changes.
#[derive(Clone, Copy)]
pub enum Plan {
    /// Nothing changes; the outcome says why.
    Stays(Outcome),
    Changes(Act),
}

/// A change of the machine, by the hart that the event names.
#[derive(Clone, Copy)]
pub enum Act {
    /// The hart halts with this code; nothing retires.
    Stop(u8),
    /// The instruction retires with this entry, and does this beside the hart's pc, registers and
    /// status.
    Retire {
        entry: Retired,
        instr: Instr,
        deed: Deed,
    },
    /// An Acquire of the line that begins at this address is sent.
    Miss {
        line: u32,
        grow: Grow,
    },
    /// The word's entry leaves the oldest group of the store buffer, and its stores are performed.
    Drain(u32),
    /// The cache gives up the line that begins at this address.
    Evict(u32),
    /// The message leaves the front of its channel's queue, and is handled.
    Deliver(Msg),
    /// So many private instructions retire.
    Local(u32),
}

/// What an instruction that retires does beside its hart's pc, registers and status.
#[derive(Clone, Copy)]
pub enum Deed {
    /// Nothing.
    Private,
    /// Its number is put out.
    Output(u32),
    /// Its load is performed.
    Load,
    /// Its store waits in the store buffer.
    Store(Store),
    /// It closes the store buffer's open group.
    Seal,
    /// Its load is performed, and this word becomes the reservation.
    Lr(u32),
    /// The store conditional fails: the reservation ends.
    Fail,
    /// The store conditional writes this number to this word and is performed; the reservation ends.
    Sc { word: u32, value: u32 },
    /// The AMO writes this number to this word and is performed.
    Amo { word: u32, value: u32 },
}
