//! Memory operations (RISC-V Unprivileged ISA 20191213, chapter 14.1, "Memory Model Primitives").

/// What kind of instruction gave an operation. An AMO is a load and a store at once; an SC that failed
/// gives none.
#[derive(Clone, Copy, Debug, PartialEq, Eq, Hash)]
pub enum Kind {
    Load,
    Store,
    /// LR.
    Lr,
    /// An SC that succeeded.
    Sc,
    Amo,
}

/// A memory operation, named by its hart and its place in the hart's list of retired instructions.
#[derive(Clone, Copy, Debug, PartialEq, Eq)]
pub struct Operation {
    pub hart: u8,
    pub place: u32,
    pub kind: Kind,
    /// The first of its bytes.
    pub address: u32,
    /// How many bytes it has: 1, 2 or 4.
    pub size: u32,
    /// What it read, the byte at the lowest address its lowest; 0 where it read nothing.
    pub read: u32,
    /// What it wrote, likewise.
    pub written: u32,
    /// The instruction's bit aq; false where it has none.
    pub aq: bool,
    /// The instruction's bit rl; false where it has none.
    pub rl: bool,
}
