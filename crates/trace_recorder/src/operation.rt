//! Names of memory operations.

/// A memory operation: the instruction that gave it, by its hart and its place in the hart's list, both
/// counted from 0.
#[derive(Clone, Copy, Debug, PartialEq, Eq)]
pub struct OpId {
    pub hart: u8,
    pub place: u32,
}
