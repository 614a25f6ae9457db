//! How large a machine may be: numbers that code, definitions and proofs share. Sets of harts in a byte and the words
//! of a progress board rest on there being 8 harts at most, a memory's lines on 1 MiB.

/// The most harts. The manager's notes keep sets of harts in a byte.
pub const MAX_HARTS: u32 = 8;

/// The most sets of a cache, a power of two.
pub const MAX_SETS: u32 = 64;

/// The most lines that a set holds.
pub const MAX_WAYS: u32 = 4;

/// The most Acquires of a cache that are outstanding at a time, and the most Releases that are unanswered.
pub const TRACKERS: usize = 4;

/// The most entries of a store buffer.
pub const BUFFER_ENTRIES: usize = 8;

/// The first address of main memory.
pub const BASE: u32 = 0x8000_0000;

/// The least size of main memory in KiB.
pub const MIN_KIB: u32 = 4;

/// The greatest size of main memory in KiB.
pub const MAX_KIB: u32 = 1024;

/// Main memory's size in KiB is a multiple of this.
pub const KIB_STEP: u32 = 4;

/// The most instructions that a hart does alone in one `Local` event.
pub const MAX_ROW: u32 = 256;

/// The most instructions that a hart of a trace has retired.
pub const MAX_ENTRIES: usize = 1_000_000;

/// The most events that change a machine.
pub const MAX_CHANGES: u32 = 4_000_000;
