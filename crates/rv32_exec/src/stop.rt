//! Why a hart stops. The codes are this project's own; an LR counts among the stores.

/// The target of a taken jump or branch isn't a multiple of 4.
pub const JUMP_MISALIGNED: u8 = 0;
/// The pc is outside memory.
pub const FETCH_OUTSIDE: u8 = 1;
/// The word is no instruction.
pub const ILLEGAL: u8 = 2;
/// EBREAK.
pub const BREAKPOINT: u8 = 3;
/// A load's address isn't a multiple of its size.
pub const LOAD_MISALIGNED: u8 = 4;
/// A load reaches outside memory.
pub const LOAD_OUTSIDE: u8 = 5;
/// The address of a store, LR, SC or AMO isn't a multiple of its size.
pub const STORE_MISALIGNED: u8 = 6;
/// A store, LR, SC or AMO reaches outside memory.
pub const STORE_OUTSIDE: u8 = 7;
/// An ECALL whose number, x17, is neither 0 nor 1.
pub const UNKNOWN_CALL: u8 = 8;
