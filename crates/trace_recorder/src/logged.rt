//! Entries of the message log.

use tl_types::Msg;

/// Whether a message went into its queue, or out of it.
#[derive(Clone, Copy, Debug, PartialEq, Eq)]
pub enum Direction {
    Sent,
    Taken,
}

/// A message that was sent or taken. Its kind says on which channel, and `hart` whose queue it was.
#[derive(Clone, Copy, Debug, PartialEq, Eq)]
pub struct Logged {
    pub direction: Direction,
    pub hart: u8,
    pub message: Msg,
}
