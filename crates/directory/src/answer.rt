//! What the directory answers: a line's notes, and the messages that are to be sent.
use crate::harts::HartSet;
use tl_types::{Cap, Grow, Perm};

/// What is noted of one hart for one line: its permission by the messages taken so far, and whether
/// its ProbeAck is awaited.
#[derive(Clone, Copy, Debug, PartialEq, Eq)]
pub struct Known {
    pub perm: Perm,
    pub awaited: bool,
}

/// Where a line's transaction stands.
#[derive(Clone, Copy, Debug, PartialEq, Eq)]
pub enum Transaction {
    Idle,
    /// ProbeAcks are awaited before this requester's Grant.
    Probing(u8, Grow),
    /// The hart's GrantAck is awaited.
    Granted(u8),
}

/// A Grant that is to be sent: to this hart, with this Cap, as GrantData or without data.
#[derive(Clone, Copy, Debug, PartialEq, Eq)]
pub struct Grant {
    pub hart: u8,
    pub cap: Cap,
    pub with_data: bool,
}

/// What an Acquire has the manager send.
#[derive(Clone, Copy, Debug, PartialEq, Eq)]
pub enum Sent {
    /// A Probe with this Cap to each of these harts, in rising order.
    Probes(Cap, HartSet),
    Granting(Grant),
}

/// What becomes of an Acquire: it is handled, or it has to wait while the line has a transaction.
#[derive(Clone, Copy, Debug, PartialEq, Eq)]
pub enum Acquired {
    Handled(Sent),
    Busy,
}
