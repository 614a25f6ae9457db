//! Parts of a machine that signals are told of.
ghost use Rattle.std.specs.Prelude.{◌≡◌};
ghost use Rattle.run_waves.specs.Groups as groups;

use crate::signals::{OF_COPY, OF_HART, OF_QUEUE, OF_RECORD, OF_TRANSACTION, Signal};
use tl_types::Channel;

/// A part of a machine. Lines are given by their addresses.
#[derive(Clone, Copy, Debug, PartialEq, Eq)]
pub(crate) enum Group {
    /// A hart with its store buffer and its reservation.
    Hart { hart: u8 },
    /// The messages of a channel between a hart's cache and the manager.
    Queue { hart: u8, channel: Channel },
    /// What a hart's cache has of a line.
    Copy { hart: u8, line: u32 },
    /// What the manager notes of a hart for a line.
    Record { hart: u8, line: u32 },
    /// Where a line's transaction stands at the manager.
    Transaction { line: u32 },
}

impl Group {
    /// What is told of it.
    pub(crate) fn signals(self) -> &'static [Signal]
        ensures { result.now ≡ groups.signals self }
    {
        match self {
            Group::Hart { .. } => &OF_HART,
            Group::Queue { .. } => &OF_QUEUE,
            Group::Copy { .. } => &OF_COPY,
            Group::Record { .. } => &OF_RECORD,
            Group::Transaction { .. } => &OF_TRANSACTION,
        }
    }
}
