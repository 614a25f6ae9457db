//! What an event comes to before anything changes.

use crate::buffer::Store;
use hart::{Retired, Status};
use machine_types::Outcome;
use rv32_decode::Instr;
use tl_types::{Grow, Msg};

/// What an event comes to.
#[derive(Clone, Copy)]
pub(crate) enum Plan {
    /// Nothing changes; the outcome says why.
    Stays(Outcome),
    Changes(Act),
}

/// A change of the machine, by the hart that the event names.
#[derive(Clone, Copy)]
pub(crate) enum Act {
    Stop(u8),
    Retire {
        entry: Retired,
        instr: Instr,
        deed: Deed,
    },
    Miss {
        line: u32,
        grow: Grow,
    },
    Drain(u32),
    Evict(u32),
    Deliver(Msg),
    Local(u32),
}

/// What an instruction that retires does beside its hart's pc and registers.
#[derive(Clone, Copy)]
pub(crate) enum Deed {
    Private,
    Output(u32),
    /// All its bytes may wait in the buffer.
    Load { address: u32, is_covered: bool },
    Store(Store),
    Seal,
    Lr(u32),
    Fail,
    Sc { word: u32, value: u32 },
    Amo { word: u32, value: u32 },
}

impl Deed {
    /// Its operation is performed as it retires.
    pub fn is_performed(&self) -> bool {
        matches!(
            self,
            Deed::Load { .. } | Deed::Lr(_) | Deed::Sc { .. } | Deed::Amo { .. }
        )
    }
}

/// What comes of an act of a hart, by its status behind it.
pub(crate) fn outcome_of(act: &Act, status: Status) -> Outcome {
    match (act, status) {
        (Act::Stop(code), _) => Outcome::Stopped(*code),
        (Act::Retire { .. }, Status::Exited(code)) => Outcome::Exited(code),
        (Act::Retire { .. } | Act::Local(_), _) => Outcome::Retired,
        (Act::Miss { line, .. }, _) => Outcome::Missed(*line),
        (Act::Drain(_), _) => Outcome::Drained,
        (Act::Evict(_), _) => Outcome::Evicted,
        (Act::Deliver(_), _) => Outcome::Delivered,
    }
}
