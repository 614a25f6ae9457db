//! What the manager notes of one line.

use tl_types::{Grow, Perm};

/// What is noted of a hart.
#[derive(Clone, Copy)]
pub(crate) struct Noted {
    /// The record: what its cache has at most.
    pub perm: Perm,
    /// Whether its ProbeAck is awaited.
    pub is_awaited: bool,
}

/// Where a line's transaction stands.
#[derive(Clone, Copy, PartialEq, Eq)]
pub enum Transaction {
    Idle,
    /// ProbeAcks are awaited before this requester's Grant.
    Probing { requester: u8, grow: Grow },
    /// A Grant was sent to this hart, and its GrantAck is awaited.
    Granted(u8),
}

/// What is noted of each hart, hart 0 first, and where the line's transaction stands.
#[derive(Clone, Copy)]
pub(crate) struct Notes {
    pub harts: [Noted; 8],
    pub transaction: Transaction,
}

/// Whether a permission of another hart stands in the way of an Acquire: for reading a Trunk, for writing
/// each copy.
pub(crate) fn conflicts(grow: Grow, perm: Perm) -> bool {
    match grow {
        Grow::NtoB => perm == Perm::Trunk,
        Grow::NtoT | Grow::BtoT => perm != Perm::Nothing,
    }
}

impl Notes {
    /// Nobody has the line, and no transaction is under way.
    pub fn quiet() -> Notes {
        let unknown = Noted {
            perm: Perm::Nothing,
            is_awaited: false,
        };
        Notes {
            harts: [unknown; 8],
            transaction: Transaction::Idle,
        }
    }

    pub fn noted_of(&self, hart: u8) -> Noted {
        match self.harts.get(usize::from(hart)) {
            Some(noted) => *noted,
            None => Noted {
                perm: Perm::Nothing,
                is_awaited: false,
            },
        }
    }

    /// What is noted of a hart becomes this.
    pub fn note(&mut self, hart: u8, noted: Noted) {
        if let Some(place) = self.harts.get_mut(usize::from(hart)) {
            *place = noted;
        }
    }

    pub fn is_any_awaited(&self) -> bool {
        let mut is_any = false;
        for noted in self.harts.iter() {
            is_any = is_any || noted.is_awaited;
        }
        is_any
    }
}
