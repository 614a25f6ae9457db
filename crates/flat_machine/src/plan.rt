//! What an event comes to.
ghost use Rattle.std.specs.Prelude.{◌≡◌};
ghost use Rattle.flat_exploration.proofs.Effects.{address_of};
ghost use Rattle.flat_machine.specs.Plans.{meant};

use hart::Retired;
use machine_types::Outcome;
use rv32_decode::Instr;
use word_accesses::machine_model::Deed;

/// What an event of the flat machine comes to, before anything changes.
#[derive(Clone, Copy)]
pub enum Plan {
    /// There is no such event.
    Refused,
    /// Nothing changes; the outcome says why.
    Stays(Outcome),
    /// The hart halts with this code; nothing retires.
    Stops(u8),
    /// The instruction retires with this entry, and does this beside its hart's pc, registers and status. It accesses
    /// memory at this address, or nowhere.
    Retires {
        entry: Retired,
        instr: Instr,
        deed: Deed,
        accessed: Option<u32>,
    },
    /// The word's entry leaves the oldest group of the store buffer.
    Drains(u32),
}

impl Plan {
    /// The address that is accessed.
    pub(crate) fn accessed(&self) -> Option<u32>
        ensures { result ≡ address_of (meant self.now) }
    {
        match *self {
            Plan::Refused | Plan::Stays(_) | Plan::Stops(_) => None,
            Plan::Retires { accessed, .. } => accessed,
            Plan::Drains(word) => Some(word),
        }
    }
}
