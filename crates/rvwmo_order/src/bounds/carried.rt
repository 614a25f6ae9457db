//! What came from operations, carried forward along a hart's list: for each of x0 to x31 the greatest weight
//! of the operations that what it holds came from.
ghost use Rattle.std.specs.Prelude.{◌≡◌};
ghost use Rattle.std.specs.Option.{option_to_list};
ghost use Rattle.hart.specs.Uses.{uses_of};
ghost use Rattle.memory_model.specs.Dependencies as dependencies;
ghost use Rattle.rvwmo_order.specs.Carried as spec;
ghost use Rattle.rvwmo_order.specs.Carried.{greatest};

use hart::rv32_exec::{
    address_register, destination, is_steering, other_registers, stored_register,
};
use rv32_decode::{Instr, Register};

#[derive(Clone, Copy)]
pub(crate) struct Carried {
    registers: [usize; 32],
    /// The greatest weight that a branch or a JALR depended on.
    steered: usize,
    /// The greatest weight that the address of an access depended on.
    addressed: usize,
}

impl Carried {
    pub(crate) fn new() -> Carried
        ensures { result ≡ spec.nothing_carried }
    {
        Carried {
            registers: [0; 32],
            steered: 0,
            addressed: 0,
        }
    }

    /// The greatest weight that a branch or a JALR depended on.
    pub(crate) fn steered(&self) -> usize
        ensures { result ≡ self.now.steered }
    {
        self.steered
    }

    /// The greatest weight that the address of an access depended on.
    pub(crate) fn addressed(&self) -> usize
        ensures { result ≡ self.now.addressed }
    {
        self.addressed
    }

    /// Goes past an instruction whose operation, where it has one, has this weight.
    pub(crate) fn pass(&mut self, instr: Option<Instr>, own: usize)
        ensures { self.new ≡ spec.carried_after own instr self.old }
    {
        let Some(instr) = instr else {
            return;
        };
        let sources = self.in_sources(&instr);
        self.addressed = self.addressed.max(self.in_address(&instr));
        if is_steering(&instr) {
            self.steered = self.steered.max(sources);
        }
        if let Some(register) = destination(&instr) {
            self.registers[register.number() as usize] = sources.max(own);
        }
    }

    /// The greatest weight that an access's address depends on.
    pub(crate) fn in_address(&self, instr: &Instr) -> usize
        ensures { result ≡ greatest self.now.registers (uses_of instr.now).address }
    {
        self.in_register(address_register(instr))
    }

    /// The greatest weight that the number depends on which is stored.
    pub(crate) fn in_stored(&self, instr: &Instr) -> usize
        ensures { result ≡ greatest self.now.registers (uses_of instr.now).stored }
    {
        self.in_register(stored_register(instr))
    }

    // The greatest weight in a register that is read for anything else.
    #[tactic(auto, using(crate::proofs::Covered::greatest_append))]
    fn in_other(&self, instr: &Instr) -> usize
        ensures { result ≡ greatest self.now.registers (uses_of instr.now).other }
    {
        let (first, second) = other_registers(instr);
        self.in_register(first).max(self.in_register(second))
    }

    #[tactic(auto, using(crate::proofs::Covered::greatest_append))]
    fn in_sources(&self, instr: &Instr) -> usize
        ensures { result ≡ greatest self.now.registers (dependencies.sources (uses_of instr.now)) }
    {
        self.in_address(instr)
            .max(self.in_stored(instr))
            .max(self.in_other(instr))
    }

    fn in_register(&self, register: Option<Register>) -> usize
        ensures { result ≡ greatest self.now.registers (option_to_list register) }
    {
        match register {
            Some(register) => self.registers[register.number() as usize],
            None => 0,
        }
    }
}
