//! The bits aq and rl (RISC-V Unprivileged ISA 20191213, chapter 8.1).
ghost use Rattle.std.specs.Prelude.{◌≡◌};
ghost use Rattle.memory_model.specs.Items.{annotations_of};

use hart::rv32_decode::{Annotations, Instr};

const NONE: Annotations = Annotations {
    acquire: false,
    release: false,
};

/// The instruction's bits aq and rl; both are false where it has none.
pub fn annotations(instr: &Instr) -> Annotations
    ensures { result ≡ annotations_of instr.now }
{
    match *instr {
        Instr::Lr { bits, .. } | Instr::Sc { bits, .. } | Instr::Amo { bits, .. } => bits,
        Instr::Upper { .. }
        | Instr::Jal { .. }
        | Instr::Jalr { .. }
        | Instr::Branch { .. }
        | Instr::Load { .. }
        | Instr::Store { .. }
        | Instr::Immediate { .. }
        | Instr::Shift { .. }
        | Instr::Register { .. }
        | Instr::Fence(_)
        | Instr::FenceTso
        | Instr::System(_) => NONE,
    }
}
