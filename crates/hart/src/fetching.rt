//! What is fetched at an address, and what a hart does next.
ghost use Rattle.std.specs.Prelude.{◌≡◌, IsTrue};
ghost use Rattle.rv32_exec.specs.Image.{HasWord};
ghost use Rattle.hart.specs.Next.{instr_at, next_action};
ghost use Rattle.hart.specs.Run.{can_fetch};

use crate::state::Hart;
use rv32_decode::{Instr, decode};
use rv32_exec::elf_loader::Image;
use rv32_exec::{Action, plan};

/// Whether a word of memory lies at this address, so that an instruction can be fetched from there.
pub fn can_fetch(image: &Image, pc: u32) -> bool
    ensures exact { result ≡ can_fetch image.now pc }
    ensures word { IsTrue result → HasWord image.now pc }
{
    image.has_word(pc)
}

/// The instruction at an address; none where no word of memory lies there, or one that is no instruction.
pub fn instr_at(image: &Image, pc: u32) -> Option<Instr>
    ensures { result ≡ instr_at image.now pc }
{
    if can_fetch(image, pc) {
        decode(image.word(pc))
    } else {
        None
    }
}

impl Hart {
    /// What the hart's next instruction does, whether the hart runs or not; none where no instruction is fetched.
    pub fn next_action(&self, image: &Image) -> Option<Action>
        ensures { result ≡ next_action image.now self.now }
    {
        match instr_at(image, self.pc) {
            Some(instr) => Some(plan(&instr, self.pc, &self.regs, image.size())),
            None => None,
        }
    }
}
