//! What a hart's next instruction comes to.
ghost use Rattle.std.specs.Prelude.{◌≡◌, is_some, if◌then◌else◌};
ghost use Rattle.elf_loader.specs.Image.{word_at};
ghost use Rattle.elf_loader.specs.Size.{IsMemorySize};
ghost use Rattle.flat_machine.specs.Accesses.{fetched_of};
ghost use Rattle.flat_machine.specs.Memories.{bytes_of};
ghost use Rattle.flat_machine.specs.Plans.{meant};
ghost use Rattle.flat_model.specs.Steps as spec;
ghost use Rattle.hart.specs.Run.{next_stop};
ghost use Rattle.rv32_decode.specs.Rows.{decoded};
ghost use Rattle.rv32_exec.specs.Meaning.{access_of, stop_of};

use crate::accesses::{
    Fetched, plan_amo, plan_call, plan_fence, plan_load, plan_lr, plan_sc, plan_store, retires,
};
use crate::memory::Memory;
use crate::node::Node;
use crate::plan::Plan;
use elf_loader::Image;
use hart::can_fetch;
use machine_types::{MemoryModel, Outcome};
use rv32_decode::decode;
use rv32_exec::{Action, plan, stop};
use word_accesses::machine_model::Deed;

/// What an instruction of a running hart comes to, where memory has `size` bytes: its stop, or its access.
fn plan_instr(
    model: MemoryModel,
    size: u32,
    memory: &Memory<'_>,
    node: &Node,
    fetched: &Fetched,
) -> Plan
    requires memory { IsMemorySize size }
    ensures { meant result ≡ spec.plan_unless (stop_of fetched.now.instr node.now.hart.pc node.now.hart.regs size) (spec.plan_access model (bytes_of memory.now) node.now (fetched_of fetched.now) (access_of fetched.now.instr node.now.hart.regs)) }
{
    match plan(&fetched.instr, node.hart.pc, &node.hart.regs, size) {
        Action::Private => retires(node, fetched, None, None, Deed::Private, None),
        Action::Load { addr, size } => plan_load(memory, node, fetched, addr, size),
        Action::Store { addr, size, value } => plan_store(node, fetched, addr, size, value),
        Action::Lr { addr } => plan_lr(memory, node, fetched, addr),
        Action::Sc { addr, value } => plan_sc(model, node, fetched, addr, value),
        Action::Amo { addr, op, operand } => plan_amo(
            model, memory, node, fetched, addr, op, operand,
        ),
        Action::Fence => plan_fence(node, fetched),
        Action::Call => plan_call(node, fetched),
        Action::Stop(code) => Plan::Stops(code),
    }
}

/// What the next instruction of a running hart comes to.
fn plan_next(model: MemoryModel, memory: &Memory<'_>, node: &Node) -> Plan
    ensures { meant result ≡ spec.plan_unless (next_stop memory.now.image.now node.now.hart) (spec.plan_instr model (bytes_of memory.now) node.now (word_at memory.now.image.now node.now.hart.pc) 0 (decoded (word_at memory.now.image.now node.now.hart.pc))) }
{
    let image = memory.image;
    if !can_fetch(image, node.hart.pc) {
        return Plan::Stops(stop::FETCH_OUTSIDE);
    }
    let word = image.word(node.hart.pc);
    let Some(instr) = decode(word) else {
        return Plan::Stops(stop::ILLEGAL);
    };
    let fetched = Fetched { word, instr };
    plan_instr(model, image.size(), memory, node, &fetched)
}

/// What the hart's next instruction comes to: it has to run.
pub(crate) fn plan_step(model: MemoryModel, memory: &Memory<'_>, node: &Node) -> Plan
    ensures { meant result ≡ spec.plan_step model memory.now.image.now (bytes_of memory.now) node.now 0 }
{
    if node.hart.status.is_running() {
        plan_next(model, memory, node)
    } else {
        Plan::Stays(Outcome::Halted)
    }
}
