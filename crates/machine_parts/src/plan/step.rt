//! What a hart's next instruction comes to.
ghost use Rattle.std.specs.Prelude.{◌≡◌};
ghost use Rattle.elf_loader.specs.Image.{word_at};
ghost use Rattle.elf_loader.specs.Size.{IsMemorySize};
ghost use Rattle.hart.specs.Run.{next_stop};
ghost use Rattle.machine_model.specs.Steps as spec;
ghost use Rattle.machine_parts.specs.Accesses.{fetched_of};
ghost use Rattle.rv32_decode.specs.Rows.{decoded};
ghost use Rattle.hart.specs.Meaning.{access_of, stop_of};

use super::access::{
    Fetched, plan_amo, plan_call, plan_fence, plan_load, plan_lr, plan_sc, plan_store, retires,
};
use crate::node::Node;
use elf_loader::Image;
use hart::can_fetch;
use hart::rv32_exec::{Action, plan, stop};
use machine_model::{Act, Deed, Plan};
use machine_types::{Config, Outcome};
use rv32_decode::decode;

/// What an instruction of a running hart comes to, where memory has `size` bytes: its stop, or its access.
fn plan_instr(config: &Config, size: u32, node: &Node, fetched: &Fetched) -> Plan
    requires memory { IsMemorySize size }
    requires line { node.now.cache.shape.size ≡ config.now.line }
    ensures { result ≡ spec.plan_unless (stop_of fetched.now.instr node.now.hart.pc node.now.hart.regs size) (spec.plan_access config.now.model node.now (fetched_of fetched.now) (access_of fetched.now.instr node.now.hart.regs)) }
{
    match plan(&fetched.instr, node.hart.pc, &node.hart.regs, size) {
        Action::Private => retires(node, fetched, None, None, Deed::Private),
        Action::Load { addr, size } => plan_load(config, node, fetched, addr, size),
        Action::Store { addr, size, value } => plan_store(node, fetched, addr, size, value),
        Action::Lr { addr } => plan_lr(config, node, fetched, addr),
        Action::Sc { addr, value } => plan_sc(config.model, node, fetched, addr, value),
        Action::Amo { addr, op, operand } => plan_amo(config, node, fetched, addr, op, operand),
        Action::Fence => plan_fence(node, fetched),
        Action::Call => plan_call(node, fetched),
        Action::Stop(code) => Plan::Changes(Act::Stop(code)),
    }
}

/// What the next instruction of a running hart comes to.
fn plan_next(config: &Config, image: &Image, node: &Node, place: u32) -> Plan
    requires line { node.now.cache.shape.size ≡ config.now.line }
    ensures { result ≡ spec.plan_unless (next_stop image.now node.now.hart) (spec.plan_instr config.now.model node.now (word_at image.now node.now.hart.pc) place (decoded (word_at image.now node.now.hart.pc))) }
{
    if !can_fetch(image, node.hart.pc) {
        return Plan::Changes(Act::Stop(stop::FETCH_OUTSIDE));
    }
    let word = image.word(node.hart.pc);
    let Some(instr) = decode(word) else {
        return Plan::Changes(Act::Stop(stop::ILLEGAL));
    };
    let fetched = Fetched { word, instr, place };
    plan_instr(config, image.size(), node, &fetched)
}

/// What the hart's next instruction comes to, which is to stand at this place of its list; `Halted` where the hart
/// doesn't run.
pub(crate) fn plan_step(config: &Config, image: &Image, node: &Node, place: u32) -> Plan
    requires line { node.now.cache.shape.size ≡ config.now.line }
    ensures { result ≡ spec.plan_step config.now.model image.now node.now place }
{
    if node.hart.status.is_running() {
        plan_next(config, image, node, place)
    } else {
        Plan::Stays(Outcome::Halted)
    }
}
