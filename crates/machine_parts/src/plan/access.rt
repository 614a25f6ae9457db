//! What an instruction comes to by its access: each check in its order, and then the act.
ghost use Rattle.std.specs.Prelude.{◌≡◌, ◌<◌, ◌*◌, ◌%◌, ◌^◌, None, slice_index, Some};
ghost use Rattle.machine_model.specs.Steps as spec;
ghost use Rattle.machine_model.specs.Words.{read_from};
ghost use Rattle.machine_model.specs.declared.act.Deed.TheVariants as deed;
ghost use Rattle.machine_parts.specs.Accesses.{fetched_of};
ghost use Rattle.hart.specs.Width.{byte_count};

use super::miss::{reading, writing};
use crate::lines::word_in;
use crate::node::Node;
use amo_unit::combine;
use hart::Retired;
use hart::rv32_exec::{Call, Width};
use machine_model::{Act, Deed, Plan};
use machine_types::{Config, MemoryModel, Outcome};
use rv32_decode::{AmoOp, Instr};
use word_accesses::{
    marks_of, orders_after_stores, read_from, store_of, waits_for_stores, word_of, write_waits,
};

/// An instruction that a hart is about to retire.
#[derive(Clone, Copy)]
pub(crate) struct Fetched {
    pub(crate) word: u32,
    pub(crate) instr: Instr,
    /// How many instructions stand before it in the hart's list.
    pub(crate) place: u32,
}

pub(crate) fn retires(
    node: &Node,
    fetched: &Fetched,
    loaded: Option<u32>,
    sc_ok: Option<bool>,
    deed: Deed,
) -> Plan
    ensures { result ≡ spec.retires node.now (fetched_of fetched.now) loaded sc_ok deed }
{
    Plan::Changes(Act::Retire {
        entry: Retired {
            pc: node.hart.pc,
            word: fetched.word,
            loaded,
            sc_ok,
        },
        instr: fetched.instr,
        deed,
    })
}

/// A byte that waits in the buffer wins over the copy's; where all wait there, no copy is needed.
pub(crate) fn plan_load(
    config: &Config,
    node: &Node,
    fetched: &Fetched,
    address: u32,
    width: Width,
) -> Plan
    requires line { node.now.cache.shape.size ≡ config.now.line }
    requires aligned { address % byte_count width ≡ 0 }
    ensures { result ≡ spec.plan_load node.now (fetched_of fetched.now) address (byte_count width) }
{
    let word = word_of(address);
    let (marks, waiting) = node.buffer.forward(word);
    if marks.covers(marks_of(address, width)) {
        return load_of(node, fetched, waiting, address, width);
    }
    let line = match reading(&node.cache, config.line.line_of(address)) {
        Ok(line) => line,
        Err(miss) => return miss,
    };
    let bytes = marks.lay_over(waiting, word_in(&line, word));
    load_of(node, fetched, bytes, address, width)
}

/// A load from a word that has these bytes.
fn load_of(node: &Node, fetched: &Fetched, bytes: [u8; 4], address: u32, width: Width) -> Plan
    ensures { result ≡ spec.retires node.now (fetched_of fetched.now) (Some (read_from bytes address (byte_count width))) None deed.Load }
{
    let loaded = read_from(bytes, address, width);
    retires(node, fetched, Some(loaded), None, Deed::Load)
}

pub(crate) fn plan_store(
    node: &Node,
    fetched: &Fetched,
    address: u32,
    width: Width,
    value: u32,
) -> Plan
    requires aligned { address % byte_count width ≡ 0 }
    requires fits { value < 2 ^ (8 * byte_count width) }
    ensures { result ≡ spec.plan_store node.now (fetched_of fetched.now) address (byte_count width) value }
{
    if node.buffer.fits(word_of(address)) {
        let store = store_of(address, width, value, fetched.place);
        retires(node, fetched, None, None, Deed::Store(store))
    } else {
        Plan::Stays(Outcome::BufferFull)
    }
}

pub(crate) fn plan_lr(config: &Config, node: &Node, fetched: &Fetched, address: u32) -> Plan
    requires line { node.now.cache.shape.size ≡ config.now.line }
    requires aligned { address % 4 ≡ 0 }
    ensures { result ≡ spec.plan_lr node.now (fetched_of fetched.now) address }
{
    if waits_for_stores(&node.buffer, &fetched.instr, address) {
        return Plan::Stays(Outcome::MustDrain);
    }
    match writing(&node.cache, config.line.line_of(address)) {
        Ok(line) => {
            let old = read_from(word_in(&line, address), address, Width::Word);
            retires(node, fetched, Some(old), None, Deed::Lr(address))
        }
        Err(miss) => miss,
    }
}

/// Without its reservation a store conditional fails at once.
pub(crate) fn plan_sc(
    model: MemoryModel,
    node: &Node,
    fetched: &Fetched,
    address: u32,
    value: u32,
) -> Plan
    ensures { result ≡ spec.plan_sc model node.now (fetched_of fetched.now) address value }
{
    if !node.reservation.valid(address) {
        return retires(node, fetched, None, Some(false), Deed::Fail);
    }
    if write_waits(model, &node.buffer, &fetched.instr, address) {
        return Plan::Stays(Outcome::MustDrain);
    }
    let deed = Deed::Sc {
        word: address,
        value,
    };
    retires(node, fetched, None, Some(true), deed)
}

/// An AMO that may write: it reads what the line holds.
fn update(node: &Node, fetched: &Fetched, address: u32, op: AmoOp, operand: u32, old: u32) -> Plan
    ensures { result ≡ spec.update node.now (fetched_of fetched.now) address op operand old }
{
    let deed = Deed::Amo {
        word: address,
        value: combine(op, old, operand),
    };
    retires(node, fetched, Some(old), None, deed)
}

pub(crate) fn plan_amo(
    config: &Config,
    node: &Node,
    fetched: &Fetched,
    address: u32,
    op: AmoOp,
    operand: u32,
) -> Plan
    requires line { node.now.cache.shape.size ≡ config.now.line }
    requires aligned { address % 4 ≡ 0 }
    ensures { result ≡ spec.plan_amo config.now.model node.now (fetched_of fetched.now) address op operand }
{
    if write_waits(config.model, &node.buffer, &fetched.instr, address) {
        return Plan::Stays(Outcome::MustDrain);
    }
    match writing(&node.cache, config.line.line_of(address)) {
        Ok(line) => {
            let old = read_from(word_in(&line, address), address, Width::Word);
            update(node, fetched, address, op, operand, old)
        }
        Err(miss) => miss,
    }
}

/// One that orders stores before loads waits until no store waits; one that orders stores before stores
/// closes the open group.
pub(crate) fn plan_fence(node: &Node, fetched: &Fetched) -> Plan
    ensures { result ≡ spec.plan_fence node.now (fetched_of fetched.now) }
{
    let (before_loads, before_stores) = orders_after_stores(&fetched.instr);
    if before_loads && !node.buffer.is_empty() {
        return Plan::Stays(Outcome::MustDrain);
    }
    let deed = if before_stores {
        Deed::Seal
    } else {
        Deed::Private
    };
    retires(node, fetched, None, None, deed)
}

/// 0 ends the hart, 1 puts a number out.
pub(crate) fn plan_call(node: &Node, fetched: &Fetched) -> Plan
    ensures { result ≡ spec.plan_call node.now (fetched_of fetched.now) (slice_index node.now.hart.regs 17) (slice_index node.now.hart.regs 10) }
{
    let Call { number, argument } = Call::in_registers(&node.hart.regs);
    let deed = if number == Call::EXIT {
        Deed::Private
    } else {
        Deed::Output(argument)
    };
    retires(node, fetched, None, None, deed)
}
