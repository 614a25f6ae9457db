//! What an instruction comes to by its access: each check in its order, and then what retires.
ghost use Rattle.std.specs.Prelude.{◌≡◌, ◌<◌, ◌*◌, ◌%◌, ◌^◌, slice_index, Some, None};
ghost use Rattle.flat_machine.specs.Accesses.{fetched_of};
ghost use Rattle.flat_machine.specs.Memories as memory_spec;
ghost use Rattle.flat_machine.specs.Plans.{meant};
ghost use Rattle.flat_model.specs.Steps as spec;
ghost use Rattle.rv32_exec.specs.Width.{byte_count};

use crate::memory::Memory;
use crate::node::Node;
use crate::plan::Plan;
use amo_unit::combine;
use hart::Retired;
use machine_types::{MemoryModel, Outcome};
use rv32_decode::{AmoOp, Instr};
use rv32_exec::{Call, Width};
use word_accesses::machine_model::Deed;
use word_accesses::{
    marks_of, orders_after_stores, read_from, store_of, waits_for_stores, word_of, write_waits,
};

/// An instruction that a hart is about to retire.
#[derive(Clone, Copy)]
pub(crate) struct Fetched {
    pub(crate) word: u32,
    pub(crate) instr: Instr,
}

pub(crate) fn retires(
    node: &Node,
    fetched: &Fetched,
    loaded: Option<u32>,
    sc_ok: Option<bool>,
    deed: Deed,
    accessed: Option<u32>,
) -> Plan
    ensures { meant result ≡ spec.retires node.now (fetched_of fetched.now) loaded sc_ok deed accessed }
{
    Plan::Retires {
        entry: Retired {
            pc: node.hart.pc,
            word: fetched.word,
            loaded,
            sc_ok,
        },
        instr: fetched.instr,
        deed,
        accessed,
    }
}

/// A byte that waits in the buffer wins over memory's; where all wait there, memory isn't accessed.
pub(crate) fn plan_load(
    memory: &Memory<'_>,
    node: &Node,
    fetched: &Fetched,
    address: u32,
    width: Width,
) -> Plan
    requires aligned { address % byte_count width ≡ 0 }
    ensures { meant result ≡ spec.plan_load (memory_spec.bytes_of memory.now) node.now (fetched_of fetched.now) address (byte_count width) }
{
    let word = word_of(address);
    let (marks, waiting) = node.buffer.forward(word);
    if marks.covers(marks_of(address, width)) {
        let loaded = read_from(waiting, address, width);
        return retires(node, fetched, Some(loaded), None, Deed::Load, None);
    }
    let bytes = marks.lay_over(waiting, memory.word(word));
    let loaded = read_from(bytes, address, width);
    retires(node, fetched, Some(loaded), None, Deed::Load, Some(address))
}

pub(crate) fn plan_store(
    node: &Node,
    fetched: &Fetched,
    address: u32,
    width: Width,
    value: u32,
) -> Plan
    requires aligned { address % byte_count width ≡ 0 }
    requires fits { value < 2 ^ (8 * byte_count width) }
    ensures { meant result ≡ spec.plan_store node.now (fetched_of fetched.now) address (byte_count width) value }
{
    if node.buffer.fits(word_of(address)) {
        let store = store_of(address, width, value, 0);
        retires(node, fetched, None, None, Deed::Store(store), None)
    } else {
        Plan::Stays(Outcome::BufferFull)
    }
}

pub(crate) fn plan_lr(memory: &Memory<'_>, node: &Node, fetched: &Fetched, address: u32) -> Plan
    requires aligned { address % 4 ≡ 0 }
    ensures { meant result ≡ spec.plan_lr (memory_spec.bytes_of memory.now) node.now (fetched_of fetched.now) address }
{
    if waits_for_stores(&node.buffer, &fetched.instr, address) {
        return Plan::Stays(Outcome::MustDrain);
    }
    let old = read_from(memory.word(address), address, Width::Word);
    let deed = Deed::Lr(address);
    retires(node, fetched, Some(old), None, deed, Some(address))
}

/// The store conditional fails.
pub(crate) fn fails(node: &Node, fetched: &Fetched) -> Plan
    ensures { meant result ≡ spec.fails node.now (fetched_of fetched.now) }
{
    retires(node, fetched, None, Some(false), Deed::Fail, None)
}

/// Without its reservation a store conditional fails at once.
pub(crate) fn plan_sc(
    model: MemoryModel,
    node: &Node,
    fetched: &Fetched,
    address: u32,
    value: u32,
) -> Plan
    ensures { meant result ≡ spec.plan_sc model node.now (fetched_of fetched.now) address value }
{
    if !node.reservation.valid(address) {
        return fails(node, fetched);
    }
    if write_waits(model, &node.buffer, &fetched.instr, address) {
        return Plan::Stays(Outcome::MustDrain);
    }
    let deed = Deed::Sc {
        word: address,
        value,
    };
    retires(node, fetched, None, Some(true), deed, Some(address))
}

/// An AMO that may write: it reads what memory holds.
fn update(node: &Node, fetched: &Fetched, address: u32, op: AmoOp, operand: u32, old: u32) -> Plan
    ensures { meant result ≡ spec.update node.now (fetched_of fetched.now) address op operand old }
{
    let deed = Deed::Amo {
        word: address,
        value: combine(op, old, operand),
    };
    retires(node, fetched, Some(old), None, deed, Some(address))
}

pub(crate) fn plan_amo(
    model: MemoryModel,
    memory: &Memory<'_>,
    node: &Node,
    fetched: &Fetched,
    address: u32,
    op: AmoOp,
    operand: u32,
) -> Plan
    requires aligned { address % 4 ≡ 0 }
    ensures { meant result ≡ spec.plan_amo model (memory_spec.bytes_of memory.now) node.now (fetched_of fetched.now) address op operand }
{
    if write_waits(model, &node.buffer, &fetched.instr, address) {
        return Plan::Stays(Outcome::MustDrain);
    }
    let old = read_from(memory.word(address), address, Width::Word);
    update(node, fetched, address, op, operand, old)
}

/// One that orders stores before loads waits until no store waits; one that orders stores before stores
/// closes the open group.
pub(crate) fn plan_fence(node: &Node, fetched: &Fetched) -> Plan
    ensures { meant result ≡ spec.plan_fence node.now (fetched_of fetched.now) }
{
    let (before_loads, before_stores) = orders_after_stores(&fetched.instr);
    if before_loads && !node.buffer.is_empty() {
        return Plan::Stays(Outcome::MustDrain);
    }
    let deed = if before_stores {
        Deed::Seal
    } else {
        Deed::Private
    };
    retires(node, fetched, None, None, deed, None)
}

/// 0 ends the hart, 1 puts a number out.
pub(crate) fn plan_call(node: &Node, fetched: &Fetched) -> Plan
    ensures { meant result ≡ spec.plan_call node.now (fetched_of fetched.now) (slice_index node.now.hart.regs 17) (slice_index node.now.hart.regs 10) }
{
    let Call { number, argument } = Call::in_registers(&node.hart.regs);
    let deed = if number == Call::EXIT {
        Deed::Private
    } else {
        Deed::Output(argument)
    };
    retires(node, fetched, None, None, deed, None)
}
