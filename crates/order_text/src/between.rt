//! What stands between two operations of a hart in program order, gathered by one walk: a fence, an LR or an SC, and which
//! registers hold what came from the first (chapter 14.1, "Preserved Program Order" and "Syntactic Dependencies").
ghost use Rattle.std.specs.Prelude.{◌≡◌, Some, slice_get};
ghost use Rattle.std.specs.Option.{option_to_list};
ghost use Rattle.memory_model.specs.Dependencies as dependencies;
ghost use Rattle.memory_model.specs.Dependencies.{held_first, holds, uses_at, uses_in};
ghost use Rattle.memory_model.specs.Rules as rules;
ghost use Rattle.order_text.specs.Between.{IsBetween, IsPassed};

use memory_model::{Kind, Operation};
use rv32_decode::{FenceSet, Instr, Register};
use rv32_exec::{address_register, destination, is_steering, other_registers, stored_register};
use rvwmo_order::trace_operations::Items;
use rvwmo_order::trace_operations::accesses::{reads, writes};

/// What stands between two operations.
#[derive(Clone, Copy)]
pub(crate) struct Between {
    /// Whether a FENCE orders the two.
    pub(crate) is_fenced: bool,
    /// Whether there is an LR or an SC.
    pub(crate) is_reserved: bool,
    /// Whether a branch or a JALR depends on the first.
    pub(crate) is_steered: bool,
    /// Whether an access's address depends on the first.
    pub(crate) is_addressed: bool,
    /// Which of x0 to x31 hold what came from the first.
    pub(crate) held: [bool; 32],
}

impl Between {
    /// What stands between `a` and `b`.
    pub(crate) fn of(items: &Items, a: &Operation, b: &Operation) -> Between
        ensures { IsBetween items.now a.now b.now result }
    {
        let mut between = Between {
            is_fenced: false,
            is_reserved: false,
            is_steered: false,
            is_addressed: false,
            held: first_held(items, a),
        };
        let mut rest = items.between(a, b);
        while let Some((item, tail)) = rest.split_first() {
            between.pass(&item.instr(), a.kind, b.kind);
            rest = tail;
        }
        between
    }

    // Goes past an instruction, between operations of these kinds.
    fn pass(&mut self, instr: &Option<Instr>, a: Kind, b: Kind)
        ensures { IsPassed instr.now a b self.old self.new }
    {
        let is_held = holds_sources(&self.held, instr);
        self.is_fenced = self.is_fenced || is_fencing(instr, a, b);
        self.is_reserved = self.is_reserved || is_lr_or_sc(instr);
        self.is_steered = self.is_steered || (is_steer(instr) && is_held);
        self.is_addressed = self.is_addressed || holds_address(&self.held, instr);
        mark_written(&mut self.held, instr, is_held);
    }

    /// Whether the address of an access holds what came from the first.
    pub(crate) fn is_address(&self, instr: &Option<Instr>) -> bool
        ensures { result ≡ holds self.now.held (uses_in instr.now).address }
    {
        holds_address(&self.held, instr)
    }

    /// Whether the number that is stored does.
    pub(crate) fn is_stored(&self, instr: &Option<Instr>) -> bool
        ensures { result ≡ holds self.now.held (uses_in instr.now).stored }
    {
        holds_stored(&self.held, instr)
    }
}

// Just behind an operation its destination alone holds what came from it.
fn first_held(items: &Items, a: &Operation) -> [bool; 32]
    ensures { result ≡ held_first (uses_at items.now a.now) }
{
    let mut held = [false; 32];
    mark_written(&mut held, &instr_at(items, a), true);
    held
}

/// The instruction that gave an operation.
pub(crate) fn instr_at(items: &Items, a: &Operation) -> Option<Instr>
    ensures { result ≡ dependencies.instr_in (slice_get items.now a.now.place) }
{
    match items.get(a.place) {
        Some(item) => item.instr(),
        None => None,
    }
}

// Marks the register that an instruction writes.
fn mark_written(held: &mut [bool; 32], instr: &Option<Instr>, flag: bool)
    ensures { held.new ≡ dependencies.with_flags held.old flag (uses_in instr.now).written }
{
    if let Some(instr) = instr {
        mark(held, destination(instr), flag);
    }
}

// Marks a register, where there is one.
fn mark(held: &mut [bool; 32], register: Option<Register>, flag: bool)
    ensures { held.new ≡ dependencies.with_flags held.old flag (option_to_list register) }
{
    if let Some(register) = register {
        held[register.number() as usize] = flag;
    }
}

// Whether a register is marked, where there is one.
fn holds_one(held: &[bool; 32], register: Option<Register>) -> bool
    ensures { result ≡ holds held.now (option_to_list register) }
{
    match register {
        Some(register) => held[register.number() as usize],
        None => false,
    }
}

// Whether the register of an access's address is.
fn holds_address(held: &[bool; 32], instr: &Option<Instr>) -> bool
    ensures { result ≡ holds held.now (uses_in instr.now).address }
{
    match instr {
        Some(instr) => holds_one(held, address_register(instr)),
        None => false,
    }
}

// Whether the register is whose number is stored.
fn holds_stored(held: &[bool; 32], instr: &Option<Instr>) -> bool
    ensures { result ≡ holds held.now (uses_in instr.now).stored }
{
    match instr {
        Some(instr) => holds_one(held, stored_register(instr)),
        None => false,
    }
}

// Whether a register is that is read for anything else.
#[tactic(auto, using(crate::proofs::Held::holds_append))]
fn holds_other(held: &[bool; 32], instr: &Option<Instr>) -> bool
    ensures { result ≡ holds held.now (uses_in instr.now).other }
{
    let Some(instr) = instr else {
        return false;
    };
    let (first, second) = other_registers(instr);
    holds_one(held, first) || holds_one(held, second)
}

// Whether a register that an instruction reads is.
#[tactic(auto, using(crate::proofs::Held::holds_sources))]
fn holds_sources(held: &[bool; 32], instr: &Option<Instr>) -> bool
    ensures { result ≡ holds held.now (dependencies.sources (uses_in instr.now)) }
{
    holds_address(held, instr) || holds_stored(held, instr) || holds_other(held, instr)
}

// Whether it is a branch or a JALR.
fn is_steer(instr: &Option<Instr>) -> bool
    ensures { result ≡ dependencies.steers instr.now }
{
    match instr {
        Some(instr) => is_steering(instr),
        None => false,
    }
}

// An AMO is in a set as a load or as a store.
fn is_in_set(set: FenceSet, kind: Kind) -> bool
    ensures { result ≡ rules.is_in_set set.0 kind }
{
    (reads(kind) && set.has_reads()) || (writes(kind) && set.has_writes())
}

// Whether an instruction is a FENCE that orders an operation of the first kind before one of the second.
fn is_fencing(instr: &Option<Instr>, a: Kind, b: Kind) -> bool
    ensures { result ≡ rules.fences instr.now a b }
{
    match instr {
        Some(instr) => is_fence_of(instr, a, b),
        None => false,
    }
}

fn is_fence_of(instr: &Instr, a: Kind, b: Kind) -> bool
    ensures { result ≡ rules.fences (Some instr.now) a b }
{
    match instr {
        Instr::Fence(sets) => is_in_set(sets.before(), a) && is_in_set(sets.after(), b),
        Instr::FenceTso => reads(a) || (writes(a) && writes(b)),
        Instr::Branch { .. }
        | Instr::Jalr { .. }
        | Instr::Load { .. }
        | Instr::Store { .. }
        | Instr::Lr { .. }
        | Instr::Sc { .. }
        | Instr::Amo { .. }
        | Instr::Upper { .. }
        | Instr::Jal { .. }
        | Instr::Immediate { .. }
        | Instr::Shift { .. }
        | Instr::Register { .. }
        | Instr::System(_) => false,
    }
}

// Whether it is an LR or an SC.
fn is_lr_or_sc(instr: &Option<Instr>) -> bool
    ensures { result ≡ rules.is_lr_or_sc instr.now }
{
    matches!(instr, Some(Instr::Lr { .. } | Instr::Sc { .. }))
}
