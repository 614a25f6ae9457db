//! A hart's retired instructions with their memory operations (chapter 14.1, "Memory Model
//! Primitives"), kept as words: what an instruction is, is decoded where it is asked for.
ghost use Rattle.std.specs.Prelude.{◌≡◌, ◌≤◌, ◌<◌, ◌+◌, ◌-◌, ◌++◌, ◌∷◌, ◌^◌, [], None, Some, IfOk, OnOk, drop, length, option_and_then, slice_get, take};
ghost use Rattle.std.specs.Option.{IfSome, option_copied};
ghost use Rattle.memory_model.specs.declared.operation.Operation.{Operation as OperationValue};
ghost use Rattle.memory_model.specs.Dependencies.{between};
ghost use Rattle.memory_model.specs.Items.{Item as ItemValue};
ghost use Rattle.rv32_decode.specs.Rows.{decoded};
ghost use Rattle.trace_operations.specs.Listed as spec;
ghost use Rattle.trace_operations.specs.Placed.{IsPlaced};

use crate::parts::{behind, first_of};
use memory_model::Operation;
use rv32_decode::{Instr, decode};
use std::alloc::{AllocError, Global};
use std::marker::Model;

/// An instruction of a hart's list: its place, what it is, and its memory operation, where it has one.
#[derive(Drop)]
pub struct Item {
    place: u32,
    instr: Option<Instr>,
    operation: Option<Operation>,
}

impl Model for Item {
    ghost use Rattle.memory_model.specs.Items as spec;

    ghost Value = { spec.Item };

    ghost view = { λ m. record { place = m.place; instr = m.instr; operation = m.operation } };
}

impl Item {
    /// What the instruction is; none where its word is none.
    pub fn instr(&self) -> Option<Instr>
        ensures { result ≡ self.now.instr }
    {
        self.instr
    }

    /// Its memory operation, where it has one.
    pub fn operation(&self) -> Option<Operation>
        ensures { result ≡ self.now.operation }
    {
        self.operation
    }
}

/// What is kept of an instruction: its word, and how many operations stand before it in its hart's list.
#[derive(Clone, Copy)]
struct Slot {
    word: u32,
    before: u32,
}

/// A hart's instructions in order, each at its place.
#[derive(Drop)]
pub struct Items {
    slots: Vec<Slot>,
    /// The memory operations, in program order.
    operations: Vec<Operation>,
}

impl Model for Items {
    ghost use Rattle.std.specs.Prelude.{◌<◌, ◌≤◌, ◌^◌, List, length};
    ghost use Rattle.memory_model.specs.Items as items;
    ghost use Rattle.trace_operations.specs.Listed as spec;

    ghost Value = { List items.Item };

    ghost view = { λ i. spec.listed 0 i.operations.items i.slots.items };

    ghost invariant = { λ i. (length i.slots.items < 2 ^ 32) × (length i.operations.items ≤ length i.slots.items) };
}

impl Items {
    pub(crate) fn none(alloc: Global) -> Items
        ensures { result ≡ [] }
    {
        Items {
            slots: Vec::new(alloc),
            operations: Vec::new(alloc),
        }
    }

    /// None yet, with room for so many.
    pub(crate) fn with_capacity(alloc: Global, count: usize) -> Result<Items, AllocError>
        ensures { IfOk result (λ items. items ≡ []) }
    {
        Ok(Items {
            slots: Vec::with_capacity(alloc, count)?,
            operations: Vec::new(alloc),
        })
    }

    /// Puts an instruction behind the others: its word, and its operation, where it has one.
    pub(crate) fn push(&mut self, word: u32, operation: Option<Operation>) -> Result<(), AllocError>
        requires few { length self.old + 1 < 2 ^ 32 }
        requires placed { (a : OperationValue) → operation ≡ Some a → a.place ≡ length self.old }
        ensures { OnOk result (self.new ≡ self.old ++ record { place = length self.old; instr = decoded word; operation = operation } ∷ []) }
    {
        let before = self.operations.len() as u32;
        self.slots.push(Slot { word, before })?;
        if let Some(operation) = operation {
            self.operations.push(operation)?;
        }
        Ok(())
    }

    /// How many there are.
    pub fn count(&self) -> u32
        ensures count { result ≡ length self.now }
        ensures placed { IsPlaced 0 self.now }
    {
        self.slots.len() as u32
    }

    /// The instruction at a place where there is one.
    pub fn item(&self, place: u32) -> Item
        requires { place < length self.now }
        ensures { slice_get self.now place ≡ Some result }
    {
        item_of(place, self.slots[place as usize], &self.operations)
    }

    /// The instruction at a place.
    pub fn get(&self, place: u32) -> Option<Item>
        ensures { result ≡ slice_get self.now place }
    {
        if place < self.count() {
            Some(self.item(place))
        } else {
            None
        }
    }

    /// The operation of the instruction at a place.
    pub(crate) fn operation(&self, place: u32) -> Option<Operation>
        ensures { result ≡ option_and_then (λ (m : ItemValue). m.operation) (slice_get self.now place) }
    {
        match self.slots.get(place as usize) {
            Some(slot) => operation_of(place, *slot, &self.operations),
            None => None,
        }
    }

    /// The instructions from a place on, up to another.
    pub fn stretch(&self, from: usize, to: usize) -> Stretch<'_>
        ensures cut { result ≡ take (to - from) (drop from self.now) }
        ensures placed { IsPlaced 0 self.now }
    {
        let first = from.min(self.count() as usize) as u32;
        let length = to.saturating_sub(from);
        Stretch {
            first,
            slots: first_of(behind(&self.slots, from), length),
            operations: &self.operations,
        }
    }

    /// The instructions that stand between two operations of the hart in program order.
    pub fn between(&self, a: &Operation, b: &Operation) -> Stretch<'_>
        ensures { result ≡ between self.now a.now b.now }
    {
        self.stretch(a.place as usize + 1, b.place as usize)
    }
}

/// A part of a hart's instructions.
#[derive(Drop)]
pub struct Stretch<'a> {
    /// The place of the first.
    first: u32,
    slots: &'a [Slot],
    operations: &'a [Operation],
}

impl<'a> Model for Stretch<'a> {
    ghost use Rattle.std.specs.Prelude.{◌+◌, ◌<◌, ◌^◌, List, length};
    ghost use Rattle.memory_model.specs.Items as items;
    ghost use Rattle.trace_operations.specs.Listed as spec;

    ghost Value = { List items.Item };

    ghost view = { λ s. spec.listed s.first s.operations.now s.slots.now };

    ghost invariant = { λ s. s.first + length s.slots.now < 2 ^ 32 };
}

impl<'a> Stretch<'a> {
    /// How many there are.
    pub fn len(&self) -> usize
        ensures { result ≡ length self.now }
    {
        self.slots.len()
    }

    /// The instruction behind so many of them.
    pub fn item(&self, index: usize) -> Item
        requires { index < length self.now }
        ensures { slice_get self.now index ≡ Some result }
    {
        item_of(
            self.first + index as u32,
            self.slots[index],
            self.operations,
        )
    }

    /// The first one, and those behind it.
    pub fn split_first(&self) -> Option<(Item, Stretch<'a>)>
        ensures some { IfSome result (λ parts. self.now ≡ parts.0 ∷ parts.1) }
        ensures none { result ≡ None → self.now ≡ [] }
    {
        let [slot, rest @ ..] = self.slots else {
            return None;
        };
        let item = item_of(self.first, *slot, self.operations);
        let behind = Stretch {
            first: self.first + 1,
            slots: rest,
            operations: self.operations,
        };
        Some((item, behind))
    }
}

// The instruction at a place of a list that has these operations.
fn item_of(place: u32, slot: Slot, operations: &[Operation]) -> Item
    ensures { result ≡ spec.item_kept operations.now place slot }
{
    Item {
        place,
        instr: decode(slot.word),
        operation: operation_of(place, slot, operations),
    }
}

fn operation_of(place: u32, slot: Slot, operations: &[Operation]) -> Option<Operation>
    ensures { result ≡ spec.standing_at place (slice_get operations.now slot.before) }
{
    standing_at(place, operations.get(slot.before as usize))
}

// An operation, where it stands at this place.
fn standing_at(place: u32, operation: Option<&Operation>) -> Option<Operation>
    ensures { result ≡ spec.standing_at place (option_copied operation.entry) }
{
    match operation {
        Some(a) => { if a.place == place { Some(*a) } else { None } }
        None => None,
    }
}
