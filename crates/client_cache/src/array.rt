//! The slots of a cache, sets by ways: a set's row after the other.
ghost use Rattle.std.specs.Prelude.{◌≡◌, ◌<◌, ◌≤◌, ◌+◌, ◌*◌, length, IfSome, IfNone, IfOk, None, slice_set, replicate};
ghost use Rattle.machine_types.specs.declared.limits.TheConstants.{MAX_SETS, MAX_WAYS};
ghost use Rattle.client_cache.specs.Row.{IsAt, free_slot};
ghost use Rattle.client_cache.specs.Shape.{set_of};
ghost use Rattle.client_cache.specs.Array.{slots_of_set, place_of, copy_in, IsSetRow, IsRoom, IsFull};

use crate::held::Held;
use crate::shape::Shape;
use crate::slot::{Place, Slot, find, find_free};
use std::alloc::{AllocError, Global};
use std::sync::ledger::Ledger;
use tl_types::Ticks;

#[derive(Drop)]
pub struct Array {
    pub shape: Shape,
    pub slots: Vec<Slot>,
    ghost some_sets: { 0 < shape.sets },
    ghost few_sets: { shape.sets ≤ MAX_SETS },
    ghost few_ways: { shape.ways ≤ MAX_WAYS },
    ghost room: { length slots.items ≡ shape.sets * shape.ways },
}

impl Array {
    pub fn new(alloc: Global, shape: Shape) -> Result<Self, AllocError>
        requires some_sets { 0 < shape.sets }
        requires few_sets { shape.sets ≤ MAX_SETS }
        requires few_ways { shape.ways ≤ MAX_WAYS }
        ensures shape { IfOk result (λ a. a.shape ≡ shape) }
        ensures slots { IfOk result (λ a. a.slots.items ≡ replicate (shape.sets * shape.ways) free_slot) }
    {
        let free = Slot::new(Place {
            line: 0,
            copy: None,
            acquiring: false,
        });
        let slots = vec![in alloc; free; (shape.sets * shape.ways) as usize]?;
        Ok(Array { shape, slots })
    }

    /// The first slot of a line's set.
    fn start(&self, line: u32) -> usize
        ensures start { result ≡ set_of self.now.shape line * self.now.shape.ways }
        ensures within { result + self.now.shape.ways ≤ length self.now.slots.items }
    {
        (self.shape.set_of(line) * self.shape.ways) as usize
    }

    /// The slots of a line's set.
    fn row(&self, line: u32) -> &[Slot]
        ensures { result.now ≡ slots_of_set self.now.shape self.now.slots.items (set_of self.now.shape line) }
    {
        let start = self.start(line);
        &self.slots[start..start + self.shape.ways as usize]
    }

    /// The way of its set at which a line stands, and what stands there.
    pub fn find<L: Ledger>(&self, line: u32, ticks: &mut Ticks<L>) -> Option<(usize, Place)>
        ensures found { IfSome result (λ r. IsAt line (slots_of_set self.now.shape self.now.slots.items (set_of self.now.shape line)) r.0 r.1) }
        ensures missing { IfNone result (place_of self.now.shape self.now.slots.items line ≡ None) }
        ensures looks { ticks.new ≤ ticks.old + self.now.shape.ways }
    {
        find(self.row(line), line, ticks)
    }

    /// The line's copy.
    pub fn copy<L: Ledger>(&self, line: u32, ticks: &mut Ticks<L>) -> Option<Held>
        ensures copy { result ≡ copy_in (place_of self.now.shape self.now.slots.items line) }
        ensures looks { ticks.new ≤ ticks.old + self.now.shape.ways }
    {
        match self.find(line, ticks) {
            Some((_, place)) => place.copy,
            None => None,
        }
    }

    /// A way for a line, its own or a free one, and the line's copy.
    pub fn room_for<L: Ledger>(
        &self,
        line: u32,
        ticks: &mut Ticks<L>,
    ) -> Option<(usize, Option<Held>)>
        requires { IsSetRow self.now.shape (set_of self.now.shape line) (slots_of_set self.now.shape self.now.slots.items (set_of self.now.shape line)) }
        ensures room { IfSome result (λ r. IsRoom self.now.shape self.now.slots.items line r.0 r.1) }
        ensures full { IfNone result (IsFull self.now.shape self.now.slots.items line) }
        ensures looks { ticks.new ≤ ticks.old + 2 * self.now.shape.ways }
    {
        if let Some((way, place)) = self.find(line, ticks) {
            return Some((way, place.copy));
        }
        let way = find_free(self.row(line), ticks)?;
        Some((way, None))
    }

    /// Writes a place of its line's set.
    pub fn put(&mut self, way: usize, place: Place)
        requires { way < self.old.shape.ways }
        ensures shape { self.new.shape ≡ self.old.shape }
        ensures slots { self.new.slots.items ≡ slice_set self.old.slots.items (set_of self.old.shape place.line * self.old.shape.ways + way) (record { place = place }) }
    {
        let start = self.start(place.line);
        self.slots[start + way] = Slot::new(place);
    }
}
