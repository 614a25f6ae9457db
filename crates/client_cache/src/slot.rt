//! One slot of the array, and the search of a row of them.
ghost use Rattle.std.specs.Prelude.{◌≡◌, ◌≤◌, ◌+◌, length, IfSome, IfNone, None};
ghost use Rattle.client_cache.specs.Row.{IsAt, IsFreeAt, AllUsed, place_at, holds, is_used};

use crate::held::Held;
use std::sync::ledger::Ledger;
use tl_types::Ticks;

/// What a slot has: a line, its copy, and whether an Acquire of it is outstanding. With neither the
/// slot is free, whatever its line.
#[derive(Clone, Copy)]
pub struct Place {
    pub line: u32,
    pub copy: Option<Held>,
    pub acquiring: bool,
}

impl Place {
    fn is_used(&self) -> bool
        ensures { result ≡ is_used self.now }
    {
        self.copy.is_some() || self.acquiring
    }

    fn holds(&self, line: u32) -> bool
        ensures { result ≡ holds line self.now }
    {
        self.is_used() && self.line == line
    }
}

/// A place that is read by `look` alone.
#[derive(Clone, Copy)]
pub struct Slot {
    place: Place,
}

impl Slot {
    pub fn new(place: Place) -> Self
        ensures { result.place ≡ place }
    {
        Slot { place }
    }

    /// Reads the slot, which counts.
    pub fn look<L: Ledger>(&self, ticks: &mut Ticks<L>) -> &Place
        ensures place { result.now ≡ self.now.place }
        ensures tick { ticks.new ≡ ticks.old + 1 }
    {
        ticks.tick();
        &self.place
    }
}

/// The way of a row at which a line stands, and what stands there.
pub fn find<L: Ledger>(row: &[Slot], line: u32, ticks: &mut Ticks<L>) -> Option<(usize, Place)>
    ensures found { IfSome result (λ r. IsAt line row.now r.0 r.1) }
    ensures missing { IfNone result (place_at line row.now ≡ None) }
    ensures looks { ticks.new ≤ ticks.old + length row.now }
{
    for (way, slot) in row.iter().enumerate() {
        let place = slot.look(ticks);
        if place.holds(line) {
            return Some((way, *place));
        }
    }
    None
}

/// A way of a row that is free.
pub fn find_free<L: Ledger>(row: &[Slot], ticks: &mut Ticks<L>) -> Option<usize>
    ensures found { IfSome result (λ way. IsFreeAt row.now way) }
    ensures full { IfNone result (AllUsed row.now) }
    ensures looks { ticks.new ≤ ticks.old + length row.now }
{
    for (way, slot) in row.iter().enumerate() {
        let place = slot.look(ticks);
        if !place.is_used() {
            return Some(way);
        }
    }
    None
}
