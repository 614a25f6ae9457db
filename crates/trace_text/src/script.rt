//! Scripts.
ghost use Rattle.std.specs.Prelude.{◌≡◌, IsTrue};
ghost use Rattle.machine_types.specs.Config.{is_within_limits};

use machine_types::Event;
use std::marker::Model;
use tl_types::LineSize;

/// Events in the order in which they happen.
#[derive(Drop)]
pub struct Events {
    items: Vec<Event>,
}

impl Model for Events {
    ghost use Rattle.std.specs.Prelude.{List};
    ghost use Rattle.machine_types.specs.declared.event.Event.{Event};

    ghost Value = { List Event };

    ghost view = { λ events. events.items.items };
}

impl Events {
    /// It takes no memory.
    pub fn new(items: Vec<Event>) -> Events
        ensures { result ≡ items.items }
    {
        Events { items }
    }

    /// The events, the first one first.
    pub fn as_slice(&self) -> &[Event]
        ensures { result.now ≡ self.now }
    {
        &self.items
    }

    /// It takes no memory.
    pub fn into_vec(self) -> Vec<Event>
        ensures { result.items ≡ self }
    {
        self.items
    }
}

/// What a machine is made of, within the limits of a `Config` and of memory, and what happens to it.
#[derive(Drop)]
pub struct Script {
    pub harts: u32,
    /// Main memory's size in KiB.
    pub kib: u32,
    pub sets: u32,
    pub ways: u32,
    pub line: LineSize,
    pub events: Events,
    pub ghost within: { IsTrue (is_within_limits harts sets ways) },
}

/// The numbers of a script's first line.
#[derive(Clone, Copy)]
pub(crate) struct Head {
    pub harts: u32,
    pub kib: u32,
    pub sets: u32,
    pub ways: u32,
    pub line: LineSize,
}
