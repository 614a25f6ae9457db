//! Which events are good, and what each comes to, each kind in its file.

mod access;
mod deliver;
mod drain;
mod evict;
mod local;
mod miss;
mod step;

ghost use Rattle.std.specs.Prelude.{◌≡◌, ◌<◌, ◌≤◌, IsTrue, length};
ghost use Rattle.machine_model.specs.Changing.{next_place};
ghost use Rattle.machine_model.specs.Events.{hart_of, is_good, is_piece, names_well, plan_of};
ghost use Rattle.machine_model.specs.Ready.{IsSound};
ghost use Rattle.machine_model.specs.Views.{node_at};

use crate::node::Node;
use crate::parts::Parts;
use deliver::plan_deliver;
use drain::plan_drain;
use elf_loader::{BASE, Image};
use evict::plan_evict;
use local::plan_local;
use machine_model::Plan;
use machine_types::{Event, MAX_ROW};
use step::plan_step;

/// The hart that an event names.
pub(crate) fn hart_of(event: &Event) -> u8
    ensures { result ≡ hart_of event.now }
{
    match *event {
        Event::Step { hart }
        | Event::Drain { hart, .. }
        | Event::Evict { hart, .. }
        | Event::Deliver { hart, .. }
        | Event::Local { hart, .. } => hart,
    }
}

/// Whether so many bytes at an address lie in memory, at a multiple of their number.
fn is_piece(image: &Image, address: u32, bytes: u32) -> bool
    requires some { 0 < bytes }
    requires few { bytes ≤ 4096 }
    ensures { result ≡ is_piece image.now address bytes }
{
    address % bytes == 0 && address >= BASE && address - BASE <= image.size() - bytes
}

impl Parts {
    /// Whether what the event names beside its hart is there.
    fn names_well(&self, event: &Event) -> bool
        ensures { result ≡ names_well self.now.state event.now }
    {
        match *event {
            Event::Step { .. } | Event::Deliver { .. } => true,
            Event::Drain { word, .. } => is_piece(self.trace.image(), word, 4),
            Event::Evict { line, .. } => {
                is_piece(self.trace.image(), line, self.config.line.bytes())
            }
            Event::Local { count, .. } => 1 <= count && count <= MAX_ROW,
        }
    }

    /// Whether the machine has what the event names: the hart, and an aligned word or a line of memory,
    /// or 1 to [`MAX_ROW`] instructions.
    pub(crate) fn is_good(&self, event: &Event) -> bool
        ensures { result ≡ is_good self.now.state event.now }
    {
        usize::from(hart_of(event)) < self.nodes.len() && self.names_well(event)
    }

    /// The hart's node.
    fn node(&self, hart: u8) -> &Node
        requires sound { IsSound self.now.state }
        requires hart { hart < length self.now.state.views.nodes }
        ensures node { result.now ≡ node_at self.now.state hart }
        ensures line { result.now.cache.shape.size ≡ self.now.state.views.config.line }
    {
        &self.nodes[hart as usize]
    }

    /// How many instructions of the hart have retired.
    fn place_at(&self, hart: u8) -> u32
        requires sound { IsSound self.now.state }
        requires hart { hart < length self.now.state.views.nodes }
        ensures { result ≡ next_place self.now.state hart }
    {
        self.trace.entries(hart as usize).len() as u32
    }

    /// What an event comes to; nothing changes.
    pub(crate) fn plan(&self, event: &Event) -> Plan
        requires sound { IsSound self.now.state }
        requires good { IsTrue (is_good self.now.state event.now) }
        ensures { result ≡ plan_of self.now.state event.now }
    {
        let hart = hart_of(event);
        let node = self.node(hart);
        match *event {
            Event::Step { .. } => {
                plan_step(&self.config, self.trace.image(), node, self.place_at(hart))
            }
            Event::Drain { word, .. } => plan_drain(&self.config, node, word),
            Event::Evict { line, .. } => plan_evict(node, line),
            Event::Deliver { channel, .. } => plan_deliver(self, hart, channel),
            Event::Local { count, .. } => plan_local(self.trace.image(), node, count),
        }
    }
}
