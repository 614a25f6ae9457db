//! What a worker sees of its hart while it holds the lock.

ghost use Rattle.std.specs.Prelude.{◌≡◌, ◌<◌, ◌↔◌, IsTrue, Some, length, true};
ghost use Rattle.hart.specs.Local.{can_go_alone};
ghost use Rattle.host_threads.specs.Telling as telling;
ghost use Rattle.host_threads.specs.Picking as picking;
ghost use Rattle.machine_types.specs.declared.event.Event.TheVariants as TheEvents;
ghost use Rattle.machine_model.specs.Views.{node_at};

use elf_loader::Image;
use hart::{Hart, Status};
use locked_fabric::coherent_machine::{Machine, Views};
use locked_fabric::{Turn, Visit, seen_in};
use machine_types::{Event, MAX_CHANGES, MAX_ENTRIES, Outcome};
use rv32_exec::Action;

/// A hart's turn, with what is seen of the hart under the same lock.
#[derive(Drop)]
pub(crate) struct Watched<'a, T: Turn + Drop> {
    pub(crate) turn: T,
    pub(crate) hart: u8,
    pub(crate) image: &'a Image,
    /// Whether the turn picked the hart's step when it was asked last, and that is private.
    pub(crate) is_stepping: bool,
    /// The hart as it stood when such a step was picked last; at reset before any. It is written in place, as
    /// it is large.
    pub(crate) stood: Hart,
    /// The length of the hart's list and its status, as they were when the lock was held last.
    pub(crate) seen: Option<(u64, Status)>,
    /// Whether the machine changed no more when the lock was held last.
    pub(crate) is_spent: bool,
}

impl<'a, T: Turn + Drop> Watched<'a, T> {
    /// Whether the hart was not running, or retires no more: its list was full.
    pub(crate) fn is_done(&self) -> bool
        ensures { result ≡ telling.is_done self.now.seen }
    {
        self.seen
            .is_some_and(|(length, status)| !status.is_running() || is_full(length))
    }

    // Whether the hart's list was full.
    fn was_full(&self) -> bool
        ensures { result ≡ picking.was_full self.now.seen }
    {
        self.seen.is_some_and(|(length, _status)| is_full(length))
    }

    // What is left of a pick: no instruction of the hart, once its list is full.
    fn left_of(&self, picked: Option<Event>) -> Option<Event>
        ensures { result ≡ picking.left_of self.now.seen self.now.hart picked }
    {
        match picked {
            Some(event) if self.was_full() && is_instruction_of(event, self.hart) => None,
            _ => picked,
        }
    }
}

impl<'a, T: Turn + Drop> Turn for Watched<'a, T> {
    ghost use Rattle.std.specs.Prelude.{◌≡◌};
    ghost use Rattle.host_threads.specs.Picking.{IsLeftOfPick};

    ghost picks = { λ before machine last left after. (after.hart ≡ before.hart)
        × IsLeftOfPick T.picks before.hart before.seen before.turn machine last left after.turn after.is_stepping after.stood };

    fn pick(&mut self, views: &Views<'_>, last: Option<Outcome>) -> Option<Event>
        ensures picked { (self.new.hart ≡ self.old.hart)
            × IsLeftOfPick T.picks self.old.hart self.old.seen self.old.turn views.now last result self.new.turn self.new.is_stepping self.new.stood }
        ensures image { self.new.image ≡ self.old.image }
        ensures steps { IsTrue self.new.is_stepping
            ↔ ((self.old.hart < length views.now.views.nodes) × (result ≡ Some (TheEvents.Step self.old.hart))
            × (can_go_alone self.old.image.now (node_at views.now self.old.hart).hart ≡ true)) }
        ensures stood { IsTrue self.new.is_stepping → self.new.stood ≡ (node_at views.now self.old.hart).hart }
    {
        let asked = self.turn.pick(views, last);
        let picked = self.left_of(asked);
        let hart = self.hart;
        self.is_stepping = false;
        if usize::from(hart) < views.harts() && is_step_of(picked, hart) {
            let own = views.hart(usize::from(hart));
            if goes_alone(self.image, own) {
                self.is_stepping = true;
                self.stood = *own;
            }
        }
        picked
    }
}

impl<'a, T: Turn + Drop> Visit for Watched<'a, T> {
    ghost use Rattle.std.specs.Prelude.{◌≡◌};
    ghost use Rattle.locked_fabric.specs.Port.{seen_in};
    ghost use Rattle.host_threads.specs.Endings.{is_spent};

    ghost withholds = { λ watched answer. answer ≡ watched.is_stepping };

    ghost sees = { λ before s after. after ≡ record before { seen = seen_in s.trace before.hart; is_spent = is_spent s } };

    /// A private step is held back: the hart goes on alone.
    fn holds_back(&self) -> bool {
        self.is_stepping
    }

    fn see(&mut self, machine: &Machine) {
        self.seen = seen_in(machine.trace(), self.hart);
        self.is_spent = machine.views().changes() >= MAX_CHANGES;
    }
}

// Whether the list of a hart is as long as a list may be.
fn is_full(length: u64) -> bool
    ensures { result ≡ telling.is_full length }
{
    length >= MAX_ENTRIES as u64
}

// Whether the event is of the hart's instructions, by which its list grows.
fn is_instruction_of(event: Event, hart: u8) -> bool
    ensures { result ≡ picking.is_instruction_of hart event }
{
    match event {
        Event::Step { hart: own } | Event::Local { hart: own, .. } => own == hart,
        Event::Drain { .. } | Event::Evict { .. } | Event::Deliver { .. } => false,
    }
}

fn is_step_of(event: Option<Event>, hart: u8) -> bool
    ensures { IsTrue result ↔ (event ≡ Some (TheEvents.Step hart)) }
{
    event == Some(Event::Step { hart })
}

// Whether the hart runs, and its next instruction is private and doesn't stop.
fn goes_alone(image: &Image, hart: &Hart) -> bool
    ensures { result ≡ can_go_alone image.now hart.now }
{
    hart.status.is_running() && is_private(hart.next_action(image))
}

fn is_private(action: Option<Action>) -> bool
    ensures { result ≡ picking.is_private action }
{
    match action {
        Some(Action::Private) => true,
        _ => false,
    }
}
