//! The turn that goes round the events of one hart.

ghost use Rattle.std.specs.Prelude.{◌≡◌, ◌<◌, ◌≤◌, IfNone, IfSome, length};
ghost use Rattle.host_threads.specs.Asked as spec;
ghost use Rattle.host_threads.specs.Asked.{Asks, AsksVictim, IsFirst, IsIdle, IsPickOf, behind, first_round, passing, told, told_at, wanted_by_event, wanted_by_hart};
ghost use Rattle.host_threads.specs.Due.{IsDue};
ghost use Rattle.host_threads.specs.Route.{Route};
ghost use Rattle.machine_model.specs.Views.{node_at};

use crate::spare::lowest_spare;
use client_cache::ClientCache;
use elf_loader::Image;
use hart::Hart;
use locked_fabric::Turn;
use locked_fabric::coherent_machine::Views;
use machine_types::{Config, Event, Outcome};
use rv32_exec::Action;
use std::marker::Model;
use tl_types::Channel;

#[derive(Clone, Copy)]
enum Place {
    Step,
    Drain,
    Evict,
    Deliver(Channel),
}

const ROUND: [Place; 8] = [
    Place::Deliver(Channel::D),
    Place::Step,
    Place::Drain,
    Place::Evict,
    Place::Deliver(Channel::A),
    Place::Deliver(Channel::C),
    Place::Deliver(Channel::E),
    Place::Deliver(Channel::B),
];

/// Picks a hart's events in rounds: the delivery of D, the hart's step, the drain of the lowest word of the
/// oldest group of stores, the eviction of a line, and the deliveries of A, C, E and B. What there isn't is
/// passed over.
///
/// A line is evicted where an event of the round answered `SetFull`: the lowest one held of that set of
/// which no Acquire is outstanding. Where two events answered so, the later counts.
#[derive(Drop)]
pub(crate) struct Rounds<'a> {
    hart: u8,
    image: &'a Image,
    config: Config,
    next: usize,
    picked: Option<Event>,
    full: Option<u32>,
}

impl<'a> Model for Rounds<'a> {
    ghost use Rattle.std.specs.Prelude.{◌<◌};
    ghost use Rattle.host_threads.specs.Route.{Route};

    ghost Value = { Route };

    ghost view = { λ r. record {
      hart = r.hart;
      image = r.image.now;
      config = r.config;
      place = r.next;
      picked = r.picked;
      full = r.full;
    } };

    ghost invariant = { λ r. r.next < 8 };
}

impl<'a> Rounds<'a> {
    /// The rounds of a hart of a machine of this image and configuration.
    pub(crate) fn new(hart: u8, image: &'a Image, config: Config) -> Rounds<'a>
        ensures { result ≡ first_round hart image.now config }
    {
        Rounds {
            hart,
            image,
            config,
            next: 0,
            picked: None,
            full: None,
        }
    }

    // Where the event picked last wanted a line and its set was full: an address of the line.
    fn wanted(&self, hart: &Hart) -> Option<u32>
        ensures { result ≡ wanted_by_event self.now.image hart.now self.now.picked }
    {
        match self.picked {
            Some(Event::Step { .. }) => accessed(self.image, hart),
            Some(Event::Drain { word, .. }) => Some(word),
            _ => None,
        }
    }

    // Takes in what came of the event picked last.
    fn hear(&mut self, hart: &Hart, last: Option<Outcome>)
        ensures { self.new ≡ told_at self.old hart.now last }
    {
        if last == Some(Outcome::SetFull) {
            self.full = self.wanted(hart).or(self.full);
        }
    }

    // Goes on behind the place that asked for this event, so many places further.
    fn go_on(&mut self, steps: usize, event: Event)
        requires { steps < 8 }
        ensures { self.new ≡ behind self.old steps event }
    {
        let place = (self.next + steps) % ROUND.len();
        self.next = (place + 1) % ROUND.len();
        self.picked = Some(event);
        self.full = remembered(ROUND[place], self.full);
    }

    // The event of a place of the round, where there is one.
    fn event_at(&self, place: Place, views: &Views<'_>) -> Option<Event>
        requires { self.now.hart < length views.now.views.nodes }
        ensures { Asks self.now (node_at views.now self.now.hart) place result }
    {
        let hart = self.hart;
        let index = usize::from(hart);
        match place {
            Place::Step if views.hart(index).status.is_running() => Some(Event::Step { hart }),
            Place::Step => None,
            Place::Drain => {
                let word = views.buffer(index).lowest()?;
                Some(Event::Drain { hart, word })
            }
            Place::Evict => self.eviction(views.cache(index)),
            Place::Deliver(channel) if views.queues(index).len(channel) > 0 => {
                Some(Event::Deliver { channel, hart })
            }
            Place::Deliver(_) => None,
        }
    }

    // The eviction that makes room in the set that was found full.
    fn eviction(&self, cache: &ClientCache) -> Option<Event>
        ensures { AsksVictim self.now cache.now self.now.full result }
    {
        let address = self.full?;
        let line = lowest_spare(cache, &self.config, self.image.size(), address)?;
        Some(Event::Evict {
            hart: self.hart,
            line,
        })
    }

    // The first event that there is from where the round goes on, and how many places further it stands.
    fn next_event(&self, views: &Views<'_>) -> Option<(usize, Event)>
        requires { self.now.hart < length views.now.views.nodes }
        ensures first { IfSome result (λ found. IsFirst self.now (node_at views.now self.now.hart) found.0 found.1) }
        ensures idle { IfNone result (IsIdle self.now (node_at views.now self.now.hart)) }
    {
        let next = self.next;
        // One copy for all steps: each mention of the constant is one.
        let round = ROUND;
        for steps in 0..ROUND.len() {
            let place = round[(next + steps) % ROUND.len()];
            if let Some(event) = self.event_at(place, views) {
                return Some((steps, event));
            }
        }
        None
    }
}

impl<'a> Turn for Rounds<'a> {
    /// The next event of the round that there is, or `None` where the hart has ended, neither stores nor
    /// messages wait, and no line is to be evicted.
    fn pick(&mut self, views: &Views<'_>, last: Option<Outcome>) -> Option<Event>
        ensures picks { IfSome result (λ event. IsPickOf self.old views.now last event self.new) }
        ensures due { IfSome result (IsDue self.old.config views.now self.old.hart) }
        ensures idle { IfNone result (self.old.hart < length views.now.views.nodes → IsIdle (told self.old views.now last) (node_at views.now self.old.hart)) }
        ensures passes { IfNone result (self.old.hart < length views.now.views.nodes → self.new ≡ passing self.old views.now last) }
        ensures outside { length views.now.views.nodes ≤ self.old.hart → self.new ≡ self.old }
    {
        let hart = usize::from(self.hart);
        if hart >= views.harts() {
            return None;
        }
        self.hear(views.hart(hart), last);
        let Some((steps, event)) = self.next_event(views) else {
            self.picked = None;
            return None;
        };
        self.go_on(steps, event);
        Some(event)
    }
}

// Only a drain stands between an event that finds its set full and the round's eviction.
fn remembered(place: Place, full: Option<u32>) -> Option<u32>
    ensures { result ≡ spec.remembered place full }
{
    match place {
        Place::Drain => full,
        Place::Step | Place::Evict | Place::Deliver(_) => None,
    }
}

// The address that the hart's next instruction loads from or updates.
fn accessed(image: &Image, hart: &Hart) -> Option<u32>
    ensures { result ≡ wanted_by_hart image.now hart.now }
{
    wanted_by(&hart.next_action(image)?)
}

fn wanted_by(action: &Action) -> Option<u32>
    ensures { result ≡ spec.wanted_by action.now }
{
    match *action {
        Action::Load { addr, .. } | Action::Lr { addr } | Action::Amo { addr, .. } => Some(addr),
        _ => None,
    }
}
