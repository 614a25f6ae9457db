//! One random schedule.

ghost use Rattle.std.specs.Prelude.{◌≡◌, ◌+◌, ◌≤◌, IfOk, length};
ghost use Rattle.flat_model.specs.Shown.{results, told};
ghost use Rattle.schedules.specs.Schedules.{EachMoves, Replays, led, start_of};

use crate::errors::Fault;
use crate::player::{MOST_HARTS, Player};
use crate::schedule::Schedule;
use coherent_machine::Views;
use elf_loader::Image;
use machine_types::{Config, Event, MAX_HARTS, Outcome};
use rand_core::{Rng, SeedableRng};
use rand_xoshiro::SplitMix64;
use std::alloc::{AllocError, Global};
use tl_types::Channel;

/// One pick in so many is an eviction, if a cache may hold a line.
const PICKS_AN_EVICTION: u64 = 16;

/// So many picks at most a run favours one hart before it draws another.
const LONGEST_BURST: u64 = 64;

/// How often a pick that is held back is drawn again.
const DRAWS: usize = 8;

/// One step in so many of a hart that isn't favoured is taken at once, and one drain in so many of a run that delays them.
const TAKEN_STEP: u64 = 16;

const TAKEN_DRAIN: u64 = 64;

const CHANNELS: [Channel; 5] = [Channel::A, Channel::B, Channel::C, Channel::D, Channel::E];

/// A schedule whose events are picked at random, by a temper that is drawn for it, until all harts have ended and neither stores nor
/// messages wait, after `most_events` tries, or where a limit of the machine is met. An event that stalls
/// counts as a try. The same seed gives the same schedule.
pub fn sample(
    alloc: Global,
    image: Image,
    config: Config,
    seed: u64,
    most_events: u64,
) -> Result<Schedule, AllocError>
    ensures real { IfOk result (λ schedule. schedule.machine ≡ led image config schedule.events.items) }
    ensures replays { IfOk result (λ schedule. Replays image config schedule.events.items) }
    ensures moves { IfOk result (λ schedule. EachMoves image config schedule.events.items) }
    ensures results { IfOk result (λ schedule. told schedule.results.items ≡ results schedule.machine) }
    ensures within { IfOk result (λ schedule. length schedule.events.items ≤ most_events) }
{
    let mut player = Player::new(alloc, image, config)?;
    let mut picker = Picker::new(alloc, seed);
    if let Err(Fault::NoMemory) = player.play_at_random(&mut picker, most_events) {
        return Err(AllocError);
    }
    player.into_schedule(alloc)
}

impl Player {
    // Plays what is picked, so many tries at most, while there is anything left to happen.
    fn play_at_random(&mut self, picker: &mut Picker, most_events: u64) -> Result<(), Fault>
        ensures start { start_of self.new ≡ start_of self.old }
        ensures within { length self.new.events ≤ length self.old.events + most_events }
    {
        let mut left = most_events;
        while left > 0 {
            left -= 1;
            let Some(event) = picker.pick(&self.views())? else {
                return Ok(());
            };
            let outcome = self.apply(event)?;
            picker.learn(&self.views(), event, outcome)?;
        }
        Ok(())
    }
}

/// How a run picks among what may happen. Evenly picked events let harts go on side by side, and stores wait shortly; what
/// is wrong with a lock often shows only where one hart is far ahead of another, or its stores are late.
#[derive(Clone, Copy, PartialEq, Eq)]
enum Temper {
    /// All alike.
    Even,
    /// One hart's steps for a while, then another's.
    Bursts,
    /// The same, and stores drain late.
    LateStores,
}

impl Temper {
    fn drawn(generator: &mut SplitMix64) -> Temper {
        match generator.next_u64() % 4 {
            0 => Temper::Even,
            1 => Temper::Bursts,
            _ => Temper::LateStores,
        }
    }
}

/// Picks events that a machine may take.
#[derive(Drop)]
struct Picker {
    generator: SplitMix64,
    temper: Temper,
    // Whose steps are favoured, and for how many picks more.
    favoured: u8,
    burst: u64,
    // What may happen next.
    choices: Vec<Event>,
    // The lines that caches asked for, as evictions, each once; one that is neither held nor asked for any
    // more is forgotten when it is picked.
    evictions: Vec<Event>,
}

impl Picker {
    fn new(alloc: Global, seed: u64) -> Picker {
        let mut generator = SplitMix64::seed_from_u64(seed);
        let temper = Temper::drawn(&mut generator);
        Picker {
            generator,
            temper,
            favoured: 0,
            burst: 0,
            choices: Vec::new(alloc),
            evictions: Vec::new(alloc),
        }
    }

    // None where all harts have ended and nothing waits.
    fn pick(&mut self, views: &Views<'_>) -> Result<Option<Event>, AllocError> {
        self.choices.clear();
        for hart in 0..MOST_HARTS {
            self.offer(views, hart)?;
        }
        if self.choices.is_empty() {
            return Ok(None);
        }
        if !self.evictions.is_empty() && self.generator.next_u64() % PICKS_AN_EVICTION == 0 {
            let place = self.generator.next_u64() as usize % self.evictions.len();
            return Ok(Some(self.evictions[place]));
        }
        self.favour(views.config().harts);
        let mut picked = self.draw();
        for _ in 1..DRAWS {
            match picked {
                Some(event) if self.is_held_back(event) => picked = self.draw(),
                _ => break,
            }
        }
        Ok(picked)
    }

    // Draws whose steps are favoured, where the last one's were for long enough.
    fn favour(&mut self, harts: u32) {
        if self.burst > 0 {
            self.burst -= 1;
            return;
        }
        let drawn = self.generator.next_u64() % u64::from(harts.clamp(1, MAX_HARTS));
        self.favoured = drawn as u8;
        self.burst = self.generator.next_u64() % LONGEST_BURST;
    }

    fn draw(&mut self) -> Option<Event> {
        let count = (self.choices.len() as u64).max(1);
        let place = (self.generator.next_u64() % count) as usize;
        self.choices.get(place).copied()
    }

    // Whether another event is to be drawn in place of this one, if there is any.
    fn is_held_back(&mut self, event: Event) -> bool {
        match event {
            Event::Step { hart } => {
                self.temper != Temper::Even
                    && hart != self.favoured
                    && self.generator.next_u64() % TAKEN_STEP != 0
            }
            Event::Drain { .. } => {
                self.temper == Temper::LateStores && self.generator.next_u64() % TAKEN_DRAIN != 0
            }
            _ => false,
        }
    }

    // The hart's step, its drains and its deliveries.
    fn offer(&mut self, views: &Views<'_>, hart: u8) -> Result<(), AllocError> {
        let place = usize::from(hart);
        if place >= views.harts() {
            return Ok(());
        }
        if views.hart(place).status.is_running() {
            self.choices.push(Event::Step { hart })?;
        }
        for entry in views.buffer(place).oldest() {
            let word = entry.word;
            self.choices.push(Event::Drain { hart, word })?;
        }
        for channel in CHANNELS {
            if views.queues(place).len(channel) > 0 {
                self.choices.push(Event::Deliver { channel, hart })?;
            }
        }
        Ok(())
    }

    // A line that is asked for may be given up later. Picked before it has come, its eviction is kept: else
    // nothing would make room in its set.
    fn learn(
        &mut self,
        views: &Views<'_>,
        event: Event,
        outcome: Option<Outcome>,
    ) -> Result<(), AllocError> {
        match (event, outcome) {
            (Event::Step { hart } | Event::Drain { hart, .. }, Some(Outcome::Missed(line))) => {
                self.note(Event::Evict { hart, line })?;
            }
            (Event::Evict { hart, line }, Some(Outcome::Evicted | Outcome::NotHeld))
                if !is_asked_for(views, hart, line) => {
                self.evictions.retain(|other| *other != event);
            }
            _ => {}
        }
        Ok(())
    }

    fn note(&mut self, eviction: Event) -> Result<(), AllocError> {
        if !self.evictions.contains(&eviction) {
            self.evictions.push(eviction)?;
        }
        Ok(())
    }
}

// Whether the hart's cache waits for the line.
fn is_asked_for(views: &Views<'_>, hart: u8, line: u32) -> bool {
    let place = usize::from(hart);
    place < views.harts() && views.cache(place).is_acquiring(line)
}
