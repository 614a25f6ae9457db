//! Random runs, looked through for a message.
ghost use Rattle.std.specs.Prelude.{◌≡◌, ◌+◌, ◌^◌, ◌<◌, ◌≤◌, IfOk, IfSome, OnOk, Some, false, length};
ghost use Rattle.message_search.specs.First.{IsFirst};
ghost use Rattle.message_search.specs.Searched.{IsMeeting, IsNoLonger, IsSearched, length_of};
ghost use Rattle.schedules.specs.Schedules.{Replays};

use crate::first::first_sent;
use crate::met::{Met, Searched};
use crate::sought::Sought;
use elf_loader::Image;
use machine_types::{Config, Event};
use rand_core::{Rng, SeedableRng};
use rand_xoshiro::SplitMix64;
use schedules::{Schedule, sample, shorten};
use std::alloc::{AllocError, Global};

/// How many events a run tries at most, those that stall among them.
const MOST_EVENTS: u64 = 50_000;

/// How many events a run tries for each of the fewest that are known to send the message.
const TRIES_AN_EVENT: u64 = 4;

/// How many events are played at most to shorten what a run shows.
const MOST_PLAYED: u64 = 1_000_000;

/// Is told how far random runs are.
pub trait RunWatch {
    /// So many runs were made so far.
    fn made(&self, runs: u64);
}

/// Which runs are looked through.
#[derive(Clone, Copy)]
pub struct Runs {
    pub count: u64,
    /// What the runs are drawn from: the same seed gives the same runs.
    pub seed: u64,
    /// Whether what shows the message is shortened.
    pub shortened: bool,
}

/// A program, its machine, and what is looked for in its runs.
#[derive(Clone, Copy)]
struct Search<'a> {
    alloc: Global,
    image: &'a Image,
    config: Config,
    sought: &'a Sought,
}

/// Plays random schedules of the machine, each from reset and of at most 50,000 tried events, and keeps the fewest events
/// of one that send such a message; shortened, if that is asked for and memory lasts. Where memory ends, what was seen
/// before is told, and that it did.
/// Behind each run `watch` is told how many there were.
pub fn search_runs<W: RunWatch>(
    alloc: Global,
    image: &Image,
    config: Config,
    runs: Runs,
    sought: &Sought,
    watch: &W,
) -> Searched
    ensures searched { IsSearched image.now config sought.now result }
    ensures all_made { result.out_of_memory ≡ false → result.runs ≡ runs.count }
    ensures within { result.runs ≤ runs.count }
{
    let search = Search {
        alloc,
        image,
        config,
        sought,
    };
    let mut searched = Searched {
        met: None,
        runs: 0,
        out_of_memory: false,
    };
    let out_of_memory = search.make_runs(runs, watch, &mut searched).is_err();
    let Searched {
        met,
        runs: made,
        ..
    } = searched;
    Searched {
        met: search.at_last(met, runs.shortened),
        runs: made,
        out_of_memory,
    }
}

// How many events the next run tries at most: many more than are known to send the message show no shorter way.
fn most_events(searched: &Searched) -> u64 {
    match &searched.met {
        Some(met) => MOST_EVENTS.min(TRIES_AN_EVENT.saturating_mul(met.events.len() as u64)),
        None => MOST_EVENTS,
    }
}

impl Search<'_> {
    // Looks through as many runs as are asked for. The only error is want of memory; the runs before stay seen.
    fn make_runs<W: RunWatch>(
        &self,
        runs: Runs,
        watch: &W,
        searched: &mut Searched,
    ) -> Result<(), AllocError>
        requires few { searched.old.runs ≤ runs.count }
        requires searched { IsSearched self.now.image.now self.now.config self.now.sought.now searched.old }
        ensures searched { IsSearched self.now.image.now self.now.config self.now.sought.now searched.new }
        ensures ok { OnOk result (searched.new.runs ≡ runs.count) }
        ensures within { searched.new.runs ≤ runs.count }
    {
        let mut generator = SplitMix64::seed_from_u64(runs.seed);
        while searched.runs < runs.count {
            let events = self.run(generator.next_u64(), most_events(searched))?;
            let first = self.first(&events)?;
            self.see(searched, events, first);
            watch.made(searched.runs);
        }
        Ok(())
    }

    // The events of a random schedule, of which so many are tried at most.
    fn run(&self, seed: u64, most_events: u64) -> Result<Vec<Event>, AllocError>
        ensures { IfOk result (λ events. Replays self.now.image.now self.now.config events.items) }
    {
        let image = self.image.try_copy(self.alloc)?;
        let schedule = sample(self.alloc, image, self.config, seed, most_events)?;
        let Schedule {
            events,
            machine: _,
            results: _,
        } = schedule;
        Ok(events)
    }

    fn first(&self, events: &[Event]) -> Result<Option<usize>, AllocError>
        ensures { IfOk result (IsFirst self.now.image.now self.now.config self.now.sought.now events.now) }
    {
        let image = self.image.try_copy(self.alloc)?;
        first_sent(self.alloc, image, self.config, events, self.sought)
    }

    // Takes in one more run, of which so many events send the message first: they are kept where they are fewer than those before.
    fn see(&self, searched: &mut Searched, events: Vec<Event>, first: Option<usize>)
        requires room { searched.old.runs + 1 < 2 ^ 64 }
        requires searched { IsSearched self.now.image.now self.now.config self.now.sought.now searched.old }
        requires first { IsFirst self.now.image.now self.now.config self.now.sought.now events.items first }
        requires replays { Replays self.now.image.now self.now.config events.items }
        ensures searched { IsSearched self.now.image.now self.now.config self.now.sought.now searched.new }
        ensures runs { searched.new.runs ≡ searched.old.runs + 1 }
    {
        searched.runs += 1;
        let Some(count) = first else {
            return;
        };
        if searched.needs_fewer_than(count) {
            return;
        }
        let mut events = events;
        events.truncate(count);
        searched.met = Some(Met { events });
    }

    // What is told in the end: shortened, if that is asked for and can be.
    fn at_last(&self, met: Option<Met>, shortened: bool) -> Option<Met>
        requires met { IsMeeting self.now.image.now self.now.config self.now.sought.now met }
        ensures met { IsMeeting self.now.image.now self.now.config self.now.sought.now result }
        ensures shorter { IsNoLonger (length_of result) (length_of met) }
    {
        match met {
            Some(met) if shortened => Some(self.shorter(met)),
            _ => met,
        }
    }

    // Fewer events of the same run, if some send the message and memory lasts.
    fn shorter(&self, met: Met) -> Met
        requires met { IsFirst self.now.image.now self.now.config self.now.sought.now met.events.items (Some (length met.events.items)) }
        ensures met { IsFirst self.now.image.now self.now.config self.now.sought.now result.events.items (Some (length result.events.items)) }
        ensures shorter { length result.events.items ≤ length met.events.items }
    {
        let Some(events) = self.shortened(&met.events) else {
            return met;
        };
        if events.len() > met.events.len() {
            return met;
        }
        Met { events }
    }

    // Some of the events, up to the one that sends the message first.
    fn shortened(&self, events: &[Event]) -> Option<Vec<Event>>
        ensures { IfSome result (λ short. IsFirst self.now.image.now self.now.config self.now.sought.now short.items (Some (length short.items))) }
    {
        let short = shorten(
            self.alloc,
            self.image,
            self.config,
            events,
            self.sought,
            MOST_PLAYED,
        );
        let Ok(mut short) = short else {
            return None;
        };
        let Ok(Some(count)) = self.first(&short) else {
            return None;
        };
        short.truncate(count);
        Some(short)
    }
}
