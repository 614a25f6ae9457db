//! Fewer events that lead to the same goal.

ghost use Rattle.std.specs.Prelude.{◌≡◌, ◌<◌, [], IfErr, IfOk, IfSome, Ok, OnOk, length, true};
ghost use Rattle.coherent_machine.specs.Machine.{IsFirstRefusal};
ghost use Rattle.machine_model.specs.Views.{opening};
ghost use Rattle.schedules.specs.Schedules.{EachMoves, LeadsThere, Replays, led, start_of};
ghost use Rattle.schedules.specs.Sublists.{IsSublist};

use crate::errors::Fault;
use crate::goal::Goal;
use crate::player::Player;
use coherent_machine::ReplayError;
use elf_loader::Image;
use machine_types::{Config, Event};
use std::alloc::{AllocError, Global};

/// A machine's reset takes as long as an event for every so many bytes of its memory.
const BYTES_AS_AN_EVENT: u32 = 256;

/// Some of the events, in their order, that lead to the goal too, where these do. Left out are first those that
/// change nothing, and then pieces of halving length, down to single events, for as long as one of them can be.
/// Each attempt at a piece plays what is left from reset, which counts as an event for every 256 bytes of memory;
/// there is none that would pass `most_played` events played. It errs as `coherent_machine::replay` of the events
/// does, but that want of memory has no index.
pub fn shorten<G: Goal>(
    alloc: Global,
    image: &Image,
    config: Config,
    events: &[Event],
    goal: &G,
    most_played: u64,
) -> Result<Vec<Event>, ReplayError>
    requires asked { G.CanBeAsked goal.now }
    ensures there { G.Holds goal.now (led image.now config events.now) → IfOk result (λ short. G.Holds goal.now (led image.now config short.items)) }
    ensures replays { IfOk result (λ short. Replays image.now config short.items) }
    ensures moves { IfOk result (λ short. EachMoves image.now config short.items) }
    ensures sublist { IfOk result (λ short. IsSublist short.items events.now) }
    ensures refused { IfErr result (λ error. IsFirstRefusal (opening image.now config) events.now error) }
{
    let mut player = Player::new(alloc, image.try_copy(alloc)?, config)?;
    player.replay(events)?;
    let is_there = goal.is_met(player.machine())?;
    let changing = player.into_events();
    if !is_there {
        return Ok(changing);
    }
    let script = Script {
        alloc,
        image,
        config,
        goal,
    };
    Ok(script.shortened(changing, most_played)?)
}

/// Where a shorter list is to lead, and from where.
#[derive(Drop)]
struct Script<'a, G> {
    alloc: Global,
    image: &'a Image,
    config: Config,
    goal: &'a G,
}

impl<G: Goal> Script<'_, G> {
    // Leaves out what it can of the events.
    fn shortened(&self, events: Vec<Event>, most_played: u64) -> Result<Vec<Event>, AllocError>
        requires asked { G.CanBeAsked self.now.goal.now }
        requires good { LeadsThere self.now.image.now self.now.config (G.Holds self.now.goal.now) events.items }
        ensures good { IfOk result (λ short. LeadsThere self.now.image.now self.now.config (G.Holds self.now.goal.now) short.items) }
        ensures sublist { IfOk result (λ short. IsSublist short.items events.items) }
    {
        let mut short = events;
        let mut left = most_played;
        let mut size = short.len() / 2;
        while size > 1 {
            self.leave_out(&mut short, size, &mut left)?;
            size /= 2;
        }
        // What was needed by an event that has gone may go next.
        while self.leave_out(&mut short, 1, &mut left)? {}
        Ok(short)
    }

    // Leaves out what it can of all pieces of this size. Whether there was any.
    fn leave_out(
        &self,
        short: &mut Vec<Event>,
        size: usize,
        left: &mut u64,
    ) -> Result<bool, AllocError>
        requires asked { G.CanBeAsked self.now.goal.now }
        requires some { 0 < size }
        requires good { LeadsThere self.now.image.now self.now.config (G.Holds self.now.goal.now) short.old.items }
        ensures good { LeadsThere self.now.image.now self.now.config (G.Holds self.now.goal.now) short.new.items }
        ensures sublist { IsSublist short.new.items short.old.items }
        ensures left { result ≡ Ok true → left.new < left.old }
    {
        let mut has_left_out = false;
        let mut start = 0;
        while start < short.len() && *left > 0 {
            let end = start + size.min(short.len() - start);
            if self.try_without(short, start, end, left)? {
                has_left_out = true;
            } else {
                start = end;
            }
        }
        Ok(has_left_out)
    }

    // Leaves out the events from one index to before another, and those that then change nothing, where that
    // leads there and as many events are left to be played. Whether it did.
    fn try_without(
        &self,
        short: &mut Vec<Event>,
        from: usize,
        to: usize,
        left: &mut u64,
    ) -> Result<bool, AllocError>
        requires asked { G.CanBeAsked self.now.goal.now }
        requires good { LeadsThere self.now.image.now self.now.config (G.Holds self.now.goal.now) short.old.items }
        ensures good { LeadsThere self.now.image.now self.now.config (G.Holds self.now.goal.now) short.new.items }
        ensures sublist { IsSublist short.new.items short.old.items }
        ensures left { 0 < length short.old.items → 0 < left.old → left.new < left.old }
    {
        let events = short.len() as u64;
        let reset = u64::from(self.image.size() / BYTES_AS_AN_EVENT);
        if *left < events || *left - events < reset {
            *left = 0;
            return Ok(false);
        }
        *left -= events + reset;
        match self.played_without(short, from, to)? {
            Some(shorter) => {
                *short = shorter;
                Ok(true)
            }
            None => Ok(false),
        }
    }

    // What changes the machine of the events outside the indices, where that leads there.
    fn played_without(
        &self,
        events: &[Event],
        from: usize,
        to: usize,
    ) -> Result<Option<Vec<Event>>, AllocError>
        requires asked { G.CanBeAsked self.now.goal.now }
        ensures good { IfOk result (λ found. IfSome found (λ short. LeadsThere self.now.image.now self.now.config (G.Holds self.now.goal.now) short.items)) }
        ensures sublist { IfOk result (λ found. IfSome found (λ short. IsSublist short.items events.now)) }
    {
        let image = self.image.try_copy(self.alloc)?;
        let mut player = Player::new(self.alloc, image, self.config)?;
        if !self.leads_there(&mut player, events, from, to)? {
            return Ok(None);
        }
        Ok(Some(player.into_events()))
    }

    // Plays the events outside the indices. Whether that leads there, within the machine's limits.
    fn leads_there(
        &self,
        player: &mut Player,
        events: &[Event],
        from: usize,
        to: usize,
    ) -> Result<bool, AllocError>
        requires asked { G.CanBeAsked self.now.goal.now }
        requires fresh { player.old.events ≡ [] }
        ensures start { start_of player.new ≡ start_of player.old }
        ensures sublist { result ≡ Ok true → IsSublist player.new.events events.now }
        ensures there { result ≡ Ok true → G.Holds self.now.goal.now player.new.machine }
    {
        match player.play_without(events, from, to) {
            Ok(()) => self.goal.is_met(player.machine()),
            Err(Fault::NoMemory) => Err(AllocError),
            Err(Fault::Limit) => Ok(false),
        }
    }
}

impl Player {
    // Applies the events but for those from one index to before another.
    fn play_without(&mut self, events: &[Event], from: usize, to: usize) -> Result<(), Fault>
        requires { self.old.events ≡ [] }
        ensures start { start_of self.new ≡ start_of self.old }
        ensures sublist { OnOk result (IsSublist self.new.events events.now) }
    {
        for index in 0..events.len() {
            if index >= from && index < to {
                continue;
            }
            self.apply(events[index])?;
        }
        Ok(())
    }
}
