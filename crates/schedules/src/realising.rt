//! The machine's events that do what a flat machine's events do.

ghost use Rattle.std.specs.Prelude.{◌≡◌, IfErr, IfOk, OnOk, length};
ghost use Rattle.flat_model.specs.Shown.{results, told};
ghost use Rattle.schedules.specs.Errors.{IsOneOf};
ghost use Rattle.schedules.specs.Schedules.{EachMoves, Leads, Replays, led, start_of};

use crate::errors::{Fault, RealiseError};
use crate::player::Player;
use crate::quiet::has_stepped;
use crate::schedule::Schedule;
use elf_loader::Image;
use flat_model::FlatEvent;
use machine_types::{Config, Event, Outcome};
use rv32_exec::Action;
use std::alloc::Global;

/// An event may find its cache's set full, and then miss.
const MOST_TRIES: u32 = 3;

/// The events that bring a machine from reset through these flat events. Before each of them, and behind
/// the last one, all harts take their quiet steps, up to 1000 each, in rising order of harts: private
/// instructions, calls, stops, fences that don't stall, store conditionals that fail, and stores to words
/// that their open group hasn't; a list of flat events leaves those out. In between no message waits, so
/// each flat event takes at most 6 events and 2 a hart.
pub fn realise(
    alloc: Global,
    image: Image,
    config: Config,
    steps: &[FlatEvent],
) -> Result<Schedule, RealiseError>
    ensures real { IfOk result (λ schedule. schedule.machine ≡ led image config schedule.events.items) }
    ensures replays { IfOk result (λ schedule. Replays image config schedule.events.items) }
    ensures moves { IfOk result (λ schedule. EachMoves image config schedule.events.items) }
    ensures results { IfOk result (λ schedule. told schedule.results.items ≡ results schedule.machine) }
    ensures index { IfErr result (IsOneOf (length steps.now)) }
{
    let mut player = Player::new(alloc, image, config)?;
    player.bring_all_about(alloc, steps)?;
    Ok(player.into_schedule(alloc)?)
}

impl Player {
    // Brings the events about, with the quiet steps before each of them and behind the last one.
    fn bring_all_about(&mut self, alloc: Global, steps: &[FlatEvent]) -> Result<(), RealiseError>
        ensures start { start_of self.new ≡ start_of self.old }
        ensures index { IfErr result (IsOneOf (length steps.now)) }
    {
        for index in 0..steps.len() {
            self.settle(alloc)?;
            if !self.bring_about(steps[index])? {
                return Err(RealiseError::Unrealised(index));
            }
        }
        self.settle(alloc)?;
        Ok(())
    }

    // Whether it was brought about.
    fn bring_about(&mut self, step: FlatEvent) -> Result<bool, Fault>
        ensures { start_of self.new ≡ start_of self.old }
    {
        match step {
            FlatEvent::Step { hart } => self.access(hart, Event::Step { hart }),
            FlatEvent::Drain { hart, word } => self.access(hart, Event::Drain { hart, word }),
            FlatEvent::Fail { hart } => self.fail(hart),
        }
    }

    // A step or a drain, for which the line is fetched where it is missing.
    #[tactic(auto, using(crate::proofs::Leading::leads_on, crate::proofs::Leading::leads_nowhere))]
    pub(crate) fn access(&mut self, hart: u8, event: Event) -> Result<bool, Fault>
        ensures start { start_of self.new ≡ start_of self.old }
        ensures leads { OnOk result (Leads self.old.machine self.new.machine) }
    {
        for _try in 0..MOST_TRIES {
            let outcome = self.apply(event)?;
            if !self.make_way(hart, event, outcome)? {
                return Ok(has_stepped(outcome) || outcome == Some(Outcome::Drained));
            }
        }
        Ok(false)
    }

    // Fetches the line that the event misses, or makes room for it. Whether there is reason to try it again.
    #[tactic(auto, using(crate::proofs::Leading::leads_on, crate::proofs::Leading::leads_nowhere))]
    fn make_way(&mut self, hart: u8, event: Event, outcome: Option<Outcome>) -> Result<bool, Fault>
        ensures start { start_of self.new ≡ start_of self.old }
        ensures leads { OnOk result (Leads self.old.machine self.new.machine) }
    {
        match outcome {
            Some(Outcome::Missed(_)) => {
                self.finish_miss(hart)?;
                Ok(true)
            }
            Some(Outcome::SetFull) => {
                self.make_room(hart, event)?;
                Ok(true)
            }
            _ => Ok(false),
        }
    }

    // A store conditional, whose hart has lost the line of its reserved word.
    fn fail(&mut self, hart: u8) -> Result<bool, Fault>
        ensures { start_of self.new ≡ start_of self.old }
    {
        let views = self.views();
        let place = usize::from(hart);
        if place >= views.harts() {
            return Ok(false);
        }
        let Some(Action::Sc { .. }) = views.hart(place).next_action(self.image()) else {
            return Ok(false);
        };
        if let Some(word) = views.reserved(place) {
            let line = views.config().line.line_of(word);
            self.give_up(hart, line)?;
        }
        Ok(has_stepped(self.apply(Event::Step { hart })?))
    }
}
