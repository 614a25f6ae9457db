//! A machine with the events that changed it.

ghost use Rattle.std.specs.Prelude.{◌≡◌, [], IfErr, IfOk, OnOk};
ghost use Rattle.flat_model.specs.Shown.{results, told};
ghost use Rattle.machine_model.specs.Events.{after_events, verdict};
ghost use Rattle.machine_model.specs.Views.{opening};
ghost use Rattle.coherent_machine.specs.Machine.{IsFirstRefusal, Replayed, replayed_from};
ghost use Rattle.coherent_machine.specs.Moves.{AreMoves};
ghost use Rattle.schedules.specs.Schedules.{AnswersAs, Leads, MayAdd, Played, start_of};
ghost use Rattle.schedules.specs.Sublists.{IsSublist};

use crate::errors::Fault;
use crate::results::results_of;
use crate::schedule::Schedule;
use coherent_machine::{ApplyError, Machine, ReplayError, Views};
use elf_loader::Image;
use machine_model::changes_are_counted;
use machine_types::{Config, Event, MAX_HARTS, Outcome};
use std::alloc::{AllocError, Global};
use std::marker::Model;

/// The most harts that a machine has.
pub(crate) const MOST_HARTS: u8 = MAX_HARTS as u8;

/// A machine, and the events that changed it since its reset, the first one first.
#[derive(Drop)]
pub(crate) struct Player {
    machine: Machine,
    events: Vec<Event>,
}

impl Model for Player {
    ghost use Rattle.schedules.specs.Schedules.{IsPlayed, Played};
    ghost use Rattle.std.specs.Coded.{codes};
    ghost use Rattle.coherent_machine.specs.Codes.{cache_coded};

    ghost Value = { Played };

    ghost coded = { Prim.hlevel (codes, cache_coded) };

    ghost view = { λ p. record { machine = p.machine; events = p.events.items } };

    ghost invariant = { λ p. IsPlayed (record { machine = p.machine; events = p.events.items }) };
}

impl Player {
    /// A machine at reset, and no event yet.
    pub(crate) fn new(alloc: Global, image: Image, config: Config) -> Result<Player, AllocError>
        ensures ok { IfOk result (λ player. player ≡ record { machine = opening image config; events = [] }) }
    {
        let machine = Machine::new(alloc, image, config)?;
        Ok(Player {
            machine,
            events: Vec::new(alloc),
        })
    }

    /// Applies an event, and keeps it where it changes the machine. None where it names a hart, word,
    /// line or count that there isn't.
    #[tactic(auto, using(crate::proofs::Leading::leads_by, crate::proofs::Leading::leads_nowhere))]
    pub(crate) fn apply(&mut self, event: Event) -> Result<Option<Outcome>, Fault>
        ensures start { start_of self.new ≡ start_of self.old }
        ensures kept { MayAdd self.old.events event self.new.events }
        ensures answers { AnswersAs (verdict self.old.machine event) self.old.machine result self.new.machine }
        ensures leads { OnOk result (Leads self.old.machine self.new.machine) }
    {
        changes_are_counted();
        self.events.reserve(1)?;
        let changes = self.machine.views().changes();
        match self.machine.apply(event) {
            Ok(outcome) => {
                if self.machine.views().changes() != changes {
                    self.events.push_reserved(event);
                }
                Ok(Some(outcome))
            }
            Err(ApplyError::BadEvent) => Ok(None),
            Err(ApplyError::Limit) => Err(Fault::Limit),
            Err(ApplyError::NoMemory) => Err(Fault::NoMemory),
        }
    }

    /// Applies these events in their order to a machine at reset. Where one is refused the answer has its index.
    pub(crate) fn replay(&mut self, events: &[Event]) -> Result<(), ReplayError>
        requires { self.old.events ≡ [] }
        ensures start { start_of self.new ≡ start_of self.old }
        ensures ok { OnOk result (replayed_from 0 self.old.machine events.now ≡ Replayed.Reached self.new.machine) }
        ensures sublist { OnOk result (IsSublist self.new.events events.now) }
        ensures refused { IfErr result (λ error. IsFirstRefusal self.old.machine events.now error) }
    {
        let mut index = 0;
        let mut rest = events;
        while let [event, tail @ ..] = rest {
            match self.apply(*event) {
                Ok(Some(_)) => {}
                Ok(None) => return Err(ReplayError::Event(index, ApplyError::BadEvent)),
                Err(Fault::Limit) => return Err(ReplayError::Event(index, ApplyError::Limit)),
                Err(Fault::NoMemory) => return Err(ReplayError::NoMemory),
            }
            index += 1;
            rest = tail;
        }
        Ok(())
    }

    pub(crate) fn machine(&self) -> &Machine
        ensures { result.now ≡ self.now.machine }
    {
        &self.machine
    }

    /// The machine as it stands.
    pub(crate) fn views(&self) -> Views<'_>
        ensures { result ≡ self.now.machine }
    {
        self.machine.views()
    }

    pub(crate) fn image(&self) -> &Image
        ensures { result.now ≡ self.now.machine.trace.image }
    {
        self.machine.trace().image()
    }

    /// The events with what they led to.
    pub(crate) fn into_schedule(self, alloc: Global) -> Result<Schedule, AllocError>
        ensures leads { IfOk result (λ schedule. after_events (start_of self) schedule.events.items ≡ schedule.machine) }
        ensures replays { IfOk result (λ schedule. replayed_from 0 (start_of self) schedule.events.items ≡ Replayed.Reached schedule.machine) }
        ensures moves { IfOk result (λ schedule. AreMoves (start_of self) schedule.events.items) }
        ensures results { IfOk result (λ schedule. told schedule.results.items ≡ results schedule.machine) }
        ensures events { IfOk result (λ schedule. schedule.events.items ≡ self.events) }
    {
        let results = results_of(alloc, &self.machine.views())?;
        let Player { machine, events } = self;
        Ok(Schedule {
            events,
            machine,
            results,
        })
    }

    /// The events alone.
    pub(crate) fn into_events(self) -> Vec<Event>
        ensures leads { after_events (start_of self) result.items ≡ self.machine }
        ensures replays { replayed_from 0 (start_of self) result.items ≡ Replayed.Reached self.machine }
        ensures moves { AreMoves (start_of self) result.items }
        ensures events { result.items ≡ self.events }
    {
        let Player { machine: _, events } = self;
        events
    }
}
