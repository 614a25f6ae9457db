//! The machine, and the calls on it.

ghost use Rattle.std.specs.Prelude.{◌≡◌, ◌≢◌, ◌↔◌, ◌<◌, [], Err, IfErr, IfOk, OnOk, OnErr, length, map};
ghost use Rattle.machine_model.specs.Events.{Verdict, happens, verdict};
ghost use Rattle.machine_model.specs.LawfulLog.{IsLawfulLog};
ghost use Rattle.machine_model.specs.Laws.{Grows, IsHeadline, KeepsImageAndConfig};
ghost use Rattle.machine_model.specs.Views.{State, opening};
ghost use Rattle.machine_parts.specs.Applying.{Answers, answer_to};
ghost use Rattle.coherent_machine.specs.Adopting.{IsCurrent, local_of};
ghost use Rattle.coherent_machine.specs.Machine.{IsFirstRefusal, IsReached, IsRefusedAt, KeepsHeadline, Replayed, replayed_from};

use crate::adopting::is_current;
use crate::errors::{AdoptError, ReplayError};
use crate::outputs::Outputs;
use crate::views::Views;
use elf_loader::Image;
use hart::Batch;
use machine_model::trace_recorder::Trace;
use machine_model::{
    headline, image_and_config_stay, log_lawful_always, nothing_is_rewritten, ready_always,
    sound_always,
};
use machine_parts::{ApplyError, Parts};
use machine_types::{Config, Event, Outcome};
use std::alloc::{AllocError, Global};
use std::marker::Model;

/// Harts with their store buffers and caches, the manager of main memory, and the trace so far. Some list
/// of events leads to it from reset.
pub struct Machine {
    parts: Parts,
    outputs: Outputs,
}

// A call of its own: derived, it would stand field by field in each function that owns one.
impl Drop for Machine {
    fn drop(self) {
        let Machine {
            parts: _,
            outputs: _,
        } = self;
    }
}

impl Model for Machine {
    ghost use Rattle.machine_model.specs.Views.{State};
    ghost use Rattle.coherent_machine.specs.Machine.{IsReached};
    ghost use Rattle.std.specs.Coded.{codes};
    ghost use Rattle.machine_parts.specs.Codes.{cache_coded};

    ghost Value = { State };

    ghost coded = { Prim.hlevel (codes, cache_coded) };

    ghost view = { λ m. m.parts.state };

    ghost invariant = { λ m. IsReached m.parts.state };
}

impl Machine {
    /// A machine at reset. The only error is want of memory.
    pub fn new(alloc: Global, image: Image, config: Config) -> Result<Machine, AllocError>
        ensures ok { IfOk result (λ machine. machine ≡ opening image config) }
        ensures reached { IfOk result (λ machine. IsReached machine) }
        ensures headline { IfOk result (λ machine. IsHeadline image config machine) }
        ensures log { IfOk result (λ machine. IsLawfulLog machine.trace.log) }
    {
        headline();
        log_lawful_always();
        image_and_config_stay();
        let outputs = Outputs::new(alloc)?;
        let parts = Parts::new(alloc, image, config)?;
        Ok(Machine { parts, outputs })
    }

    /// Applies one event. Where it can't change anything its outcome says why, and where it is refused the
    /// error does.
    pub fn apply(&mut self, event: Event) -> Result<Outcome, ApplyError>
        ensures answers { Answers (verdict self.old event) self.old result self.new }
        ensures ok { OnOk result (self.new ≡ happens self.old event) }
        ensures err { OnErr result (self.new ≡ self.old) }
        ensures reached { IsReached self.new }
        ensures headline { KeepsHeadline self.new }
        ensures log { IsLawfulLog self.new.trace.log }
        ensures grows { Grows self.old.trace self.new.trace }
        ensures stays { KeepsImageAndConfig self.old self.new }
    {
        headline();
        log_lawful_always();
        sound_always();
        ready_always();
        nothing_is_rewritten();
        image_and_config_stay();
        self.parts.apply(&event)
    }

    /// What `apply` would answer to the event, had it memory; nothing changes.
    pub fn foresee(&self, event: Event) -> Result<Outcome, ApplyError>
        ensures { result ≡ answer_to (verdict self.now event) }
    {
        sound_always();
        self.parts.foresee(&event)
    }

    /// Adopts the private instructions that a hart has run by itself from where it stands, as the event
    /// `Local` of as many instructions.
    pub fn adopt(&mut self, hart: u8, batch: &Batch) -> Result<Outcome, AdoptError>
        ensures stale { (result ≡ Err AdoptError.Stale) ↔ (IsCurrent hart batch.now self.old → ⊥) }
        ensures empty { (result ≡ Err AdoptError.Empty) ↔ (IsCurrent hart batch.now self.old × (batch.now.entries ≡ [])) }
        ensures limit { (result ≡ Err AdoptError.Limit)
            ↔ (IsCurrent hart batch.now self.old × (batch.now.entries ≢ []) × (verdict self.old (local_of hart batch.now) ≡ Verdict.IsLimited)) }
        ensures ok { OnOk result (self.new ≡ happens self.old (local_of hart batch.now)) }
        ensures retired { IfOk result (λ outcome. verdict self.old (local_of hart batch.now) ≡ Verdict.Moves outcome self.new × (outcome ≡ Outcome.Retired)) }
        ensures err { OnErr result (self.new ≡ self.old) }
        ensures reached { IsReached self.new }
        ensures headline { KeepsHeadline self.new }
        ensures log { IsLawfulLog self.new.trace.log }
        ensures grows { Grows self.old.trace self.new.trace }
        ensures stays { KeepsImageAndConfig self.old self.new }
    {
        headline();
        log_lawful_always();
        sound_always();
        nothing_is_rewritten();
        image_and_config_stay();
        if !is_current(&self.parts, hart, batch) {
            return Err(AdoptError::Stale);
        }
        if batch.entries().is_empty() {
            return Err(AdoptError::Empty);
        }
        match self.parts.commit(hart, batch) {
            Ok(outcome) => Ok(outcome),
            Err(ApplyError::Limit) => Err(AdoptError::Limit),
            Err(ApplyError::NoMemory) => Err(AdoptError::NoMemory),
            Err(ApplyError::BadEvent) => unreachable!(),
        }
    }

    /// What the machine is at the moment.
    pub fn views(&self) -> Views<'_>
        ensures { result ≡ self.now }
    {
        Views { parts: &self.parts }
    }

    /// What is kept of the run so far: each hart's retired instructions and status, the performed order
    /// and the message log.
    pub fn trace(&self) -> &Trace
        ensures { result.now.history ≡ self.now.trace }
    {
        &self.parts.trace
    }

    /// The trace, and the numbers that each hart put out, by hart. It takes no memory.
    pub fn into_parts(self) -> (Trace, Vec<Vec<u32>>)
        ensures trace { result.0.history ≡ self.trace }
        ensures outputs { map (λ output. output.items) result.1.items ≡ map (λ node. node.output) self.views.nodes }
    {
        sound_always();
        let Machine { parts, outputs } = self;
        let Parts { nodes, trace, .. } = parts;
        (trace, outputs.of(nodes))
    }
}

/// Applies the events in their order to a machine at reset. Where one is refused the answer has its index.
pub fn replay(
    alloc: Global,
    image: Image,
    config: Config,
    events: &[Event],
) -> Result<Machine, ReplayError>
    ensures ok { IfOk result (λ machine. replayed_from 0 (opening image config) events.now ≡ Replayed.Reached machine) }
    ensures refused { IfErr result (λ error. IsFirstRefusal (opening image config) events.now error) }
    ensures reached { IfOk result (λ machine. IsReached machine) }
    ensures headline { IfOk result (λ machine. IsHeadline image config machine) }
    ensures log { IfOk result (λ machine. IsLawfulLog machine.trace.log) }
{
    image_and_config_stay();
    let mut machine = Machine::new(alloc, image, config)?;
    match apply_all(&mut machine, events) {
        Ok(()) => Ok(machine),
        Err((index, error)) => Err(ReplayError::Event(index, error)),
    }
}

fn apply_all(machine: &mut Machine, events: &[Event]) -> Result<(), (usize, ApplyError)>
    requires reached { IsReached machine.old }
    requires headline { KeepsHeadline machine.old }
    requires log { IsLawfulLog machine.old.trace.log }
    ensures ok { OnOk result (replayed_from 0 machine.old events.now ≡ Replayed.Reached machine.new) }
    ensures refused { IfErr result (λ error. IsRefusedAt machine.old events.now error.0 error.1) }
    ensures reached { IsReached machine.new }
    ensures headline { KeepsHeadline machine.new }
    ensures log { IsLawfulLog machine.new.trace.log }
{
    let mut index = 0;
    let mut rest = events;
    while let [event, tail @ ..] = rest {
        if let Err(error) = machine.apply(*event) {
            return Err((index, error));
        }
        index += 1;
        rest = tail;
    }
    Ok(())
}
