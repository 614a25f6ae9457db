//! What the machine comes to.
ghost use Rattle.std.specs.Prelude.{◌≡◌, ◌<◌, ◌≤◌, All, Contains, IfOk, List, map};
ghost use Rattle.std.specs.List.Sorted.{IsStrictlySortedBy};
ghost use Rattle.std.specs.Ordering.{on};
ghost use Rattle.architecture_outcomes.specs.Failings.{HasEachFailure, HasSought, IsDecidedStop, IsShown, TellsEachStop, failures_in};
ghost use Rattle.architecture_outcomes.specs.Outcomes.{IsMachine, IsWitnessed, end_of, ends_of, of_found};
ghost use Rattle.architecture_outcomes.specs.Visited.{AreMachineStates};
ghost use Rattle.witnesses.specs.Flat.{Flat};
ghost use Rattle.exploration_text.specs.Outcomes.{HasEachEnd};
ghost use Rattle.exploration_text.specs.Ranks.{outcome_cmp};
ghost use Rattle.performed_words.specs.Words.{CanShowEach};
ghost use Rattle.window_search.specs.Stops.{AreOnce};

use crate::failing::{Failing, stops_of_machine};
use crate::outcome::{Outcome, Way};
use elf_loader::Image;
use exploration_text::explorer::{Exploration, Exploring, Found, Seek, explore};
use machine_types::Config;
use state_search::{Ending, Extent, Watch};
use std::alloc::{AllocError, Global};

/// The outcomes to which the machine comes, the harts that it stops, and how far it was searched.
#[derive(Drop)]
pub(crate) struct Machine {
    pub outcomes: Vec<Outcome>,
    pub failures: Vec<Failing>,
    pub extent: Extent,
    pub states: usize,
}

/// What the machine comes to, with the words of memory at these addresses.
pub(crate) fn search_machine<W: Watch, S: Seek>(
    alloc: Global,
    image: &Image,
    config: Config,
    addresses: &[u32],
    exploring: Exploring,
    watch: &W,
    seek: &S,
) -> Result<Machine, AllocError>
    requires room { 0 < exploring.limit }
    requires words { CanShowEach image.now addresses.now }
    ensures shown { IfOk result (λ m. All (IsWitnessed image.now config addresses.now) m.outcomes.items) }
    ensures machine { IfOk result (λ m. All (λ o. IsMachine o.way) m.outcomes.items) }
    ensures complete { IfOk result (λ m. m.extent ≡ Extent.Complete → HasEachEnd image.now config addresses.now (ends_of m.outcomes.items)) }
    ensures once { IfOk result (λ m. IsStrictlySortedBy (on end_of outcome_cmp) m.outcomes.items) }
    ensures stopped { IfOk result (λ m. All (IsShown image.now config addresses.now) m.failures.items) }
    ensures stopped_once { IfOk result (λ m. AreOnce (failures_in m.failures.items)) }
    ensures stopped_machine { IfOk result (λ m. All IsDecidedStop m.failures.items) }
    ensures each_stopped { IfOk result (λ m. m.extent ≡ Extent.Complete → HasEachFailure image.now config (failures_in m.failures.items)) }
    ensures each_told { IfOk result (λ m. m.extent ≡ Extent.Complete → TellsEachStop image.now config m.failures.items) }
    ensures first { IfOk result (λ m. m.extent ≡ Extent.Ended Ending.First → HasSought (S.SeeksStops seek.now) (S.IsSought seek.now) m.failures.items (ends_of m.outcomes.items)) }
    ensures timed { IfOk result (λ m. m.extent ≡ Extent.Ended Ending.Time → S.IsTimed seek.now) }
    ensures within { IfOk result (λ m. m.states ≤ exploring.limit) }
    ensures full { IfOk result (λ m. m.extent ≡ Extent.LimitMet → m.states ≡ exploring.limit) }
    ensures visited { IfOk result (λ m. (states : List Flat) × AreMachineStates image.now config addresses.now m.extent m.states (Contains (ends_of m.outcomes.items)) states) }
{
    let Exploration {
        outcomes,
        failures,
        extent,
        states,
        ..
    } = explore(alloc, image, config, addresses, exploring, watch, seek)?;
    Ok(Machine {
        outcomes: of_machine(alloc, outcomes)?,
        failures: stops_of_machine(alloc, failures)?,
        extent,
        states,
    })
}

/// The ends as outcomes to which the machine comes.
fn of_machine(alloc: Global, found: Vec<Found>) -> Result<Vec<Outcome>, AllocError>
    ensures { IfOk result (λ outcomes. outcomes.items ≡ map of_found found.items) }
{
    let mut outcomes = Vec::new(alloc);
    for Found {
        harts,
        words,
        script,
    } in found {
        outcomes.push(Outcome {
            harts,
            words,
            way: Way::Machine(script),
        })?;
    }
    Ok(outcomes)
}
