//! What this machine comes to, told as what is found under a memory model is.
ghost use Rattle.std.specs.Prelude.{◌≡◌, ◌<◌, IfOk, map};
ghost use Rattle.architecture_outcomes.specs.Outcomes.{of_found};
ghost use Rattle.architecture_outcomes.specs.Words.{CanShowEach};
ghost use Rattle.fence_audit.specs.Answers.{IsMachineSearchOf};

use architecture_outcomes::explorer::{Exploration, Exploring, Found, explore};
use architecture_outcomes::window_search::Reach;
use architecture_outcomes::{Architecture, Outcome, Way, stops_of_machine};
use elf_loader::Image;
use machine_types::Config;
use state_search::{Throughout, Watch};
use std::alloc::{AllocError, Global};

/// No window is wider, also where none is asked for.
const WIDEST: u32 = 64;

/// The ends as outcomes to which the machine comes.
fn of_machine(alloc: Global, found: Vec<Found>) -> Result<Vec<Outcome>, AllocError>
    ensures { IfOk result (λ outcomes. outcomes.items ≡ map of_found found.items) }
{
    let mut outcomes = Vec::new(alloc);
    for Found {
        harts,
        words,
        script,
    } in found {
        outcomes.push(Outcome {
            harts,
            words,
            way: Way::Machine(script),
        })?;
    }
    Ok(outcomes)
}

/// What the machine comes to. Nothing is asked of the memory model.
pub(crate) fn search_machine<W: Watch>(
    alloc: Global,
    image: &Image,
    config: Config,
    addresses: &[u32],
    window: u32,
    exploring: Exploring,
    watch: &W,
) -> Result<Architecture, AllocError>
    requires room { 0 < exploring.limit }
    requires words { CanShowEach image.now addresses.now }
    ensures { IfOk result (IsMachineSearchOf image.now config addresses.now window exploring.limit) }
{
    let Exploration {
        outcomes,
        failures,
        extent,
        states,
        ..
    } = explore(
        alloc,
        image,
        config,
        addresses,
        exploring,
        watch,
        &Throughout,
    )?;
    Ok(Architecture {
        outcomes: of_machine(alloc, outcomes)?,
        failures: stops_of_machine(alloc, failures)?,
        model: config.model,
        window: window.min(WIDEST),
        reach: Reach::Whole,
        states: 0,
        machine: extent,
        machine_states: states,
    })
}
