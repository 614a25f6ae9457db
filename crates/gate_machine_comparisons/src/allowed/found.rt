//! What is found of a program.

use anyhow::{Context, Result, ensure};
use elf_loader::Image;
use explorer::{Exploring, Found, compare, explore};
use flat_model::HartResult;
use machine_types::{Config, MemoryModel};
use state_search::{Throughout, Unwatched};
use std::alloc::Global;
use tl_types::LineSize;
use window_search::{Reach, search};
use witnesses::Witness;

/// How many operations of a hart may wait: more than a program here has.
const WINDOW: usize = 16;

/// More states than a program here has.
const STATES: u32 = 1_000_000;

/// Caches of one line of 16 bytes each.
pub fn config_of(harts: u32, model: MemoryModel) -> Result<Config> {
    Config::new(harts, 1, 1, LineSize::Bytes16, model).context("a configuration")
}

/// Whether the harts come to this in one of the outcomes.
pub fn is_among(witnesses: &[Witness], harts: &[HartResult]) -> bool {
    for witness in witnesses {
        if compare(&witness.harts, harts).is_eq() {
            return true;
        }
    }
    false
}

/// Whether each of the machine's outcomes is among those that are found.
fn are_among(witnesses: &[Witness], outcomes: &[Found]) -> bool {
    for end in outcomes {
        if !is_among(witnesses, &end.harts) {
            return false;
        }
    }
    true
}

/// The outcomes that are found under a model, which are to have all those among them to which the machine comes.
pub fn allowed(alloc: Global, image: &Image, config: Config) -> Result<Vec<Witness>> {
    let model = config.model;
    let found = search(
        alloc,
        image,
        config,
        &[],
        WINDOW,
        STATES,
        &Unwatched,
        &Throughout,
    )?;
    ensure!(found.reach == Reach::Whole, "{model:?}: a bound is met");
    let exploring = Exploring {
        limit: STATES,
        shortened: false,
    };
    let machine = explore(
        alloc,
        image,
        config,
        &[],
        exploring,
        &Unwatched,
        &Throughout,
    )?;
    ensure!(
        machine.extent.is_complete(),
        "{model:?}: the machine's limit is met"
    );
    ensure!(
        are_among(&found.witnesses, machine.outcomes.as_slice()),
        "{model:?}: the machine comes to an outcome that isn't found"
    );
    Ok(found.witnesses)
}
