//! Harts that stop, whatever the other harts do then, and what shows each.
ghost use Rattle.std.specs.Prelude.{◌≡◌, ◌≤◌, ℕ, All, Contains, IfOk, IsTrue, List, OnOk, Option, length, map};
ghost use Rattle.std.specs.List.{list_any};
ghost use Rattle.architecture_outcomes.specs.Failings.{HasEachFailure, IsDecidedStop, IsShown, failures_in, machine_stop, of_failure, of_run};
ghost use Rattle.elf_loader.specs.Image.{Initial};
ghost use Rattle.machine_types.specs.declared.config.Config.{Config};
ghost use Rattle.window_search.specs.Failure.{Failure as Failed};
ghost use Rattle.window_search.specs.Stops.{AreOnce, IsFailedRun, failures_of, is_same_failure};

use crate::outcome::Way;
use exploration_text::explorer::FoundFailure;
use exploration_text::explorer::flat_exploration::Failure;
use std::alloc::{AllocError, Global};
use window_search::FailedRun;

/// A hart that stops, whatever the other harts do then: who stops it, and by what.
#[derive(Drop)]
pub struct Failing {
    pub failure: Failure,
    pub way: Way,
}

impl Failing {
    /// Of a run that the memory model allows. As far as it was searched, the machine doesn't stop the hart so.
    fn beyond(run: FailedRun, is_complete: bool) -> Failing
        ensures { result ≡ of_run is_complete run }
    {
        let FailedRun { failure, trace } = run;
        let way = if is_complete {
            Way::ModelAlone(trace)
        } else {
            Way::Model(trace)
        };
        Failing { failure, way }
    }
}

/// The harts that the machine stops.
pub fn stops_of_machine(alloc: Global, found: Vec<FoundFailure>) -> Result<Vec<Failing>, AllocError>
    ensures { IfOk result (λ failings. failings.items ≡ map of_failure found.items) }
{
    let mut failings = Vec::new(alloc);
    for FoundFailure {
        failure,
        harts: _,
        script,
    } in found {
        failings.push(Failing {
            failure,
            way: Way::Machine(script),
        })?;
    }
    Ok(failings)
}

/// Whether this failure is among these.
fn is_among(failings: &[Failing], failure: Failure) -> bool
    ensures { result ≡ list_any (λ f. is_same_failure f.failure failure) failings.now }
{
    failings.iter().any(|failing| failing.failure == failure)
}

/// Adds the hart that a run shows to stop, unless it is there. `is_complete`: those of the machine are.
fn add_beyond(
    failings: &mut Vec<Failing>,
    run: FailedRun,
    is_complete: bool,
) -> Result<(), AllocError>
    ensures shown { (image : Initial) (config : Config) (addresses : List ℕ) → IsFailedRun image config run → (IsTrue is_complete → HasEachFailure image config (failures_in failings.old.items)) → All (IsShown image config addresses) failings.old.items → All (IsShown image config addresses) failings.new.items }
    ensures once { AreOnce (failures_in failings.old.items) → AreOnce (failures_in failings.new.items) }
    ensures decided { IsTrue is_complete → All IsDecidedStop failings.old.items → All IsDecidedStop failings.new.items }
    ensures kept { (x : Failed) → Contains (failures_in failings.old.items) x → Contains (failures_in failings.new.items) x }
    ensures grown { length failings.old.items ≤ length failings.new.items }
    ensures machine { (x : Option Failed) → Contains (map machine_stop failings.old.items) x → Contains (map machine_stop failings.new.items) x }
    ensures added { OnOk result (Contains (failures_in failings.new.items) run.failure) }
{
    if is_among(failings, run.failure) {
        return Ok(());
    }
    failings.push(Failing::beyond(run, is_complete))?;
    Ok(())
}

/// Adds the harts that these runs show to stop, each unless it is there. `is_complete`: those of the machine are.
pub(crate) fn add_each_beyond(
    failings: &mut Vec<Failing>,
    runs: Vec<FailedRun>,
    is_complete: bool,
) -> Result<(), AllocError>
    ensures shown { (image : Initial) (config : Config) (addresses : List ℕ) → All (IsFailedRun image config) runs.items → (IsTrue is_complete → HasEachFailure image config (failures_in failings.old.items)) → All (IsShown image config addresses) failings.old.items → All (IsShown image config addresses) failings.new.items }
    ensures once { AreOnce (failures_in failings.old.items) → AreOnce (failures_in failings.new.items) }
    ensures decided { IsTrue is_complete → All IsDecidedStop failings.old.items → All IsDecidedStop failings.new.items }
    ensures grown { length failings.old.items ≤ length failings.new.items }
    ensures machine { (x : Option Failed) → Contains (map machine_stop failings.old.items) x → Contains (map machine_stop failings.new.items) x }
    ensures added { OnOk result ((x : Failed) → Contains (failures_of runs.items) x → Contains (failures_in failings.new.items) x) }
{
    let mut left = runs;
    while let Some(run) = left.pop() {
        add_beyond(failings, run, is_complete)?;
    }
    Ok(())
}
