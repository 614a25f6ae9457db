//! Which runs are witnesses.
ghost use Rattle.std.specs.Prelude.{◌≡◌, ◌↔◌, ◌≤◌, None, IfOk, IfSome, IsTrue, length};
ghost use Rattle.std.specs.List.{list_all};
ghost use Rattle.rvwmo_order.specs.Traces.{names_in};
ghost use Rattle.witnesses.specs.Witnesses.{CanBeJudged, CanBeWitness, HasLists, IsAllowed, IsLegalTrace, IsWitness, has_ended, history_of};

use crate::results::results_of;
use crate::witness::{Run, Witness};
use elf_loader::Image;
use hart::Status;
use machine_types::{Config, MemoryModel};
use rvwmo_order::{CheckError, Verdict, check_model};
use std::alloc::{AllocError, Global};
use trace_recorder::{Trace, are_within_limits};

/// The trace of a run, where its lists are those of the program's harts from reset on, of which some may run still, and
/// its order is one of all their operations that the model of the machine allows. None is told of lists that are longer
/// than a trace's can be, or have more than 4,096 operations. The only error is want of memory.
pub fn judge_trace(
    alloc: Global,
    image: &Image,
    config: &Config,
    run: Run,
) -> Result<Option<Trace>, AllocError>
    ensures legal { IfOk result (λ told. IfSome told (λ trace. IsLegalTrace image.now config.now trace.history)) }
    ensures of_the_run { IfOk result (λ told. IfSome told (λ trace. trace.history ≡ history_of image.now config.now run)) }
    ensures none_left_out { IfOk result (λ told. told ≡ None → ¬ CanBeJudged image.now config.now run) }
{
    if !has_lists(&run, config.harts) {
        return Ok(None);
    }
    let Run {
        entries,
        statuses,
        order,
    } = run;
    let copy = image.try_copy(alloc)?;
    let line = config.line;
    let log = Vec::new(alloc);
    let trace = Trace::from_parts(copy, line, entries, statuses, order, log);
    if is_legal(alloc, &trace, config.model)? {
        Ok(Some(trace))
    } else {
        Ok(None)
    }
}

/// A witness of what this run comes to, where its trace is told and all harts have ended. The only error is want of
/// memory.
pub fn judge(
    alloc: Global,
    image: &Image,
    config: &Config,
    run: Run,
) -> Result<Option<Witness>, AllocError>
    ensures witnessed { IfOk result (λ told. IfSome told (IsWitness image.now config.now)) }
    ensures of_the_run { IfOk result (λ told. IfSome told (λ witness. witness.trace.history ≡ history_of image.now config.now run)) }
    ensures none_left_out { IfOk result (λ told. told ≡ None → ¬ CanBeWitness image.now config.now run) }
{
    if !has_lists(&run, config.harts) || !have_ended(&run.statuses) {
        return Ok(None);
    }
    let harts = results_of(alloc, image, &run.entries, &run.statuses)?;
    let Some(trace) = judge_trace(alloc, image, config, run)? else {
        return Ok(None);
    };
    Ok(Some(Witness { harts, trace }))
}

/// Whether all harts have ended.
fn have_ended(statuses: &[Status]) -> bool
    ensures { result ≡ list_all has_ended statuses.now }
{
    statuses.iter().all(|status| !status.is_running())
}

/// Whether there is a list and a status for each hart, and no list is too long for a trace.
fn has_lists(run: &Run, harts: u32) -> bool
    ensures { IsTrue result ↔ HasLists harts run.now }
{
    run.entries.len() == harts as usize
        && run.statuses.len() == harts as usize
        && are_within_limits(&run.entries)
}

/// Whether the lists of a trace are runs, and its performed order is a legal one of all their operations.
fn is_legal(alloc: Global, trace: &Trace, model: MemoryModel) -> Result<bool, AllocError>
    ensures { IfOk result (λ legal. IsTrue legal ↔ (IsAllowed model trace.now.history × length (names_in trace.now.history) ≤ 4096)) }
{
    match check_model(alloc, trace, trace.performed(), model) {
        Ok(Verdict::Legal) => Ok(true),
        Ok(Verdict::Fault(_, _, _)) => Ok(false),
        Err(CheckError::NotARun | CheckError::NotAnOrder | CheckError::TooLong) => Ok(false),
        Err(CheckError::NoMemory) => Err(AllocError),
    }
}
