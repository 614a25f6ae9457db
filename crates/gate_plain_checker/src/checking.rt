//! A trace and an order in, a verdict out, under the checker's contract.
ghost use Rattle.std.specs.Prelude.{◌≡◌, ◌↔◌, ◌<◌, true, false, length, Err, IfOk, IsErrOf};
ghost use Rattle.memory_model.specs.Traces as traces;
ghost use Rattle.memory_model.specs.Traces.{IsLegalOrder};
ghost use Rattle.memory_model.specs.Verdict.{fault_in};
ghost use Rattle.rvwmo_order.specs.Answers.{IsSoundVerdict, fault_told, refusal, refusal_of};
ghost use Rattle.rvwmo_order.specs.Scans.{judged};

use crate::judging::judge;
use crate::orders::is_order;
use machine_types::MemoryModel;
use rvwmo_order::{CheckError, Verdict};
use std::alloc::{AllocError, Global};
use trace_operations::{Harts, are_runs, has_too_many, names_in, operations_at};
use trace_recorder::{OpId, Trace};

/// Whether an order of the operations of a trace is legal under a memory model.
pub fn check_model(
    alloc: Global,
    trace: &Trace,
    order: &[OpId],
    model: MemoryModel,
) -> Result<Verdict, CheckError>
    ensures no_run { traces.are_runs trace.now.history ≡ false → result ≡ Err CheckError.NotARun }
    ensures too_long { traces.are_runs trace.now.history ≡ true → 4096 < length (traces.names_in trace.now.history) → result ≡ Err CheckError.TooLong }
    ensures refused { ¬ IsErrOf result CheckError.NoMemory → refusal_of result ≡ refusal trace.now.history order.now }
    ensures legal { IfOk result (λ v. (v ≡ Verdict.Legal) ↔ IsLegalOrder model trace.now.history order.now) }
    ensures sound { IfOk result (λ v. IsSoundVerdict model trace.now.history order.now v) }
    ensures first { IfOk result (λ v. fault_told v ≡ fault_in model trace.now.history order.now) }
{
    if !are_runs(trace) {
        return Err(CheckError::NotARun);
    }
    if has_too_many(trace) {
        return Err(CheckError::TooLong);
    }
    let names = names_in(alloc, trace)?;
    if !is_order(&names, order) {
        return Err(CheckError::NotAnOrder);
    }
    Ok(verdict_on(alloc, trace, order, model)?)
}

// The verdict on an order of the operations.
fn verdict_on(
    alloc: Global,
    trace: &Trace,
    order: &[OpId],
    model: MemoryModel,
) -> Result<Verdict, AllocError>
    ensures { IfOk result (λ v. v ≡ judged model (traces.image_of trace.now.history) (traces.instructions trace.now.history) (traces.operations_at (traces.instructions trace.now.history) order.now)) }
{
    let harts = Harts::of(alloc, trace)?;
    let operations = operations_at(alloc, &harts, order)?;
    Ok(judge(model, trace.image(), &harts, &operations))
}
