//! The checker: a trace and an order in, a verdict out.
ghost use Rattle.std.specs.Prelude.{◌≡◌, ◌↔◌, ◌≤◌, ◌<◌, ◌+◌, true, false, length, nat_lt, Err, IfOk, IsErrOf, if◌then◌else◌};
ghost use Rattle.memory_model.specs.Traces as traces;
ghost use Rattle.memory_model.specs.Traces.{IsLegalOrder};
ghost use Rattle.memory_model.specs.Verdict.{fault_in};
ghost use Rattle.rvwmo_order.specs.Answers.{IsSoundVerdict, fault_told, refusal, refusal_of};
ghost use Rattle.rvwmo_order.specs.Looks.{most_looks};
ghost use Rattle.rvwmo_order.specs.Scans.{judged};

use crate::error::CheckError;
use crate::judging::judge;
use crate::ranking::Ranking;
use crate::verdict::Verdict;
use machine_types::MemoryModel;
use memory_model::trace_recorder::{OpId, Trace};
use std::alloc::{AllocError, Global};
use std::marker::Brand;
use std::sync::ledger::{Blank, Ledger};
use tl_types::Ticks;
use trace_operations::{Harts, are_runs, few_names, has_too_many, is_order, operations_at};

/// Whether an order of the operations of a trace is legal under RVWMO.
pub fn check(alloc: Global, trace: &Trace, order: &[OpId]) -> Result<Verdict, CheckError>
    ensures no_run { traces.are_runs trace.now.history ≡ false → result ≡ Err CheckError.NotARun }
    ensures too_long { traces.are_runs trace.now.history ≡ true → 4096 < length (traces.names_in trace.now.history) → result ≡ Err CheckError.TooLong }
    ensures refused { ¬ IsErrOf result CheckError.NoMemory → refusal_of result ≡ refusal trace.now.history order.now }
    ensures legal { IfOk result (λ v. (v ≡ Verdict.Legal) ↔ IsLegalOrder MemoryModel.Rvwmo trace.now.history order.now) }
    ensures sound { IfOk result (λ v. IsSoundVerdict MemoryModel.Rvwmo trace.now.history order.now v) }
    ensures first { IfOk result (λ v. fault_told v ≡ fault_in MemoryModel.Rvwmo trace.now.history order.now) }
{
    check_model(alloc, trace, order, MemoryModel::Rvwmo)
}

/// Whether an order of the operations of a trace is legal under a memory model.
pub fn check_model(
    alloc: Global,
    trace: &Trace,
    order: &[OpId],
    model: MemoryModel,
) -> Result<Verdict, CheckError>
    ensures no_run { traces.are_runs trace.now.history ≡ false → result ≡ Err CheckError.NotARun }
    ensures too_long { traces.are_runs trace.now.history ≡ true → 4096 < length (traces.names_in trace.now.history) → result ≡ Err CheckError.TooLong }
    ensures refused { ¬ IsErrOf result CheckError.NoMemory → refusal_of result ≡ refusal trace.now.history order.now }
    ensures legal { IfOk result (λ v. (v ≡ Verdict.Legal) ↔ IsLegalOrder model trace.now.history order.now) }
    ensures sound { IfOk result (λ v. IsSoundVerdict model trace.now.history order.now v) }
    ensures first { IfOk result (λ v. fault_told v ≡ fault_in model trace.now.history order.now) }
{
    check_on::<Brand>(alloc, trace, order, model, Blank::new(1))
}

// The same with a ledger for the looks, which nobody asks for.
fn check_on<L: Ledger>(
    alloc: Global,
    trace: &Trace,
    order: &[OpId],
    model: MemoryModel,
    blank: Blank,
) -> Result<Verdict, CheckError>
    requires name { blank.name ≡ L.name }
    requires parts { blank.parts ≡ L.parts }
    requires some { 0 < L.parts }
    ensures no_run { traces.are_runs trace.now.history ≡ false → result ≡ Err CheckError.NotARun }
    ensures too_long { traces.are_runs trace.now.history ≡ true → 4096 < length (traces.names_in trace.now.history) → result ≡ Err CheckError.TooLong }
    ensures refused { ¬ IsErrOf result CheckError.NoMemory → refusal_of result ≡ refusal trace.now.history order.now }
    ensures legal { IfOk result (λ v. (v ≡ Verdict.Legal) ↔ IsLegalOrder model trace.now.history order.now) }
    ensures sound { IfOk result (λ v. IsSoundVerdict model trace.now.history order.now v) }
    ensures first { IfOk result (λ v. fault_told v ≡ fault_in model trace.now.history order.now) }
{
    let mut ticks: Ticks<L> = Ticks::new(blank);
    check_counted(alloc, trace, order, model, &mut ticks)
}

/// The same, with the stores counted that were looked at to find those that the bytes of loads come from: for
/// each byte of each load no more than the order has stores to that byte.
pub fn check_counted<L: Ledger>(
    alloc: Global,
    trace: &Trace,
    order: &[OpId],
    model: MemoryModel,
    ticks: &mut Ticks<L>,
) -> Result<Verdict, CheckError>
    ensures no_run { traces.are_runs trace.now.history ≡ false → result ≡ Err CheckError.NotARun }
    ensures too_long { traces.are_runs trace.now.history ≡ true → 4096 < length (traces.names_in trace.now.history) → result ≡ Err CheckError.TooLong }
    ensures refused { ¬ IsErrOf result CheckError.NoMemory → refusal_of result ≡ refusal trace.now.history order.now }
    ensures legal { IfOk result (λ v. (v ≡ Verdict.Legal) ↔ IsLegalOrder model trace.now.history order.now) }
    ensures sound { IfOk result (λ v. IsSoundVerdict model trace.now.history order.now v) }
    ensures first { IfOk result (λ v. fault_told v ≡ fault_in model trace.now.history order.now) }
    ensures looks { ticks.new ≤ ticks.old + most_looks (traces.operations_at (traces.instructions trace.now.history) order.now) }
{
    let Ok(found) = few_names(alloc, trace) else {
        return Err(unless_no_run(trace, unless_too_long(trace)));
    };
    let Some(names) = found else {
        return Err(unless_no_run(trace, CheckError::TooLong));
    };
    let Ok(runs) = Harts::of_runs(alloc, trace) else {
        return Err(unless_no_run(trace, CheckError::NoMemory));
    };
    let Some(harts) = runs else {
        return Err(CheckError::NotARun);
    };
    if !is_order(alloc, trace, &harts, &names, order)? {
        return Err(CheckError::NotAnOrder);
    }
    Ok(verdict_on(alloc, trace, &harts, order, model, ticks)?)
}

// Why an order isn't judged, where it is for this cause unless a list is no run, which takes no memory to find.
fn unless_no_run(trace: &Trace, cause: CheckError) -> CheckError
    ensures { result ≡ (if traces.are_runs trace.now.history then cause else CheckError.NotARun) }
{
    if are_runs(trace) {
        cause
    } else {
        CheckError::NotARun
    }
}

// Why an order isn't judged, where memory was refused for the names of its operations.
fn unless_too_long(trace: &Trace) -> CheckError
    ensures { result ≡ (if nat_lt 4096 (length (traces.names_in trace.now.history)) then CheckError.TooLong else CheckError.NoMemory) }
{
    if has_too_many(trace) {
        CheckError::TooLong
    } else {
        CheckError::NoMemory
    }
}

// The verdict on an order of the operations.
fn verdict_on<L: Ledger>(
    alloc: Global,
    trace: &Trace,
    harts: &Harts,
    order: &[OpId],
    model: MemoryModel,
    ticks: &mut Ticks<L>,
) -> Result<Verdict, AllocError>
    requires all { harts.now ≡ traces.instructions trace.now.history }
    requires whole { traces.has_each_operation_once trace.now.history order.now ≡ true }
    ensures verdict { IfOk result (λ v. v ≡ judged model (traces.image_of trace.now.history) (traces.instructions trace.now.history) (traces.operations_at (traces.instructions trace.now.history) order.now)) }
    ensures looks { ticks.new ≤ ticks.old + most_looks (traces.operations_at (traces.instructions trace.now.history) order.now) }
{
    let ranking = Ranking::of(alloc, trace, operations_at(alloc, harts, order)?, ticks)?;
    judge(alloc, model, trace.image(), harts, &ranking)
}
