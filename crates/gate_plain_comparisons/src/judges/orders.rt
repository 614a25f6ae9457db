//! Judges kept traces with the checker and with its plain body, each in its completed order and with every
//! two neighbouring performed operations exchanged, under both memory models, and compares what they answer.
//! A file has one trace behind another.

use super::are_alike;
use super::traces::Traces;
use anyhow::{Result, bail, ensure};
use machine_types::MemoryModel;
use std::alloc::Global;
use std::fs;
use std::io::Write;
use std::rt::Files;
use trace_recorder::{OpId, Trace};

/// The files, each with how many traces it has.
static FILES: [(&str, usize); 3] = [
    ("judged/rows", 74),
    ("judged/programs", 200),
    ("judged/shapes", 137),
];

/// Judges each file, and says how many orders were judged alike.
pub fn judge_files<R: Files + AllocGlobal, W: Write>(rt: &R, out: &mut W) -> Result<()> {
    for (name, traces) in &FILES {
        let bytes = fs::read(rt, name)?;
        let orders = judge_file(rt.alloc(), name, &bytes, *traces)?;
        writeln!(out, "{name}: {traces} traces, {orders} orders judged alike")?;
    }
    Ok(())
}

// Compares the verdicts on so many traces, and says how many orders were judged.
fn judge_file(alloc: Global, name: &str, bytes: &[u8], traces: usize) -> Result<usize> {
    let mut file = Traces { rest: bytes };
    let mut orders = 0usize;
    for number in 0..traces {
        match judge_next(alloc, &mut file) {
            Ok(judged) => orders = orders.saturating_add(judged),
            Err(error) => bail!("{name}: trace {number}: {error}"),
        }
    }
    ensure!(file.rest.is_empty(), "{name} has more traces");
    Ok(orders)
}

fn judge_next(alloc: Global, file: &mut Traces<'_>) -> Result<usize> {
    let trace = file.next(alloc)?;
    let rvwmo = judge_trace(alloc, &trace, MemoryModel::Rvwmo)?;
    let ztso = judge_trace(alloc, &trace, MemoryModel::Ztso)?;
    Ok(rvwmo.saturating_add(ztso))
}

// Compares the verdicts on a trace's completed order, and on that with each two neighbours exchanged.
fn judge_trace(alloc: Global, trace: &Trace, model: MemoryModel) -> Result<usize> {
    let mut order = completed(alloc, trace)?;
    let performed = trace.performed().len();
    compare_each(alloc, trace, &mut order, performed, model)?;
    Ok(performed.max(1))
}

// The trace's completed order, which both bodies find.
fn completed(alloc: Global, trace: &Trace) -> Result<Vec<OpId>> {
    let order = trace_operations::completed(alloc, trace)?;
    let plain = gate_plain_checker::completed(alloc, trace)?;
    ensure!(order == plain, "completed orders differ");
    Ok(order)
}

fn compare_each(
    alloc: Global,
    trace: &Trace,
    order: &mut [OpId],
    performed: usize,
    model: MemoryModel,
) -> Result<()> {
    ensure!(performed <= order.len(), "an order is too short");
    compare(alloc, trace, order, model)?;
    for behind in 1..performed {
        order.swap(behind - 1, behind);
        compare(alloc, trace, order, model)?;
        order.swap(behind - 1, behind);
    }
    Ok(())
}

// Fails where the two bodies answer differently.
fn compare(alloc: Global, trace: &Trace, order: &[OpId], model: MemoryModel) -> Result<()> {
    let indexed = rvwmo_order::check_model(alloc, trace, order, model);
    let plain = gate_plain_checker::check_model(alloc, trace, order, model);
    are_alike(&indexed, &plain)
}
