//! What is told of a trace's order, line by line.
ghost use Rattle.std.specs.Prelude.{◌≡◌, ◌≢◌, ◌≤◌, ◌++◌, ◌∷◌, [], IfErr, IfOk, None, OnOk, Some, length, option_map};
ghost use Rattle.machine_types.specs.declared.limits.TheConstants.{MAX_ENTRIES};
ghost use Rattle.memory_model.specs.Order.{position_in};
ghost use Rattle.memory_model.specs.Rules.{items_of};
ghost use Rattle.memory_model.specs.Traces as traces;
ghost use Rattle.order_text.specs.Neighbours as neighbours;
ghost use Rattle.order_text.specs.Telling as spec;
ghost use Rattle.rvwmo_order.specs.Answers.{fault_told, refusal};

use crate::line::{Broken, Line, Link};
use crate::links::push_links;
use crate::neighbours::{operations_in, push_neighbour, push_overtaking};
use crate::relations::Relations;
use hart::Retired;
use machine_types::MemoryModel;
use memory_model::Operation;
use rvwmo_order::trace_operations::{Harts, completed, operations_at};
use rvwmo_order::{CheckError, Verdict, check_model};
use std::alloc::{AllocError, Global};
use trace_recorder::{OpId, Trace};

/// What is told of a trace's order, its completed one, under a memory model: whether it is legal, the harts' lists with what is
/// told of each operation, and the operations in the order. A trace whose order isn't judged isn't told, for the same cause.
pub fn order_lines(
    alloc: Global,
    trace: &Trace,
    model: MemoryModel,
) -> Result<Vec<Line>, CheckError>
    ensures lines { IfOk result (λ lines. lines.items ≡ spec.order_lines model trace.now.history) }
    ensures judged { IfOk result (λ _. refusal trace.now.history (traces.completed trace.now.history) ≡ None) }
    ensures refused { IfErr result (λ error. error ≢ CheckError.NoMemory → refusal trace.now.history (traces.completed trace.now.history) ≡ Some error) }
{
    let order = completed(alloc, trace)?;
    let verdict = check_model(alloc, trace, order.as_slice(), model)?;
    let mut lines = Vec::new(alloc);
    push_head(&mut lines, trace, model, verdict, order.len())?;
    push_body(alloc, &mut lines, trace, model, order.as_slice())?;
    Ok(lines)
}

// What a verdict says that the order breaks.
fn broken_by(verdict: Verdict) -> Option<Broken>
    ensures { result ≡ option_map spec.broken_of (fault_told verdict) }
{
    match verdict {
        Verdict::Legal => None,
        Verdict::Fault(code, first, second) => Some(Broken {
            code: code.number(),
            first,
            second,
        }),
    }
}

// The lines on the whole order.
fn push_head(
    lines: &mut Vec<Line>,
    trace: &Trace,
    model: MemoryModel,
    verdict: Verdict,
    operations: usize,
) -> Result<(), AllocError>
    ensures { OnOk result (lines.new.items ≡ lines.old.items
        ++ Line.Judged model (option_map spec.broken_of (fault_told verdict)) ∷ Line.Performed (length trace.now.history.performed) operations ∷ []) }
{
    lines.push(Line::Judged {
        model,
        broken: broken_by(verdict),
    })?;
    lines.push(Line::Performed {
        performed: trace.performed().len(),
        operations,
    })?;
    Ok(())
}

// The lines on the lists and on the operations in this order.
fn push_body(
    alloc: Global,
    lines: &mut Vec<Line>,
    trace: &Trace,
    model: MemoryModel,
    order: &[OpId],
) -> Result<(), AllocError>
    ensures { OnOk result (lines.new.items ≡ lines.old.items
        ++ spec.body_lines model trace.now.history (traces.operations_at (traces.instructions trace.now.history) order.now)) }
{
    let harts = Harts::of(alloc, trace)?;
    let operations = operations_at(alloc, &harts, order)?;
    let relations = Relations::of(alloc, trace, operations)?;
    push_lists(alloc, lines, trace, model, &harts, &relations)?;
    push_ordered(lines, relations.order())?;
    Ok(())
}

// The lines on the lists of all harts.
fn push_lists(
    alloc: Global,
    lines: &mut Vec<Line>,
    trace: &Trace,
    model: MemoryModel,
    harts: &Harts,
    relations: &Relations,
) -> Result<(), AllocError>
    ensures { OnOk result (lines.new.items ≡ lines.old.items ++ spec.lists_lines model harts.now relations.now 0 trace.now.history.entries) }
{
    for hart in 0..trace.harts() {
        push_list(
            alloc,
            lines,
            model,
            harts,
            relations,
            hart as u8,
            trace.entries(hart),
        )?;
    }
    Ok(())
}

// Those on a hart's list.
fn push_list(
    alloc: Global,
    lines: &mut Vec<Line>,
    model: MemoryModel,
    harts: &Harts,
    relations: &Relations,
    hart: u8,
    entries: &[Retired],
) -> Result<(), AllocError>
    requires { length entries.now ≤ MAX_ENTRIES }
    ensures { OnOk result (lines.new.items ≡ lines.old.items ++ spec.list_lines model harts.now relations.now hart 0 entries.now) }
{
    let own = operations_in(alloc, harts.items_of(hart))?;
    let mut place = 0;
    let mut rest = entries;
    while let [entry, tail @ ..] = rest {
        let name = OpId { hart, place };
        push_entry(alloc, lines, model, harts, relations, &own, name, entry)?;
        place += 1;
        rest = tail;
    }
    Ok(())
}

// Those on an instruction, of a hart with these operations.
fn push_entry(
    alloc: Global,
    lines: &mut Vec<Line>,
    model: MemoryModel,
    harts: &Harts,
    relations: &Relations,
    own: &[Operation],
    name: OpId,
    entry: &Retired,
) -> Result<(), AllocError>
    requires { own.now ≡ neighbours.operations_in (items_of harts.now name.hart) }
    ensures { OnOk result (lines.new.items ≡ lines.old.items
        ++ spec.entry_lines model (items_of harts.now name.hart) relations.now name entry.now (traces.operation_at harts.now name)) }
{
    let operation = operation_at(harts, name);
    lines.push(Line::Instruction {
        name,
        pc: entry.pc,
        word: entry.word,
        position: position_of(relations, operation),
    })?;
    if let Some(a) = operation {
        push_operation(alloc, lines, model, harts, relations, own, name.hart, &a)?;
    }
    Ok(())
}

// Those on an operation, of a hart with these operations.
fn push_operation(
    alloc: Global,
    lines: &mut Vec<Line>,
    model: MemoryModel,
    harts: &Harts,
    relations: &Relations,
    own: &[Operation],
    hart: u8,
    a: &Operation,
) -> Result<(), AllocError>
    requires { own.now ≡ neighbours.operations_in (items_of harts.now hart) }
    ensures { OnOk result (lines.new.items ≡ lines.old.items ++ spec.operation_lines model (items_of harts.now hart) relations.now a.now) }
{
    lines.push(Line::Access(*a))?;
    push_links(lines, relations, Link::ReadsFrom, a)?;
    push_links(lines, relations, Link::Coherence, a)?;
    push_links(lines, relations, Link::FromReads, a)?;
    push_neighbour(alloc, lines, model, harts.items_of(hart), relations, own, a)?;
    push_overtaking(lines, relations, own, a)?;
    Ok(())
}

// The operation of a name.
fn operation_at(harts: &Harts, name: OpId) -> Option<Operation>
    ensures { result ≡ traces.operation_at harts.now name }
{
    match harts.get(name.hart) {
        Some(items) => match items.get(name.place) {
            Some(item) => item.operation(),
            None => None,
        },
        None => None,
    }
}

fn position_of(relations: &Relations, operation: Option<Operation>) -> Option<usize>
    ensures { result ≡ option_map (position_in relations.now) operation }
{
    match operation {
        Some(a) => Some(relations.position_of(&a)),
        None => None,
    }
}

// The operations in their order.
fn push_ordered(lines: &mut Vec<Line>, order: &[Operation]) -> Result<(), AllocError>
    ensures { OnOk result (lines.new.items ≡ lines.old.items ++ spec.ordered_lines 0 order.now) }
{
    let mut position = 0;
    let mut rest = order;
    while let [operation, tail @ ..] = rest {
        lines.push(Line::Ordered {
            position,
            operation: *operation,
        })?;
        position += 1;
        rest = tail;
    }
    Ok(())
}
