//! What is told of an operation and those that precede it in its hart's list: the rules that order it behind its neighbour, and
//! the one that it overtakes.
ghost use Rattle.std.specs.Prelude.{◌≡◌, ◌++◌, ◌∷◌, IfOk, OnOk, filter, map};
ghost use Rattle.memory_model.specs.Operations as operations;
ghost use Rattle.memory_model.specs.Order.{last_of};
ghost use Rattle.memory_model.specs.Verdict.{name_of as spec_name_of};
ghost use Rattle.order_text.specs.Neighbours as spec;

use crate::line::Line;
use crate::relations::Relations;
use crate::rules::rules_between;
use machine_types::MemoryModel;
use memory_model::Operation;
use rvwmo_order::Rule;
use rvwmo_order::trace_operations::Items;
use rvwmo_order::trace_operations::accesses::{name_of, precedes};
use std::alloc::{AllocError, Global};

/// The operations of a hart's list, in program order.
pub(crate) fn operations_in(alloc: Global, items: &Items) -> Result<Vec<Operation>, AllocError>
    ensures { IfOk result (λ own. own.items ≡ spec.operations_in items.now) }
{
    let mut own = Vec::new(alloc);
    let mut rest = items.stretch(0, items.count() as usize);
    while let Some((item, tail)) = rest.split_first() {
        if let Some(operation) = item.operation() {
            own.push(operation)?;
        }
        rest = tail;
    }
    Ok(own)
}

// The operation before `b` in program order.
fn neighbour(own: &[Operation], b: &Operation) -> Option<Operation>
    ensures { result ≡ spec.neighbour own.now b.now }
{
    let mut found = None;
    let mut rest = own;
    while let [a, tail @ ..] = rest {
        if precedes(a, b) {
            found = Some(*a);
        }
        rest = tail;
    }
    found
}

/// The lines on the rules that order an operation behind its neighbour, where there is one.
pub(crate) fn push_neighbour(
    alloc: Global,
    lines: &mut Vec<Line>,
    model: MemoryModel,
    items: &Items,
    relations: &Relations,
    own: &[Operation],
    b: &Operation,
) -> Result<(), AllocError>
    ensures { OnOk result (lines.new.items ≡ lines.old.items ++ spec.neighbour_lines model items.now relations.now (spec.neighbour own.now b.now) b.now) }
{
    match neighbour(own, b) {
        Some(a) => {
            let rules = rules_between(alloc, model, items, relations, &a, b)?;
            push_rules(lines, &a, b, &rules)
        }
        None => Ok(()),
    }
}

fn push_rules(
    lines: &mut Vec<Line>,
    a: &Operation,
    b: &Operation,
    rules: &[Rule],
) -> Result<(), AllocError>
    ensures { OnOk result (lines.new.items ≡ lines.old.items ++ spec.rule_lines a.now b.now rules.now) }
{
    if rules.is_empty() {
        lines.push(Line::Neighbours {
            first: name_of(a),
            second: name_of(b),
            rule: None,
        })?;
        return Ok(());
    }
    push_each(lines, a, b, rules)
}

fn push_each(
    lines: &mut Vec<Line>,
    a: &Operation,
    b: &Operation,
    rules: &[Rule],
) -> Result<(), AllocError>
    ensures { OnOk result (lines.new.items ≡ lines.old.items ++ map (spec.ruled a.now b.now) rules.now) }
{
    let mut rest = rules;
    while let [rule, tail @ ..] = rest {
        lines.push(Line::Neighbours {
            first: name_of(a),
            second: name_of(b),
            rule: Some(*rule),
        })?;
        rest = tail;
    }
    Ok(())
}

// The nearest operation before `b` in program order that stands behind it in the order.
fn overtaken(relations: &Relations, own: &[Operation], b: &Operation) -> Option<Operation>
    ensures { result ≡ spec.overtaken relations.now own.now b.now }
{
    let mut found = None;
    let mut rest = own;
    while let [a, tail @ ..] = rest {
        if is_overtaken(relations, b, a) {
            found = Some(*a);
        }
        rest = tail;
    }
    found
}

// Whether `a` precedes `b` in program order and stands behind it in the order.
fn is_overtaken(relations: &Relations, b: &Operation, a: &Operation) -> bool
    ensures { result ≡ spec.is_overtaken relations.now b.now a.now }
{
    precedes(a, b) && relations.position_of(b) < relations.position_of(a)
}

/// The line on the operation that `b` overtakes, where there is one.
pub(crate) fn push_overtaking(
    lines: &mut Vec<Line>,
    relations: &Relations,
    own: &[Operation],
    b: &Operation,
) -> Result<(), AllocError>
    ensures { OnOk result (lines.new.items ≡ lines.old.items ++ spec.overtaking_lines (spec.overtaken relations.now own.now b.now) b.now) }
{
    if let Some(first) = overtaken(relations, own, b) {
        lines.push(Line::Overtaking { first, second: *b })?;
    }
    Ok(())
}
