//! What the bytes of an access are linked with: the store that a load reads, the store that a store overwrites, and the store
//! that overwrites what a load read.
ghost use Rattle.std.specs.Prelude.{◌≡◌, ◌++◌, ◌%◌, ◌^◌, OnOk};
ghost use Rattle.std.specs.List.{flat_map};
ghost use Rattle.memory_model.specs.Operations.{addresses_of};
ghost use Rattle.order_text.specs.Links as spec;

use crate::line::{Line, Link};
use crate::relations::Relations;
use memory_model::{Kind, Operation};
use rvwmo_order::trace_operations::accesses::{end_of, name_of, reads, writes};
use std::alloc::AllocError;
use trace_recorder::OpId;

// What byte `x` of an operation is linked with.
fn linked_with(relations: &Relations, link: Link, a: &Operation, x: u64) -> Option<Operation>
    ensures { result ≡ spec.linked_with relations.now link a.now x }
{
    match link {
        Link::ReadsFrom => relations.source(a, x),
        Link::Coherence => relations.overwritten(a, x),
        Link::FromReads => relations.overwriter(a, x),
    }
}

fn name_linked(relations: &Relations, link: Link, a: &Operation, x: u64) -> Option<OpId>
    ensures { result ≡ spec.name_linked relations.now link a.now x }
{
    match linked_with(relations, link, a, x) {
        Some(other) => Some(name_of(&other)),
        None => None,
    }
}

// Whether operations of this kind are linked so.
fn applies(link: Link, kind: Kind) -> bool
    ensures { result ≡ spec.applies link kind }
{
    match link {
        Link::ReadsFrom | Link::FromReads => reads(kind),
        Link::Coherence => writes(kind),
    }
}

fn is_same_name(a: Option<OpId>, b: Option<OpId>) -> bool
    ensures { result ≡ spec.is_same_name a b }
{
    match (a, b) {
        (None, None) => true,
        (Some(a), Some(b)) => a.hart == b.hart && a.place == b.place,
        _ => false,
    }
}

// Whether all bytes of an operation are linked with this.
fn is_uniform(relations: &Relations, link: Link, a: &Operation, first: Option<OpId>) -> bool
    ensures { result ≡ spec.is_uniform relations.now link a.now first }
{
    (u64::from(a.address)..end_of(a)).all(|x| is_same_name(
        name_linked(relations, link, a, x),
        first,
    ))
}

// Whether a byte that is linked so with this is told.
fn is_told(link: Link, other: Option<OpId>) -> bool
    ensures { result ≡ spec.is_told link other }
{
    match link {
        Link::ReadsFrom | Link::Coherence => true,
        Link::FromReads => other.is_some(),
    }
}

// The line on so many bytes from an address on.
fn push_link(
    lines: &mut Vec<Line>,
    link: Link,
    operation: OpId,
    x: u64,
    count: u32,
    other: Option<OpId>,
) -> Result<(), AllocError>
    ensures { OnOk result (lines.new.items ≡ lines.old.items ++ spec.link_line link operation x count other) }
{
    if !is_told(link, other) {
        return Ok(());
    }
    let address = (x % 0x1_0000_0000) as u32;
    lines.push(Line::Linked {
        link,
        operation,
        other,
        address,
        count,
    })?;
    Ok(())
}

// A line on each byte.
fn push_bytes(
    lines: &mut Vec<Line>,
    relations: &Relations,
    link: Link,
    a: &Operation,
) -> Result<(), AllocError>
    ensures { OnOk result (lines.new.items ≡ lines.old.items ++ flat_map (spec.byte_line relations.now link a.now) (addresses_of a.now)) }
{
    for x in u64::from(a.address)..end_of(a) {
        let other = name_linked(relations, link, a, x);
        push_link(lines, link, name_of(a), x, 1, other)?;
    }
    Ok(())
}

/// The lines on what an operation is linked with so.
pub(crate) fn push_links(
    lines: &mut Vec<Line>,
    relations: &Relations,
    link: Link,
    a: &Operation,
) -> Result<(), AllocError>
    ensures { OnOk result (lines.new.items ≡ lines.old.items ++ spec.link_lines relations.now link a.now) }
{
    if !applies(link, a.kind) {
        return Ok(());
    }
    let first = name_linked(relations, link, a, u64::from(a.address));
    if is_uniform(relations, link, a, first) {
        push_link(lines, link, name_of(a), u64::from(a.address), a.size, first)
    } else {
        push_bytes(lines, relations, link, a)
    }
}
