//! When a hart of a machine and a flat hart are the same.

use coherent_machine::Views;
use gate_plain_machine::FlatView;
use store_buffer::StoreBuffer;
use trace_recorder::Trace;

fn is_same_entry(flat: &gate_plain_machine::Entry, entry: &store_buffer::Entry) -> bool {
    entry.word == flat.word
        && entry.mask.marks() == flat.mask
        && entry.bytes == flat.bytes
        && entry.ops.as_slice() == flat.ops.as_slice()
}

fn is_same_group(flat: &[gate_plain_machine::Entry], group: &[store_buffer::Entry]) -> bool {
    for (flat, entry) in flat.iter().zip(group) {
        if !is_same_entry(flat, entry) {
            return false;
        }
    }
    flat.len() == group.len()
}

fn is_same_buffer(flat: &FlatView<'_>, buffer: &StoreBuffer) -> bool {
    let groups = buffer.group_count();
    for index in 0..groups {
        match flat.group(index) {
            Some(group) if is_same_group(group, buffer.group(index)) => {}
            _ => return false,
        }
    }
    flat.group(groups).is_none()
}

/// In what a hart differs from its flat hart, but for what it retired before its last instruction. Where it
/// has no reservation the flat one may be any.
pub fn difference_of(
    flat: &FlatView<'_>,
    views: &Views<'_>,
    trace: &Trace,
    hart: usize,
) -> Option<&'static str> {
    if hart >= views.harts() || hart >= trace.harts() || views.hart(hart) != flat.hart() {
        return Some("a hart differs");
    }
    if views.output(hart) != flat.output() {
        return Some("an output differs");
    }
    if !is_same_buffer(flat, views.buffer(hart)) {
        return Some("a store buffer differs");
    }
    let reserved = views.reserved(hart);
    if reserved.is_some() && reserved != flat.reserved() {
        return Some("a reservation differs");
    }
    let entries = trace.entries(hart);
    if entries.len() != flat.entries().len() || entries.last() != flat.entries().last() {
        return Some("a list differs");
    }
    None
}
