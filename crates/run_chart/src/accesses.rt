//! Which address an event is about.
ghost use Rattle.std.specs.Prelude.{◌≡◌};
ghost use Rattle.run_chart.specs.Accesses as accesses;

use event_stream::coherent_machine::Machine;
use event_stream::next_address;
use machine_types::Event;
use tl_types::LineSize;

/// The address that a step of a hart reads or writes, where there is such a hart.
fn accessed_at(machine: &Machine, hart: usize) -> Option<u32>
    ensures { result ≡ accesses.accessed_at machine.now hart }
{
    if hart < machine.views().harts() {
        next_address(machine, hart)
    } else {
        None
    }
}

/// The address that an event is about: what a step reads or writes, and what a drain or an eviction names.
pub(crate) fn address_at(machine: &Machine, event: Event) -> Option<u32>
    ensures { result ≡ accesses.address_at machine.now event }
{
    match event {
        Event::Step { hart } => accessed_at(machine, hart as usize),
        Event::Drain { word, .. } => Some(word),
        Event::Evict { line, .. } => Some(line),
        Event::Deliver { .. } | Event::Local { .. } => None,
    }
}

/// Whether an address lies in this line of memory.
pub(crate) fn lies_in(size: LineSize, line: u32, address: Option<u32>) -> bool
    ensures { result ≡ accesses.lies_in size line address }
{
    match address {
        Some(address) => size.line_of(address) == line,
        None => false,
    }
}
