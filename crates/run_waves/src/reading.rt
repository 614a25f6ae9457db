//! Reading the values of a machine's signals.
ghost use Rattle.std.specs.Prelude.{◌≡◌};
ghost use Rattle.machine_model.specs.History.{entries_of};
ghost use Rattle.machine_model.specs.Views.{line_size, node_at, place_of};
ghost use Rattle.run_waves.specs.Values as values;
ghost use Rattle.run_waves.specs.declared.groups.Group.TheVariants as groups;

use crate::groups::Group;
use crate::values::{Values, ZEROS, of_cache, of_hart, of_known, of_queue, of_transaction};
use coherent_machine::Machine;
use elf_loader::BASE;
use hart::Retired;
use tl_types::{Channel, LineSize};
use trace_recorder::Trace;

/// The place in memory of the line that begins at an address.
fn place_of(size: LineSize, line: u32) -> u32
    ensures { result ≡ place_of size line }
{
    line.saturating_sub(BASE) / size.bytes()
}

/// What a hart has retired; of one that isn't there, nothing.
fn retired_by(trace: &Trace, hart: usize) -> &[Retired]
    ensures { result.now ≡ entries_of trace.now.history hart }
{
    if hart < trace.harts() {
        trace.entries(hart)
    } else {
        &[]
    }
}

fn hart_values(machine: &Machine, hart: usize) -> Values
    ensures { result ≡ values.values machine.now (groups.Hart hart) }
{
    let views = machine.views();
    if hart >= views.harts() {
        return ZEROS;
    }
    of_hart(
        views.hart(hart),
        retired_by(machine.trace(), hart),
        views.buffer(hart),
        views.reserved(hart),
    )
}

fn queue_values(machine: &Machine, hart: usize, channel: Channel) -> Values
    ensures { result ≡ values.values machine.now (groups.Queue hart channel) }
{
    let views = machine.views();
    if hart < views.harts() {
        of_queue(views.queues(hart), channel)
    } else {
        ZEROS
    }
}

fn copy_values(machine: &Machine, hart: usize, line: u32) -> Values
    ensures { result ≡ values.values machine.now (groups.Copy hart line) }
{
    let views = machine.views();
    if hart < views.harts() {
        of_cache(views.cache(hart), line)
    } else {
        ZEROS
    }
}

fn record_values(machine: &Machine, hart: u8, line: u32) -> Values
    ensures { result ≡ values.values machine.now (groups.Record hart line) }
{
    let views = machine.views();
    let directory = views.directory();
    let place = place_of(views.config().line, line);
    if (place as usize) < directory.lines() && hart < directory.harts() {
        of_known(directory.known(place, hart))
    } else {
        ZEROS
    }
}

fn transaction_values(machine: &Machine, line: u32) -> Values
    ensures { result ≡ values.values machine.now (groups.Transaction line) }
{
    let views = machine.views();
    let directory = views.directory();
    let place = place_of(views.config().line, line);
    if (place as usize) < directory.lines() {
        of_transaction(directory.transaction(place))
    } else {
        ZEROS
    }
}

/// The values of the signals of one part of a machine.
pub(crate) fn values_of(machine: &Machine, group: Group) -> Values
    ensures { result ≡ values.values machine.now group }
{
    match group {
        Group::Hart { hart } => hart_values(machine, hart as usize),
        Group::Queue { hart, channel } => queue_values(machine, hart as usize, channel),
        Group::Copy { hart, line } => copy_values(machine, hart as usize, line),
        Group::Record { hart, line } => record_values(machine, hart, line),
        Group::Transaction { line } => transaction_values(machine, line),
    }
}
