//! What an event came to, and by what it made the lists longer.
ghost use Rattle.std.specs.Prelude.{◌≡◌, drop};
ghost use Rattle.machine_model.specs.Events.{hart_of};
ghost use Rattle.trace_text.specs.History as history;
ghost use Rattle.event_stream.specs.Reports as reports;
ghost use Rattle.event_stream.specs.Telling.{lengths_of, report_of, report_behind};

use coherent_machine::{Machine, Views};
use hart::Retired;
use machine_types::{Event, Outcome};
use rv32_exec::Action;
use trace_text::trace_recorder::{Logged, OpId, Trace};

/// How long the lists are before an event of a hart, and how many events have changed the machine.
#[derive(Clone, Copy, Debug)]
pub struct Lengths {
    pub entries: usize,
    pub performed: usize,
    pub log: usize,
    pub output: usize,
    pub changes: u32,
}

/// An event by its index in the script, from 0, its outcome, what the instruction of a step was to do, the
/// machine behind it, and what it added to the lists.
#[derive(Clone, Copy)]
pub struct Report<'a> {
    pub index: usize,
    pub event: Event,
    pub outcome: Outcome,
    pub action: Option<Action>,
    pub machine: &'a Machine,
    pub entries: &'a [Retired],
    pub performed: &'a [OpId],
    pub log: &'a [Logged],
    pub output: &'a [u32],
}

/// The hart that an event is of.
pub fn hart_of(event: Event) -> u8
    ensures { result ≡ hart_of event }
{
    match event {
        Event::Step { hart }
        | Event::Drain { hart, .. }
        | Event::Evict { hart, .. }
        | Event::Deliver { hart, .. }
        | Event::Local { hart, .. } => hart,
    }
}

/// What a hart has retired; of one that isn't there, nothing.
fn entries_of(trace: &Trace, hart: usize) -> &[Retired]
    ensures { result.now ≡ history.entries_of trace.now.history hart }
{
    if hart < trace.harts() {
        trace.entries(hart)
    } else {
        &[]
    }
}

/// What a hart has put out; of one that isn't there, nothing.
fn outputs_of<'a>(views: Views<'a>, hart: usize) -> &'a [u32]
    ensures { result.now ≡ reports.outputs_of views.entry hart }
{
    if hart < views.harts() {
        views.output(hart)
    } else {
        &[]
    }
}

/// What the next instruction of a hart is to do, where there is such a hart.
fn action_at(machine: &Machine, hart: usize) -> Option<Action>
    ensures { result ≡ reports.action_at machine.now hart }
{
    if hart < machine.views().harts() {
        machine
            .views()
            .hart(hart)
            .next_action(machine.trace().image())
    } else {
        None
    }
}

/// What the instruction of a step is to do; of another event nothing.
pub fn action_of(machine: &Machine, event: Event) -> Option<Action>
    ensures { result ≡ reports.action_of machine.now event }
{
    match event {
        Event::Step { hart } => action_at(machine, hart as usize),
        Event::Drain { .. } | Event::Evict { .. } | Event::Deliver { .. } | Event::Local { .. } =>
            None,
    }
}

/// The items from this place on.
fn tail<T>(items: &[T], from: usize) -> &[T]
    ensures { result.now ≡ drop from items.now }
{
    if from <= items.len() {
        &items[from..]
    } else {
        &[]
    }
}

impl Lengths {
    /// The lengths in a machine, of this hart's lists and of all harts' together.
    pub fn of(machine: &Machine, hart: u8) -> Lengths
        ensures { result ≡ lengths_of machine.now hart }
    {
        let trace = machine.trace();
        Lengths {
            entries: entries_of(trace, hart as usize).len(),
            performed: trace.performed().len(),
            log: trace.log().len(),
            output: outputs_of(machine.views(), hart as usize).len(),
            changes: machine.views().changes(),
        }
    }
}

impl<'a> Report<'a> {
    /// What stands in a machine's lists behind these lengths, of an event whose instruction was to do this.
    pub fn behind(
        before: &Lengths,
        action: Option<Action>,
        machine: &'a Machine,
        index: usize,
        event: Event,
        outcome: Outcome,
    ) -> Report<'a>
        ensures { report_of result ≡ report_behind before.now action machine.now index event outcome }
    {
        let trace = machine.trace();
        let hart = hart_of(event) as usize;
        Report {
            index,
            event,
            outcome,
            action,
            machine,
            entries: tail(entries_of(trace, hart), before.entries),
            performed: tail(trace.performed(), before.performed),
            log: tail(trace.log(), before.log),
            output: tail(outputs_of(machine.views(), hart), before.output),
        }
    }
}
