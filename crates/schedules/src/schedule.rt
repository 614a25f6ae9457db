//! A list of events with what it leads to.

use coherent_machine::Machine;
use flat_model::HartResult;
use machine_types::Event;

/// Events, the first one first, each of which changes the machine, and what they lead to from reset.
#[derive(Drop)]
pub struct Schedule {
    pub events: Vec<Event>,
    /// The machine behind the last event.
    pub machine: Machine,
    /// How its harts stand, by hart.
    pub results: Vec<HartResult>,
}
