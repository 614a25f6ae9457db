//! What every event means to a machine, and what holds after every list of events.
#![tactic(auto)]

mod act;
mod headline_laws;
mod joint_laws;
mod laws;
mod log_laws;
mod order_laws;
mod range_laws;
mod ready_laws;
mod room_laws;

pub use act::{Act, Deed, Plan};
pub use backing_memory;
pub use headline_laws::{atomicity_always, headline, legal_always};
pub use joint_laws::{coherent_always, load_values_always};
pub use laws::{
    changes_are_counted, image_and_config_stay, local_is_steps, nothing_is_rewritten, runs_always,
    stops_change_status_alone,
};
pub use log_laws::{log_lawful_always, sums_agree};
pub use memory_model;
pub use order_laws::{order_always, preserved_always};
pub use range_laws::in_range_always;
pub use ready_laws::{ready_always, sound_always};
pub use room_laws::room_always;
pub use rv32_exec;
pub use trace_recorder;
