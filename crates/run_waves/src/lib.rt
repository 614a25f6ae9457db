//! A run as waves: the events of a script are applied to a machine, and what each changed in it is told as a value
//! change dump (IEEE Std 1364-2005, section 18), whose time is the line of the script on which the event stands.
#![tactic(auto)]

mod errors;
mod groups;
mod naming;
mod reading;
mod running;
mod signals;
mod telling;
mod touched;
mod values;
mod watching;
mod writing;

pub use errors::WavesError;
pub use writing::write_waves;
