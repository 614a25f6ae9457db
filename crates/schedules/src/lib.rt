//! Lists of machine events: made of the steps of a flat machine, sampled, and shortened.
#![tactic(auto)]

mod circling;
mod errors;
mod goal;
mod player;
mod quiet;
mod realising;
mod results;
mod sampling;
mod schedule;
mod shortening;
mod spare;
mod transactions;

pub use circling::{Circle, Reading, circles};
pub use coherent_machine;
pub use errors::RealiseError;
pub use goal::{Goal, HartResults};
pub use realising::realise;
pub use results::results_of;
pub use sampling::sample;
pub use schedule::Schedule;
pub use shortening::shorten;
