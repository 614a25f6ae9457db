//! Where and why harts stopped, or go round, in words.
#![tactic(auto)]

mod circles;
mod note;
mod places;
mod reaching;
mod standing;

pub use circles::CircleNote;
pub use note::StopNote;
pub use schedules;
