//! What every event means, as a plain and slow program over lists, to compare machines with. A function that
//! follows a definition of the event meaning has its name, and none shares anything with the parts that a
//! machine is built of: only instructions, images, messages and traces are theirs too. Beside it stands the
//! flat meaning as such a program.
#![tactic(auto)]

mod buffer;
mod cache;
mod changing;
mod deciding;
mod deliveries;
mod events;
mod flat;
mod hart_state;
mod notes;
mod queues;
mod state;
mod steps;
mod views;
mod words;

pub use buffer::Entry;
pub use events::Refusal;
pub use flat::{FlatMachine, FlatView, Variant};
pub use notes::Transaction;
pub use state::PlainMachine;
pub use views::NodeView;
