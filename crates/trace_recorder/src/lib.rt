//! What is kept of a run of several harts: the lists of what each has retired, the performed order and the message log.
#![tactic(auto)]

mod limits;
mod logged;
mod operation;
mod trace;

pub use limits::are_within_limits;
pub use logged::{Direction, Logged};
pub use operation::OpId;
pub use trace::Trace;
