//! What each event of a script did, in event order: a stream of lines, those of a trace below the event
//! that made the trace longer by them.
#![tactic(auto)]

mod accesses;
mod closing;
mod disassembly;
mod errors;
mod holding;
mod laws;
mod naming;
mod noting;
mod report;
mod report_writing;
mod spellings;
mod stalls;
mod state;
mod strictness;
mod waits;
mod writing;

pub use coherent_machine;
pub use errors::StreamError;
pub use laws::stream_is_the_trace;
pub use report::{Lengths, Report, action_of, hart_of};
pub use spellings::outcome_name;
pub use state::write_state;
pub use strictness::Strictness;
pub use waits::next_address;
pub use writing::write_stream;
