//! `rvtl check`, over files and streams that the caller hands in.
#![tactic(auto)]

mod checking;
mod log;
mod messages;
mod objecting;
mod piped;
mod reading;
mod watch;

pub use checking::{check_file, remark_unjudged};
pub use messages::{MessageCheck, check_messages};
pub use reading::whole_trace;
