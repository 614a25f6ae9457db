//! What the commands of `rvtl` share: files by their names and what they hold, the machine that is meant,
//! how harts ended, and why a command ends with another status than 0.
#![tactic(auto)]

mod address;
mod allowing;
mod ends;
mod escaped;
mod fault;
mod files;
mod input;
mod machine_traces;
mod machines;
mod message;
mod named;
mod no_outcomes;
mod reading;
mod remarked;
mod system;

pub use address::address_in;
pub use allowing::{Judgement, allow_file};
pub use ends::print_ends;
pub use escaped::Escaped;
pub use event_stream;
pub use fault::{Fault, Unshown};
pub use files::Files;
pub use input::{Source, WithInput};
pub use machine_traces::every_trace_has_a_text;
pub use machines::{config_of, named_config, script_of};
pub use message::{put_fault, put_named, tell, tell_lost};
pub use named::{NamedImage, named_image_in};
pub use notes;
pub use reading::{
    check_writable, contents, image_in, image_of, script_from, script_in, text_in, unmade,
};
pub use remarked::{Remarked, out_of_limits, remark, remark_outside, remark_refused};
pub use system::SystemFiles;
