//! Scripts and traces as texts. A text is made of lines, each of words parted by one space and ended by
//! one line feed. Each value has one spelling.
#![tactic(auto)]

mod cause;
mod fault;
mod head;
mod message_reading;
mod reading;
mod script;
mod script_causes;
mod script_faults;
mod script_reading;
mod script_writing;
mod spellings;
mod trace_faults;
mod trace_lines;
mod trace_reading;
mod trace_writing;
mod version;
mod words;

pub use cause::{Field, Form, Misfit, TextCause, Wrong};
pub use fault::{TextCode, TextError};
pub use message_reading::{data_at, direction_at, message_at};
pub use script::{Events, Script};
pub use script_reading::{channel_at, read_script};
pub use script_writing::{spell_event, write_script};
pub use spellings::spell_message;
pub use trace_reading::{no_text_begins_another, read_trace};
pub use trace_recorder;
pub use trace_writing::{
    put_image, put_log, put_performed, put_statuses, spell_retired, spell_status, write_trace,
};
pub use version::is_first_version;
