//! What a user may want to know beside a fault: what stands in a file that is refused, and what should; which number of a
//! machine's size is out of its limits; where a trace is no run, has too many operations or no order of them; what its order
//! breaks, and where a legal one isn't that of its program. Each note is a line of text without its line feed.
#![tactic(auto)]

mod elf;
mod event;
mod field;
mod file;
mod flaw;
mod form;
mod image;
mod kind;
mod length;
mod lines;
mod machine;
mod naming;
mod number;
mod operations;
mod order;
mod overtaking;
mod quoted;
mod run;
mod script;
mod size;
mod trace;

pub use event::{EventNote, OutsideNote};
pub use file::FileNote;
pub use image::ImageNote;
pub use length::LengthNote;
pub use naming::NamingNote;
pub use order::{OrderNote, OvertakingNote};
pub use overtaking::{Overtaking, overtakings};
pub use run::RunNote;
pub use rvwmo_order;
pub use script::ScriptNote;
pub use size::SizeNote;
pub use trace::{BehindNote, TraceNote};
