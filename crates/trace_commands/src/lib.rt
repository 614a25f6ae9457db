//! `rvtl explain` of a trace, and of a file that is a trace or a script as its first line says, and `rvtl page` of both, over
//! files and streams that the caller hands in.
#![tactic(auto)]

mod document;
mod explaining;
mod image;
mod kinds;
mod page;

pub use check_command;
pub use document::PAGE;
pub use kinds::explain_files;
pub use page::page_files;
