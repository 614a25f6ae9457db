//! `rvtl explore --show`, over files and streams that the caller hands in.

mod asked;
mod showing;
mod words;

pub(crate) use asked::AskedWords;
pub use showing::show_files;
