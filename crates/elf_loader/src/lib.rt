//! What a hart finds in main memory at reset, read from an ELF32 file or from bare words.
#![tactic(auto)]

mod error;
mod header;
mod image;
mod laws;
mod loader;
mod segment;
mod size;

pub use error::LoadError;
pub use image::{Image, raw};
pub use laws::{each_segment_is_loaded, overlap_is_a_common_address};
pub use loader::load;
pub use machine_types::BASE;
pub use size::{is_memory_kib, size_of_kib};
