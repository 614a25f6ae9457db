//! What orders memory operations in an image: which words do, what they are with less or more of it, and the image with
//! words replaced.
#![tactic(auto)]

mod adding;
mod flow;
mod forms;
mod knowing;
mod meeting;
mod orderings;
mod programs;
mod replacing;

pub use adding::{milder_words, patches_strengthened, places_of};
pub use flow::{Flow, none_comes};
pub use forms::{NOP, is_weaker, strengthened, weaker_words, without};
pub use knowing::Known;
pub use meeting::{met_orderings, met_places};
pub use orderings::{ImageOrdering, Part, orderings_of};
pub use programs::{is_kept, own_patches, patches_with, patches_without, word_in};
pub use replacing::{Patch, patched};
