//! A hart with a window: operations that it has fetched wait there, until each is placed in a global order as a memory
//! model allows.
#![tactic(auto)]

mod access;
mod admitting;
mod circle_laws;
mod fetch;
mod joining;
mod lessening;
mod memory;
mod node;
mod notes;
mod placing;
mod registers;
mod reserved;
mod rows;
mod seeing;
mod sets;
mod showing;
mod smaller;
mod waiting;
mod waits;
mod window;

pub use access::Access;
pub use circle_laws::{circles_never_end, circles_never_run, circles_place_nothing};
pub use fetch::Fetch;
pub use memory::{Patch, Store, image_word, set_word, word_in};
pub use node::Node;
pub use notes::{Deed, Note};
pub use placing::Placed;
pub use rows::{Course, LONGEST_ROW, go_on};
pub use waits::WIDEST;
