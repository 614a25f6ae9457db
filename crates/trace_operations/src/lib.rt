//! What a trace's lists come to: whether they are runs, their memory operations by name and by place, and
//! orders of them (RISC-V Unprivileged ISA 20191213, chapter 14.1).
#![tactic(auto)]

pub mod accesses;
mod completing;
mod index;
mod items;
mod listed;
mod names;
mod orders;
mod parts;
mod places;
mod runs;
mod stored;

pub use completing::completed;
pub use index::Index;
pub use items::Harts;
pub use listed::{Item, Items, Stretch};
pub use memory_model;
pub use orders::{MAX_OPERATIONS, few_names, has_too_many, is_order, names_in, operations_at};
pub use parts::behind;
pub use places::{Numbers, Places, places_in};
pub use runs::are_runs;
pub use trace_recorder;
