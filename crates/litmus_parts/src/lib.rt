//! Parts of a litmus test's text, as herd7 has it: the first lines, the initial values, the head and the cells of its columns.
#![tactic(auto)]

mod code;
mod columns;
mod header;
mod initial;
mod places;
mod rows;
mod scanning;
mod step;
mod stop;
mod told;

pub use code::{CodeLine, Content};
pub use columns::columns_at;
pub use header::header_at;
pub use initial::{Initial, MOST_HARTS, Width, values_at};
pub use places::{Place, Value, is_same_name, is_same_place, place_at, value_at};
pub use rows::{Item, is_end};
pub use scanning::{expect, is_same, keyword_at, split_until};
pub use step::{Relation, Step};
pub use stop::{Cause, Fault, Section, Stop, line_of};
pub use told::Told;
