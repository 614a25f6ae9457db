//! The bare window machine: harts that fetch ahead of the global memory order, and what it means that no outcome of a
//! program is missing. What they mean is said in `specs/`.
#![tactic(auto)]

mod guess_laws;
mod laws;
mod reduction_laws;

pub use flat_exploration;
pub use guess_laws::{
    closed_sets_are_complete, closed_sets_see, covered_sets_are_complete, covered_sets_see,
    loads_follow,
};
pub use laws::{
    ended_are_followed, lists_are_fetched, paths_are_lazy, placing_comes_first, sets_are_within,
    stores_come_first,
};
pub use reduction_laws::{
    closed_sets_tell_all, covered_sets_are_closed, ends_are_alone, fetching_may_stop, less_does_all,
};
pub use trace_operations;
