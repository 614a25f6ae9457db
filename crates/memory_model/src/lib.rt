//! The memory models that a machine is run under and that an order is judged by, with their laws.
//! What they mean is said in `specs/`.
#![tactic(auto)]

mod bits;
mod laws;
mod operation;

pub use bits::annotations;
pub use laws::{
    atomicity_forms_agree, completed_is_order, dependency_forms_agree, entries_tell_operations,
    examples_judge_as_defined, litmus_shapes, names_find_operations, order_forms_agree,
    program_order_suffices, source_forms_agree, unwritten_byte_is_images, worked_rows,
    ztso_is_stronger,
};
pub use operation::{Kind, Operation};
pub use trace_recorder;
