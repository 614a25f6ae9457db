//! A run, and what it is a witness of.

use flat_model::HartResult;
use hart::{Retired, Status};
use trace_recorder::{OpId, Trace};

/// Lists that may be a run of a program, with an order of its memory operations. Any may stand here.
#[derive(Drop)]
pub struct Run {
    /// What each hart retired, the first instruction first, by hart.
    pub entries: Vec<Vec<Retired>>,
    /// How each hart stands behind its list, by hart.
    pub statuses: Vec<Status>,
    /// The memory operations of all harts in their global order, the first one first.
    pub order: Vec<OpId>,
}

/// An outcome, and a run with a legal order in which it comes about.
#[derive(Drop)]
pub struct Witness {
    /// Each hart's status and the numbers that it put out, by hart.
    pub harts: Vec<HartResult>,
    /// The run; its performed order has all operations.
    pub trace: Trace,
}
