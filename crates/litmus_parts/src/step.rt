//! The parts of a proposition.

use crate::places::{Place, Value};

/// That a place has a value, or hasn't.
#[derive(Clone, Copy)]
pub struct Relation {
    pub place: Place,
    pub value: Value,
}

/// A part of a proposition, of which each stands behind those that it takes: postfix notation.
#[derive(Clone, Copy)]
pub enum Step {
    True,
    False,
    /// The place has this value.
    Equal(Relation),
    /// The place has another value.
    Differs(Relation),
    Not,
    And,
    Or,
    Implies,
}
