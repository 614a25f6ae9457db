//! What the checker answers.
ghost use Rattle.std.specs.Prelude.{◌≡◌};
ghost use Rattle.rvwmo_order.specs.Codes.{code_number};

use crate::rule::Rule;
use memory_model::trace_recorder::OpId;

/// All rules, in the order of their numbers.
pub(crate) const RULES: [Rule; 13] = [
    Rule::OverlappingStore,
    Rule::SameByteLoads,
    Rule::AtomicSource,
    Rule::Fence,
    Rule::Acquire,
    Rule::Release,
    Rule::Annotations,
    Rule::Pair,
    Rule::Address,
    Rule::Data,
    Rule::Control,
    Rule::DependentStore,
    Rule::DependentAddress,
];

/// What an order breaks: a rule of preserved program order, the load value axiom or the atomicity axiom
/// (chapter 14.1, "Memory Model Axioms").
#[derive(Clone, Copy, Debug, PartialEq, Eq)]
pub enum Code {
    Order(Rule),
    LoadValue,
    Atomicity,
}

impl Code {
    /// A rule has its own number, 1 to 13; 14 is the load value axiom, 15 the atomicity axiom.
    pub fn number(self) -> u8
        ensures { result ≡ code_number self }
    {
        match self {
            Code::Order(rule) => rule as u8,
            Code::LoadValue => 14,
            Code::Atomicity => 15,
        }
    }
}

/// Whether an order is legal, or else the least code that it breaks and two operations that break it: of
/// all such pairs the one whose second stands first in the order, and of those the one whose first does.
#[derive(Clone, Copy, Debug, PartialEq, Eq)]
pub enum Verdict {
    Legal,
    /// The first operation must come before the second and doesn't; or both are the load whose value is
    /// wrong; or they are an LR and its SC, and what the LR returned isn't stored before the SC, or another hart
    /// stores there between.
    Fault(Code, OpId, OpId),
}
