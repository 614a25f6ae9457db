//! Operations that are performed before one that precedes them in their hart's list.

ghost use Rattle.std.specs.Prelude.{◌≡◌, ◌<◌, IfOk, None, Some, true};
ghost use Rattle.rvwmo_order.specs.MemoryModelRules.{fences, is_in_set};
ghost use Rattle.notes.specs.Overtaking as spec;

use rv32_decode::{FenceSet, FenceSets, Instr};
use rvwmo_order::memory_model::{Kind, Operation};
use rvwmo_order::trace_operations::Index;
use rvwmo_order::trace_operations::accesses::{overlap, precedes};
use std::alloc::{AllocError, Global};
use trace_recorder::Trace;

/// Two operations of a hart without a common byte, of which the second is performed before the first, which precedes it.
#[derive(Clone, Copy, PartialEq, Eq)]
pub struct Overtaking {
    pub first: Operation,
    pub second: Operation,
}

impl Overtaking {
    /// The FENCE with the smallest sets that orders the two, where it stands between them (chapter 2.7).
    pub fn fence(&self) -> Instr
        ensures sets { result ≡ spec.fence_of self.now }
        ensures orders { fences (Some result) self.now.first.kind self.now.second.kind ≡ true }
    {
        let before = set_with(self.first.kind);
        let after = set_with(self.second.kind);
        Instr::Fence(FenceSets::new(before, after))
    }
}

/// The smallest set of a FENCE with the operations of a kind: an AMO is a load too.
fn set_with(kind: Kind) -> FenceSet
    ensures set { result.0 ≡ spec.set_with kind }
    ensures has { is_in_set result.0 kind ≡ true }
    ensures known { result.0 < 16 }
{
    match kind {
        Kind::Load | Kind::Lr | Kind::Amo => FenceSet::R,
        Kind::Store | Kind::Sc => FenceSet::W,
    }
}

/// Whether `b`, performed before `a`, overtakes it.
fn overtakes(b: &Operation, a: &Operation) -> bool
    ensures { result ≡ spec.overtakes b.now a.now }
{
    precedes(a, b) && !overlap(a, b)
}

/// Whether `a` stands further behind than what was found.
fn is_nearer(a: &Operation, found: Option<Operation>) -> bool
    ensures { result ≡ spec.is_nearer a.now found }
{
    match found {
        Some(found) => found.place < a.place,
        None => true,
    }
}

/// Of the operations performed later that `b` overtakes the one that stands furthest behind.
fn nearest(b: &Operation, later: &[Operation]) -> Option<Operation>
    ensures { result ≡ spec.nearest_from None b.now later.now }
{
    let mut found = None;
    let mut rest = later;
    while let [a, tail @ ..] = rest {
        if overtakes(b, a) && is_nearer(a, found) {
            found = Some(*a);
        }
        rest = tail;
    }
    found
}

/// Each performed operation of a trace that overtakes one, with the nearest before it that it overtakes, in the order
/// in which they are performed.
pub fn overtakings(alloc: Global, trace: &Trace) -> Result<Vec<Overtaking>, AllocError>
    ensures { IfOk result (λ pairs. pairs.items ≡ spec.overtakings trace.now.history) }
{
    let index = Index::new(alloc, trace, trace.performed())?;
    let mut pairs = Vec::new(alloc);
    let mut rest = index.order();
    while let [second, later @ ..] = rest {
        if let Some(first) = nearest(second, later) {
            pairs.push(Overtaking {
                first,
                second: *second,
            })?;
        }
        rest = later;
    }
    Ok(pairs)
}
