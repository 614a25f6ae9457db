//! The FENCE that orders two operations (chapter 2.7).
ghost use Rattle.std.specs.Prelude.{◌≡◌, ◌<◌, Some, true};
ghost use Rattle.memory_model.specs.Rules.{fences, is_in_set};
ghost use Rattle.order_text.specs.Fence as spec;

use memory_model::Kind;
use rv32_decode::{FenceSet, FenceSets, Instr};

/// The FENCE with the smallest sets that orders an operation of the first kind before a later one of the second.
pub(crate) fn fence_between(a: Kind, b: Kind) -> Instr
    ensures sets { result ≡ spec.fence_between a b }
    ensures orders { fences (Some result) a b ≡ true }
{
    let before = smallest_set(a);
    let after = smallest_set(b);
    Instr::Fence(FenceSets::new(before, after))
}

// The smallest set with the operations of a kind: an AMO is a load too.
fn smallest_set(kind: Kind) -> FenceSet
    ensures set { result.0 ≡ spec.smallest_set kind }
    ensures has { is_in_set result.0 kind ≡ true }
    ensures known { result.0 < 16 }
{
    match kind {
        Kind::Load | Kind::Lr | Kind::Amo => FenceSet::R,
        Kind::Store | Kind::Sc => FenceSet::W,
    }
}
