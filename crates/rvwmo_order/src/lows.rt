//! For each operation of an order the least place in its hart's list of those that stand no further to the front:
//! so that it is known where no operation stands behind another that precedes it in program order.
ghost use Rattle.std.specs.Prelude.{◌≡◌, ◌≤◌, ◌<◌, ℕ, IfOk, Some, false, length, slice_get};
ghost use Rattle.memory_model.specs.declared.operation.Operation.{Operation as OperationValue};
ghost use Rattle.memory_model.specs.Operations as operations;
ghost use Rattle.rvwmo_order.specs.Lows.{AreLows};

use memory_model::Operation;
use std::alloc::{AllocError, Global};

/// One operation of so many at most may stand before one that precedes it, where looking at each pair is to be less
/// work than a walk along the harts' lists: each such operation costs a sweep for each rule, and the walk a row for
/// each operation. It only chooses between two ways to the same verdict.
const OPERATIONS_FOR_EACH_EARLY: usize = 8;

/// The least places, one for each operation.
pub(crate) fn lows_in(alloc: Global, order: &[Operation]) -> Result<Vec<u32>, AllocError>
    ensures { IfOk result (λ lows. AreLows order.now lows.items) }
{
    let mut lows = Vec::new(alloc);
    lows.resize(order.len(), 0)?;
    let mut least = [u32::MAX; 256];
    let mut left = order.len();
    while left > 0 {
        left -= 1;
        let a = &order[left];
        let hart = usize::from(a.hart);
        let low = least[hart].min(a.place);
        least[hart] = low;
        lows[left] = low;
    }
    Ok(lows)
}

/// A place of the order from which on none precedes `b`, which stands before it.
pub(crate) fn end_of_earlier(
    order: &[Operation],
    lows: &[u32],
    place: usize,
    b: &Operation,
) -> usize
    requires lows { AreLows order.now lows.now }
    requires within { place < length order.now }
    ensures behind { place < result }
    ensures up_to { result ≤ length order.now }
    ensures none { (k : ℕ) (a : OperationValue) → result ≤ k → slice_get order.now k ≡ Some a → operations.precedes a b.now ≡ false }
{
    let mut end = place + 1;
    while end < order.len() {
        if order[end].hart == b.hart && lows[end] > b.place {
            return end;
        }
        end += 1;
    }
    end
}

/// Whether so few operations stand before one that precedes them, and so near it in the order and in their hart's
/// list, that it's less work to look at each pair.
pub(crate) fn is_near(order: &[Operation], lows: &[u32]) -> bool
    requires { AreLows order.now lows.now }
{
    let mut few = order.len() / OPERATIONS_FOR_EACH_EARLY;
    let mut room = order.len();
    for place in 0..order.len() {
        let b = &order[place];
        if lows[place] >= b.place {
            continue;
        }
        let stretch = (b.place - lows[place]) as usize;
        let span = end_of_earlier(order, lows, place, b) - place;
        if few == 0 || stretch > room || span > room - stretch {
            return false;
        }
        few -= 1;
        room = room - stretch - span;
    }
    true
}
