//! What a log leaves open, in one pass from its end.
ghost use Rattle.std.specs.Prelude.{ℕ, List, Some, ◌∷◌, ◌<◌, ◌+◌, ◌^◌, IfOk, IfSome, if◌then◌else◌};
ghost use Rattle.open_questions.specs.Open.{LeavesOpen, open_from};

use crate::answers::Answers;
use std::alloc::{AllocError, Global};
use trace_recorder::Logged;

/// The questions of a log that no answer follows: an Acquire without a Grant that is taken behind it, a Probe without
/// a ProbeAck, a Release without a ReleaseAck, a Grant without a GrantAck, each of the same line and client.
#[derive(Clone, Copy, Debug, PartialEq, Eq)]
pub struct Open {
    /// The first one's number in the log, counted from 0.
    pub first: usize,
    /// How many there are.
    pub count: usize,
}

/// What a log leaves open, if it leaves something open. The only error is want of memory.
pub fn left_open(alloc: Global, log: &[Logged]) -> Result<Option<Open>, AllocError>
    ensures { IfOk result (LeavesOpen (open_from 0 log.now)) }
{
    let mut answers = Answers::new(alloc);
    let mut found = None;
    let mut index = log.len();
    while 0 < index {
        index -= 1;
        let entry = &log[index];
        let is_open = answers.leave_open(entry);
        found = found_with(found, is_open, index);
        answers.note(alloc, entry)?;
    }
    Ok(found)
}

/// What is found with one more entry in front, of this number, which is an open question or isn't.
fn found_with(found: Option<Open>, is_open: bool, index: usize) -> Option<Open>
    requires { IfSome found (λ o. o.count + 1 < 2 ^ 64) }
    ensures { (numbers : List ℕ) → LeavesOpen numbers found → LeavesOpen (if is_open then index ∷ numbers else numbers) result }
{
    if is_open {
        Some(with_one_more(found, index))
    } else {
        found
    }
}

fn with_one_more(found: Option<Open>, first: usize) -> Open
    requires { IfSome found (λ o. o.count + 1 < 2 ^ 64) }
    ensures { (numbers : List ℕ) → LeavesOpen numbers found → LeavesOpen (first ∷ numbers) (Some result) }
{
    match found {
        Some(later) => Open {
            first,
            count: later.count + 1,
        },
        None => Open { first, count: 1 },
    }
}
