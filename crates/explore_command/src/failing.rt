//! What a search may not come to, beside outcomes that aren't allowed.

ghost use Rattle.std.specs.Prelude.{◌≡◌, ◌&&◌, ◌++◌, ◌||◌, IfOk, OnOk, map};
ghost use Rattle.explore_command.specs.Judging.{fail_lines, has_stopped, have_failure, is_stopped, line_if};
ghost use Rattle.flat_model.specs.Shown.{told};

use crate::findings::Findings;
use command_settings::Explore;
use flat_model::HartResult;
use hart::Status;
use std::alloc::{AllocError, Global};

/// A line for each of what the search may not come to that it came to.
pub(crate) fn fails_of<T: Findings>(
    alloc: Global,
    wanted: Explore<'_>,
    found: &T,
) -> Result<Vec<u8>, AllocError>
    ensures { IfOk result (λ lines. lines.items
        ≡ fail_lines wanted.entry.fail_on (T.has_failures found.now || have_failure (map T.harts (T.outcomes found.now))) (T.is_stuck found.now) (T.is_incomplete found.now)) }
{
    let mut lines = Vec::new(alloc);
    add_if(
        &mut lines,
        wanted.fails_on("failure"),
        found.has_failures() || has_failure(found),
        b"a hart stopped (--fail-on failure)\n",
    )?;
    add_if(
        &mut lines,
        wanted.fails_on("stuck"),
        found.is_stuck(),
        b"from some state no schedule ends (--fail-on stuck)\n",
    )?;
    add_if(
        &mut lines,
        wanted.fails_on("incomplete"),
        found.is_incomplete(),
        b"not all was searched (--fail-on incomplete)\n",
    )?;
    Ok(lines)
}

/// Adds the line where it is listed, and met.
fn add_if(lines: &mut Vec<u8>, is_listed: bool, is_met: bool, line: &[u8]) -> Result<(), AllocError>
    ensures { OnOk result (lines.new.items ≡ lines.old.items ++ line_if (is_listed && is_met) line.now) }
{
    if is_listed && is_met {
        lines.extend_from_slice(line)?;
    }
    Ok(())
}

/// Whether a hart stopped in one of the outcomes.
fn has_failure<T: Findings>(found: &T) -> bool
    ensures { result ≡ have_failure (map T.harts (T.outcomes found.now)) }
{
    let mut rest = found.outcomes();
    while let [first, tail @ ..] = rest {
        if has_stopped(T::harts(first)) {
            return true;
        }
        rest = tail;
    }
    false
}

/// Whether one of the harts stopped.
pub(crate) fn has_stopped(harts: &[HartResult]) -> bool
    ensures { result ≡ has_stopped (told harts.now) }
{
    let mut rest = harts;
    while let [first, tail @ ..] = rest {
        if is_stopped(first.status) {
            return true;
        }
        rest = tail;
    }
    false
}

fn is_stopped(status: Status) -> bool
    ensures { result ≡ is_stopped status }
{
    match status {
        Status::Stopped(_) => true,
        Status::Running | Status::Exited(_) => false,
    }
}
