//! How harts ended and what they put out, read off their lists.
ghost use Rattle.std.specs.Prelude.{◌≡◌, ◌≤◌, IfOk, length, map};
ghost use Rattle.flat_model.specs.Shown.{told};
ghost use Rattle.machine_types.specs.declared.limits.TheConstants.{MAX_HARTS};
ghost use Rattle.witnesses.specs.Outcomes.{results_from};

use crate::output::output_of;
use elf_loader::Image;
use flat_model::HartResult;
use hart::{Hart, Retired, Status};
use std::alloc::{AllocError, Global};

/// What the harts with these lists and statuses come to, by hart.
pub(crate) fn results_of(
    alloc: Global,
    image: &Image,
    entries: &[Vec<Retired>],
    statuses: &[Status],
) -> Result<Vec<HartResult>, AllocError>
    requires few { length entries.now ≤ MAX_HARTS }
    ensures { IfOk result (λ harts. told harts.items ≡ results_from image.now (length entries.now) 0 (map (λ list. list.items) entries.now) statuses.now) }
{
    let harts = entries.len() as u32;
    let mut results = Vec::new(alloc);
    let mut id = 0;
    let mut lists = entries;
    let mut ends = statuses;
    while let [list, others @ ..] = lists {
        let [status, rest @ ..] = ends else {
            return Ok(results);
        };
        let reset = Hart::at_reset(id, image.entry(), harts);
        let output = output_of(alloc, &reset, list)?;
        results.push(HartResult {
            status: *status,
            output,
        })?;
        id += 1;
        lists = others;
        ends = rest;
    }
    Ok(results)
}
