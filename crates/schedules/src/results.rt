//! What a run leaves of its harts.

ghost use Rattle.std.specs.Prelude.{◌≡◌, IfOk, IsTrue};
ghost use Rattle.flat_model.specs.Shown.{results, told};

use coherent_machine::Views;
use flat_model::HartResult;
use std::alloc::{AllocError, Global};

/// How the machine's harts stand and what they put out, by hart.
pub fn results_of(alloc: Global, views: &Views<'_>) -> Result<Vec<HartResult>, AllocError>
    ensures { IfOk result (λ all. told all.items ≡ results views.now) }
{
    let harts = views.harts();
    let mut all = Vec::with_capacity(alloc, harts)?;
    for hart in 0..harts {
        let mut output = Vec::new(alloc);
        output.extend_from_slice(views.output(hart))?;
        all.push_reserved(HartResult {
            status: views.hart(hart).status,
            output,
        });
    }
    Ok(all)
}

/// Whether the harts stand as these results say, and put out the same.
pub(crate) fn are_results(views: &Views<'_>, goal: &[HartResult]) -> bool
    ensures { IsTrue result → results views.now ≡ told goal.now }
{
    if goal.len() != views.harts() {
        return false;
    }
    for hart in 0..goal.len() {
        let wanted = &goal[hart];
        if wanted.status != views.hart(hart).status
            || wanted.output.as_slice() != views.output(hart)
        {
            return false;
        }
    }
    true
}
