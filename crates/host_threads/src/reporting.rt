//! The report of a run, from what its fabric and its shares are in the end.

ghost use Rattle.std.specs.Prelude.{◌≡◌, ◌≢◌, ◌≤◌, Err, IfErr, IfOk, length, map, sum};
ghost use Rattle.locked_fabric.specs.FabricState.{IsKept};
ghost use Rattle.host_threads.specs.Replays.{IsRun};

use crate::common::Common;
use crate::report::{Report, RunError};
use crate::same::is_of;
use locked_fabric::{Fabric, Share};
use std::sync::ledger::Ledger;

/// What the run leaves, where the fabric is of the image and configuration that it began with; `Mismatch`, where it is
/// of others.
pub(crate) fn report_of<L: Ledger>(
    common: &Common,
    fabric: Fabric<L>,
    shares: Vec<Share<L>>,
) -> Result<Report, RunError>
    requires all { length shares.items ≡ L.parts }
    requires harts { length shares.items ≡ common.now.config.harts }
    requires limit { sum shares.items ≤ common.now.limit }
    ensures run { IfOk result (λ report. IsRun common.now.image common.now.config common.now.limit report) }
    ensures config { result ≢ Err RunError.Config }
    ensures mismatch { IfErr result (λ error. error ≡ RunError.Mismatch) }
    ensures other { IfErr result (λ error. fabric.machine.trace.image ≡ common.now.image → fabric.machine.views.config ≡ common.now.config → ⊥) }
{
    if !is_of(fabric.machine(), &common.image, &common.config) {
        return Err(RunError::Mismatch);
    }
    Ok(parts_of(fabric, shares))
}

fn parts_of<L: Ledger>(fabric: Fabric<L>, shares: Vec<Share<L>>) -> Report
    requires all { length shares.items ≡ L.parts }
    requires harts { length shares.items ≡ fabric.machine.views.config.harts }
    ensures trace { result.trace.history ≡ fabric.machine.trace }
    ensures outputs { map (λ output. output.items) result.outputs.items ≡ map (λ node. node.output) fabric.machine.views.nodes }
    ensures journal { result.journal.items ≡ fabric.journal }
    ensures receipts { result.receipts.items ≡ shares.items }
    ensures total { sum result.receipts.items ≡ length result.journal.items }
    ensures kept { IsKept fabric }
{
    let (machine, journal, receipts) = fabric.into_parts(shares);
    let (trace, outputs) = machine.into_parts();
    Report {
        trace,
        outputs,
        journal,
        receipts,
    }
}
