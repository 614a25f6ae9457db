//! What every kind of event shares when it is decided: misses.
ghost use Rattle.std.specs.Prelude.{◌≡◌, ◌<◌};
ghost use Rattle.client_cache.specs.Cache.{copy_at, wanted};
ghost use Rattle.machine_model.specs.declared.act.Plan.{Plan as AnyPlan};
ghost use Rattle.machine_model.specs.Deciding.{plan_miss, reading, writing};
ghost use Rattle.machine_parts.specs.Deciding.{with_line};
ghost use Rattle.tl_types.specs.declared.line.LineData.{LineData as AnyLine};

use client_cache::{ClientCache, Held, Want};
use machine_model::{Act, Plan};
use machine_types::Outcome;
use tl_types::{Grow, LineData};

/// A miss on a line, by the cache's rule.
pub(crate) fn plan_miss(cache: &ClientCache, line: u32, grow: Grow) -> Plan
    ensures { result ≡ plan_miss cache.now line grow }
{
    match cache.peek_want(line, grow) {
        Want::WaitRelease => Plan::Stays(Outcome::WaitRelease),
        Want::WaitGrant => Plan::Stays(Outcome::WaitGrant),
        Want::NoTracker => Plan::Stays(Outcome::NoTracker),
        Want::SetFull => Plan::Stays(Outcome::SetFull),
        Want::Missed(grow) => Plan::Changes(Act::Miss { line, grow }),
    }
}

/// A line's bytes that may be read, or the miss where there is no copy.
pub(crate) fn reading(cache: &ClientCache, line: u32) -> Result<LineData, Plan>
    ensures { (go : AnyLine → AnyPlan) → reading go cache.now line ≡ with_line go result }
{
    match cache.copy(line) {
        None => Err(plan_miss(cache, line, Grow::NtoB)),
        Some(held) => Ok(held.bytes()),
    }
}

/// A line's bytes that may be written, or the miss without Trunk.
pub(crate) fn writing(cache: &ClientCache, line: u32) -> Result<LineData, Plan>
    ensures { (go : AnyLine → AnyPlan) → writing go cache.now line ≡ with_line go result }
{
    match cache.copy(line) {
        None => Err(plan_miss(cache, line, Grow::NtoT)),
        Some(Held::Branch(_)) => Err(plan_miss(cache, line, Grow::BtoT)),
        Some(Held::Trunk { bytes, .. }) => Ok(bytes),
    }
}
