//! What an eviction comes to.
ghost use Rattle.std.specs.Prelude.{◌≡◌, ◌<◌};
ghost use Rattle.client_cache.specs.Cache.{evicted};
ghost use Rattle.machine_model.specs.Events.{plan_evict};

use crate::node::Node;
use client_cache::Evict;
use machine_model::{Act, Plan};
use machine_types::Outcome;

/// What an eviction of the line comes to.
pub(crate) fn plan_evict(node: &Node, line: u32) -> Plan
    ensures { result ≡ plan_evict node.now line }
{
    match node.cache.peek_evict(line) {
        Evict::NotHeld => Plan::Stays(Outcome::NotHeld),
        Evict::AcquirePending => Plan::Stays(Outcome::AcquirePending),
        Evict::ReleaseFull => Plan::Stays(Outcome::ReleaseFull),
        Evict::Evicted { .. } => Plan::Changes(Act::Evict(line)),
    }
}
