//! What a row of private instructions comes to.
ghost use Rattle.std.specs.Prelude.{◌≡◌, ◌==◌, length};
ghost use Rattle.hart.specs.Local.{private_row};
ghost use Rattle.machine_model.specs.Events.{plan_local};

use crate::node::Node;
use elf_loader::Image;
use hart::{Hart, next_alone};
use machine_model::{Act, Plan};
use machine_types::Outcome;

/// Whether the hart's next so many instructions are private, and none of them stops.
fn goes_alone(image: &Image, hart: &Hart, count: u32) -> bool
    ensures { result ≡ (length (private_row image.now hart.now count) == count) }
{
    let mut last = *hart;
    let mut left = count;
    while left > 0 {
        let Some((_, next)) = next_alone(image, &last) else {
            return false;
        };
        last = next;
        left -= 1;
    }
    true
}

/// What so many private instructions of the hart come to.
pub(crate) fn plan_local(image: &Image, node: &Node, count: u32) -> Plan
    ensures { result ≡ plan_local image.now node.now count }
{
    if !node.hart.status.is_running() {
        return Plan::Stays(Outcome::Halted);
    }
    if goes_alone(image, &node.hart, count) {
        Plan::Changes(Act::Local(count))
    } else {
        Plan::Stays(Outcome::NotLocal)
    }
}
