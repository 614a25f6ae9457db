//! What each hart put out, handed over where a machine is taken apart.

ghost use Rattle.std.specs.Prelude.{◌≡◌, ◌≤◌, [], IfOk, length, map};
ghost use Rattle.std.specs.Vec.{vec_capacity};
ghost use Rattle.machine_types.specs.declared.limits.TheConstants.{MAX_HARTS};

use machine_parts::Node;
use machine_types::MAX_HARTS;
use std::alloc::{AllocError, Global};

/// Room for one list a hart, asked for when the machine is made, so that taking it apart wants no memory.
#[derive(Drop)]
pub(crate) struct Outputs {
    lists: Vec<Vec<u32>>,
    ghost empty: { lists.items ≡ [] },
    ghost room: { MAX_HARTS ≤ vec_capacity lists },
}

impl Outputs {
    pub(crate) fn new(alloc: Global) -> Result<Outputs, AllocError> {
        let mut lists = Vec::new(alloc);
        lists.reserve(MAX_HARTS as usize)?;
        Ok(Outputs { lists })
    }

    /// The numbers that each hart put out, by hart.
    pub(crate) fn of(self, nodes: Vec<Node>) -> Vec<Vec<u32>>
        requires { length nodes.items ≤ MAX_HARTS }
        ensures { map (λ output. output.items) result.items ≡ map (λ node. node.output) nodes.items }
    {
        let Outputs { mut lists } = self;
        for node in nodes {
            lists.push_reserved(output_of(node));
        }
        lists
    }
}

// What one hart put out; nothing else of its node is kept.
fn output_of(node: Node) -> Vec<u32>
    ensures { result.items ≡ node.output }
{
    node.output
}
