//! What a hart that has ended shows.
ghost use Rattle.std.specs.Prelude.{◌≡◌, ◌↔◌, IsTrue};
ghost use Rattle.window_machine.specs.Nodes.{node_of};
ghost use Rattle.window_machine.specs.Showing.{IsOver};

use crate::node::Node;

impl Node {
    /// Whether the hart has ended, and nothing waits.
    pub fn has_ended(&self) -> bool
        ensures { IsTrue result ↔ IsOver (node_of self.now) }
    {
        if self.hart.status.is_running() {
            return false;
        }
        self.window.is_empty()
    }

    /// The numbers that the hart has put out.
    pub fn output(&self) -> &[u32]
        ensures { result.now ≡ (node_of self.now).output }
    {
        &self.output
    }
}
