//! How a cache's slots are laid out.
ghost use Rattle.std.specs.Prelude.{◌≡◌, ◌<◌};
ghost use Rattle.client_cache.specs.Shape.{set_of};

use tl_types::LineSize;

/// Sets by ways, and the size of the lines.
#[derive(Clone, Copy, PartialEq, Eq)]
pub struct Shape {
    pub sets: u32,
    pub ways: u32,
    pub size: LineSize,
}

impl Shape {
    /// The set that a line belongs to.
    pub(crate) fn set_of(&self, line: u32) -> u32
        requires { 0 < self.now.sets }
        ensures { result ≡ set_of self.now line }
    {
        line / self.size.bytes() % self.sets
    }
}
