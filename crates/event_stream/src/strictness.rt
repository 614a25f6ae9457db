//! Whether a stream goes on behind an event that changes nothing.
ghost use Rattle.std.specs.Prelude.{◌≡◌};
ghost use Rattle.event_stream.specs.Telling.{ends_at};

/// What an event that changes nothing is to a stream.
#[derive(Clone, Copy, Debug, PartialEq, Eq)]
pub enum Strictness {
    /// It is told like any other.
    Lenient,
    /// The stream ends before it.
    Strict,
}

impl Strictness {
    /// Whether a stream ends at an event behind which as many events have changed the machine as before.
    pub(crate) fn ends_at(self, before: u32, now: u32) -> bool
        ensures { result ≡ ends_at self before now }
    {
        match self {
            Strictness::Lenient => false,
            Strictness::Strict => before == now,
        }
    }
}
