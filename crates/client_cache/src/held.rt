//! A copy of a line, and what calls make of it.
ghost use Rattle.std.specs.Prelude.{◌≡◌, None};
ghost use Rattle.client_cache.specs.Held.{perm_of, bytes_in, dirty_in, eviction_of, answer_of, clean_copy, shrunk_copy, granted_copy};

use crate::answers::{Evict, Probed};
use tl_types::{Cap, LineData, Perm, shrink};

/// A copy that a cache has. A Branch is never dirty, and Nothing is no copy.
#[derive(Clone, Copy, Debug, PartialEq, Eq)]
pub enum Held {
    Branch(LineData),
    Trunk { dirty: bool, bytes: LineData },
}

impl Held {
    /// Branch or Trunk.
    pub fn perm(&self) -> Perm
        ensures { result ≡ perm_of (Some self.now) }
    {
        match self {
            Held::Branch(_) => Perm::Branch,
            Held::Trunk { .. } => Perm::Trunk,
        }
    }

    /// The line's bytes.
    pub fn bytes(&self) -> LineData
        ensures { result ≡ bytes_in self.now }
    {
        match *self {
            Held::Branch(bytes) => bytes,
            Held::Trunk { bytes, .. } => bytes,
        }
    }

    /// The bytes that memory lacks, where the copy was written.
    pub fn dirty_bytes(&self) -> Option<LineData>
        ensures { result ≡ dirty_in self.now }
    {
        match *self {
            Held::Trunk { dirty: true, bytes } => Some(bytes),
            _ => None,
        }
    }

    /// What giving the copy up comes to.
    pub(crate) fn evicted(&self) -> Evict
        ensures { result ≡ eviction_of self.now }
    {
        Evict::Evicted {
            change: shrink(self.perm(), Cap::ToN).1,
            bytes: self.dirty_bytes(),
        }
    }

    /// What a Probe of the copy comes to.
    pub(crate) fn probed(&self, cap: Cap) -> Probed
        ensures { result ≡ answer_of cap self.now }
    {
        Probed::Answered {
            change: shrink(self.perm(), cap).1,
            bytes: self.dirty_bytes(),
        }
    }

    /// A copy that memory agrees with, none for Nothing.
    fn clean(perm: Perm, bytes: LineData) -> Option<Held>
        ensures { result ≡ clean_copy perm bytes }
    {
        match perm {
            Perm::Nothing => None,
            Perm::Branch => Some(Held::Branch(bytes)),
            Perm::Trunk => Some(Held::Trunk {
                dirty: false,
                bytes,
            }),
        }
    }

    /// What a Probe leaves of the copy.
    pub(crate) fn shrunk(&self, cap: Cap) -> Option<Held>
        ensures { result ≡ shrunk_copy cap self.now }
    {
        Held::clean(shrink(self.perm(), cap).0, self.bytes())
    }

    /// The copy that a Grant makes of the one before. Without bytes the copy keeps its own.
    pub(crate) fn granted(cap: Cap, bytes: Option<LineData>, before: Option<Held>) -> Option<Held>
        ensures { result ≡ granted_copy cap bytes before }
    {
        match (bytes, before) {
            (Some(bytes), _) => Held::clean(cap.perm(), bytes),
            (None, Some(held)) => Held::clean(cap.perm(), held.bytes()),
            (None, None) => None,
        }
    }
}
