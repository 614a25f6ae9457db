//! Which reservations an access of memory ends.

use crate::deciding::Deed;
use crate::words::lines_below;
use machine_types::Config;

/// The flat meaning, or a wrong one that differs from it in one rule.
#[derive(Clone, Copy)]
pub enum Variant {
    /// The flat meaning itself.
    Right,
    /// Other harts' reservations end by writes alone, not by reads.
    OnlyWritesEnd,
    /// A hart's own access of another line of a set of one line ends nothing.
    NoRivals,
    /// An SC without its reservation waits for its buffer before it fails.
    AsksBufferFirst,
    /// A store that drains leaves others' reservations.
    DrainsEndNothing,
    /// A load wholly from the buffer accesses its line.
    BufferedLoadsAccess,
}

/// How memory is accessed.
#[derive(Clone, Copy)]
pub(crate) enum Kind {
    Read,
    /// By an SC or an AMO.
    Write,
    Drain,
}

/// An access of memory by a hart.
#[derive(Clone, Copy)]
pub(crate) struct Accessed {
    pub hart: u8,
    pub address: u32,
    pub kind: Kind,
}

/// By what accesses end reservations.
#[derive(Clone, Copy)]
pub(crate) struct Rules {
    pub config: Config,
    pub variant: Variant,
}

impl Rules {
    /// Where and how an instruction that retires accesses memory; a load wholly from the buffer doesn't.
    pub fn access_by(&self, deed: &Deed) -> Option<(u32, Kind)> {
        match (deed, self.variant) {
            (Deed::Load { address, .. }, Variant::BufferedLoadsAccess)
            | (
                Deed::Load {
                    address,
                    is_covered: false,
                },
                _,
            )
            | (Deed::Lr(address), _) => Some((*address, Kind::Read)),
            (Deed::Sc { word, .. } | Deed::Amo { word, .. }, _) => Some((*word, Kind::Write)),
            _ => None,
        }
    }

    /// Whether an access ends a hart's reservation of a word: another hart's that of a word of the same line,
    /// and its own, where sets hold one line, that of a word of another line of the set.
    pub fn ends(&self, accessed: &Accessed, hart: u8, word: u32) -> bool {
        let line = lines_below(self.config.line, accessed.address);
        let reserved = lines_below(self.config.line, word);
        let sets = self.config.sets;
        let is_one_set = line.checked_rem(sets) == reserved.checked_rem(sets);
        match (self.variant, accessed.kind) {
            (Variant::NoRivals, _) if hart == accessed.hart => false,
            _ if hart == accessed.hart => {
                self.config.ways == 1 && is_one_set && line != reserved
            }
            (Variant::OnlyWritesEnd, Kind::Read) | (Variant::DrainsEndNothing, Kind::Drain) => {
                false
            }
            _ => line == reserved,
        }
    }
}
