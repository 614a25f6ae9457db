//! What a machine is made of.
ghost use Rattle.std.specs.Prelude.{◌≡◌, false, IfSome, IsNone, IsTrue};
ghost use Rattle.machine_types.specs.Config.{is_set_count, is_within_limits};

use crate::limits::{MAX_HARTS, MAX_SETS, MAX_WAYS};
use crate::model::MemoryModel;
use tl_types::LineSize;

/// The parts of a machine and the memory model that it keeps, within the limits.
#[derive(Clone, Copy, Debug, PartialEq, Eq)]
pub struct Config {
    /// How many harts: 1 to `MAX_HARTS`.
    pub harts: u32,
    /// How many sets each cache has: a power of two up to `MAX_SETS`.
    pub sets: u32,
    /// How many lines a set holds: 1 to `MAX_WAYS`.
    pub ways: u32,
    pub line: LineSize,
    pub model: MemoryModel,
    pub ghost within: { IsTrue (is_within_limits harts sets ways) },
}

impl Config {
    /// The configuration of these parts; none where they are outside the limits.
    pub fn new(
        harts: u32,
        sets: u32,
        ways: u32,
        line: LineSize,
        model: MemoryModel,
    ) -> Option<Config>
        ensures harts { IfSome result (λ config. config.harts ≡ harts) }
        ensures sets { IfSome result (λ config. config.sets ≡ sets) }
        ensures ways { IfSome result (λ config. config.ways ≡ ways) }
        ensures line { IfSome result (λ config. config.line ≡ line) }
        ensures model { IfSome result (λ config. config.model ≡ model) }
        ensures none { IsNone result → is_within_limits harts sets ways ≡ false }
    {
        if !is_within_limits(harts, sets, ways) {
            return None;
        }
        Some(Config {
            harts,
            sets,
            ways,
            line,
            model,
        })
    }
}

/// Whether a machine can be made of so many harts, whose caches have so many sets of so many lines.
pub fn is_within_limits(harts: u32, sets: u32, ways: u32) -> bool
    ensures { result ≡ is_within_limits harts sets ways }
{
    (1..=MAX_HARTS).contains(&harts) && is_set_count(sets) && (1..=MAX_WAYS).contains(&ways)
}

/// Whether a cache may have so many sets.
pub fn is_set_count(sets: u32) -> bool
    ensures { result ≡ is_set_count sets }
{
    sets.is_power_of_two() && sets <= MAX_SETS
}
