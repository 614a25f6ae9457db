//! Lines that a cache may give up.

ghost use Rattle.std.specs.Prelude.{◌↔◌, IfNone, IfSome, IsTrue};
ghost use Rattle.elf_loader.specs.Size.{IsMemorySize};
ghost use Rattle.host_threads.specs.Due.{HasNoVictim, IsSpare, IsVictim};

use client_cache::ClientCache;
use elf_loader::BASE;
use machine_types::Config;

/// Whether the line is held, and no Acquire of it is outstanding.
fn is_spare(cache: &ClientCache, line: u32) -> bool
    ensures { IsTrue result ↔ IsSpare cache.now line }
{
    cache.copy(line).is_some() && !cache.is_acquiring(line)
}

/// The lowest line of memory that the cache may give up, of those in the set of an address. Memory has
/// `size` bytes.
pub(crate) fn lowest_spare(
    cache: &ClientCache,
    config: &Config,
    size: u32,
    address: u32,
) -> Option<u32>
    requires memory { IsMemorySize size }
    ensures victim { IfSome result (λ line. IsVictim config.now cache.now address line) }
    ensures none { IfNone result (HasNoVictim config.now size cache.now address) }
{
    let bytes = config.line.bytes();
    let set = address / bytes % config.sets;
    let mut line = BASE + set * bytes;
    while line < BASE + size {
        if is_spare(cache, line) {
            return Some(line);
        }
        line += config.sets * bytes;
    }
    None
}
