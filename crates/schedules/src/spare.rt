//! Lines that a cache may give up.

ghost use Rattle.elf_loader.specs.Size.{IsMemorySize};

use client_cache::ClientCache;
use elf_loader::BASE;
use machine_types::Config;

/// The lowest line that the cache holds in the set of an address, but for the line of the word that is
/// kept. Memory has `size` bytes.
pub(crate) fn lowest_held(
    cache: &ClientCache,
    config: &Config,
    size: u32,
    address: u32,
    kept: Option<u32>,
) -> Option<u32>
    requires memory { IsMemorySize size }
{
    let bytes = config.line.bytes();
    let kept_line = kept.map(|word| config.line.line_of(word));
    let set = address / bytes % config.sets;
    let mut line = BASE + set * bytes;
    while line < BASE + size {
        if kept_line != Some(line) && cache.copy(line).is_some() {
            return Some(line);
        }
        line += config.sets * bytes;
    }
    None
}
