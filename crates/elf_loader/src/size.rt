//! Main memory's size.
ghost use Rattle.std.specs.Prelude.{◌≡◌, ◌↔◌, ◌*◌, IsTrue, MatchOption};
ghost use Rattle.elf_loader.specs.Size.{IsMemoryKib, IsMemorySize, is_memory_kib};

use machine_types::{KIB_STEP, MAX_KIB, MIN_KIB};

/// Whether memory may have `kib` KiB.
pub fn is_memory_kib(kib: u32) -> bool
    ensures test { result ≡ is_memory_kib kib }
    ensures meaning { IsTrue result ↔ IsMemoryKib kib }
{
    (MIN_KIB..=MAX_KIB).contains(&kib) && kib % KIB_STEP == 0
}

/// The bytes in `kib` KiB, where memory may have that size.
pub fn size_of_kib(kib: u32) -> Option<u32>
    ensures exact { MatchOption result (¬ IsMemoryKib kib) (λ size. IsMemoryKib kib × (size ≡ 1024 * kib)) }
    ensures legal { MatchOption result (¬ IsMemoryKib kib) (λ size. IsMemorySize size) }
{
    if is_memory_kib(kib) {
        Some(kib * 1024)
    } else {
        None
    }
}
