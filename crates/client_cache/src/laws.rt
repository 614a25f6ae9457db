//! Laws of a cache's calls: a call concerns one line alone.
ghost use Rattle.std.specs.Prelude.{◌≡◌, ◌≢◌, ℕ, Option, None, true, false};
ghost use Rattle.std.specs.FinSet as set;
ghost use Rattle.tl_types.specs.declared.line.LineData.{LineData};
ghost use Rattle.tl_types.specs.declared.permission.Cap.{Cap};
ghost use Rattle.tl_types.specs.declared.permission.Change.{Change};
ghost use Rattle.tl_types.specs.declared.permission.Grow.{Grow};
ghost use Rattle.client_cache.specs.declared.held.Held.TheVariants.{Trunk};
ghost use Rattle.client_cache.specs.declared.answers.Want.TheVariants.{Missed};
ghost use Rattle.client_cache.specs.declared.answers.Evict.TheVariants.{Evicted};
ghost use Rattle.client_cache.specs.AtLine.{at_line, KeepsOthers};
ghost use Rattle.client_cache.specs.Held.{granted_copy, shrunk_at};
ghost use Rattle.client_cache.specs.Cache.{Cache, copy_at, wanted, probed, granted, answered, evicted, written};

/// A call on a line leaves what the cache has of every other line.
pub fn calls_keep_other_lines()
    ensures want { (c : Cache) (line : ℕ) (grow : Grow) → KeepsOthers line c (wanted c line grow).1 }
    ensures probe { (c : Cache) (line : ℕ) (cap : Cap) → KeepsOthers line c (probed c line cap).1 }
    ensures grant { (c : Cache) (line : ℕ) (cap : Cap) (bytes : Option LineData) → KeepsOthers line c (granted c line cap bytes) }
    ensures release_ack { (c : Cache) (line : ℕ) → KeepsOthers line c (answered c line) }
    ensures evict { (c : Cache) (line : ℕ) → KeepsOthers line c (evicted c line).1 }
    ensures write { (c : Cache) (line : ℕ) (bytes : LineData) → KeepsOthers line c (written c line bytes) }
{}

/// What a call makes of its own line. A miss that isn't an Acquire and an eviction that isn't one
/// change nothing.
pub fn calls_change_their_line()
    ensures missed { (c : Cache) (line : ℕ) (grow : Grow) → (wanted c line grow).0 ≡ Missed grow → at_line (wanted c line grow).1 line ≡ record (at_line c line) { acquiring = true } }
    ensures stalled { (c : Cache) (line : ℕ) (grow : Grow) → (wanted c line grow).0 ≢ Missed grow → (wanted c line grow).1 ≡ c }
    ensures probe { (c : Cache) (line : ℕ) (cap : Cap) → set.contains c.releasing line ≡ false → at_line (probed c line cap).1 line ≡ record (at_line c line) { copy = shrunk_at cap (copy_at c line) } }
    ensures grant { (c : Cache) (line : ℕ) (cap : Cap) (bytes : Option LineData) → at_line (granted c line cap bytes) line ≡ record (at_line c line) { copy = granted_copy cap bytes (copy_at c line); acquiring = false } }
    ensures release_ack { (c : Cache) (line : ℕ) → at_line (answered c line) line ≡ record (at_line c line) { releasing = false } }
    ensures evict { (c : Cache) (line : ℕ) (change : Change) (bytes : Option LineData) → (evicted c line).0 ≡ Evicted change bytes → at_line (evicted c line).1 line ≡ record (at_line c line) { copy = None; releasing = true } }
    ensures write { (c : Cache) (line : ℕ) (bytes : LineData) → at_line (written c line bytes) line ≡ record (at_line c line) { copy = Some (Trunk true bytes) } }
{}
