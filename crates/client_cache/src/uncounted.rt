//! The cache's calls for those who count no looks.
ghost use Rattle.std.specs.Prelude.{◌≡◌, ◌<◌, ◌%◌, IsTrue};
ghost use Rattle.std.specs.FinSet as set;
ghost use Rattle.tl_types.specs.declared.permission.Perm.TheVariants as perms;
ghost use Rattle.tl_types.specs.declared.permission.Grow.{Grow};
ghost use Rattle.client_cache.specs.Held.{perm_of};
ghost use Rattle.client_cache.specs.Cache.{copy_at, wanted, written, word_written, bytes_of_copy, evicted, probed, granted};

use crate::answers::{Evict, Probed, Want};
use crate::cache::ClientCache;
use crate::held::Held;
use std::marker::Brand;
use std::sync::ledger::{Blank, Ledger};
use tl_types::{Cap, Grow, LineData, Perm, Ticks};

impl ClientCache {
    /// The permission that the cache has for a line.
    pub fn perm(&self, line: u32) -> Perm
        ensures { result ≡ perm_of (copy_at self.now line) }
    {
        perm_on::<Brand>(self, line, Blank::new(1))
    }

    /// A line's bytes, where the cache has them.
    pub fn read(&self, line: u32) -> Option<LineData>
        ensures { result ≡ bytes_of_copy (copy_at self.now line) }
    {
        read_on::<Brand>(self, line, Blank::new(1))
    }

    /// A line's copy, with its dirty mark.
    pub fn copy(&self, line: u32) -> Option<Held>
        ensures { result ≡ copy_at self.now line }
    {
        copy_on::<Brand>(self, line, Blank::new(1))
    }

    /// Replaces the bytes of a Trunk copy, which is dirty from then on.
    pub fn write(&mut self, line: u32, bytes: LineData)
        requires { perm_of (copy_at self.old line) ≡ perms.Trunk }
        ensures { self.new ≡ written self.old line bytes }
    {
        write_on::<Brand>(self, line, bytes, Blank::new(1));
    }

    /// Writes the marked bytes of an aligned word of a Trunk copy, which is dirty from then on, also
    /// where none is marked. The word lies in the line.
    pub fn write_word(&mut self, line: u32, word: u32, marks: [bool; 4], bytes: [u8; 4])
        requires trunk { perm_of (copy_at self.old line) ≡ perms.Trunk }
        requires aligned { word % 4 ≡ 0 }
        ensures { self.new ≡ word_written self.old line word marks bytes }
    {
        write_word_on::<Brand>(self, line, word, marks, bytes, Blank::new(1));
    }

    /// What `want` would answer; nothing changes.
    pub fn peek_want(&self, line: u32, grow: Grow) -> Want
        ensures { result ≡ (wanted self.now line grow).0 }
    {
        peek_want_on::<Brand>(self, line, grow, Blank::new(1))
    }

    /// A miss on a line, for which an Acquire would ask `grow`. `Missed` takes a tracker, and a slot
    /// that stays the line's until the Grant, also where a Probe takes the copy meanwhile.
    pub fn want(&mut self, line: u32, grow: Grow) -> Want
        ensures { (result, self.new) ≡ wanted self.old line grow }
    {
        want_on::<Brand>(self, line, grow, Blank::new(1))
    }

    /// A Probe of a line.
    pub fn on_probe(&mut self, line: u32, cap: Cap) -> Probed
        ensures { (result, self.new) ≡ probed self.old line cap }
    {
        on_probe_on::<Brand>(self, line, cap, Blank::new(1))
    }

    /// The Grant that answers the line's Acquire, which frees its tracker. Without bytes the copy keeps
    /// its own.
    pub fn on_grant(&mut self, line: u32, cap: Cap, bytes: Option<LineData>)
        requires { IsTrue (set.contains self.old.acquiring line) }
        ensures { self.new ≡ granted self.old line cap bytes }
    {
        on_grant_on::<Brand>(self, line, cap, bytes, Blank::new(1));
    }

    /// What `evict` would answer; nothing changes.
    pub fn peek_evict(&self, line: u32) -> Evict
        ensures { result ≡ (evicted self.now line).0 }
    {
        peek_evict_on::<Brand>(self, line, Blank::new(1))
    }

    /// Gives a copy up.
    pub fn evict(&mut self, line: u32) -> Evict
        ensures { (result, self.new) ≡ evicted self.old line }
    {
        evict_on::<Brand>(self, line, Blank::new(1))
    }
}

fn perm_on<L: Ledger>(cache: &ClientCache, line: u32, blank: Blank) -> Perm
    requires name { blank.name ≡ L.name }
    requires parts { blank.parts ≡ L.parts }
    requires some { 0 < L.parts }
    ensures { result ≡ perm_of (copy_at cache.now line) }
{
    let mut ticks: Ticks<L> = Ticks::new(blank);
    cache.perm_counted(line, &mut ticks)
}

fn read_on<L: Ledger>(cache: &ClientCache, line: u32, blank: Blank) -> Option<LineData>
    requires name { blank.name ≡ L.name }
    requires parts { blank.parts ≡ L.parts }
    requires some { 0 < L.parts }
    ensures { result ≡ bytes_of_copy (copy_at cache.now line) }
{
    let mut ticks: Ticks<L> = Ticks::new(blank);
    cache.read_counted(line, &mut ticks)
}

fn copy_on<L: Ledger>(cache: &ClientCache, line: u32, blank: Blank) -> Option<Held>
    requires name { blank.name ≡ L.name }
    requires parts { blank.parts ≡ L.parts }
    requires some { 0 < L.parts }
    ensures { result ≡ copy_at cache.now line }
{
    let mut ticks: Ticks<L> = Ticks::new(blank);
    cache.copy_counted(line, &mut ticks)
}

fn write_on<L: Ledger>(cache: &mut ClientCache, line: u32, bytes: LineData, blank: Blank)
    requires name { blank.name ≡ L.name }
    requires parts { blank.parts ≡ L.parts }
    requires some { 0 < L.parts }
    requires asked { perm_of (copy_at cache.old line) ≡ perms.Trunk }
    ensures { cache.new ≡ written cache.old line bytes }
{
    let mut ticks: Ticks<L> = Ticks::new(blank);
    cache.write_counted(line, bytes, &mut ticks);
}

fn write_word_on<L: Ledger>(
    cache: &mut ClientCache,
    line: u32,
    word: u32,
    marks: [bool; 4],
    bytes: [u8; 4],
    blank: Blank,
)
    requires name { blank.name ≡ L.name }
    requires parts { blank.parts ≡ L.parts }
    requires some { 0 < L.parts }
    requires trunk { perm_of (copy_at cache.old line) ≡ perms.Trunk }
    requires aligned { word % 4 ≡ 0 }
    ensures { cache.new ≡ word_written cache.old line word marks bytes }
{
    let mut ticks: Ticks<L> = Ticks::new(blank);
    cache.write_word_counted(line, word, marks, bytes, &mut ticks);
}

fn peek_want_on<L: Ledger>(cache: &ClientCache, line: u32, grow: Grow, blank: Blank) -> Want
    requires name { blank.name ≡ L.name }
    requires parts { blank.parts ≡ L.parts }
    requires some { 0 < L.parts }
    ensures { result ≡ (wanted cache.now line grow).0 }
{
    let mut ticks: Ticks<L> = Ticks::new(blank);
    cache.peek_want_counted(line, grow, &mut ticks)
}

fn want_on<L: Ledger>(cache: &mut ClientCache, line: u32, grow: Grow, blank: Blank) -> Want
    requires name { blank.name ≡ L.name }
    requires parts { blank.parts ≡ L.parts }
    requires some { 0 < L.parts }
    ensures { (result, cache.new) ≡ wanted cache.old line grow }
{
    let mut ticks: Ticks<L> = Ticks::new(blank);
    cache.want_counted(line, grow, &mut ticks)
}

fn on_probe_on<L: Ledger>(cache: &mut ClientCache, line: u32, cap: Cap, blank: Blank) -> Probed
    requires name { blank.name ≡ L.name }
    requires parts { blank.parts ≡ L.parts }
    requires some { 0 < L.parts }
    ensures { (result, cache.new) ≡ probed cache.old line cap }
{
    let mut ticks: Ticks<L> = Ticks::new(blank);
    cache.on_probe_counted(line, cap, &mut ticks)
}

fn on_grant_on<L: Ledger>(
    cache: &mut ClientCache,
    line: u32,
    cap: Cap,
    bytes: Option<LineData>,
    blank: Blank,
)
    requires name { blank.name ≡ L.name }
    requires parts { blank.parts ≡ L.parts }
    requires some { 0 < L.parts }
    requires asked { IsTrue (set.contains cache.old.acquiring line) }
    ensures { cache.new ≡ granted cache.old line cap bytes }
{
    let mut ticks: Ticks<L> = Ticks::new(blank);
    cache.on_grant_counted(line, cap, bytes, &mut ticks);
}

fn peek_evict_on<L: Ledger>(cache: &ClientCache, line: u32, blank: Blank) -> Evict
    requires name { blank.name ≡ L.name }
    requires parts { blank.parts ≡ L.parts }
    requires some { 0 < L.parts }
    ensures { result ≡ (evicted cache.now line).0 }
{
    let mut ticks: Ticks<L> = Ticks::new(blank);
    cache.peek_evict_counted(line, &mut ticks)
}

fn evict_on<L: Ledger>(cache: &mut ClientCache, line: u32, blank: Blank) -> Evict
    requires name { blank.name ≡ L.name }
    requires parts { blank.parts ≡ L.parts }
    requires some { 0 < L.parts }
    ensures { (result, cache.new) ≡ evicted cache.old line }
{
    let mut ticks: Ticks<L> = Ticks::new(blank);
    cache.evict_counted(line, &mut ticks)
}
