//! The buffer: a few entries, in groups.
ghost use Rattle.std.specs.Prelude.{◌≡◌, ◌↔◌, ◌<◌, ◌≤◌, ◌+◌, true, false, Err, length, OnOk, OnErr, IfOk, IfSome, IfNone, IsNone, IsTrue, slice_index_or, [], ◌∷◌, ◌++◌, All, Any, sum, take, drop, ◌^◌};
ghost use Rattle.store_buffer.specs.Entry.{blank_entry, joined, has_word, entry_of, with_store};
ghost use Rattle.store_buffer.specs.Groups.{Groups, IsLawful, no_groups, groups_of, has_sealed, is_empty, entry_count, has, fits, after_put, after_put_single, after_seal, forwarded, oldest, drainable, after_take};
ghost use Rattle.store_buffer.specs.Layout.{place_of, overlaid, one_less};

use crate::{ByteMask, Entry, Ops, Store};
use arrayvec::ArrayVec;
use machine_types::BUFFER_ENTRIES;
use std::alloc::{AllocError, Global};
use std::marker::Model;

/// Why a store isn't taken in.
#[derive(Clone, Copy, Debug, PartialEq, Eq)]
pub enum PutError {
    /// It needs a further entry, and each is used.
    Full = 1,
    /// An entry's list of stores can't grow.
    NoMemory = 2,
}

impl From<AllocError> for PutError {
    ghost use Rattle.std.specs.Prelude.{◌≡◌};
    ghost use Rattle.store_buffer.specs.declared.buffer.PutError.TheVariants.{NoMemory};

    ghost from_gives = { λ _ e. e ≡ NoMemory };

    fn from(_error: AllocError) -> Self {
        PutError::NoMemory
    }
}

/// A hart's stores that wait.
#[derive(Clone, Drop)]
pub struct StoreBuffer {
    alloc: Global,
    // oldest group first, and a group's entries in the order of their first stores
    entries: ArrayVec<Entry, BUFFER_ENTRIES, Global>,
    // how many entries each sealed group has; those behind are the open group's
    sealed: ArrayVec<usize, BUFFER_ENTRIES>,
    // lists that entries had that are gone, so that those to come take no memory for theirs
    spare: ArrayVec<Ops, BUFFER_ENTRIES, Global>,
}

impl Model for StoreBuffer {
    ghost use Rattle.store_buffer.specs.Groups.{Groups};

    ghost Value = { Groups };

    ghost use Rattle.store_buffer.specs.Layout.{groups_in, AreGroupsLaidOut};

    ghost view = { λ b. groups_in b.sealed.items b.entries.items };

    ghost invariant = { λ b. AreGroupsLaidOut b.sealed.items b.entries.items };
}

/// Where a word has its oldest entry among these.
fn place_of(entries: &[Entry], word: u32) -> Option<usize>
    ensures { result ≡ place_of word entries.now }
{
    entries.iter().position(|entry| entry.word == word)
}

fn has_word(entries: &[Entry], word: u32) -> bool
    ensures { result ≡ has_word word entries.now }
{
    place_of(entries, word).is_some()
}

fn lowest_word(entries: &[Entry]) -> Option<u32>
    ensures none { IsNone result ↔ (entries.now ≡ []) }
    ensures found { IfSome result (λ word. Any (λ e. e.word ≡ word) entries.now) }
    ensures lowest { IfSome result (λ word. All (λ e. word ≤ e.word) entries.now) }
{
    entries.iter().map(|entry| entry.word).min()
}

fn total(counts: &[usize]) -> usize
    requires { sum counts.now < 2 ^ 64 }
    ensures { result ≡ sum counts.now }
{
    counts.iter().sum()
}

/// The bytes of a word that these entries have, the newest entry's last.
fn overlaid(entries: &[Entry], word: u32) -> (ByteMask, [u8; 4])
    ensures { result ≡ overlaid word entries.now }
{
    let mut mask = ByteMask::none();
    let mut bytes = [0; 4];
    for entry in entries {
        if entry.word == word {
            let laid = entry.mask.lay_over(entry.bytes, bytes);
            mask = entry.mask.union(mask);
            bytes = laid;
        }
    }
    (mask, bytes)
}

/// An empty list: a spare one, or a new one, which takes no memory.
fn empty_list(alloc: Global, spare: &mut ArrayVec<Ops, BUFFER_ENTRIES, Global>) -> Ops
    ensures { result ≡ [] }
{
    match spare.pop() {
        Some(mut ops) => {
            ops.clear();
            ops
        }
        None => Ops::new(alloc),
    }
}

/// Takes a store into the entries from `start` on.
fn put_behind(
    alloc: Global,
    entries: &mut ArrayVec<Entry, BUFFER_ENTRIES, Global>,
    spare: &mut ArrayVec<Ops, BUFFER_ENTRIES, Global>,
    start: usize,
    store: Store,
) -> Result<(), PutError>
    requires { start ≤ length entries.old.items }
    ensures ok { OnOk result (entries.new.items ≡ take start entries.old.items ++ with_store store (drop start entries.old.items)) }
    ensures err { OnErr result (entries.new ≡ entries.old) }
    ensures full { (result ≡ Err PutError.Full) ↔ ((has_word store.word (drop start entries.old.items) ≡ false) × (length entries.old.items ≡ BUFFER_ENTRIES)) }
{
    match place_of(&entries[start..], store.word) {
        Some(place) => entries[start + place].join(store)?,
        None => {
            if entries.is_full() {
                return Err(PutError::Full);
            }
            let ops = empty_list(alloc, spare);
            entries.push(Entry::of_store(ops, store)?);
        }
    }
    Ok(())
}

/// Counts one entry of the oldest sealed group less. A group without entries is none.
fn forget_one(sealed: &mut ArrayVec<usize, BUFFER_ENTRIES>)
    ensures { sealed.new.items ≡ one_less sealed.old.items }
{
    if sealed.is_empty() {
        return;
    }
    if sealed[0] > 1 {
        sealed[0] -= 1;
    } else {
        sealed.remove(0);
    }
}

impl StoreBuffer {
    /// An empty buffer; it takes no memory.
    pub fn new(alloc: Global) -> Self
        ensures { result ≡ no_groups }
    {
        StoreBuffer {
            alloc,
            entries: ArrayVec::new_in(alloc),
            sealed: ArrayVec::new(),
            spare: ArrayVec::new_in(alloc),
        }
    }

    /// A buffer of its own with the same groups.
    pub fn try_copy(&self) -> Result<Self, AllocError>
        ensures { IfOk result (λ b. b ≡ self.now) }
    {
        self.clone()
    }

    /// Whether no store waits.
    pub fn is_empty(&self) -> bool
        ensures { result ≡ is_empty self.now }
    {
        self.entries.is_empty()
    }

    /// Whether there is a group beside the open one.
    pub fn has_sealed(&self) -> bool
        ensures { result ≡ has_sealed self.now }
    {
        !self.sealed.is_empty()
    }

    /// How many entries are used.
    pub fn entry_count(&self) -> usize
        ensures count { result ≡ entry_count self.now }
        ensures lawful { IsLawful self.now }
    {
        self.entries.len()
    }

    /// Whether some group has an entry of the word, whatever its marks.
    pub fn has(&self, word: u32) -> bool
        ensures { result ≡ has word self.now }
    {
        has_word(&self.entries, word)
    }

    /// The open group's entries, in the order of their first stores.
    pub fn current(&self) -> &[Entry]
        ensures { result.now ≡ self.now.current }
    {
        let start = total(&self.sealed);
        &self.entries[start..]
    }

    /// The entries of the oldest group that has any.
    pub fn oldest(&self) -> &[Entry]
        ensures { result.now ≡ oldest self.now }
    {
        match self.sealed.first() {
            Some(count) => &self.entries[..*count],
            None => &self.entries,
        }
    }

    /// How many groups there are, the open one among them.
    pub fn group_count(&self) -> usize
        ensures { result ≡ length (groups_of self.now) }
    {
        self.sealed.len() + 1
    }

    /// A group's entries, in the order of their first stores. Group 0 is the oldest.
    pub fn group(&self, index: usize) -> &[Entry]
        requires { index < length (groups_of self.now) }
        ensures { result.now ≡ slice_index_or (groups_of self.now) index [] }
    {
        let start = total(&self.sealed[..index]);
        if index < self.sealed.len() {
            &self.entries[start..start + self.sealed[index]]
        } else {
            &self.entries[start..]
        }
    }

    /// Whether a store to the word finds an entry, so that a put can fail for want of memory alone.
    pub fn fits(&self, word: u32) -> bool
        ensures { result ≡ fits word self.now }
    {
        has_word(self.current(), word) || !self.entries.is_full()
    }

    /// The bytes of the word that the buffer has, each from the newest group; 0 where it has none.
    pub fn forward(&self, word: u32) -> (ByteMask, [u8; 4])
        ensures { result ≡ forwarded word self.now }
    {
        overlaid(&self.entries, word)
    }

    /// Whether the word's entry may leave: it is in the oldest group.
    pub fn drainable(&self, word: u32) -> bool
        ensures { result ≡ drainable word self.now }
    {
        has_word(self.oldest(), word)
    }

    /// The entry that a drain of the word performs, for a word that is drainable.
    pub fn entry(&self, word: u32) -> &Entry
        requires { IsTrue (drainable word self.now) }
        ensures { result.now ≡ entry_of word (oldest self.now) }
    {
        let oldest = self.oldest();
        let Some(place) = place_of(oldest, word) else {
            unreachable!()
        };
        &oldest[place]
    }

    /// The lowest word that is drainable.
    pub fn lowest(&self) -> Option<u32>
        ensures none { IsNone result ↔ (oldest self.now ≡ []) }
        ensures drainable { IfSome result (λ word. IsTrue (drainable word self.now)) }
        ensures lowest { IfSome result (λ word. All (λ e. word ≤ e.word) (oldest self.now)) }
    {
        lowest_word(self.oldest())
    }

    /// Takes in a store of the marked bytes of `value`, which lie by their places in the word;
    /// `op` is the store's place in its hart's list. An error leaves the buffer as it was.
    pub fn put(
        &mut self,
        word: u32,
        mask: ByteMask,
        value: [u8; 4],
        op: u32,
    ) -> Result<(), PutError>
        ensures ok { OnOk result (self.new ≡ after_put (record { word = word; mask = mask; value = value; op = op }) self.old) }
        ensures full { (result ≡ Err PutError.Full) ↔ (fits word self.old ≡ false) }
        ensures err { OnErr result (self.new ≡ self.old) }
    {
        let store = Store {
            word,
            mask,
            value,
            op,
        };
        let start = total(&self.sealed);
        put_behind(self.alloc, &mut self.entries, &mut self.spare, start, store)?;
        Ok(())
    }

    /// `put` under total store order: a store to another word than the open group's is kept behind it.
    pub fn put_single(
        &mut self,
        word: u32,
        mask: ByteMask,
        value: [u8; 4],
        op: u32,
    ) -> Result<(), PutError>
        ensures ok { OnOk result (self.new ≡ after_put_single (record { word = word; mask = mask; value = value; op = op }) self.old) }
        ensures full { (result ≡ Err PutError.Full) ↔ (fits word self.old ≡ false) }
        ensures err { OnErr result (self.new ≡ self.old) }
    {
        let store = Store {
            word,
            mask,
            value,
            op,
        };
        let start = total(&self.sealed);
        let count = self.entries.len();
        put_behind(self.alloc, &mut self.entries, &mut self.spare, start, store)?;
        let is_new = self.entries.len() > count;
        if is_new && count > start {
            self.sealed.push(count - start);
        }
        Ok(())
    }

    /// Closes the open group, if it has an entry: later stores stay behind its own.
    pub fn seal(&mut self)
        ensures { self.new ≡ after_seal self.old }
    {
        let start = total(&self.sealed);
        let count = self.entries.len() - start;
        if count > 0 {
            self.sealed.push(count);
        }
    }

    /// Takes out the word's entry in the oldest group.
    pub fn take(&mut self, word: u32) -> Entry
        requires { IsTrue (drainable word self.old) }
        ensures entry { result ≡ entry_of word (oldest self.old) }
        ensures rest { self.new ≡ after_take word self.old }
    {
        let Some(place) = place_of(&self.entries, word) else {
            unreachable!()
        };
        forget_one(&mut self.sealed);
        self.entries.remove(place)
    }

    /// Keeps the list of an entry that was taken out: a later store's entry takes no memory for its own.
    pub fn keep(&mut self, ops: Ops)
        ensures { self.new ≡ self.old }
    {
        if !self.spare.is_full() {
            self.spare.push(ops);
        }
    }
}
