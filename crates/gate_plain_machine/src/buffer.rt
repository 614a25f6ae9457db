//! A store buffer as groups of entries.

use crate::words::{Marks, marks_of_access, overlay, word_of};
use machine_types::MemoryModel;
use rv32_exec::Width;
use std::alloc::{AllocError, Global};

/// Entries that a store buffer has.
const MOST_ENTRIES: usize = 8;

/// A store on its way into the buffer.
#[derive(Clone, Copy)]
pub(crate) struct Store {
    pub word: u32,
    pub mask: Marks,
    /// Its bytes in the word; those that aren't marked don't count.
    pub value: [u8; 4],
    /// Its place in the hart's list.
    pub op: u32,
}

/// What the stores of one group to one word leave.
#[derive(Drop)]
pub struct Entry {
    pub word: u32,
    /// Which bytes of the word they wrote, the one at its address first.
    pub mask: [bool; 4],
    pub bytes: [u8; 4],
    /// The stores' places in the hart's list, in program order.
    pub ops: Vec<u32>,
}

/// The groups that have entries, the oldest first.
#[derive(Drop)]
pub(crate) struct Groups {
    groups: Vec<Vec<Entry>>,
    /// Whether the newest group is open; else the open one is empty, and all groups are sealed.
    is_open: bool,
}

fn has_word(word: u32, group: &[Entry]) -> bool {
    let mut has = false;
    for entry in group {
        has = has || entry.word == word;
    }
    has
}

impl Entry {
    fn blank(alloc: Global, word: u32) -> Entry {
        Entry {
            word,
            mask: [false; 4],
            bytes: [0; 4],
            ops: Vec::new(alloc),
        }
    }

    /// A later store to the word goes over what the entry has.
    fn merge(&mut self, store: &Store) -> Result<(), AllocError> {
        self.ops.push(store.op)?;
        overlay(&mut self.mask, &mut self.bytes, store.mask, store.value);
        Ok(())
    }
}

/// A store merges with its word's entry of the group, which is a new one where there is none.
fn put_in(alloc: Global, group: &mut Vec<Entry>, store: &Store) -> Result<(), AllocError> {
    if !has_word(store.word, group) {
        group.push(Entry::blank(alloc, store.word))?;
    }
    for entry in group.iter_mut() {
        if entry.word == store.word {
            entry.merge(store)?;
        }
    }
    Ok(())
}

impl Groups {
    pub fn new(alloc: Global) -> Groups {
        Groups {
            groups: Vec::new(alloc),
            is_open: false,
        }
    }

    pub fn is_empty(&self) -> bool {
        self.groups.is_empty()
    }

    pub fn has_sealed(&self) -> bool {
        self.groups.len() > usize::from(self.is_open)
    }

    /// Each group's entries, the oldest group first and the open one last.
    pub fn group(&self, index: usize) -> Option<&[Entry]> {
        if !self.is_open && index == self.groups.len() {
            return Some(&[]);
        }
        Some(self.groups.get(index)?.as_slice())
    }

    /// Whether some group has an entry of the word.
    pub fn has(&self, word: u32) -> bool {
        let mut has = false;
        for group in self.groups.iter() {
            has = has || has_word(word, group);
        }
        has
    }

    /// Whether a store to the word finds its entry in the open group.
    fn joins(&self, word: u32) -> bool {
        match self.groups.last() {
            Some(group) => self.is_open && has_word(word, group),
            None => false,
        }
    }

    /// Whether a store to the word finds an entry.
    pub fn fits(&self, word: u32) -> bool {
        let mut count = 0usize;
        for group in self.groups.iter() {
            count = count.saturating_add(group.len());
        }
        count < MOST_ENTRIES || self.joins(word)
    }

    /// A store merges in the open group alone. Under Ztso one to another word than that group's opens a new
    /// group.
    pub fn after_put(
        &mut self,
        alloc: Global,
        model: MemoryModel,
        store: &Store,
    ) -> Result<(), AllocError> {
        let is_apart = model == MemoryModel::Ztso && !self.joins(store.word);
        if !self.is_open || is_apart {
            self.groups.push(Vec::new(alloc))?;
            self.is_open = true;
        }
        match self.groups.last_mut() {
            Some(group) => put_in(alloc, group, store),
            None => Ok(()),
        }
    }

    /// The open group is closed behind its stores; an empty one stays.
    pub fn after_seal(&mut self) {
        self.is_open = false;
    }

    /// Which bytes of the word wait, and what the newest group that has each says.
    pub fn forwarded(&self, word: u32) -> (Marks, [u8; 4]) {
        let mut marks = [false; 4];
        let mut bytes = [0; 4];
        for group in self.groups.iter() {
            for entry in group.iter() {
                if entry.word == word {
                    overlay(&mut marks, &mut bytes, entry.mask, entry.bytes);
                }
            }
        }
        (marks, bytes)
    }

    /// Whether all bytes of an access wait.
    pub fn covers(&self, address: u32, size: Width) -> bool {
        let (marks, _) = self.forwarded(word_of(address));
        let needed = marks_of_access(address, size);
        let mut covers = true;
        for k in 0..4 {
            covers = covers && (marks[k] || !needed[k]);
        }
        covers
    }

    /// The word's entry in the oldest group.
    pub fn drainable(&self, word: u32) -> Option<&Entry> {
        for entry in self.groups.first()?.iter() {
            if entry.word == word {
                return Some(entry);
            }
        }
        None
    }

    /// The word's entry leaves the oldest group; a group leaves with its last entry.
    pub fn after_take(&mut self, word: u32) {
        let Some(group) = self.groups.first_mut() else {
            return;
        };
        for place in (0..group.len()).rev() {
            if place < group.len() && group[place].word == word {
                group.remove(place);
            }
        }
        if group.is_empty() {
            self.groups.remove(0);
            self.is_open = self.is_open && !self.groups.is_empty();
        }
    }
}
