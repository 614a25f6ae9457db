//! The rank of the last store to each byte, among those that a walk has passed.
ghost use Rattle.std.specs.Prelude.{◌≡◌, ◌≤◌, ◌+◌, ◌*◌, ◌/◌, ◌%◌, ◌<◌, ◌&&◌, ℕ, [], OnOk, if◌then◌else◌, max, nat_eq, nat_le, nat_lt, replicate, slice_index_or, unwrap_or};
ghost use Rattle.std.specs.HashMap as hash;
ghost use Rattle.memory_model.specs.Operations as operations;
ghost use Rattle.rvwmo_order.specs.Sourcing.{latest_at};

use crate::by_word::word_of;
use memory_model::Operation;
use std::alloc::{AllocError, Global};
use std::collections::HashMap;
use trace_operations::accesses::{behind_in_word, end_of};

#[derive(Drop)]
pub(crate) struct Latest {
    /// By four bytes in a row, the first of which is a multiple of four.
    words: HashMap<u64, [usize; 4]>,
}

impl Latest {
    pub(crate) fn none(alloc: Global) -> Latest
        ensures { (x : ℕ) → latest_at result.words x ≡ 0 }
    {
        Latest {
            words: HashMap::new(alloc),
        }
    }

    /// Those of the first bytes of an operation.
    pub(crate) fn ranks(&self, a: &Operation) -> [usize; 4]
        ensures { (i : ℕ) → i < 4 → i < a.now.size → slice_index_or result i 0 ≡ latest_at self.now.words (a.now.address + i) }
    {
        let first = u64::from(a.address);
        let number = first / 4;
        if first % 4 == 0 {
            return self.kept(number);
        }
        let word = word_of(&self.words, number);
        let mut ranks = [0; 4];
        for offset in 0..4 {
            if (offset as u32) < a.size {
                ranks[offset] = self.near(number, word, first + offset as u64);
            }
        }
        ranks
    }

    // The rank at a byte, where this is kept of the word of this number.
    fn near(&self, number: u64, word: &[usize], x: u64) -> usize
        requires { word.now ≡ unwrap_or (hash.get nat_eq self.now.words number) [] }
        ensures { result ≡ latest_at self.now.words x }
    {
        if x / 4 == number {
            at(word, x)
        } else {
            at(word_of(&self.words, x / 4), x)
        }
    }

    // What is kept of the bytes of a word, for each of the four.
    fn kept(&self, number: u64) -> [usize; 4]
        ensures { result ≡ unwrap_or (hash.get nat_eq self.now.words number) (replicate 4 0) }
    {
        match self.words.get(&number) {
            Some(word) => *word,
            None => [0; 4],
        }
    }

    /// Goes past a store of this rank.
    pub(crate) fn raise(&mut self, a: &Operation, rank: usize) -> Result<(), AllocError>
        ensures { OnOk result ((x : ℕ) → latest_at self.new.words x
            ≡ (if operations.touches x a.now then max (latest_at self.old.words x) rank else latest_at self.old.words x)) }
    {
        let end = end_of(a);
        let mut x = u64::from(a.address);
        while x < end {
            let behind = behind_in_word(x, end);
            match self.words.get_mut(&(x / 4)) {
                Some(word) => raise_word(word, x, behind, rank),
                None => {
                    let mut word = [0; 4];
                    raise_word(&mut word, x, behind, rank);
                    self.words.insert(x / 4, word)?;
                }
            }
            x = behind;
        }
        Ok(())
    }
}

// The rank at a byte of a word.
fn at(word: &[usize], x: u64) -> usize
    ensures { result ≡ slice_index_or word.now (x % 4) 0 }
{
    match word.get((x % 4) as usize) {
        Some(rank) => *rank,
        None => 0,
    }
}

// Goes past a store at the bytes of a word from one on, up to another.
fn raise_word(word: &mut [usize; 4], first: u64, end: u64, rank: usize)
    requires ordered { first ≤ end }
    requires within { end ≤ first / 4 * 4 + 4 }
    ensures { (x : ℕ) → x / 4 ≡ first / 4 → slice_index_or word.new (x % 4) 0
        ≡ (if nat_le first x && nat_lt x end then max (slice_index_or word.old (x % 4) 0) rank else slice_index_or word.old (x % 4) 0) }
{
    for x in first..end {
        let byte = (x % 4) as usize;
        word[byte] = word[byte].max(rank);
    }
}
