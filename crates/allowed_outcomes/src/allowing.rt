//! The outcomes that a file allows.

ghost use Rattle.std.specs.Prelude.{◌≡◌, ◌&&◌, ◌||◌, IfOk, List, OnOk, ℕ};
ghost use Rattle.allowed_outcomes.specs.Allowing.{has_pattern, is_allowed_line, outcome_in, without_number, without_source};
ghost use Rattle.allowed_outcomes.specs.Known.{allows_line};
ghost use Rattle.allowed_outcomes.specs.Patterns.{fits, is_pattern};

use crate::patterns::{ANY, fits};
use bstr::ByteSlice;
use indexmap::IndexSet;
use std::alloc::{AllocError, Global};

/// The lines of a file, without their numbers and without who comes to them. In some `*` stands for a number.
#[derive(Drop)]
pub struct Allowed<'a> {
    lines: IndexSet<&'a [u8]>,
    /// Those in which `*` stands for a number.
    patterns: Vec<&'a [u8]>,
}

impl<'a> Allowed<'a> {
    /// Each line of the text. It takes a step for each byte.
    pub fn new(alloc: Global, text: &'a [u8]) -> Result<Allowed<'a>, AllocError>
        ensures { IfOk result (λ allowed. (line : List ℕ) → allows_line allowed line ≡ is_allowed_line text.now line) }
    {
        let mut lines = IndexSet::new(alloc);
        let mut patterns = Vec::new(alloc);
        let mut rest = text.lines();
        while let Some(line) = rest.next() {
            let outcome = outcome_in(line);
            lines.insert(outcome)?;
            add_pattern(&mut patterns, outcome)?;
        }
        Ok(Allowed { lines, patterns })
    }

    /// Whether one of the lines is this one, without its number, or allows it by its `*`.
    pub fn has(&self, line: &[u8]) -> bool
        ensures { result ≡ allows_line self.now line.now }
    {
        if self.lines.contains(line) {
            return true;
        }
        has_pattern(self.patterns.as_slice(), line)
    }
}

/// Whether the line is as one of the patterns says.
fn has_pattern(patterns: &[&[u8]], line: &[u8]) -> bool
    ensures { result ≡ has_pattern patterns.now line.now }
{
    let mut rest = patterns;
    while let [first, tail @ ..] = rest {
        if fits(first, line) {
            return true;
        }
        rest = tail;
    }
    false
}

/// Adds a line to the patterns, if it is one.
#[tactic(auto, using(crate::proofs::Lines::pattern_added, crate::proofs::Lines::pattern_left))]
fn add_pattern<'a>(patterns: &mut Vec<&'a [u8]>, line: &'a [u8]) -> Result<(), AllocError>
    ensures { OnOk result ((outcome : List ℕ) → has_pattern patterns.new.items outcome ≡ (has_pattern patterns.old.items outcome || (is_pattern line.entry.now && fits line.entry.now outcome))) }
{
    if !line.contains(&ANY) {
        return Ok(());
    }
    patterns.push(line)?;
    Ok(())
}

/// The outcome that the line tells.
fn outcome_in<'a>(line: &'a [u8]) -> &'a [u8]
    ensures { result.now ≡ outcome_in line.now }
{
    without_source(without_number(line))
}

/// The line before the words that say who comes to an outcome, if it ends with them.
fn without_source<'a>(line: &'a [u8]) -> &'a [u8]
    ensures { result.now ≡ without_source line.now }
{
    if let Some(outcome) = line.strip_suffix(b"   this machine") {
        outcome
    } else if let Some(outcome) = line.strip_suffix(b"   without a script") {
        outcome
    } else if let Some(outcome) = line.strip_suffix(b"   RVWMO alone") {
        outcome
    } else if let Some(outcome) = line.strip_suffix(b"   Ztso alone") {
        outcome
    } else if let Some(outcome) = line.strip_suffix(b"   RVWMO") {
        outcome
    } else if let Some(outcome) = line.strip_suffix(b"   Ztso") {
        outcome
    } else {
        line
    }
}

/// The line behind the digits and spaces at its beginning.
pub fn without_number<'a>(line: &'a [u8]) -> &'a [u8]
    ensures { result.now ≡ without_number line.now }
{
    let mut rest = line;
    while let [b' ' | b'0'..=b'9', tail @ ..] = rest {
        rest = tail;
    }
    rest
}
