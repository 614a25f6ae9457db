//! The lines in which is told what a program lacks that has outcomes that aren't allowed.
ghost use Rattle.std.specs.Prelude.{◌≡◌, ◌++◌, IfOk, OnOk, option_map};
ghost use Rattle.fence_audit.specs.Lacking as text;

use crate::spelling::{
    answer_in, spell_address, spell_at, spell_bound, spell_counted, spell_minimal, spell_outcomes,
    spell_searched, spell_symbol, spell_text, spell_word,
};
use crate::{Answer, Missing, Search, search_in};
use architecture_outcomes::Architecture;
use elf_symbols::Symbols;
use exploration_text::WordName;
use image_orderings::{NOP, Patch, patches_with, word_in};
use std::alloc::{AllocError, Global};

/// The lines that tell what a program lacks, where words of memory are called so, and instructions lie at these symbols.
pub fn lacking_text(
    alloc: Global,
    names: &[WordName<'_>],
    symbols: &Symbols,
    missing: &Missing,
) -> Result<Vec<u8>, AllocError>
    ensures { IfOk result (λ bytes. bytes.items ≡ text.missing_text names.now symbols.now missing.now) }
{
    let mut bytes = Vec::new(alloc);
    let known = missing.known.outcomes.as_slice();
    spell_at(
        alloc,
        &mut bytes,
        b"not allowed:",
        names,
        known,
        missing.place,
    )?;
    let most = search_in(&missing.searches, &missing.most);
    spell_found(alloc, &mut bytes, names, symbols, missing, most)?;
    spell_counts(&mut bytes, missing)?;
    Ok(bytes)
}

/// What comes of all that the program may order.
fn spell_found(
    alloc: Global,
    into: &mut Vec<u8>,
    names: &[WordName<'_>],
    symbols: &Symbols,
    missing: &Missing,
    most: Option<&Search>,
) -> Result<(), AllocError>
    ensures { OnOk result (into.new.items ≡ into.old.items ++ text.found_text names.now symbols.now missing.now (option_map (λ s. s.now) most.entry)) }
{
    match most {
        Some(search) => spell_answer(alloc, into, names, symbols, missing, search),
        None => Ok(()),
    }
}

fn spell_answer(
    alloc: Global,
    into: &mut Vec<u8>,
    names: &[WordName<'_>],
    symbols: &Symbols,
    missing: &Missing,
    search: &Search,
) -> Result<(), AllocError>
    ensures { OnOk result (into.new.items ≡ into.old.items ++ text.answer_text names.now symbols.now missing.now search.now search.now.answer) }
{
    match search.answer {
        Answer::Same => spell_changes(alloc, into, symbols, missing),
        Answer::Other(place) => {
            let outcomes = search.found.outcomes.as_slice();
            spell_at(
                alloc,
                into,
                b"not enough, all that may order:",
                names,
                outcomes,
                place,
            )
        }
        Answer::Stops(_) | Answer::Fewer(_) => Ok(()),
        Answer::Bounded => spell_open(into, &search.found),
    }
}

fn spell_open(into: &mut Vec<u8>, found: &Architecture) -> Result<(), AllocError>
    ensures { OnOk result (into.new.items ≡ into.old.items ++ text.open_text found.now) }
{
    spell_text(into, b"undecided, all that may order")?;
    spell_bound(into, found)?;
    spell_text(into, b"\n")?;
    Ok(())
}

fn spell_changes(
    alloc: Global,
    into: &mut Vec<u8>,
    symbols: &Symbols,
    missing: &Missing,
) -> Result<(), AllocError>
    ensures { OnOk result (into.new.items ≡ into.old.items ++ text.changes_text symbols.now (text.is_minimal missing.now) missing.now.last.items missing.now.own.items) }
{
    let is_minimal = is_minimal(alloc, missing)?;
    let mut rest = missing.own.as_slice();
    while let [first, tail @ ..] = rest {
        spell_if_changed(into, symbols, is_minimal, missing, *first)?;
        rest = tail;
    }
    Ok(())
}

fn spell_if_changed(
    into: &mut Vec<u8>,
    symbols: &Symbols,
    is_minimal: bool,
    missing: &Missing,
    own: Patch,
) -> Result<(), AllocError>
    ensures { OnOk result (into.new.items ≡ into.old.items ++ text.change_text symbols.now is_minimal missing.now.last.items own) }
{
    if !is_changed(&missing.last, own) {
        return Ok(());
    }
    spell_change(into, symbols, is_minimal, &missing.last, own)
}

/// Whether another word stands there.
fn is_changed(last: &[Patch], own: Patch) -> bool
    ensures { result ≡ text.is_changed last.now own }
{
    match word_in(last, own.address) {
        Some(word) => word != own.word,
        None => false,
    }
}

fn spell_change(
    into: &mut Vec<u8>,
    symbols: &Symbols,
    is_minimal: bool,
    last: &[Patch],
    own: Patch,
) -> Result<(), AllocError>
    ensures { OnOk result (into.new.items ≡ into.old.items ++ text.change_line symbols.now is_minimal last.now own) }
{
    spell_missing(into, is_minimal)?;
    spell_place(into, symbols, own)?;
    spell_new(into, word_in(last, own.address))?;
    Ok(())
}

fn spell_missing(into: &mut Vec<u8>, is_minimal: bool) -> Result<(), AllocError>
    ensures { OnOk result (into.new.items ≡ into.old.items ++ text.missing_head is_minimal) }
{
    into.extend_from_slice(b"missing")?;
    spell_minimal(into, is_minimal)?;
    into.extend_from_slice(b": ")?;
    Ok(())
}

/// What is to stand there.
fn spell_new(into: &mut Vec<u8>, word: Option<u32>) -> Result<(), AllocError>
    ensures { OnOk result (into.new.items ≡ into.old.items ++ text.new_text word) }
{
    into.extend_from_slice(b" -> ")?;
    spell_word(into, word)?;
    into.extend_from_slice(b"\n")?;
    Ok(())
}

fn spell_place(into: &mut Vec<u8>, symbols: &Symbols, own: Patch) -> Result<(), AllocError>
    ensures { OnOk result (into.new.items ≡ into.old.items ++ text.place_text symbols.now own) }
{
    spell_address(into, own.address)?;
    spell_text(into, b" ")?;
    spell_symbol(into, symbols, own.address)?;
    spell_own(into, own.word)?;
    Ok(())
}

/// The instruction as an assembler writes it, where it is no `nop`.
fn spell_own(into: &mut Vec<u8>, word: u32) -> Result<(), AllocError>
    ensures { OnOk result (into.new.items ≡ into.old.items ++ text.own_text word) }
{
    if word == NOP {
        into.extend_from_slice(b"nop")?;
        return Ok(());
    }
    spell_word(into, Some(word))
}

/// Whether none of the changes can be taken back.
fn is_minimal(alloc: Global, missing: &Missing) -> Result<bool, AllocError>
    ensures { IfOk result (λ minimal. minimal ≡ text.is_minimal missing.now) }
{
    let mut rest = missing.own.as_slice();
    while let [first, tail @ ..] = rest {
        if !is_needed(alloc, missing, *first)? {
            return Ok(false);
        }
        rest = tail;
    }
    Ok(true)
}

fn is_needed(alloc: Global, missing: &Missing, own: Patch) -> Result<bool, AllocError>
    ensures { IfOk result (λ needed. needed ≡ text.is_needed missing.now.searches.items missing.now.last.items own) }
{
    if !is_changed(&missing.last, own) {
        return Ok(true);
    }
    let without = patches_with(alloc, &missing.last, own.address, own.word)?;
    Ok(matches!(
        answer_in(&missing.searches, &without),
        Some(Answer::Other(_) | Answer::Stops(_) | Answer::Fewer(_))
    ))
}

fn spell_counts(into: &mut Vec<u8>, missing: &Missing) -> Result<(), AllocError>
    ensures { OnOk result (into.new.items ≡ into.old.items ++ text.counts_text missing.now) }
{
    spell_searched(into, missing.world)?;
    spell_counted(into, missing.own.len(), b" places, ")?;
    spell_counted(into, missing.searches.len() + 1, b" programs, ")?;
    spell_outcomes(into, missing.known.outcomes.len())?;
    Ok(())
}
