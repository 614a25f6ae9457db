//! The lines.
ghost use Rattle.std.specs.Prelude.{◌≡◌, ◌++◌, IfOk, OnOk};
ghost use Rattle.exploration_text.specs.Words as text;
ghost use Rattle.explorer.specs.Ends.{outcome_of, outcome_with, outcomes_of};

use crate::failures::spell_failures;
use crate::spelling::{spell_extent, spell_harts, spell_number, spell_stuck};
use elf_symbols::Symbols;
use explorer::flat_model::HartResult;
use explorer::{Exploration, Found};
use std::alloc::{AllocError, Global};
use text_fields::word_text;

/// What a line calls a word of memory.
#[derive(Clone, Copy, Debug)]
pub enum WordName<'a> {
    Symbol(&'a str),
    Address(u32),
}

fn spell_name(into: &mut Vec<u8>, name: &WordName<'_>) -> Result<(), AllocError>
    ensures { OnOk result (into.new.items ≡ into.old.items ++ text.name_text name.now) }
{
    match name {
        WordName::Symbol(symbol) => into.extend_from_slice(symbol.as_bytes()),
        WordName::Address(address) => into.extend_from_slice(&word_text(*address)),
    }
}

fn spell_word(into: &mut Vec<u8>, name: &WordName<'_>, value: u32) -> Result<(), AllocError>
    ensures { OnOk result (into.new.items ≡ into.old.items ++ text.word_field name.now value) }
{
    into.extend_from_slice(b"   ")?;
    spell_name(into, name)?;
    into.extend_from_slice(b" = ")?;
    into.extend_from_slice(&word_text(value))?;
    Ok(())
}

/// The words by their names, of which there are as many.
fn spell_words(into: &mut Vec<u8>, names: &[WordName<'_>], words: &[u32]) -> Result<(), AllocError>
    ensures { OnOk result (into.new.items ≡ into.old.items ++ text.word_fields names.now words.now) }
{
    let mut rest = names;
    let mut values = words;
    while let [first, tail @ ..] = rest {
        let [value, others @ ..] = values else {
            return Ok(());
        };
        spell_word(into, first, *value)?;
        rest = tail;
        values = others;
    }
    Ok(())
}

fn spell_end(
    into: &mut Vec<u8>,
    names: &[WordName<'_>],
    harts: &[HartResult],
    words: &[u32],
) -> Result<(), AllocError>
    ensures { OnOk result (into.new.items ≡ into.old.items ++ text.end_text names.now (outcome_with harts.now words.now)) }
{
    spell_harts(into, harts)?;
    spell_words(into, names, words)
}

fn spell_outcome(
    into: &mut Vec<u8>,
    names: &[WordName<'_>],
    number: usize,
    found: &Found,
) -> Result<(), AllocError>
    ensures { OnOk result (into.new.items ≡ into.old.items ++ text.end_line names.now number (outcome_of found.now)) }
{
    spell_number(into, number as u64)?;
    spell_end(into, names, &found.harts, &found.words)?;
    into.extend_from_slice(b"\n")
}

fn spell_outcomes(
    into: &mut Vec<u8>,
    names: &[WordName<'_>],
    outcomes: &[Found],
) -> Result<(), AllocError>
    ensures { OnOk result (into.new.items ≡ into.old.items ++ text.end_lines names.now 1 (outcomes_of outcomes.now)) }
{
    let mut rest = outcomes;
    let mut number = 1;
    while let [first, tail @ ..] = rest {
        spell_outcome(into, names, number, first)?;
        rest = tail;
        number += 1;
    }
    Ok(())
}

/// How each hart ended and the words by their names, as a line of `text_of` has them behind its number: two spaces
/// stand before the first hart.
pub fn end_text(
    alloc: Global,
    names: &[WordName<'_>],
    harts: &[HartResult],
    words: &[u32],
) -> Result<Vec<u8>, AllocError>
    ensures { IfOk result (λ bytes. bytes.items ≡ text.end_text names.now (outcome_with harts.now words.now)) }
{
    let mut bytes = Vec::new(alloc);
    spell_end(&mut bytes, names, harts, words)?;
    Ok(bytes)
}

/// A line for each outcome, in order and counted from 1, where behind the harts stand the words by these names, perhaps
/// none; one for each failure, its places by the names of these symbols; one for the states from which no schedule ends, if there are any; and one that says whether
/// these are all outcomes, and all failures.
pub fn text_of(
    alloc: Global,
    names: &[WordName<'_>],
    symbols: &Symbols,
    exploration: &Exploration,
) -> Result<Vec<u8>, AllocError>
    ensures { IfOk result (λ bytes. bytes.items ≡ text.exploration_text names.now symbols.now exploration.now) }
{
    let mut bytes = Vec::new(alloc);
    spell_outcomes(&mut bytes, names, &exploration.outcomes)?;
    spell_failures(&mut bytes, symbols, &exploration.failures)?;
    spell_stuck(&mut bytes, &exploration.stuck)?;
    spell_extent(
        &mut bytes,
        exploration.extent,
        exploration.outcomes.len(),
        exploration.failures.len(),
        exploration.states,
    )?;
    Ok(bytes)
}
