//! The lines in which an audit is told.
ghost use Rattle.std.specs.Prelude.{◌≡◌, ◌++◌, IfOk, OnOk, Some, codes, decimal, option_map, slice_get};
ghost use Rattle.std.specs.List.{list_any};
ghost use Rattle.std.specs.Option.{option_copied};
ghost use Rattle.elf_symbols.specs.Lookups.{nearest};
ghost use Rattle.fence_audit.specs.Text as text;
ghost use Rattle.fence_audit.specs.Searches.{answer_in};
ghost use Rattle.architecture_outcomes.specs.TheVariants as reach;
ghost use Rattle.image_orderings.specs.Programs.{is_kept};
ghost use Rattle.exploration_text.specs.Naming.{place_before};
ghost use Rattle.text_fields.specs.Fields.{word as hexadecimal};

use crate::{Answer, Audit, Search, World, is_whole, lacked_memory, search_in};
use architecture_outcomes::window_search::Reach;
use architecture_outcomes::{Architecture, Failing, Outcome};
use assembly::spell_assembly;
use elf_symbols::Symbols;
use exploration_text::order_text::spell_place;
use exploration_text::{WordName, end_text, stopped_text};
use image_orderings::{
    ImageOrdering, Part, Patch, is_kept, patches_with, patches_without, weaker_words, word_in,
};
use itoa::Buffer;
use rv32_decode::decode;
use std::alloc::{AllocError, Global};
use text_fields::{Page, word_text};

/// The lines that tell an audit, where words of memory are called so, and instructions lie at these symbols.
pub fn text_of(
    alloc: Global,
    names: &[WordName<'_>],
    symbols: &Symbols,
    audit: &Audit,
) -> Result<Vec<u8>, AllocError>
    ensures { IfOk result (λ bytes. bytes.items ≡ text.audit_text names.now symbols.now audit.now) }
{
    let mut bytes = Vec::new(alloc);
    if is_whole(&audit.known) {
        spell_whole(alloc, &mut bytes, names, symbols, audit)?;
    } else {
        spell_undecided(&mut bytes, audit)?;
    }
    Ok(bytes)
}

fn spell_undecided(into: &mut Vec<u8>, audit: &Audit) -> Result<(), AllocError>
    ensures { OnOk result (into.new.items ≡ into.old.items ++ text.undecided_text audit.now) }
{
    spell_text(into, b"undecided: the program as it is")?;
    spell_bound(into, &audit.known)?;
    spell_text(into, b"\n")?;
    Ok(())
}

fn spell_whole(
    alloc: Global,
    into: &mut Vec<u8>,
    names: &[WordName<'_>],
    symbols: &Symbols,
    audit: &Audit,
) -> Result<(), AllocError>
    ensures { OnOk result (into.new.items ≡ into.old.items ++ text.whole_text names.now symbols.now audit.now) }
{
    spell_orderings(alloc, into, names, symbols, audit)?;
    spell_last(alloc, into, audit)?;
    spell_counts(into, audit)?;
    Ok(())
}

fn spell_number(into: &mut Vec<u8>, number: u64) -> Result<(), AllocError>
    ensures { OnOk result (into.new.items ≡ into.old.items ++ decimal number) }
{
    let mut digits = Buffer::new();
    into.extend_from_slice(digits.format(number).as_bytes())?;
    Ok(())
}

/// A number and what it counts.
pub(crate) fn spell_counted(
    into: &mut Vec<u8>,
    number: usize,
    what: &[u8],
) -> Result<(), AllocError>
    ensures { OnOk result (into.new.items ≡ into.old.items ++ text.counted number what.now) }
{
    spell_number(into, number as u64)?;
    into.extend_from_slice(what)?;
    Ok(())
}

/// Whose outcomes were asked for.
pub(crate) fn spell_searched(into: &mut Vec<u8>, world: World) -> Result<(), AllocError>
    ensures { OnOk result (into.new.items ≡ into.old.items ++ text.searched_text world) }
{
    match world {
        World::Model => into.extend_from_slice(b"searched: ")?,
        World::Machine => into.extend_from_slice(b"searched on this machine: ")?,
    }
    Ok(())
}

fn spell_counts(into: &mut Vec<u8>, audit: &Audit) -> Result<(), AllocError>
    ensures { OnOk result (into.new.items ≡ into.old.items ++ text.counts_text audit.now) }
{
    spell_searched(into, audit.world)?;
    spell_counted(into, audit.met.len(), b" orderings, ")?;
    spell_counted(into, audit.searches.len() + 1, b" programs, ")?;
    spell_outcomes(into, audit.known.outcomes.len())?;
    Ok(())
}

pub(crate) fn spell_outcomes(into: &mut Vec<u8>, outcomes: usize) -> Result<(), AllocError>
    ensures { OnOk result (into.new.items ≡ into.old.items ++ text.outcomes_text outcomes) }
{
    spell_counted(into, outcomes, b" outcomes of the program as it is\n")
}

// ---- words of a line

pub(crate) fn spell_word(into: &mut Vec<u8>, word: Option<u32>) -> Result<(), AllocError>
    ensures { OnOk result (into.new.items ≡ into.old.items ++ text.word_text word) }
{
    let Some(word) = word else {
        return Ok(());
    };
    let Some(instr) = decode(word) else {
        return Ok(());
    };
    let mut page = Page::new();
    spell_assembly(&mut page, &instr, None);
    into.extend_from_slice(page.as_slice())?;
    Ok(())
}

fn spell_part(into: &mut Vec<u8>, part: Part) -> Result<(), AllocError>
    ensures { OnOk result (into.new.items ≡ into.old.items ++ text.part_text part) }
{
    match part {
        Part::Fence => into.extend_from_slice(b"    ")?,
        Part::Acquire => into.extend_from_slice(b"    aq  ")?,
        Part::Release => into.extend_from_slice(b"    rl  ")?,
    }
    Ok(())
}

/// Why a search isn't whole.
pub(crate) fn spell_bound(into: &mut Vec<u8>, found: &Architecture) -> Result<(), AllocError>
    ensures { OnOk result (into.new.items ≡ into.old.items ++ text.bound_text found.now) }
{
    if lacked_memory(found) {
        return spell_text(into, b", out of memory");
    }
    spell_reach(into, found.reach, found.window)
}

/// How far the search under the model came, or else that the machine's own met its limit.
fn spell_reach(into: &mut Vec<u8>, reach: Reach, window: u32) -> Result<(), AllocError>
    ensures { OnOk result (into.new.items ≡ into.old.items ++ text.reach_text reach window) }
{
    match reach {
        Reach::Whole => spell_text(into, b", this machine's states"),
        Reach::Unjudged => spell_text(into, b", runs of over 4096 operations"),
        Reach::Unclosed => spell_text(into, b", what a last pass over the states found"),
        Reach::WindowMet(_) => spell_width(into, window),
        Reach::ValuesMet(_) => spell_text(into, b", values of a load over 256"),
        Reach::WaysMet(_) => spell_text(into, b", ways of fetching on over 1000"),
        Reach::CallMet(_) => spell_text(into, b", calls by a loaded number"),
        Reach::RowMet(_) => spell_text(into, b", rows over 10000 instructions without an access"),
        Reach::LimitMet => spell_text(into, b", limit of states"),
        Reach::Ended(_) => spell_text(into, b", ended"),
        Reach::OutOfMemory => spell_text(into, b", out of memory"),
    }
}

pub(crate) fn spell_text(into: &mut Vec<u8>, what: &[u8]) -> Result<(), AllocError>
    ensures { OnOk result (into.new.items ≡ into.old.items ++ what.now) }
{
    into.extend_from_slice(what)?;
    Ok(())
}

fn spell_width(into: &mut Vec<u8>, window: u32) -> Result<(), AllocError>
    ensures { OnOk result (into.new.items ≡ into.old.items ++ text.width_text window) }
{
    into.extend_from_slice(b", windows over ")?;
    spell_number(into, window as u64)?;
    Ok(())
}

fn spell_end(
    alloc: Global,
    into: &mut Vec<u8>,
    names: &[WordName<'_>],
    outcome: Option<&Outcome>,
) -> Result<(), AllocError>
    ensures { OnOk result (into.new.items ≡ into.old.items ++ text.end_at names.now (option_copied outcome.entry)) }
{
    if let Some(outcome) = outcome {
        let line = end_text(alloc, names, &outcome.harts, &outcome.words)?;
        into.extend_from_slice(&line)?;
    }
    Ok(())
}

// ---- an ordering by itself

fn spell_orderings(
    alloc: Global,
    into: &mut Vec<u8>,
    names: &[WordName<'_>],
    symbols: &Symbols,
    audit: &Audit,
) -> Result<(), AllocError>
    ensures { OnOk result (into.new.items ≡ into.old.items ++ text.ordering_texts names.now symbols.now audit.now 0 audit.now.orderings.items) }
{
    let mut previous = 0;
    let mut rest = audit.orderings.as_slice();
    while let [first, tail @ ..] = rest {
        spell_ordering(alloc, into, names, symbols, audit, previous, *first)?;
        previous = first.address;
        rest = tail;
    }
    Ok(())
}

fn spell_ordering(
    alloc: Global,
    into: &mut Vec<u8>,
    names: &[WordName<'_>],
    symbols: &Symbols,
    audit: &Audit,
    previous: u32,
    ordering: ImageOrdering,
) -> Result<(), AllocError>
    ensures { OnOk result (into.new.items ≡ into.old.items ++ text.ordering_text names.now symbols.now audit.now previous ordering) }
{
    spell_head(into, symbols, previous, audit, ordering.address)?;
    spell_part(into, ordering.part)?;
    spell_if_met(alloc, into, names, symbols, audit, ordering)
}

/// What searches told, of one to which a hart may come.
fn spell_if_met(
    alloc: Global,
    into: &mut Vec<u8>,
    names: &[WordName<'_>],
    symbols: &Symbols,
    audit: &Audit,
    ordering: ImageOrdering,
) -> Result<(), AllocError>
    ensures { OnOk result (into.new.items ≡ into.old.items ++ text.met_text (text.is_met audit.now.met.items ordering.address) names.now symbols.now audit.now ordering) }
{
    if !is_met(&audit.met, ordering.address) {
        return spell_text(into, b"never met\n");
    }
    spell_without(alloc, into, names, symbols, audit, ordering)?;
    spell_weaker(alloc, into, audit, ordering)
}

fn is_met(met: &[ImageOrdering], address: u32) -> bool
    ensures { result ≡ text.is_met met.now address }
{
    met.iter().any(|each| each.address == address)
}

/// What a search without it told.
fn spell_without(
    alloc: Global,
    into: &mut Vec<u8>,
    names: &[WordName<'_>],
    symbols: &Symbols,
    audit: &Audit,
    ordering: ImageOrdering,
) -> Result<(), AllocError>
    ensures { OnOk result (into.new.items ≡ into.old.items ++ text.without_text names.now symbols.now audit.now ordering) }
{
    let without = patches_without(alloc, &audit.own, ordering)?;
    let search = search_in(&audit.searches, &without);
    spell_told(alloc, into, names, symbols, &audit.known.outcomes, search)
}

fn spell_head(
    into: &mut Vec<u8>,
    symbols: &Symbols,
    previous: u32,
    audit: &Audit,
    address: u32,
) -> Result<(), AllocError>
    ensures { OnOk result (into.new.items ≡ into.old.items ++ text.head_text symbols.now previous audit.now.own.items address) }
{
    if previous == address {
        return Ok(());
    }
    spell_instr(into, symbols, &audit.own, address)
}

fn spell_instr(
    into: &mut Vec<u8>,
    symbols: &Symbols,
    own: &[Patch],
    address: u32,
) -> Result<(), AllocError>
    ensures { OnOk result (into.new.items ≡ into.old.items ++ text.instr_line symbols.now own.now address) }
{
    spell_address(into, address)?;
    spell_text(into, b" ")?;
    spell_named(into, symbols, own, address)?;
    Ok(())
}

pub(crate) fn spell_address(into: &mut Vec<u8>, address: u32) -> Result<(), AllocError>
    ensures { OnOk result (into.new.items ≡ into.old.items ++ hexadecimal address) }
{
    into.extend_from_slice(&word_text(address))?;
    Ok(())
}

/// The instruction behind its symbol.
fn spell_named(
    into: &mut Vec<u8>,
    symbols: &Symbols,
    own: &[Patch],
    address: u32,
) -> Result<(), AllocError>
    ensures { OnOk result (into.new.items ≡ into.old.items ++ text.named_text symbols.now own.now address) }
{
    spell_symbol(into, symbols, address)?;
    spell_word(into, word_in(own, address))?;
    into.extend_from_slice(b"\n")?;
    Ok(())
}

/// The symbol of an address, with a space behind it, if it has one.
pub(crate) fn spell_symbol(
    into: &mut Vec<u8>,
    symbols: &Symbols,
    address: u32,
) -> Result<(), AllocError>
    ensures { OnOk result (into.new.items ≡ into.old.items ++ place_before (nearest symbols.now address)) }
{
    let Some(place) = symbols.nearest(address) else {
        return Ok(());
    };
    let mut page = Page::new();
    spell_place(&mut page, place);
    page.text(b" ");
    into.extend_from_slice(page.as_slice())?;
    Ok(())
}

fn spell_told(
    alloc: Global,
    into: &mut Vec<u8>,
    names: &[WordName<'_>],
    symbols: &Symbols,
    known: &[Outcome],
    search: Option<&Search>,
) -> Result<(), AllocError>
    ensures { OnOk result (into.new.items ≡ into.old.items ++ text.told_text names.now symbols.now known.now (option_map (λ s. s.now) search.entry)) }
{
    match search {
        Some(search) => spell_answer(alloc, into, names, symbols, known, search),
        None => {
            into.extend_from_slice(b"not asked\n")?;
            Ok(())
        }
    }
}

fn spell_answer(
    alloc: Global,
    into: &mut Vec<u8>,
    names: &[WordName<'_>],
    symbols: &Symbols,
    known: &[Outcome],
    search: &Search,
) -> Result<(), AllocError>
    ensures { OnOk result (into.new.items ≡ into.old.items ++ text.answer_text names.now symbols.now known.now search.now search.now.answer) }
{
    match search.answer {
        Answer::Same => {
            into.extend_from_slice(b"not needed\n")?;
            Ok(())
        }
        Answer::Other(place) => {
            let outcomes = search.found.outcomes.as_slice();
            spell_at(alloc, into, b"needed: without it", names, outcomes, place)
        }
        Answer::Stops(place) => {
            let failure = search.found.failures.get(place);
            spell_stop(alloc, into, symbols, failure)
        }
        Answer::Fewer(place) => {
            spell_at(
                alloc,
                into,
                b"needed: no longer without it",
                names,
                known,
                place,
            )
        }
        Answer::Bounded => spell_open(into, &search.found),
    }
}

/// The hart that stops where the ordering is left out.
fn spell_stop(
    alloc: Global,
    into: &mut Vec<u8>,
    symbols: &Symbols,
    failing: Option<&Failing>,
) -> Result<(), AllocError>
    ensures { OnOk result (into.new.items ≡ into.old.items ++ text.stop_line symbols.now (option_copied failing.entry)) }
{
    spell_text(into, b"needed: without it  ")?;
    spell_stopped(alloc, into, symbols, failing)?;
    spell_text(into, b"\n")?;
    Ok(())
}

fn spell_stopped(
    alloc: Global,
    into: &mut Vec<u8>,
    symbols: &Symbols,
    failing: Option<&Failing>,
) -> Result<(), AllocError>
    ensures { OnOk result (into.new.items ≡ into.old.items ++ text.stopped_at symbols.now (option_copied failing.entry)) }
{
    let Some(failing) = failing else {
        return Ok(());
    };
    let failure = failing.failure;
    let text = stopped_text(alloc, symbols, failure.hart, failure.stop)?;
    into.extend_from_slice(&text)?;
    Ok(())
}

/// What is said of an outcome, and the outcome at a place.
pub(crate) fn spell_at(
    alloc: Global,
    into: &mut Vec<u8>,
    what: &[u8],
    names: &[WordName<'_>],
    outcomes: &[Outcome],
    place: usize,
) -> Result<(), AllocError>
    ensures { OnOk result (into.new.items ≡ into.old.items ++ (what.now ++ (text.end_at names.now (slice_get outcomes.now place) ++ codes "\n"))) }
{
    spell_outcome(alloc, into, what, names, outcome_at(outcomes, place))
}

fn outcome_at(outcomes: &[Outcome], place: usize) -> Option<&Outcome>
    ensures { option_copied result ≡ slice_get outcomes.now place }
{
    outcomes.get(place)
}

/// What is said of an outcome, and the outcome.
fn spell_outcome(
    alloc: Global,
    into: &mut Vec<u8>,
    what: &[u8],
    names: &[WordName<'_>],
    outcome: Option<&Outcome>,
) -> Result<(), AllocError>
    ensures { OnOk result (into.new.items ≡ into.old.items ++ (what.now ++ (text.end_at names.now (option_copied outcome.entry) ++ codes "\n"))) }
{
    into.extend_from_slice(what)?;
    spell_end(alloc, into, names, outcome)?;
    into.extend_from_slice(b"\n")?;
    Ok(())
}

fn spell_open(into: &mut Vec<u8>, found: &Architecture) -> Result<(), AllocError>
    ensures { OnOk result (into.new.items ≡ into.old.items ++ (codes "undecided" ++ (text.bound_text found.now ++ codes "\n"))) }
{
    into.extend_from_slice(b"undecided")?;
    spell_bound(into, found)?;
    into.extend_from_slice(b"\n")?;
    Ok(())
}

fn spell_weaker(
    alloc: Global,
    into: &mut Vec<u8>,
    audit: &Audit,
    ordering: ImageOrdering,
) -> Result<(), AllocError>
    ensures { OnOk result (into.new.items ≡ into.old.items ++ text.weaker_text_by ordering.part audit.now.searches.items audit.now.own.items ordering.address) }
{
    match ordering.part {
        Part::Fence => {}
        Part::Acquire | Part::Release => return Ok(()),
    }
    match word_in(&audit.own, ordering.address) {
        Some(word) => spell_forms(alloc, into, audit, ordering.address, word),
        None => Ok(()),
    }
}

fn spell_forms(
    alloc: Global,
    into: &mut Vec<u8>,
    audit: &Audit,
    address: u32,
    word: u32,
) -> Result<(), AllocError>
    ensures { OnOk result (into.new.items ≡ into.old.items ++ text.weaker_text audit.now.searches.items audit.now.own.items address (Some word)) }
{
    let words = weaker_words(alloc, word)?;
    let mut rest = words.as_slice();
    while let [first, tail @ ..] = rest {
        let changed = patches_with(alloc, &audit.own, address, *first)?;
        spell_form(into, *first, search_in(&audit.searches, &changed))?;
        rest = tail;
    }
    Ok(())
}

pub(crate) fn answer_in(searches: &[Search], patches: &[Patch]) -> Option<Answer>
    ensures { result ≡ answer_in searches.now patches.now }
{
    let search = search_in(searches, patches)?;
    Some(search.answer)
}

fn spell_form(into: &mut Vec<u8>, word: u32, search: Option<&Search>) -> Result<(), AllocError>
    ensures { OnOk result (into.new.items ≡ into.old.items ++ text.form_text word (option_map (λ s. s.now) search.entry)) }
{
    match search {
        Some(search) => spell_form_by(into, word, &search.found, search.answer),
        None => Ok(()),
    }
}

/// A FENCE that is enough, or may be.
fn spell_form_by(
    into: &mut Vec<u8>,
    word: u32,
    found: &Architecture,
    answer: Answer,
) -> Result<(), AllocError>
    ensures { OnOk result (into.new.items ≡ into.old.items ++ text.form_by word found.now answer) }
{
    match answer {
        Answer::Same => spell_enough(into, word),
        Answer::Bounded => spell_open_form(into, word, found),
        Answer::Other(_) | Answer::Stops(_) | Answer::Fewer(_) => Ok(()),
    }
}

fn spell_enough(into: &mut Vec<u8>, word: u32) -> Result<(), AllocError>
    ensures { OnOk result (into.new.items ≡ into.old.items ++ (codes "    enough: " ++ (text.word_text (Some word) ++ codes "\n"))) }
{
    spell_text(into, b"    enough: ")?;
    spell_word(into, Some(word))?;
    spell_text(into, b"\n")?;
    Ok(())
}

fn spell_open_form(into: &mut Vec<u8>, word: u32, found: &Architecture) -> Result<(), AllocError>
    ensures { OnOk result (into.new.items ≡ into.old.items ++ (codes "    undecided: " ++ (text.word_text (Some word) ++ (text.bound_text found.now ++ codes "\n")))) }
{
    into.extend_from_slice(b"    undecided: ")?;
    spell_word(into, Some(word))?;
    spell_bound(into, found)?;
    into.extend_from_slice(b"\n")?;
    Ok(())
}

// ---- those that are enough together

fn spell_last(alloc: Global, into: &mut Vec<u8>, audit: &Audit) -> Result<(), AllocError>
    ensures { OnOk result (into.new.items ≡ into.old.items ++ text.last_text audit.now) }
{
    into.extend_from_slice(b"enough together")?;
    spell_minimal(into, is_minimal(alloc, audit)?)?;
    spell_some(into, &audit.last, &audit.met)?;
    into.extend_from_slice(b"\n")?;
    Ok(())
}

pub(crate) fn spell_minimal(into: &mut Vec<u8>, is_minimal: bool) -> Result<(), AllocError>
    ensures { OnOk result (into.new.items ≡ into.old.items ++ text.minimal_text is_minimal) }
{
    if is_minimal {
        return Ok(());
    }
    into.extend_from_slice(b", perhaps more than needed")?;
    Ok(())
}

fn spell_some(
    into: &mut Vec<u8>,
    last: &[Patch],
    orderings: &[ImageOrdering],
) -> Result<(), AllocError>
    ensures { OnOk result (into.new.items ≡ into.old.items ++ text.some_text (list_any (is_kept last.now) orderings.now) last.now orderings.now) }
{
    if has_kept(last, orderings) {
        return spell_items(into, last, orderings);
    }
    into.extend_from_slice(b": none")?;
    Ok(())
}

fn has_kept(last: &[Patch], orderings: &[ImageOrdering]) -> bool
    ensures { result ≡ list_any (is_kept last.now) orderings.now }
{
    orderings.iter().any(|ordering| is_kept(last, *ordering))
}

/// Whether none of those that are left can be left out.
fn is_minimal(alloc: Global, audit: &Audit) -> Result<bool, AllocError>
    ensures { IfOk result (λ minimal. minimal ≡ text.is_minimal audit.now) }
{
    let mut rest = audit.met.as_slice();
    while let [first, tail @ ..] = rest {
        if !is_needed_in(alloc, audit, *first)? {
            return Ok(false);
        }
        rest = tail;
    }
    Ok(true)
}

fn is_needed_in(alloc: Global, audit: &Audit, ordering: ImageOrdering) -> Result<bool, AllocError>
    ensures { IfOk result (λ needed. needed ≡ text.is_needed_in audit.now.searches.items audit.now.last.items ordering) }
{
    if !is_kept(&audit.last, ordering) {
        return Ok(true);
    }
    let without = patches_without(alloc, &audit.last, ordering)?;
    Ok(match search_in(&audit.searches, &without) {
        Some(search) => matches!(
            search.answer,
            Answer::Other(_) | Answer::Stops(_) | Answer::Fewer(_)
        ),
        None => false,
    })
}

fn spell_items(
    into: &mut Vec<u8>,
    last: &[Patch],
    orderings: &[ImageOrdering],
) -> Result<(), AllocError>
    ensures { OnOk result (into.new.items ≡ into.old.items ++ text.items_text (codes ": ") last.now orderings.now) }
{
    let mut before: &[u8] = b": ";
    let mut rest = orderings;
    while let [first, tail @ ..] = rest {
        if is_kept(last, *first) {
            into.extend_from_slice(before)?;
            spell_item(into, last, *first)?;
            before = b", ";
        }
        rest = tail;
    }
    Ok(())
}

fn spell_item(into: &mut Vec<u8>, last: &[Patch], ordering: ImageOrdering) -> Result<(), AllocError>
    ensures { OnOk result (into.new.items ≡ into.old.items ++ text.item_text last.now ordering) }
{
    into.extend_from_slice(&word_text(ordering.address))?;
    match ordering.part {
        Part::Fence => {
            into.extend_from_slice(b" ")?;
            spell_word(into, word_in(last, ordering.address))?;
        }
        Part::Acquire => into.extend_from_slice(b" aq")?,
        Part::Release => into.extend_from_slice(b" rl")?,
    }
    Ok(())
}
