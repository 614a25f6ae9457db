//! Dependencies through registers, found by one sweep back over a hart's list: the registers that an
//! operation wants are carried towards the list's front, one flag for each of x0 to x31, and each
//! instruction is marked where it writes one of them.
ghost use Rattle.std.specs.Prelude.{◌≡◌, ◌≤◌, ◌-◌, ◌++◌, OnOk, Some, if◌then◌else◌, false, length, replicate, slice_index_or, true, []};
ghost use Rattle.std.specs.List.{list_any};
ghost use Rattle.std.specs.Option.{option_to_list};
ghost use Rattle.memory_model.specs.Order as orders;
ghost use Rattle.hart.specs.Uses.{uses_of};
ghost use Rattle.memory_model.specs.Dependencies as dependencies;
ghost use Rattle.memory_model.specs.Dependencies.{holds, uses_at, uses_in, with_flags};
ghost use Rattle.rvwmo_order.specs.Marks as spec;
ghost use Rattle.rvwmo_order.specs.Marks.{IsBelow, TellsEach};
ghost use Rattle.rvwmo_order.specs.Ranks.{IsIn};
ghost use Rattle.trace_operations.specs.Placed.{GivesOwn};

use crate::ranking::Ranking;
use crate::rule::Rule;
use crate::sources::is_same_source;
use crate::uses::instr_at;
use hart::rv32_exec::{
    address_register, destination, is_steering, other_registers, stored_register,
};
use memory_model::Operation;
use rv32_decode::{Instr, Register};
use std::alloc::{AllocError, Global};
use trace_operations::accesses::{end_of, precedes, reads, writes};
use trace_operations::{Item, Items, Stretch};

/// The sweeps for a rule, and the marks of the last one.
#[derive(Drop)]
pub(crate) struct Sweep {
    rule: Rule,
    /// The place of the first instruction that has a mark.
    low: u32,
    marks: Vec<bool>,
    /// The stores that the bytes of the second operation come from, where the rule asks for them.
    sources: Vec<Option<Operation>>,
}

impl Sweep {
    pub(crate) fn new(alloc: Global, rule: Rule) -> Sweep
        ensures { result.rule ≡ rule }
    {
        Sweep {
            rule,
            low: 0,
            marks: Vec::new(alloc),
            sources: Vec::new(alloc),
        }
    }

    pub(crate) fn rule(&self) -> Rule
        ensures { result ≡ self.now.rule }
    {
        self.rule
    }

    /// Sweeps back from `b`, as far as to the first of these operations that precedes it; not at all where
    /// the rule is not one on dependencies, or says nothing of `b`.
    pub(crate) fn mark(
        &mut self,
        items: &Items,
        ranking: &Ranking,
        among: &[Operation],
        b: &Operation,
    ) -> Result<(), AllocError>
        requires own { GivesOwn b.now.hart items.now }
        requires there { IsIn ranking.now b.now }
        ensures rule { self.new.rule ≡ self.old.rule }
        ensures told { OnOk result (TellsEach self.old.rule items.now ranking.now b.now self.new.low self.new.marks.items among.now) }
    {
        let rule = self.rule;
        self.low = 0;
        self.marks.clear();
        if !is_swept(rule, b) {
            return Ok(());
        }
        self.low = lowest(among, b);
        find_sources(&mut self.sources, rule, ranking, b)?;
        let stretch = items.stretch(self.low as usize, b.place as usize);
        self.marks.resize(stretch.len(), false)?;
        let mut wanted = wanted_at(rule, items, b);
        mark_back(rule, &self.sources, &stretch, &mut wanted, &mut self.marks);
        Ok(())
    }

    /// Whether the instruction of an operation has a mark.
    pub(crate) fn is_marked(&self, a: &Operation) -> bool
        requires { self.now.low ≤ a.now.place }
        ensures { result ≡ slice_index_or self.now.marks.items (a.now.place - self.now.low) false }
    {
        match self.marks.get((a.place - self.low) as usize) {
            Some(mark) => *mark,
            None => false,
        }
    }
}

// Whether the rule is one on dependencies that may ask for an operation before `b`.
fn is_swept(rule: Rule, b: &Operation) -> bool
    ensures { result ≡ spec.is_swept rule b.now }
{
    match rule {
        Rule::Address | Rule::Data => true,
        Rule::Control | Rule::DependentAddress => writes(b.kind),
        Rule::DependentStore => reads(b.kind),
        _ => false,
    }
}

// The stores that the bytes of `b` come from, where the rule asks for them.
fn find_sources(
    sources: &mut Vec<Option<Operation>>,
    rule: Rule,
    ranking: &Ranking,
    b: &Operation,
) -> Result<(), AllocError>
    requires swept { spec.is_swept rule b.now ≡ true }
    requires there { IsIn ranking.now b.now }
    ensures { OnOk result (sources.new.items ≡ spec.sources_of rule ranking.now b.now) }
{
    sources.clear();
    if !matches!(rule, Rule::DependentStore) {
        return Ok(());
    }
    let ranks = ranking.ranks_of(b);
    for x in u64::from(b.address)..end_of(b) {
        sources.push(ranking.source_at(&ranks, b, x))?;
    }
    Ok(())
}

// The first place of those that precede `b`; its own where none does.
fn lowest(among: &[Operation], b: &Operation) -> u32
    ensures { IsBelow result b.now among.now }
{
    let mut low = b.place;
    for a in among {
        if precedes(a, b) {
            low = low.min(a.place);
        }
    }
    low
}

// The registers that `b` itself asks for, by the rule.
fn wanted_at(rule: Rule, items: &Items, b: &Operation) -> [bool; 32]
    ensures { result ≡ with_flags (replicate 32 false) true (spec.asked_at rule (uses_at items.now b.now)) }
{
    let mut wanted = [false; 32];
    if let Some(instr) = instr_at(items, b) {
        match rule {
            Rule::Address => want(&mut wanted, address_register(&instr)),
            Rule::Data => want(&mut wanted, stored_register(&instr)),
            _ => {}
        }
    }
    wanted
}

// Marks each of these instructions, from the last to the first, where it writes a register that is wanted
// behind it.
fn mark_back(
    rule: Rule,
    sources: &[Option<Operation>],
    stretch: &Stretch<'_>,
    wanted: &mut [bool; 32],
    marks: &mut [bool],
)
    requires { length marks.old ≡ length stretch.now }
    ensures { marks.new ≡ spec.flagged rule sources.now wanted.old stretch.now }
{
    let mut left = stretch.len();
    while left > 0 {
        left -= 1;
        let item = stretch.item(left);
        marks[left] = replace_written(wanted, item.instr());
        want_asked(wanted, rule, sources, &item);
    }
}

// Whether an instruction writes a wanted register; before it its sources are wanted in place of that.
fn replace_written(wanted: &mut [bool; 32], instr: Option<Instr>) -> bool
    ensures mark { result ≡ holds wanted.old (uses_in instr).written }
    ensures before { wanted.new ≡ spec.flags_before wanted.old (uses_in instr) }
{
    let Some(instr) = instr else {
        return false;
    };
    let Some(register) = destination(&instr) else {
        return false;
    };
    let number = register.number() as usize;
    if !wanted[number] {
        return false;
    }
    wanted[number] = false;
    want_sources(wanted, &instr);
    true
}

// What an instruction before the operation asks for, by the rule.
fn want_asked(wanted: &mut [bool; 32], rule: Rule, sources: &[Option<Operation>], item: &Item)
    ensures { wanted.new ≡ with_flags wanted.old true (spec.asked_before rule sources.now item.now) }
{
    let Some(instr) = item.instr() else {
        return;
    };
    match rule {
        Rule::Control => want_steering(wanted, &instr),
        Rule::DependentStore => want_passed(wanted, sources, item.operation(), &instr),
        Rule::DependentAddress => want(wanted, address_register(&instr)),
        _ => {}
    }
}

// A store that a byte comes from asks for its address and its number.
fn want_passed(
    wanted: &mut [bool; 32],
    sources: &[Option<Operation>],
    operation: Option<Operation>,
    instr: &Instr,
)
    ensures { wanted.new ≡ with_flags wanted.old true (if spec.is_source_among sources.now operation then (uses_of instr.now).address ++ (uses_of instr.now).stored else []) }
{
    if is_source_among(sources, operation) {
        want(wanted, address_register(instr));
        want(wanted, stored_register(instr));
    }
}

// Whether it is a store, and one of these.
fn is_source_among(sources: &[Option<Operation>], operation: Option<Operation>) -> bool
    ensures { result ≡ spec.is_source_among sources.now operation }
{
    match operation {
        Some(store) => writes(store.kind) && has_source(sources, &store),
        None => false,
    }
}

fn has_source(sources: &[Option<Operation>], store: &Operation) -> bool
    ensures { result ≡ list_any (λ source. orders.same_source source (Some store.now)) sources.now }
{
    sources
        .iter()
        .any(|source| is_same_source(*source, Some(*store)))
}

fn want_steering(wanted: &mut [bool; 32], instr: &Instr)
    ensures { wanted.new ≡ with_flags wanted.old true (if dependencies.steers (Some instr.now) then dependencies.sources (uses_of instr.now) else []) }
{
    if is_steering(instr) {
        want_sources(wanted, instr);
    }
}

fn want_sources(wanted: &mut [bool; 32], instr: &Instr)
    ensures { wanted.new ≡ with_flags wanted.old true (dependencies.sources (uses_of instr.now)) }
{
    let (first, second) = other_registers(instr);
    want(wanted, address_register(instr));
    want(wanted, stored_register(instr));
    want(wanted, first);
    want(wanted, second);
}

fn want(wanted: &mut [bool; 32], register: Option<Register>)
    ensures { wanted.new ≡ with_flags wanted.old true (option_to_list register) }
{
    if let Some(register) = register {
        wanted[register.number() as usize] = true;
    }
}
