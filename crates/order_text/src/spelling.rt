//! Spelling the lines on an order.
ghost use Rattle.std.specs.Prelude.{◌≡◌, ◌+◌, ◌≤◌, ◌++◌, codes, decimal, length};
ghost use Rattle.elf_symbols.specs.Lookups.{nearest};
ghost use Rattle.order_text.specs.Naming.{disassembled};
ghost use Rattle.order_text.specs.Text as text;
ghost use Rattle.rv32_decode.specs.Rows.{decoded};
ghost use Rattle.text_fields.specs.Fields.{word};
ghost use Rattle.text_fields.specs.Pages.{HasLineRoom, size};

use crate::fence::fence_between;
use crate::line::{Broken, Line, Link};
use crate::naming::{spell_instruction, spell_place};
use assembly::spell_assembly;
use elf_symbols::Symbols;
use machine_types::MemoryModel;
use memory_model::{Kind, Operation};
use rv32_decode::decode;
use rvwmo_order::trace_operations::accesses::{is_amo, is_lr, is_sc, name_of, reads, writes};
use rvwmo_order::{Code, Rule};
use text_fields::Page;
use trace_recorder::OpId;

// ---- fields

fn spell_name(page: &mut Page, name: OpId)
    requires { length page.old + 41 ≤ size }
    ensures value { page.new ≡ page.old ++ text.name name }
    ensures len { length page.new ≤ length page.old + 41 }
{
    page.decimal(u64::from(name.hart));
    page.text(b":");
    page.decimal(u64::from(name.place));
}

fn spell_store(page: &mut Page, store: Option<OpId>)
    requires { length page.old + 41 ≤ size }
    ensures value { page.new ≡ page.old ++ text.store store }
    ensures len { length page.new ≤ length page.old + 41 }
{
    match store {
        Some(name) => spell_name(page, name),
        None => page.text(b"image"),
    }
}

fn spell_position(page: &mut Page, position: Option<usize>)
    requires { length page.old + 20 ≤ size }
    ensures value { page.new ≡ page.old ++ text.position position }
    ensures len { length page.new ≤ length page.old + 20 }
{
    match position {
        Some(position) => page.decimal(position as u64),
        None => page.text(b"-"),
    }
}

// A field behind another.

fn space_name(page: &mut Page, name: OpId)
    requires { length page.old + 42 ≤ size }
    ensures value { page.new ≡ page.old ++ text.spaced (text.name name) }
    ensures len { length page.new ≤ length page.old + 42 }
{
    page.text(b" ");
    spell_name(page, name);
}

fn space_store(page: &mut Page, store: Option<OpId>)
    requires { length page.old + 42 ≤ size }
    ensures value { page.new ≡ page.old ++ text.spaced (text.store store) }
    ensures len { length page.new ≤ length page.old + 42 }
{
    page.text(b" ");
    spell_store(page, store);
}

fn space_word(page: &mut Page, n: u32)
    requires { length page.old + 11 ≤ size }
    ensures value { page.new ≡ page.old ++ text.spaced (word n) }
    ensures len { length page.new ≤ length page.old + 11 }
{
    page.text(b" ");
    page.word(n);
}

fn space_decimal(page: &mut Page, n: u64)
    requires { length page.old + 21 ≤ size }
    ensures value { page.new ≡ page.old ++ text.spaced (decimal n) }
    ensures len { length page.new ≤ length page.old + 21 }
{
    page.text(b" ");
    page.decimal(n);
}

fn space_value(page: &mut Page, is_there: bool, value: u32)
    requires { length page.old + 11 ≤ size }
    ensures value { page.new ≡ page.old ++ text.spaced (text.value_if is_there value) }
    ensures len { length page.new ≤ length page.old + 11 }
{
    page.text(b" ");
    spell_value(page, is_there, value);
}

fn space_position(page: &mut Page, position: Option<usize>)
    requires { length page.old + 21 ≤ size }
    ensures value { page.new ≡ page.old ++ text.spaced (text.position position) }
    ensures len { length page.new ≤ length page.old + 21 }
{
    page.text(b" ");
    spell_position(page, position);
}

fn model_name(model: MemoryModel) -> &'static str
    ensures value { result.now ≡ text.model_name model }
    ensures len { length result.now ≤ 5 }
{
    match model {
        MemoryModel::Rvwmo => "rvwmo",
        MemoryModel::Ztso => "ztso",
    }
}

fn kind_name(kind: Kind) -> &'static str
    ensures value { result.now ≡ text.kind_name kind }
    ensures len { length result.now ≤ 5 }
{
    match kind {
        Kind::Load => "load",
        Kind::Store => "store",
        Kind::Lr => "lr",
        Kind::Sc => "sc",
        Kind::Amo => "amo",
    }
}

fn rule_name(rule: Rule) -> &'static str
    ensures value { result.now ≡ text.rule_name rule }
    ensures len { length result.now ≤ 16 }
{
    match rule {
        Rule::OverlappingStore => "OverlappingStore",
        Rule::SameByteLoads => "SameByteLoads",
        Rule::AtomicSource => "AtomicSource",
        Rule::Fence => "Fence",
        Rule::Acquire => "Acquire",
        Rule::Release => "Release",
        Rule::Annotations => "Annotations",
        Rule::Pair => "Pair",
        Rule::Address => "Address",
        Rule::Data => "Data",
        Rule::Control => "Control",
        Rule::DependentStore => "DependentStore",
        Rule::DependentAddress => "DependentAddress",
    }
}

fn link_name(link: Link) -> &'static [u8]
    ensures value { result.now ≡ text.link_name link }
    ensures len { length result.now ≤ 3 }
{
    match link {
        Link::ReadsFrom => b"rf ",
        Link::Coherence => b"co ",
        Link::FromReads => b"fr ",
    }
}

fn spell_value(page: &mut Page, is_there: bool, value: u32)
    requires { length page.old + 10 ≤ size }
    ensures value { page.new ≡ page.old ++ text.value_if is_there value }
    ensures len { length page.new ≤ length page.old + 10 }
{
    if is_there {
        page.word(value);
    } else {
        page.text(b"-");
    }
}

fn spell_values(page: &mut Page, a: &Operation)
    requires { length page.old + 22 ≤ size }
    ensures value { page.new ≡ page.old ++ text.values a.now }
    ensures len { length page.new ≤ length page.old + 22 }
{
    space_value(page, reads(a.kind), a.read);
    space_value(page, writes(a.kind), a.written);
}

fn spell_access(page: &mut Page, a: &Operation)
    requires { length page.old + 59 ≤ size }
    ensures value { page.new ≡ page.old ++ text.access a.now }
    ensures len { length page.new ≤ length page.old + 59 }
{
    page.text(kind_name(a.kind).as_bytes());
    space_word(page, a.address);
    space_decimal(page, u64::from(a.size));
    spell_values(page, a);
}

fn space_access(page: &mut Page, a: &Operation)
    requires { length page.old + 60 ≤ size }
    ensures value { page.new ≡ page.old ++ text.spaced (text.access a.now) }
    ensures len { length page.new ≤ length page.old + 60 }
{
    page.text(b" ");
    spell_access(page, a);
}

// ---- lines

fn spell_verdict(page: &mut Page, broken: Option<Broken>)
    requires { length page.old + 110 ≤ size }
    ensures value { page.new ≡ page.old ++ text.verdict broken }
    ensures len { length page.new ≤ length page.old + 110 }
{
    match broken {
        Some(broken) => {
            page.text(b"fault ");
            page.decimal(u64::from(broken.code));
            space_name(page, broken.first);
            space_name(page, broken.second);
        }
        None => page.text(b"legal"),
    }
}

fn spell_linked(page: &mut Page, link: Link, operation: OpId, other: Option<OpId>)
    requires { length page.old + 83 ≤ size }
    ensures value { page.new ≡ page.old ++ text.linked link operation other }
    ensures len { length page.new ≤ length page.old + 83 }
{
    match link {
        Link::ReadsFrom | Link::Coherence => {
            spell_store(page, other);
            space_name(page, operation);
        }
        Link::FromReads => {
            spell_name(page, operation);
            space_store(page, other);
        }
    }
}

fn spell_rule_number(page: &mut Page, rule: Option<Rule>)
    requires { length page.old + 20 ≤ size }
    ensures value { page.new ≡ page.old ++ text.rule_number rule }
    ensures len { length page.new ≤ length page.old + 20 }
{
    match rule {
        Some(rule) => page.decimal(u64::from(Code::Order(rule).number())),
        None => page.text(b"-"),
    }
}

fn spell_if(page: &mut Page, is_so: bool, word: &[u8])
    requires { length page.old + length word.now ≤ size }
    ensures value { page.new ≡ page.old ++ text.if_so is_so word.now }
    ensures len { length page.new ≤ length page.old + length word.now }
{
    if is_so {
        page.text(word);
    }
}

fn spell_bits(page: &mut Page, a: Kind, b: Kind)
    requires { length page.old + 42 ≤ size }
    ensures value { page.new ≡ page.old ++ text.bits a b }
    ensures len { length page.new ≤ length page.old + 42 }
{
    spell_if(page, is_lr(a) || is_amo(a), b", or aq on the first");
    spell_if(page, is_sc(b) || is_amo(b), b", or rl on the second");
}

fn spell_dependencies(page: &mut Page, a: Kind, b: Kind)
    requires { length page.old + 60 ≤ size }
    ensures value { page.new ≡ page.old ++ text.dependencies a b }
    ensures len { length page.new ≤ length page.old + 60 }
{
    spell_if(page, reads(a), b", or an address dependency");
    spell_if(
        page,
        reads(a) && writes(b),
        b", or a data or control dependency",
    );
}

fn spell_remedies(page: &mut Page, a: Kind, b: Kind)
    requires { length page.old + 180 ≤ size }
    ensures value { page.new ≡ page.old ++ text.remedies a b }
    ensures len { length page.new ≤ length page.old + 180 }
{
    spell_assembly(page, &fence_between(a, b), None);
    page.text(b" between them");
    spell_bits(page, a, b);
    spell_dependencies(page, a, b);
}

fn space_rule_number(page: &mut Page, rule: Option<Rule>)
    requires { length page.old + 21 ≤ size }
    ensures value { page.new ≡ page.old ++ text.spaced (text.rule_number rule) }
    ensures len { length page.new ≤ length page.old + 21 }
{
    page.text(b" ");
    spell_rule_number(page, rule);
}

fn spell_judged(page: &mut Page, model: MemoryModel, broken: Option<Broken>)
    requires { HasLineRoom page.old }
    ensures { page.new ≡ page.old ++ (text.model_name model ++ text.spaced (text.verdict broken)) }
{
    page.text(model_name(model).as_bytes());
    page.text(b" ");
    spell_verdict(page, broken);
}

fn spell_performed(page: &mut Page, performed: usize, operations: usize)
    requires { HasLineRoom page.old }
    ensures { page.new ≡ page.old ++ (codes "performed " ++ (decimal performed ++ (codes " of " ++ decimal operations))) }
{
    page.text(b"performed ");
    page.decimal(performed as u64);
    page.text(b" of ");
    page.decimal(operations as u64);
}

fn spell_instruction_fields(page: &mut Page, name: OpId, pc: u32, position: Option<usize>)
    requires { HasLineRoom page.old }
    ensures { page.new ≡ page.old ++ (codes "R " ++ (text.name name ++ (text.spaced (word pc) ++ text.spaced (text.position position)))) }
{
    page.text(b"R ");
    spell_name(page, name);
    space_word(page, pc);
    space_position(page, position);
}

fn spell_accessed(page: &mut Page, a: &Operation)
    requires { HasLineRoom page.old }
    ensures { page.new ≡ page.old ++ text.fields (Line.Access a.now) }
{
    page.text(b"A ");
    spell_name(page, name_of(a));
    space_access(page, a);
}

fn spell_link(
    page: &mut Page,
    link: Link,
    operation: OpId,
    other: Option<OpId>,
    address: u32,
    count: u32,
)
    requires { HasLineRoom page.old }
    ensures { page.new ≡ page.old ++ text.fields (Line.Linked link operation other address count) }
{
    page.text(link_name(link));
    spell_linked(page, link, operation, other);
    space_word(page, address);
    space_decimal(page, u64::from(count));
}

fn spell_neighbours(page: &mut Page, first: OpId, second: OpId, rule: Option<Rule>)
    requires { HasLineRoom page.old }
    ensures { page.new ≡ page.old ++ text.fields (Line.Neighbours first second rule) }
{
    page.text(b"ppo ");
    spell_name(page, first);
    space_name(page, second);
    space_rule_number(page, rule);
}

fn spell_overtaking(page: &mut Page, first: &Operation, second: &Operation)
    requires { HasLineRoom page.old }
    ensures { page.new ≡ page.old ++ text.fields (Line.Overtaking first.now second.now) }
{
    page.text(b"overtakes ");
    spell_name(page, name_of(second));
    space_name(page, name_of(first));
}

fn spell_ordered(page: &mut Page, position: usize, operation: &Operation)
    requires { HasLineRoom page.old }
    ensures { page.new ≡ page.old ++ text.fields (Line.Ordered position operation.now) }
{
    page.text(b"P ");
    page.decimal(position as u64);
    space_name(page, name_of(operation));
    space_access(page, operation);
}

/// Appends a line's fields.
pub(crate) fn spell_fields(page: &mut Page, line: &Line)
    requires { HasLineRoom page.old }
    ensures { page.new ≡ page.old ++ text.fields line.now }
{
    match *line {
        Line::Judged { model, broken } => spell_judged(page, model, broken),
        Line::Performed {
            performed,
            operations,
        } => spell_performed(page, performed, operations),
        Line::Instruction {
            name,
            pc,
            position,
            ..
        } => spell_instruction_fields(page, name, pc, position),
        Line::Access(a) => spell_accessed(page, &a),
        Line::Linked {
            link,
            operation,
            other,
            address,
            count,
        } => spell_link(page, link, operation, other, address, count),
        Line::Neighbours {
            first,
            second,
            rule,
        } => spell_neighbours(page, first, second, rule),
        Line::Overtaking { first, second } => spell_overtaking(page, &first, &second),
        Line::Ordered {
            position,
            operation,
        } => spell_ordered(page, position, &operation),
    }
}

// ---- behind the semicolon

fn spell_near(page: &mut Page, names: &Symbols, address: u32)
    requires { length page.old + 72 ≤ size }
    ensures value { page.new ≡ page.old ++ text.near_text (nearest names.now address) }
    ensures len { length page.new ≤ length page.old + 72 }
{
    if let Some(place) = names.nearest(address) {
        page.text(b" ; ");
        spell_place(page, place);
    }
}

fn spell_rule(page: &mut Page, rule: Option<Rule>)
    requires { length page.old + 19 ≤ size }
    ensures value { page.new ≡ page.old ++ text.rule_text rule }
    ensures len { length page.new ≤ length page.old + 19 }
{
    if let Some(rule) = rule {
        page.text(b" ; ");
        page.text(rule_name(rule).as_bytes());
    }
}

fn spell_disassembled(page: &mut Page, names: &Symbols, pc: u32, word: u32)
    requires { length page.old + 191 ≤ size }
    ensures value { page.new ≡ page.old ++ disassembled names.now pc (decoded word) }
    ensures len { length page.new ≤ length page.old + 191 }
{
    if let Some(instr) = decode(word) {
        page.text(b" ; ");
        spell_instruction(page, names, pc, &instr);
    }
}

fn spell_order(page: &mut Page, a: Kind, b: Kind)
    requires { length page.old + 200 ≤ size }
    ensures value { page.new ≡ page.old ++ text.order_text a b }
    ensures len { length page.new ≤ length page.old + 200 }
{
    page.text(b" ; to order them: ");
    spell_remedies(page, a, b);
}

fn spell_named(page: &mut Page, names: &Symbols, line: &Line)
    requires { length page.old + 255 ≤ size }
    ensures value { page.new ≡ page.old ++ text.remark names.now line.now }
    ensures len { length page.new ≤ length page.old + 255 }
{
    match *line {
        Line::Instruction { pc, word, .. } => spell_disassembled(page, names, pc, word),
        Line::Access(a) | Line::Ordered { operation: a, .. } => spell_near(page, names, a.address),
        Line::Linked { address, .. } => spell_near(page, names, address),
        Line::Neighbours { rule, .. } => spell_rule(page, rule),
        Line::Overtaking { first, second } => spell_order(page, first.kind, second.kind),
        Line::Judged { .. } | Line::Performed { .. } => {}
    }
}

/// Appends what stands behind a line's fields, and its end.
pub(crate) fn spell_remark(page: &mut Page, names: &Symbols, line: &Line)
    requires { HasLineRoom page.old }
    ensures { page.new ≡ page.old ++ (text.remark names.now line.now ++ codes "\n") }
{
    spell_named(page, names, line);
    page.text(b"\n");
}
