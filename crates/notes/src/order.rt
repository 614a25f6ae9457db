//! What an order that is not legal breaks, and where one that is legal isn't that of the program.

use crate::overtaking::Overtaking;
use assembly::spell_assembly;
use rv32_decode::{Instr, decode};
use rvwmo_order::memory_model::Kind;
use rvwmo_order::trace_operations::accesses::name_of;
use rvwmo_order::{Code, Rule};
use std::fmt::{self, Display, Formatter};
use std::io::{self, ErrorKind, Write};
use text_fields::Page;
use trace_recorder::{OpId, Trace};

/// What the order of a trace breaks by a code, with the two operations that show it as HART:PLACE and as an
/// assembler writes them.
#[derive(Clone, Copy)]
pub struct OrderNote<'a> {
    pub trace: &'a Trace,
    pub code: Code,
    pub first: OpId,
    pub second: OpId,
}

impl Display for OrderNote<'_> {
    fn fmt<W: fmt::Write>(&self, f: &mut Formatter<W>) -> fmt::Result {
        put_operation(self.trace, self.first, f)?;
        match self.code {
            Code::Order(rule) => {
                write!(f, " has to be performed before ")?;
                put_operation(self.trace, self.second, f)?;
                let number = self.code.number();
                write!(f, " (rule {number}, {rule:?}): {}", reason(rule))
            }
            Code::LoadValue => {
                f.write_str(" doesn't load what was stored there last (load value axiom)")
            }
            Code::Atomicity => {
                write!(f, " and ")?;
                put_operation(self.trace, self.second, f)?;
                f.write_str(
                    ": what the first loaded has to be stored before the second, and no other hart may store there between (atomicity axiom)",
                )
            }
        }
    }
}

/// An operation of a trace that overtakes another, and what would forbid that.
#[derive(Clone, Copy)]
pub struct OvertakingNote<'a> {
    pub trace: &'a Trace,
    pub overtaking: Overtaking,
}

impl Display for OvertakingNote<'_> {
    fn fmt<W: fmt::Write>(&self, f: &mut Formatter<W>) -> fmt::Result {
        let Overtaking { first, second } = self.overtaking;
        put_operation(self.trace, name_of(&second), f)?;
        f.write_str(" is performed before ")?;
        put_operation(self.trace, name_of(&first), f)?;
        f.write_str(", which precedes it;")?;
        put_instruction(&self.overtaking.fence(), None, f)?;
        f.write_str(" between them would forbid this overtaking")?;
        if matches!(first.kind, Kind::Lr | Kind::Amo) && !first.aq {
            f.write_str(", and so would aq on the one that precedes")?;
        }
        if matches!(second.kind, Kind::Sc | Kind::Amo) && !second.rl {
            f.write_str(", and so would rl on the other")?;
        }
        Ok(())
    }
}

// Why the first operation comes before the second.
fn reason(rule: Rule) -> &'static str {
    match rule {
        Rule::OverlappingStore => "the second is a store to a byte of the first",
        Rule::SameByteLoads =>
            "both load a byte, from different writes, and no store to it is between",
        Rule::AtomicSource => "the second loads what the first, an AMO or SC, wrote",
        Rule::Fence => "a FENCE between them orders them",
        Rule::Acquire => "the first acquires, as each load does under Ztso",
        Rule::Release => "the second releases, as each store does under Ztso",
        Rule::Annotations => "both have RCsc annotations",
        Rule::Pair => "they are an LR and its SC",
        Rule::Address => "the second's address depends on the first",
        Rule::Data => "what the second stores depends on the first",
        Rule::Control =>
            "the second is a store, behind a branch or a JALR that depends on the first",
        Rule::DependentStore => {
            "the second loads what a store between them wrote, which depends on the first"
        }
        Rule::DependentAddress => {
            "the second is a store, behind an access whose address depends on the first"
        }
    }
}

fn put_operation<W: fmt::Write>(
    trace: &Trace,
    operation: OpId,
    f: &mut Formatter<W>,
) -> fmt::Result {
    let OpId { hart, place } = operation;
    write!(f, "{hart}:{place}")?;
    let hart = usize::from(hart);
    if hart >= trace.harts() {
        return Ok(());
    }
    let Some(entry) = trace.entries(hart).get(place as usize) else {
        return Ok(());
    };
    let Some(instr) = decode(entry.word) else {
        return Ok(());
    };
    put_instruction(&instr, Some(entry.pc), f)
}

fn put_instruction<W: fmt::Write>(
    instr: &Instr,
    pc: Option<u32>,
    f: &mut Formatter<W>,
) -> fmt::Result {
    let mut page = Page::new();
    page.text(b" `");
    spell_assembly(&mut page, instr, pc);
    page.text(b"`");
    match page.hand_on(&mut Through(f)) {
        Ok(()) => Ok(()),
        Err(_) => Err(fmt::Error),
    }
}

// Text on its way to a formatter.
#[derive(Drop)]
struct Through<'f, W>(&'f mut Formatter<W>);

impl<W: fmt::Write> Write for Through<'_, W> {
    fn write(&mut self, buf: &[u8]) -> io::Result<usize> {
        let Ok(text) = std::str::from_utf8(buf) else {
            return Err(io::Error::from(ErrorKind::InvalidData));
        };
        self.0.write_str(text)?;
        Ok(buf.len())
    }

    fn flush(&mut self) -> io::Result<()> {
        Ok(())
    }
}
