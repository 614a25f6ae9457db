//! What is told of a file that has no test which can be answered.

ghost use Rattle.std.specs.Prelude.{◌≡◌};
ghost use Rattle.litmus_command.specs.Ended as ends;
ghost use Rattle.litmus_command.specs.declared.fault.Halt.TheVariants.{NoMemory};

use command_files::Escaped;
use litmus_parts::{Cause, Fault, Stop, line_of};
use std::alloc::AllocError;
use std::fmt::{self, Display, Formatter};
use text_fields::Excerpt;

/// Why a file has no answer.
#[derive(Clone, Copy)]
pub(crate) enum Trouble {
    /// It is no test, or not for this machine: where, what stands there, and what should.
    Text {
        line: usize,
        cause: Cause,
        found: Excerpt,
    },
    /// It is a test, but isn't answered.
    Halts(Halt),
}

/// Why a test isn't answered.
#[derive(Clone, Copy)]
pub(crate) enum Halt {
    /// A hart stops before its code's end.
    Stops { hart: usize, cause: u8 },
    /// Its program doesn't fit into the machine.
    Unfit,
    /// Memory was refused.
    NoMemory,
}

impl From<AllocError> for Halt {
    ghost from_gives = { λ _ halt. halt ≡ NoMemory };

    fn from(_error: AllocError) -> Self {
        Halt::NoMemory
    }
}

/// Whether what stands before a byte is told without it.
fn ends(byte: u8) -> bool {
    matches!(byte, b'\n' | b'\r' | b'|' | b';')
}

/// What stands in a text where so many bytes are left, up to the line's end.
fn found_at(text: &[u8], left: usize) -> Excerpt {
    let start = text.len().saturating_sub(left);
    let rest = &text[start..];
    let length = rest.iter().take_while(|byte| !ends(**byte)).count();
    Excerpt::of(&rest[..length.min(rest.len())])
}

impl Trouble {
    /// What stopped a reader of this text.
    pub fn reading(text: &[u8], stop: Stop) -> Trouble
        ensures { ends.TellsStop text.now stop result }
    {
        match stop {
            Stop::Memory => Trouble::Halts(Halt::NoMemory),
            Stop::At { cause, left } => Trouble::Text {
                line: line_of(text, left),
                cause,
                found: found_at(text, left),
            },
        }
    }
}

fn name_of(fault: Fault) -> &'static str {
    match fault {
        Fault::Header => "Header",
        Fault::Initial => "Initial",
        Fault::Rows => "Rows",
        Fault::Instruction => "Instruction",
        Fault::Label => "Label",
        Fault::Condition => "Condition",
        Fault::Limit => "Limit",
    }
}

/// What should stand there.
fn wanted(cause: Cause) -> &'static str {
    match cause {
        Cause::Comment => "`*)` should end the comment that begins here",
        Cause::Architecture => "`RISCV` should stand here, and then the test's name",
        Cause::Name =>
            "the test's name should stand here, alone on its line: at most 200 printable characters without a slash",
        Cause::Quotation => "a quotation mark should end this text",
        Cause::Entry => "KEY=text should stand here, or the brace that opens the initial values",
        Cause::Place(_) => "a register (as 0:x5) or a location should stand here",
        Cause::Hart(_) => "the test has no such hart",
        Cause::Colon(_) => "a colon and a register should stand behind the hart's number",
        Cause::Register(_) => "a register should stand here, as x5 or t0",
        Cause::SetRegister => "x0 can't be set",
        Cause::Bracket(_) => "`]` should stand here",
        Cause::Value(_) => "a number or a location's name should stand here",
        Cause::InitialEnd => "`;` or `}` should stand here",
        Cause::OtherPlace => "this place has a value already",
        Cause::Head => "the next hart should stand here: P0, P1 and so on",
        Cause::HeadEnd => "`|` or `;` should stand here",
        Cause::Cell =>
            "each row has a cell for each hart, with `|` between and `;` behind the last",
        Cause::Question => "exists, ~exists, forall or locations should stand here",
        Cause::Locations => "`[` should stand here",
        Cause::LocationsEnd => "`;` or `]` should stand here",
        Cause::Relation => "`=` or `<>` should stand here",
        Cause::Close => "`)` should stand here",
        Cause::Nothing => "nothing should stand behind the question",
        _ => limit(cause),
    }
}

fn limit(cause: Cause) -> &'static str {
    match cause {
        Cause::FewEntries => "at most 1000 lines KEY=text are read",
        Cause::FewValues => "at most 400 initial values are read",
        Cause::FewHarts => "at most 8 harts can be had",
        Cause::FewRows => "at most 1000 rows are read",
        Cause::FewLabels => "at most 16 labels are read in a cell",
        Cause::FewPlaces => "at most 400 places are read",
        Cause::Shallow => "at most 64 parentheses, negations or arrows nest",
        Cause::FewOperands => "at most 1000 operands in a row are read",
        Cause::Instruction =>
            "an instruction of RV32IMA should stand here, other than auipc, jal, jalr, ecall and ebreak, and branches lead to labels",
        Cause::Immediate => "the instruction can't hold its number",
        Cause::Label => "the label stands nowhere in this column",
        Cause::OtherLabel => "the label stands twice in this column",
        Cause::Near => "the label is farther than a branch reaches",
        Cause::FewInstructions =>
            "the code is too long: 1024 instructions of all harts, beginnings and ends among them",
        Cause::FewLocations => "at most 64 locations can be had",
        Cause::FewRegisters => "at most 30 registers of a hart can be asked for",
        Cause::FewBytes => "a test has at most 1 MiB",
        Cause::OtherArchitecture => "a test for another architecture",
        Cause::WideNumber => "a number past 32 bits",
        Cause::WideLocation => "a location of 8 bytes",
        Cause::OtherInstruction =>
            "an instruction of RV64 or of another extension, or one that RISC-V hasn't",
        _ => "",
    }
}

/// What is told of a file: a line, and a note where a text is no test.
#[derive(Clone, Copy)]
pub(crate) struct Told<'a> {
    pub file: &'a str,
    pub trouble: &'a Trouble,
}

impl Display for Told<'_> {
    fn fmt<W: fmt::Write>(&self, f: &mut Formatter<W>) -> fmt::Result {
        let file = Escaped(self.file);
        match self.trouble {
            Trouble::Text { line, cause, found } => {
                let what = wanted(*cause);
                match cause.fault() {
                    Some(fault) => {
                        let number = fault as u8;
                        let name = name_of(fault);
                        write!(
                            f,
                            "rvtl: {file}: line {line}: litmus fault {number} {name}\nnote: {found}: {what}"
                        )
                    }
                    None => write!(f, "rvtl: {file}: skipped: line {line}: {found}: {what}"),
                }
            }
            Trouble::Halts(Halt::Stops { hart, cause }) => write!(
                f,
                "rvtl: {file}: P{hart} stops (stop {cause}), and a test's harts have to come to their end"
            ),
            Trouble::Halts(Halt::Unfit) => {
                write!(f, "rvtl: {file}: its program doesn't fit into the machine")
            }
            Trouble::Halts(Halt::NoMemory) => write!(f, "rvtl: out of memory"),
        }
    }
}

impl Trouble {
    /// Whether it is a test, but for another machine.
    pub fn is_skipped(&self) -> bool
        ensures { result ≡ ends.is_other self.now }
    {
        match self {
            Trouble::Text { cause, .. } => cause.fault().is_none(),
            Trouble::Halts(_) => false,
        }
    }
}
