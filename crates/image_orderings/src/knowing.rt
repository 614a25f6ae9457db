//! What is known of a hart before an instruction and behind it, whatever its loads read, and where the instruction leads.
ghost use Rattle.std.specs.Prelude.{◌≡◌, Some};
ghost use Rattle.image_orderings.specs.Flow as spec;

use rv32_decode::{ImmediateOp, Instr, Register, SystemOp, UpperOp};

/// What is known of a hart's registers before an instruction.
#[derive(Clone, Copy, Debug, PartialEq, Eq)]
pub struct Known {
    /// What x1 holds, to which functions return.
    pub link: Option<u32>,
    /// What x17 holds, which has the number of an environment call.
    pub number: Option<u32>,
}

/// Where an instruction leads.
#[derive(Clone, Copy)]
pub(crate) enum Onward {
    /// It stops or ends its hart.
    Nowhere,
    /// To any address.
    Anywhere,
    To(u32),
    Either(u32, u32),
}

/// The register that an instruction writes; where it writes none, x0.
fn destination(instr: &Instr) -> Register
    ensures { result ≡ spec.destination instr.now }
{
    match *instr {
        Instr::Upper { rd, .. }
        | Instr::Jal { rd, .. }
        | Instr::Jalr { rd, .. }
        | Instr::Load { rd, .. }
        | Instr::Immediate { rd, .. }
        | Instr::Shift { rd, .. }
        | Instr::Register { rd, .. }
        | Instr::Lr { rd, .. }
        | Instr::Sc { rd, .. }
        | Instr::Amo { rd, .. } => rd,
        Instr::Branch { .. }
        | Instr::Store { .. }
        | Instr::Fence(_)
        | Instr::FenceTso
        | Instr::System(_) => Register::new(0),
    }
}

/// What is known either way.
fn common(a: Option<u32>, b: Option<u32>) -> Option<u32>
    ensures { result ≡ spec.common a b }
{
    let (a, b) = (a?, b?);
    if a == b { Some(a) } else { None }
}

/// Whether the first isn't known, or both are the same.
fn is_among(a: Option<u32>, b: Option<u32>) -> bool
    ensures { result ≡ spec.is_among a b }
{
    match (a, b) {
        (None, _) => true,
        (Some(_), None) => false,
        (Some(a), Some(b)) => a == b,
    }
}

impl Known {
    pub(crate) fn nothing() -> Known
        ensures { result ≡ spec.nothing }
    {
        Known {
            link: None,
            number: None,
        }
    }

    /// What a register holds, where that is known.
    fn held(self, register: Register) -> Option<u32>
        ensures { result ≡ spec.held self register }
    {
        match register.number() {
            0 => Some(0),
            1 => self.link,
            17 => self.number,
            _ => None,
        }
    }

    fn with_held(self, register: Register, value: Option<u32>) -> Known
        ensures { result ≡ spec.with_held self register value }
    {
        match register.number() {
            1 => Known {
                link: value,
                ..self
            },
            17 => Known {
                number: value,
                ..self
            },
            _ => self,
        }
    }

    /// What an instruction writes, where that is known.
    fn value_of(self, pc: u32, instr: &Instr) -> Option<u32>
        ensures { result ≡ spec.value_of self pc instr.now }
    {
        match *instr {
            Instr::Upper {
                op: UpperOp::Lui,
                imm,
                ..
            } => Some(imm.value()),
            Instr::Upper {
                op: UpperOp::Auipc,
                imm,
                ..
            } => Some(pc.wrapping_add(imm.value())),
            Instr::Jal { .. } | Instr::Jalr { .. } => Some(pc.wrapping_add(4)),
            Instr::Immediate {
                op: ImmediateOp::Addi,
                rs1,
                imm,
                ..
            } => Some(self.held(rs1)?.wrapping_add(imm.value())),
            _ => None,
        }
    }

    /// What is known behind an instruction.
    pub(crate) fn after(self, pc: u32, instr: &Instr) -> Known
        ensures { result ≡ spec.after self pc instr.now }
    {
        self.with_held(destination(instr), self.value_of(pc, instr))
    }

    /// Where an instruction leads.
    pub(crate) fn onward(self, pc: u32, instr: &Instr) -> Onward
        ensures { result ≡ spec.onward self pc instr.now }
    {
        let following = Onward::To(pc.wrapping_add(4));
        match *instr {
            Instr::Jal { offset, .. } => Onward::To(pc.wrapping_add(offset.value())),
            Instr::Jalr { rs1, offset, .. } => match self.held(rs1) {
                Some(base) => jump_to(base.wrapping_add(offset.value())),
                None => Onward::Anywhere,
            },
            Instr::Branch { offset, .. } => {
                Onward::Either(pc.wrapping_add(4), pc.wrapping_add(offset.value()))
            }
            Instr::System(SystemOp::Ecall) => match self.number {
                Some(0) => Onward::Nowhere,
                _ => following,
            },
            Instr::System(SystemOp::Ebreak) => Onward::Nowhere,
            _ => following,
        }
    }

    /// What is known on either of two ways.
    pub(crate) fn joined(self, have: Option<Known>) -> Known
        ensures { result ≡ spec.joined have self }
    {
        let Some(have) = have else {
            return self;
        };
        Known {
            link: common(have.link, self.link),
            number: common(have.number, self.number),
        }
    }

    /// Whether all of it is known by the other.
    pub(crate) fn is_within(self, known: Known) -> bool
        ensures { result ≡ spec.is_within self known }
    {
        is_among(self.link, known.link) && is_among(self.number, known.number)
    }
}

/// JALR clears bit 0.
fn jump_to(sum: u32) -> Onward
    ensures { result ≡ spec.jump_to sum }
{
    Onward::To(sum - sum % 2)
}
