//! Words that order less or more than others.
ghost use Rattle.std.specs.Prelude.{◌≡◌, All, IfOk, Some};
ghost use Rattle.image_orderings.specs.Forms as spec;
ghost use Rattle.rv32_decode.specs.Rows.{decoded};
ghost use Rattle.rv32_decode.specs.declared.instruction.Instr.TheVariants as instr;

use crate::orderings::Part;
use rv32_decode::{Annotations, FenceSets, Instr, decode, encode};
use std::alloc::{AllocError, Global};

/// `addi x0, x0, 0`.
pub const NOP: u32 = 0x0000_0013;

/// `fence rw, rw`.
const FULL: u32 = 0x0330_000f;

/// FENCEs by the pairs of loads and stores that they order, those of fewer pairs first: `fence r, r`, `r, w`, `w, r`,
/// `w, w`, `r, rw`, `w, rw`, `rw, r`, `rw, w`, `fence.tso` and `fence rw, rw`.
const FORMS: [u32; 10] = [
    0x0220_000f,
    0x0210_000f,
    0x0120_000f,
    0x0110_000f,
    0x0230_000f,
    0x0130_000f,
    0x0320_000f,
    0x0310_000f,
    0x8330_000f,
    0x0330_000f,
];

/// Which of two loads or stores, one before the other in program order, an instruction orders.
#[derive(Clone, Copy, PartialEq, Eq)]
pub struct OrderedPairs {
    load_load: bool,
    load_store: bool,
    store_load: bool,
    store_store: bool,
}

impl OrderedPairs {
    fn of(instr: &Option<Instr>) -> OrderedPairs
        ensures { result ≡ spec.pairs_of instr.now }
    {
        match instr {
            Some(Instr::Fence(sets)) => OrderedPairs::of_sets(*sets),
            Some(Instr::FenceTso) => OrderedPairs {
                load_load: true,
                load_store: true,
                store_load: false,
                store_store: true,
            },
            _ => OrderedPairs {
                load_load: false,
                load_store: false,
                store_load: false,
                store_store: false,
            },
        }
    }

    fn of_sets(sets: FenceSets) -> OrderedPairs
        ensures { result ≡ spec.pairs_of (Some (instr.Fence sets)) }
    {
        let (before, after) = (sets.before(), sets.after());
        OrderedPairs {
            load_load: before.has_reads() && after.has_reads(),
            load_store: before.has_reads() && after.has_writes(),
            store_load: before.has_writes() && after.has_reads(),
            store_store: before.has_writes() && after.has_writes(),
        }
    }

    /// Whether each of these pairs is one of the others.
    fn are_within(self, other: OrderedPairs) -> bool
        ensures { result ≡ spec.are_within self other }
    {
        (!self.load_load || other.load_load)
            && (!self.load_store || other.load_store)
            && (!self.store_load || other.store_load)
            && (!self.store_store || other.store_store)
    }
}

/// Whether the first of two words orders fewer pairs of loads and stores than the second.
pub fn is_weaker(word: u32, other: u32) -> bool
    ensures { result ≡ spec.is_weaker (decoded word) (decoded other) }
{
    let pairs = OrderedPairs::of(&decode(word));
    let others = OrderedPairs::of(&decode(other));
    pairs.are_within(others) && !others.are_within(pairs)
}

/// The FENCEs that order something, and less than this word, those of fewer pairs first.
pub fn weaker_words(alloc: Global, word: u32) -> Result<Vec<u32>, AllocError>
    ensures words { IfOk result (λ words. words.items ≡ spec.weaker_words word) }
    ensures variants { IfOk result (λ words. All (spec.IsVariant word) words.items) }
{
    forms_below(alloc, word)
}

fn forms_below(alloc: Global, word: u32) -> Result<Vec<u32>, AllocError>
    ensures { IfOk result (λ words. words.items ≡ spec.weaker_words word) }
{
    let forms = FORMS.iter().copied();
    forms.filter(|form| is_weaker(*form, word)).collect(alloc)
}

/// The word without what orders: a FENCE becomes `addi x0, x0, 0`, and of an LR, SC or AMO the bit is cleared. Another
/// word stays as it is.
pub fn without(part: Part, word: u32) -> u32
    ensures { result ≡ spec.without part word }
{
    let Some(instr) = decode(word) else {
        return word;
    };
    match instr {
        Instr::Fence(_) | Instr::FenceTso => fence_without(part, word),
        Instr::Lr { rd, rs1, bits } => {
            let bits = bits_without(part, bits);
            encode(&Instr::Lr { rd, rs1, bits })
        }
        Instr::Sc { rd, rs1, rs2, bits } => {
            let bits = bits_without(part, bits);
            encode(&Instr::Sc { rd, rs1, rs2, bits })
        }
        Instr::Amo {
            op,
            rd,
            rs1,
            rs2,
            bits,
        } => {
            let bits = bits_without(part, bits);
            encode(&Instr::Amo {
                op,
                rd,
                rs1,
                rs2,
                bits,
            })
        }
        _ => word,
    }
}

fn fence_without(part: Part, word: u32) -> u32
    ensures { result ≡ spec.fence_without part word }
{
    match part {
        Part::Fence => NOP,
        Part::Acquire | Part::Release => word,
    }
}

fn bits_without(part: Part, bits: Annotations) -> Annotations
    ensures { result ≡ spec.bits_without part bits }
{
    match part {
        Part::Fence => bits,
        Part::Acquire => Annotations {
            acquire: false,
            ..bits
        },
        Part::Release => Annotations {
            release: false,
            ..bits
        },
    }
}

/// The word with all that it may order: a FENCE, or `addi x0, x0, 0`, becomes `fence rw, rw`, and of an LR, SC or AMO
/// both bits are set. Another word stays as it is.
pub fn strengthened(word: u32) -> u32
    ensures { result ≡ spec.strengthened word }
{
    if word == NOP {
        return FULL;
    }
    let Some(instr) = decode(word) else {
        return word;
    };
    most_of(word, &instr)
}

fn most_of(word: u32, instr: &Instr) -> u32
    ensures { result ≡ spec.most_of word (Some instr.now) }
{
    let bits = Annotations {
        acquire: true,
        release: true,
    };
    match *instr {
        Instr::Fence(_) | Instr::FenceTso => FULL,
        Instr::Lr { rd, rs1, .. } => encode(&Instr::Lr { rd, rs1, bits }),
        Instr::Sc { rd, rs1, rs2, .. } => encode(&Instr::Sc { rd, rs1, rs2, bits }),
        Instr::Amo {
            op,
            rd,
            rs1,
            rs2,
            ..
        } => encode(&Instr::Amo {
            op,
            rd,
            rs1,
            rs2,
            bits,
        }),
        _ => word,
    }
}
