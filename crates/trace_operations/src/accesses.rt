//! Operations and their bytes (chapter 14.1, "Memory Model Primitives").
ghost use Rattle.std.specs.Prelude.{◌≡◌, ◌≤◌, ◌<◌, ◌+◌, ◌*◌, ◌/◌, ◌%◌, ◌^◌, min};
ghost use Rattle.memory_model.specs.Operations as spec;
ghost use Rattle.memory_model.specs.Verdict as verdict;
ghost use Rattle.hart.specs.Image as images;

use hart::elf_loader::{BASE, Image};
use machine_types::MemoryModel;
use memory_model::{Kind, Operation};
use trace_recorder::OpId;

/// Whether an operation of this kind reads memory.
pub fn reads(kind: Kind) -> bool
    ensures { result ≡ spec.reads kind }
{
    match kind {
        Kind::Load | Kind::Lr | Kind::Amo => true,
        Kind::Store | Kind::Sc => false,
    }
}

/// Whether an operation of this kind writes memory.
pub fn writes(kind: Kind) -> bool
    ensures { result ≡ spec.writes kind }
{
    match kind {
        Kind::Store | Kind::Sc | Kind::Amo => true,
        Kind::Load | Kind::Lr => false,
    }
}

/// Whether both are of one instruction: the same hart and place.
pub fn is_same(a: &Operation, b: &Operation) -> bool
    ensures { result ≡ spec.same a.now b.now }
{
    a.hart == b.hart && a.place == b.place
}

/// The name of an operation: its hart and its place.
pub fn name_of(a: &Operation) -> OpId
    ensures { result ≡ verdict.name_of a.now }
{
    OpId {
        hart: a.hart,
        place: a.place,
    }
}

/// Whether the first stands before the second in the program order of their hart.
pub fn precedes(a: &Operation, b: &Operation) -> bool
    ensures { result ≡ spec.precedes a.now b.now }
{
    a.hart == b.hart && a.place < b.place
}

/// The address behind the last byte.
pub fn end_of(a: &Operation) -> u64
    ensures { result ≡ a.now.address + a.now.size }
{
    u64::from(a.address) + u64::from(a.size)
}

/// Whether the two have a byte in common.
pub fn overlap(a: &Operation, b: &Operation) -> bool
    ensures { result ≡ spec.overlap a.now b.now }
{
    u64::from(a.address) < end_of(b) && u64::from(b.address) < end_of(a)
}

/// Whether a byte is one of the operation's.
pub fn touches(x: u64, a: &Operation) -> bool
    ensures { result ≡ spec.touches x a.now }
{
    u64::from(a.address) <= x && x < end_of(a)
}

/// Whether the operation writes a byte.
pub fn stores_to(x: u64, a: &Operation) -> bool
    ensures { result ≡ spec.stores_to x a.now }
{
    writes(a.kind) && touches(x, a)
}

// One byte of a word, the lowest first; 0 behind its last.
fn byte_of(word: u32, index: u64) -> u32
    ensures { result ≡ word / 256 ^ index % 256 }
{
    match index {
        0 => word % 256,
        1 => word / 256 % 256,
        2 => word / 65_536 % 256,
        3 => word / 16_777_216,
        _ => 0,
    }
}

/// What the operation read of a byte.
pub fn read_at(a: &Operation, x: u64) -> u32
    ensures { result ≡ spec.read_at a.now x }
{
    byte_of(a.read, x.saturating_sub(u64::from(a.address)))
}

/// What the operation wrote to a byte.
pub fn written_at(a: &Operation, x: u64) -> u32
    ensures { result ≡ spec.written_at a.now x }
{
    byte_of(a.written, x.saturating_sub(u64::from(a.address)))
}

/// The image's byte; 0 outside memory.
pub fn image_byte(image: &Image, x: u64) -> u32
    ensures { result ≡ images.byte_at image.now x }
{
    let index = x.saturating_sub(u64::from(BASE)) as usize;
    match image.bytes().get(index) {
        Some(byte) => u32::from(*byte),
        None => 0,
    }
}

/// Whether the operation has an acquire annotation under the model.
pub fn has_acquire(model: MemoryModel, a: &Operation) -> bool
    ensures { result ≡ spec.has_acquire model a.now }
{
    match model {
        MemoryModel::Rvwmo => a.aq,
        MemoryModel::Ztso => a.aq || reads(a.kind),
    }
}

/// Whether the operation has a release annotation under the model.
pub fn has_release(model: MemoryModel, a: &Operation) -> bool
    ensures { result ≡ spec.has_release model a.now }
{
    match model {
        MemoryModel::Rvwmo => a.rl,
        MemoryModel::Ztso => a.rl || writes(a.kind),
    }
}

/// Whether the operation has an RCsc annotation under the model.
pub fn has_rcsc(model: MemoryModel, a: &Operation) -> bool
    ensures { result ≡ spec.has_rcsc model a.now }
{
    match model {
        MemoryModel::Rvwmo => a.aq || a.rl,
        MemoryModel::Ztso => a.aq || a.rl || is_amo(a.kind),
    }
}

/// Whether the kind is an AMO.
pub fn is_amo(kind: Kind) -> bool
    ensures { result ≡ spec.is_amo kind }
{
    match kind {
        Kind::Amo => true,
        Kind::Load | Kind::Store | Kind::Lr | Kind::Sc => false,
    }
}

/// Whether the kind is an LR.
pub fn is_lr(kind: Kind) -> bool
    ensures { result ≡ spec.is_lr kind }
{
    match kind {
        Kind::Lr => true,
        Kind::Load | Kind::Store | Kind::Sc | Kind::Amo => false,
    }
}

/// Whether the kind is an SC that succeeded.
pub fn is_sc(kind: Kind) -> bool
    ensures { result ≡ spec.is_sc kind }
{
    match kind {
        Kind::Sc => true,
        Kind::Load | Kind::Store | Kind::Lr | Kind::Amo => false,
    }
}

/// The byte behind those from one on, and before another, that are in its word.
pub fn behind_in_word(x: u64, end: u64) -> u64
    requires { x < end }
    ensures further { x < result }
    ensures up_to { result ≤ end }
    ensures within { result ≤ x / 4 * 4 + 4 }
    ensures least { result ≡ min end (x / 4 * 4 + 4) }
{
    end.min((x / 4 * 4).saturating_add(4))
}
