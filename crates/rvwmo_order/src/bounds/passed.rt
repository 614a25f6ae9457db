//! The operations that a walk along a hart's list has passed: the greatest weight of those that a rule of
//! fences, annotations or pairs may ask for.
ghost use Rattle.std.specs.Prelude.{◌≡◌};
ghost use Rattle.rvwmo_order.specs.Passed as spec;

use crate::fencing::{fences, is_fence, is_lr_or_sc};
use machine_types::MemoryModel;
use memory_model::{Kind, Operation};
use trace_operations::Item;
use trace_operations::accesses::{has_acquire, has_rcsc, is_lr, reads, writes};

/// The greatest weights of the operations passed, each of those that it names.
#[derive(Clone, Copy)]
pub(crate) struct Passed {
    all: usize,
    reads: usize,
    writes: usize,
    /// With an acquire annotation.
    acquires: usize,
    /// With an RCsc annotation.
    annotated: usize,
    /// That a FENCE orders before later loads.
    fenced_reads: usize,
    /// That a FENCE orders before later stores.
    fenced_writes: usize,
    /// The last LR, where no LR or SC stands behind it.
    reserved: usize,
}

impl Passed {
    pub(crate) fn new() -> Passed
        ensures { result ≡ spec.none_passed }
    {
        Passed {
            all: 0,
            reads: 0,
            writes: 0,
            acquires: 0,
            annotated: 0,
            fenced_reads: 0,
            fenced_writes: 0,
            reserved: 0,
        }
    }

    pub(crate) fn all(&self) -> usize
        ensures { result ≡ self.now.all }
    {
        self.all
    }

    pub(crate) fn acquires(&self) -> usize
        ensures { result ≡ self.now.acquires }
    {
        self.acquires
    }

    pub(crate) fn annotated(&self) -> usize
        ensures { result ≡ self.now.annotated }
    {
        self.annotated
    }

    pub(crate) fn reserved(&self) -> usize
        ensures { result ≡ self.now.reserved }
    {
        self.reserved
    }

    /// Those that a FENCE orders before an operation of this kind.
    pub(crate) fn fenced_before(&self, kind: Kind) -> usize
        ensures { result ≡ spec.fenced_before kind self.now }
    {
        let before_reads = if reads(kind) { self.fenced_reads } else { 0 };
        let before_writes = if writes(kind) { self.fenced_writes } else { 0 };
        before_reads.max(before_writes)
    }

    /// Goes past an instruction whose operation, where it has one, has this weight.
    pub(crate) fn pass(&mut self, model: MemoryModel, item: &Item, own: usize)
        ensures { self.new ≡ spec.passed_after model own item.now self.old }
    {
        self.fence(item);
        if let Some(a) = item.operation() {
            self.note(model, &a, own);
        }
    }

    fn fence(&mut self, item: &Item)
        ensures { self.new ≡ spec.fenced_after item.now.instr self.old }
    {
        if is_fence(item.instr()) {
            self.fenced_reads = self.fenced_reads.max(self.fenced_by(item, Kind::Load));
            self.fenced_writes = self.fenced_writes.max(self.fenced_by(item, Kind::Store));
        }
        if is_lr_or_sc(item.instr()) {
            self.reserved = 0;
        }
    }

    // Those that an instruction orders before later operations of a kind, loads or stores.
    fn fenced_by(&self, item: &Item, later: Kind) -> usize
        ensures { result ≡ spec.fenced_by item.now.instr later self.now }
    {
        let before_reads = if fences(item.instr(), Kind::Load, later) {
            self.reads
        } else {
            0
        };
        let before_writes = if fences(item.instr(), Kind::Store, later) {
            self.writes
        } else {
            0
        };
        before_reads.max(before_writes)
    }

    fn note(&mut self, model: MemoryModel, a: &Operation, own: usize)
        ensures { self.new ≡ spec.noted model a.now own self.old }
    {
        self.all = self.all.max(own);
        if reads(a.kind) {
            self.reads = self.reads.max(own);
        }
        if writes(a.kind) {
            self.writes = self.writes.max(own);
        }
        if has_acquire(model, a) {
            self.acquires = self.acquires.max(own);
        }
        if has_rcsc(model, a) {
            self.annotated = self.annotated.max(own);
        }
        if is_lr(a.kind) {
            self.reserved = self.reserved.max(own);
        }
    }
}
