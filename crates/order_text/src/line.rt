//! What is told of an order.

use machine_types::MemoryModel;
use memory_model::Operation;
use rvwmo_order::Rule;
use trace_recorder::OpId;

/// What links two accesses to a byte.
#[derive(Clone, Copy, Debug, PartialEq, Eq)]
pub enum Link {
    /// A load returns what a store wrote (rf).
    ReadsFrom,
    /// A store comes next behind another (co).
    Coherence,
    /// A load stands before the next store over what it returned (fr).
    FromReads,
}

/// What an order that is not legal breaks: the number of a rule or an axiom, and two operations that show it.
#[derive(Clone, Copy)]
pub struct Broken {
    /// 1 to 13 the rules of preserved program order, 14 the load value axiom, 15 the atomicity axiom.
    pub code: u8,
    pub first: OpId,
    pub second: OpId,
}

/// A line on an order.
#[derive(Clone, Copy)]
pub enum Line {
    /// What the order breaks under a model; nothing where it is legal.
    Judged {
        model: MemoryModel,
        broken: Option<Broken>,
    },
    /// So many operations have a place in the order by the trace, of so many. The others stand behind these.
    Performed {
        performed: usize,
        operations: usize,
    },
    /// An instruction of a hart's list, and how many operations stand before its own in the order, where it has one.
    Instruction {
        name: OpId,
        pc: u32,
        word: u32,
        position: Option<usize>,
    },
    /// What an operation reads and writes.
    Access(Operation),
    /// What so many bytes of an operation, from an address on, are linked with; no store stands for the image.
    Linked {
        link: Link,
        operation: OpId,
        other: Option<OpId>,
        address: u32,
        count: u32,
    },
    /// Two neighbours of a hart's operations, and a rule by which the first must be performed before the second; none where
    /// no rule says so.
    Neighbours {
        first: OpId,
        second: OpId,
        rule: Option<Rule>,
    },
    /// The second is performed before the first, which precedes it.
    Overtaking {
        first: Operation,
        second: Operation,
    },
    /// The operation that stands behind so many in the order.
    Ordered {
        position: usize,
        operation: Operation,
    },
}
