//! Laws of the memory models, each the contract of a function that does nothing.
ghost use Rattle.memory_model.specs.Apart.{AtomicityFormsAgree};
ghost use Rattle.memory_model.specs.Laws.{CompletedIsOrder, EntriesTellOperations, ExamplesJudgeAsDefined, NamesFindOperations, OrderFormsAgree, SourceFormsAgree, ZtsoIsStronger, ProgramOrderSuffices, UnwrittenByteIsImages};
ghost use Rattle.memory_model.specs.Litmus.{Shapes};
ghost use Rattle.memory_model.specs.Reaching.{DependencyFormsAgree};
ghost use Rattle.memory_model.specs.WorkedRows.{Rows};

/// Small runs, with orders that each rule and each axiom allows and forbids, are judged so. The standard judges them
/// as this does, but for four of which this asks more: `sc_aq`, `lr_rl`, `through_failed_sc`, `through_jalr`.
pub fn litmus_shapes()
    ensures { Shapes }
{}

/// Whole runs of small programs are runs, and their completed orders are judged as they should be.
pub fn worked_rows()
    ensures { Rows }
{}

/// The tests that judge the shapes and the rows say what the definitions of an order and of a legal order
/// say.
pub fn examples_judge_as_defined()
    ensures { ExamplesJudgeAsDefined }
{}

/// An order that is legal under Ztso is legal under RVWMO.
pub fn ztso_is_stronger()
    ensures { ZtsoIsStronger }
{}

/// An order that keeps program order breaks none of the thirteen rules.
pub fn program_order_suffices()
    ensures { ProgramOrderSuffices }
{}

/// Whether an entry has a memory operation is told by its word and, for an SC, by its answer: where its
/// hart stands is of no matter.
pub fn entries_tell_operations()
    ensures { EntriesTellOperations }
{}

/// The names of a trace are exactly those by which an operation is found.
pub fn names_find_operations()
    ensures { NamesFindOperations }
{}

/// In a legal order a load returns the image's byte where there is no store to it.
pub fn unwritten_byte_is_images()
    ensures { UnwrittenByteIsImages }
{}

/// Where the performed order names operations of the trace, each at most once, the completed order has
/// every operation of the trace exactly once.
pub fn completed_is_order()
    ensures { CompletedIsOrder }
{}

/// The test that an order keeps preserved program order says what a reader means by it: where a must
/// come before b, a stands before b.
pub fn order_forms_agree()
    ensures { OrderFormsAgree }
{}

/// In an order of the trace the source of a byte is, of the stores to it other than the load that stand before the load in the
/// order or precede it in program order, the last in the order.
pub fn source_forms_agree()
    ensures { SourceFormsAgree }
{}

/// The flags by which dependencies are computed say what a reader means by them: what an instruction writes
/// reaches a register, directly or through others that read it and write on.
pub fn dependency_forms_agree()
    ensures { DependencyFormsAgree }
{}

/// In an order of the trace the test of the atomicity axiom at a byte says what a reader means by it: the
/// source of an LR's byte stands before the SC, and no store of another hart to that byte between them.
pub fn atomicity_forms_agree()
    ensures { AtomicityFormsAgree }
{}
