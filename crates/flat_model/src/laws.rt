//! The machine shows a program one flat memory behind store buffers: laws of whole runs, each the
//! contract of a function that does nothing.
ghost use Rattle.flat_model.specs.Plays.{Plays};
ghost use Rattle.flat_model.specs.Laws.{FlatOrderAlways, FlatResultsAlways, ProjectionDecides, ShownAlways};

/// Whatever events come in whatever order, some list of flat events leads to the same harts, outputs,
/// store buffers, lists of retired instructions and performed order, to a memory that is the image with
/// what was performed, and to reservations of which each hart has its own or none.
pub fn shown_always()
    ensures { ShownAlways }
{}

/// Whatever events come in whatever order, the harts' statuses and outputs are those of a flat run, and
/// so are those of a machine whose harts have all ended.
pub fn flat_results_always()
    ensures { FlatResultsAlways }
{}

/// Whatever events come in whatever order, a flat machine that shows what they did has for each hart's
/// list a run of the loaded program, and a completed order that is legal under the configured model.
pub fn flat_order_always()
    ensures { FlatOrderAlways }
{}

/// What a flat machine may do next, with what outcome, and what its harts' statuses and outputs become
/// depends on its projection alone: on the harts, outputs, reservations and memory, and on the waiting
/// stores without the places of their operations.
pub fn projection_decides()
    ensures { ProjectionDecides }
{}

/// Small plays of the flat machine end as they should: which reservations an access ends, when a store
/// conditional fails, and what a waiting store shows.
pub fn worked_plays()
    ensures { Plays }
{}
