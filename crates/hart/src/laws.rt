//! What the definition of a run says, as the contract of a function that does nothing.
ghost use Rattle.hart.specs.Ends.{RunsEndAsTheirLists};

/// A run has the status of an exit exactly where its last entry is that exit, and nothing follows an exit.
pub fn runs_end_as_their_lists()
    ensures { RunsEndAsTheirLists }
{}
