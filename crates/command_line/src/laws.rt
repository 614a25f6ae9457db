//! The law of journals, the contract of a function that does nothing.
ghost use Rattle.command_line.specs.Runs.{RunsReplay};

/// Where a run has left its journal and printed its trace, a replay of that journal, for the same image
/// under the same model, prints the same.
pub fn runs_replay()
    ensures { RunsReplay }
{}
