//! What it means that a search passed: a law, the contract of a function that does nothing.
ghost use Rattle.explore_command.specs.Passing.{PassingIsSafe, SearchPassingIsSafe};

/// Where an exploration was to fail on `failure` and `incomplete` and passed, no schedule ever stops a hart; where it was to
/// fail on `stuck` and `incomplete`, each can go on to an end.
pub fn passing_is_safe()
    ensures { PassingIsSafe }
{}

/// Where a search under a memory model was to fail on `failure` and `incomplete` and passed, no hart stops in any run that
/// the model allows, nor on this machine.
pub fn search_passing_is_safe()
    ensures { SearchPassingIsSafe }
{}
