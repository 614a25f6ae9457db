//! Laws of harts that stop, each the contract of a function that does nothing.
ghost use Rattle.window_failures.specs.Laws.{CoveredSetsTellFailures, FailingAreFollowed};

/// For each run in which a hart has stopped, be the others at their ends or not, and each order that the model allows,
/// steps of the bare machine lead from reset to where that hart has stopped so and nothing of it waits, by the memories
/// that the order leaves.
pub fn failing_are_followed()
    ensures { FailingAreFollowed }
{}

/// Where each hart of each system that was found is covered, what it places next leaves memories that were seen, and
/// each hart is told that stops for itself where nothing waits, each hart that stops in a run that the model allows is
/// told, with its code and its place.
pub fn covered_sets_tell_failures()
    ensures { CoveredSetsTellFailures }
{}
