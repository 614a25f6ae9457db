//! Laws of circles, each the contract of a function that does nothing.
ghost use Rattle.window_machine.specs.CircleLaws.{CirclesNeverEnd, CirclesNeverRun, CirclesPlaceNothing};

/// A hart that executes one instruction after the other, none of which accesses memory, comes to nothing that it
/// fetches and places.
pub fn circles_place_nothing()
    ensures { CirclesPlaceNothing }
{}

/// Nor does it ever end.
pub fn circles_never_end()
    ensures { CirclesNeverEnd }
{}

/// No list of what it retires is a run to its end.
pub fn circles_never_run()
    ensures { CirclesNeverRun }
{}
