//! What liveness is good for: laws, each the contract of a function that does nothing.
ghost use Rattle.live_registers.specs.Laws.{LiveIsClosed, OthersAreNotLeft, OthersAreNotRead};

/// What an instruction reads is live before it, and what is live behind it is live before it or set by it, wherever it
/// leads.
pub fn live_is_closed()
    ensures { LiveIsClosed }
{}

/// With registers that it doesn't read set to 0 an instruction does the same, and leaves the same in those that are
/// live behind it.
pub fn others_may_be_zero()
    ensures read { OthersAreNotRead }
    ensures left { OthersAreNotLeft }
{}
