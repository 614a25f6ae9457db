//! Laws of the bare window machine, each the contract of a function that does nothing.
ghost use Rattle.window_model.specs.Laws.{EndedAreFollowed, ListsAreFetched, PathsAreLazy, PlacingComesFirst, SetsAreWithin, StoresComeFirst};

/// Whatever steps harts take from reset, each set of a hart has positions of its window alone, and an operation waits
/// only for what stands before it.
pub fn sets_are_within()
    ensures { SetsAreWithin }
{}

/// A hart can fetch each list that is a run and whose successful SCs are paired with LRs of their words. Its operations
/// then wait in program order, and each needs only what precedes it in preserved program order, whatever the order is.
pub fn lists_are_fetched()
    ensures { ListsAreFetched }
{}

/// For each run to its ends and each order that the model allows, steps of the bare machine lead from reset to the same
/// ends and outputs, by the memories that the order leaves.
pub fn ended_are_followed()
    ensures { EndedAreFollowed }
{}

/// What waits before a hart fetches an instruction may be placed before that instead of behind it, and the hart comes to
/// the same node.
pub fn placing_comes_first()
    ensures { PlacingComesFirst }
{}

/// A store that another hart places behind an instruction that a hart fetches may be placed before that instead, and
/// the hart comes to the same node.
pub fn stores_come_first()
    ensures { StoresComeFirst }
{}

/// For each path from reset there is one to the same system, in no more steps and with the same memories, on which each
/// hart fetches no further than what it places next.
pub fn paths_are_lazy()
    ensures { PathsAreLazy }
{}
