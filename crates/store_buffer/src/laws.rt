//! Laws of the definitions: a group, and so a buffer, is a function of its stores in program order.
ghost use Rattle.store_buffer.specs.Single.{NewIsSingle, PutSingleStaysSingle, SealStaysSingle, TakeStaysSingle};
ghost use Rattle.store_buffer.specs.Stores.{OwnWord, OtherWord, PutAppends, EntryIsFilter, OpsAreFilter, ByteIsLast, HasIsAny, TakeFilters, AlwaysDistinct, PutIsBehind, PutSingleIsBehind, SealIsUp, OldestIsFirst, TakeIsDrained, ForwardIsLast, HasIsAnyOfAll, DrainableIsAny, EmptyIsNone, SealedIsSome};

/// A group as the list of its stores: an entry is what those to its word leave.
pub fn group_of_stores()
    ensures own_word { OwnWord }
    ensures other_word { OtherWord }
    ensures put { PutAppends }
    ensures entry { EntryIsFilter }
    ensures ops { OpsAreFilter }
    ensures byte { ByteIsLast }
    ensures has { HasIsAny }
    ensures take { TakeFilters }
    ensures distinct { AlwaysDistinct }
{}

/// A buffer as the lists of its groups' stores: what its calls do to them.
pub fn buffer_of_stores()
    ensures put { PutIsBehind }
    ensures put_single { PutSingleIsBehind }
    ensures seal { SealIsUp }
    ensures oldest { OldestIsFirst }
    ensures take { TakeIsDrained }
    ensures forward { ForwardIsLast }
    ensures has { HasIsAnyOfAll }
    ensures drainable { DrainableIsAny }
    ensures is_empty { EmptyIsNone }
    ensures has_sealed { SealedIsSome }
{}

/// A buffer that is filled by `put_single` alone has one entry a group.
pub fn single_groups_stay()
    ensures new { NewIsSingle }
    ensures put_single { PutSingleStaysSingle }
    ensures seal { SealStaysSingle }
    ensures take { TakeStaysSingle }
{}
