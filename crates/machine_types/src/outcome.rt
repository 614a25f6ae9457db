//! What comes of an event.

/// The first seven change the machine, the others leave it as it is.
#[derive(Clone, Copy, Debug, PartialEq, Eq)]
pub enum Outcome {
    Retired,
    /// The instruction can't be carried out; the hart halts. Codes: 0 jump target misaligned, 1 fetch
    /// outside memory, 2 illegal instruction, 3 EBREAK, 4 load misaligned, 5 load outside memory,
    /// 6 store, LR, SC or AMO misaligned, 7 the same outside memory, 8 unknown call.
    Stopped(u8),
    /// The program ended the hart with this code.
    Exited(u8),
    Drained,
    Delivered,
    Evicted,
    /// An Acquire of the line that begins at this address was sent.
    Missed(u32),
    /// The hart isn't running.
    Halted,
    /// The cache's Release of the line is unanswered.
    WaitRelease,
    /// The cache's Acquire of the line is outstanding.
    WaitGrant,
    /// As many Acquires are outstanding as there are trackers.
    NoTracker,
    /// The line's set has no room for it.
    SetFull,
    /// The store buffer has no free entry.
    BufferFull,
    /// Stores that wait have to drain first.
    MustDrain,
    /// The store buffer has no entry of the word.
    NoEntry,
    /// The oldest group of stores has no entry of the word.
    NotOldest,
    /// The queue is empty.
    Empty,
    /// The line's transaction isn't over.
    Busy,
    /// The probed cache's Release of the line is unanswered.
    Releasing,
    /// As many GrantAcks wait as the queue has room for.
    AckFull,
    /// The line isn't held.
    NotHeld,
    /// An Acquire of the line to be given up is outstanding.
    AcquirePending,
    /// As many Releases are unanswered as there are trackers.
    ReleaseFull,
    /// One of the next instructions isn't private, or stops.
    NotLocal,
}
