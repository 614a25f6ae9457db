//! Signals: what they are called, how wide they are, and how their values are spelled.
ghost use Rattle.std.specs.Prelude.{◌≡◌, ◌<◌, ◌≤◌, length};
ghost use Rattle.run_waves.specs.Signals as signals;

/// How wide a signal is.
#[derive(Clone, Copy, Debug, PartialEq, Eq)]
pub(crate) enum Width {
    /// 1 bit.
    Bit,
    /// 8 bits.
    Byte,
    /// 32 bits.
    Word,
}

/// What is told of a part of a machine.
#[derive(Clone, Copy, Debug, PartialEq, Eq)]
pub(crate) enum Signal {
    // Of a hart.
    Pc,
    Instruction,
    Status,
    Code,
    Stores,
    OldestWord,
    OldestBytes,
    OldestMask,
    IsReserved,
    Reserved,
    // Of a queue.
    Length,
    Front,
    FrontLine,
    // Of a line in a cache.
    Permission,
    IsDirty,
    IsAcquiring,
    IsReleasing,
    // Of a line at the manager.
    Known,
    IsAwaited,
    Transaction,
    Requester,
}

impl Signal {
    /// The letter that its identifiers begin with.
    pub(crate) fn letter(self) -> u8
        ensures { result ≡ signals.letter self }
    {
        match self {
            Signal::Pc => b'p',
            Signal::Instruction => b'i',
            Signal::Status => b's',
            Signal::Code => b'c',
            Signal::Stores => b'n',
            Signal::OldestWord => b'w',
            Signal::OldestBytes => b'b',
            Signal::OldestMask => b'm',
            Signal::IsReserved => b'v',
            Signal::Reserved => b'r',
            Signal::Length => b'l',
            Signal::Front => b'f',
            Signal::FrontLine => b'g',
            Signal::Permission => b'P',
            Signal::IsDirty => b'D',
            Signal::IsAcquiring => b'A',
            Signal::IsReleasing => b'U',
            Signal::Known => b'K',
            Signal::IsAwaited => b'W',
            Signal::Transaction => b'T',
            Signal::Requester => b'R',
        }
    }

    /// Its name.
    pub(crate) fn name(self) -> &'static [u8]
        ensures value { result.now ≡ signals.name self }
        ensures len { length result.now ≤ 13 }
    {
        match self {
            Signal::Pc => b"pc",
            Signal::Instruction => b"instruction",
            Signal::Status => b"status",
            Signal::Code => b"code",
            Signal::Stores => b"stores",
            Signal::OldestWord => b"oldest_word",
            Signal::OldestBytes => b"oldest_bytes",
            Signal::OldestMask => b"oldest_mask",
            Signal::IsReserved => b"reserved",
            Signal::Reserved => b"reserved_word",
            Signal::Length => b"length",
            Signal::Front => b"front",
            Signal::FrontLine => b"front_line",
            Signal::Permission => b"permission",
            Signal::IsDirty => b"dirty",
            Signal::IsAcquiring => b"acquiring",
            Signal::IsReleasing => b"releasing",
            Signal::Known => b"record",
            Signal::IsAwaited => b"awaited",
            Signal::Transaction => b"transaction",
            Signal::Requester => b"requester",
        }
    }

    /// How wide it is.
    pub(crate) fn width(self) -> Width
        ensures { result ≡ signals.width self }
    {
        match self {
            Signal::IsReserved
            | Signal::IsDirty
            | Signal::IsAcquiring
            | Signal::IsReleasing
            | Signal::IsAwaited => Width::Bit,
            Signal::Status
            | Signal::Code
            | Signal::Stores
            | Signal::OldestMask
            | Signal::Length
            | Signal::Front
            | Signal::Permission
            | Signal::Known
            | Signal::Transaction
            | Signal::Requester => Width::Byte,
            Signal::Pc
            | Signal::Instruction
            | Signal::OldestWord
            | Signal::OldestBytes
            | Signal::Reserved
            | Signal::FrontLine => Width::Word,
        }
    }

    /// Its place among what is told of the same part, from 0.
    pub(crate) fn place(self) -> usize
        ensures value { result ≡ signals.place self }
        ensures within { result < 10 }
    {
        match self {
            Signal::Pc
            | Signal::Length
            | Signal::Permission
            | Signal::Known
            | Signal::Transaction => 0,
            Signal::Instruction
            | Signal::Front
            | Signal::IsDirty
            | Signal::IsAwaited
            | Signal::Requester => 1,
            Signal::Status | Signal::FrontLine | Signal::IsAcquiring => 2,
            Signal::Code | Signal::IsReleasing => 3,
            Signal::Stores => 4,
            Signal::OldestWord => 5,
            Signal::OldestBytes => 6,
            Signal::OldestMask => 7,
            Signal::IsReserved => 8,
            Signal::Reserved => 9,
        }
    }
}

/// The signals of a hart.
pub(crate) const OF_HART: [Signal; 10] = [
    Signal::Pc,
    Signal::Instruction,
    Signal::Status,
    Signal::Code,
    Signal::Stores,
    Signal::OldestWord,
    Signal::OldestBytes,
    Signal::OldestMask,
    Signal::IsReserved,
    Signal::Reserved,
];

/// The signals of a queue.
pub(crate) const OF_QUEUE: [Signal; 3] = [Signal::Length, Signal::Front, Signal::FrontLine];

/// The signals of a line in a cache.
pub(crate) const OF_COPY: [Signal; 4] = [
    Signal::Permission,
    Signal::IsDirty,
    Signal::IsAcquiring,
    Signal::IsReleasing,
];

/// The signals of the manager's record of a hart and a line.
pub(crate) const OF_RECORD: [Signal; 2] = [Signal::Known, Signal::IsAwaited];

/// The signals of a line's transaction.
pub(crate) const OF_TRANSACTION: [Signal; 2] = [Signal::Transaction, Signal::Requester];
