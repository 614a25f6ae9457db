//! The rules by which operations of a hart must keep their order.

/// The thirteen rules of preserved program order (chapter 14.1, "Preserved Program Order"), by which one
/// operation must come before another of its hart.
#[derive(Clone, Copy, Debug, PartialEq, Eq)]
pub enum Rule {
    /// The second is a store to a byte of the first.
    OverlappingStore = 1,
    /// Both are loads of a byte, with no store to it between them, and return it from different writes
    /// (the image is one).
    SameByteLoads = 2,
    /// The second is a load that returns what the first, an AMO or an SC, wrote.
    AtomicSource = 3,
    /// A FENCE between them orders them.
    Fence = 4,
    /// The first has an acquire annotation.
    Acquire = 5,
    /// The second has a release annotation.
    Release = 6,
    /// Both have RCsc annotations.
    Annotations = 7,
    /// The first is an LR and the second the SC that it is paired with.
    Pair = 8,
    /// What came from the first is in the second's address.
    Address = 9,
    /// What came from the first is in the number that the second stores.
    Data = 10,
    /// The second is a store behind a branch or a JALR that depends on the first.
    Control = 11,
    /// The second is a load that returns what a store between them wrote, which depends on the first.
    DependentStore = 12,
    /// The second is a store behind an access whose address depends on the first.
    DependentAddress = 13,
}
