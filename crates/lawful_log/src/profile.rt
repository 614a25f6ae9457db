//! By whose rules a log is judged.

/// Whose rules a log has to keep.
#[derive(Clone, Copy, Debug, PartialEq, Eq)]
pub enum Profile {
    /// All that this repository's machine keeps, also where TileLink leaves it open.
    Machine,
    /// Those without what is this machine's own of Grants: also Trunk may be given where Branch was asked for, and
    /// data may go where the client still has its copy (TileLink 1.8.1, "Permissions transitions" and "TL-C").
    TileLink,
}
