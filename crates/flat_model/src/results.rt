//! What a run leaves of its harts.

use hart::Status;

/// How a hart stands, and the numbers that it put out, the first one first.
#[derive(Clone, Debug, PartialEq, Eq, Hash, Drop)]
pub struct HartResult {
    pub status: Status,
    pub output: Vec<u32>,
}
