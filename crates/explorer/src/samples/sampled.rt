//! What random runs come to.

use crate::found::Found;

/// What random runs of a program came to. What is known of it stands at `sample_ends`.
#[derive(Drop)]
pub struct Sampled {
    /// The ends, each once, by hart: status first, then the numbers that it put out. A script is that of
    /// the first run that came there, or a shorter one, where that was asked for.
    pub ends: Vec<Found>,
    /// How many runs came to each end, in the same order.
    pub times: Vec<u64>,
    /// In how many runs a hart hadn't ended.
    pub unended: u64,
    /// How many runs there were.
    pub runs: u64,
    /// Whether memory ended before there were as many as were asked for.
    pub out_of_memory: bool,
}
