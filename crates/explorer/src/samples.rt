//! Ends of a program that random schedules come to, and how often.

mod sampled;
mod sampling;
mod tally;

pub use sampled::Sampled;
pub use sampling::{SampleWatch, Sampling, sample_ends};
