//! How much memory the program has taken.

use std::fs;
use std::io::Read;
use std::rt::Files;

/// What the system tells of this process.
const STATUS: &str = "/proc/self/status";

/// How many KiB of memory the program has taken at most, where the system tells.
pub fn most_taken<R: Files>(rt: &R) -> Option<u64> {
    let mut file = fs::open(rt, STATUS).ok()?;
    // Where memory has ended none is asked for.
    let mut bytes = [0; 4096];
    let count = file.read(&mut bytes).ok()?;
    most_in(bytes.get(..count)?)
}

/// The KiB that the system tells as the greatest size so far.
fn most_in(status: &[u8]) -> Option<u64> {
    let text = std::str::from_utf8(status).ok()?;
    let (_, behind) = text.split_once("\nVmPeak:")?;
    let (number, _) = behind.trim_start().split_once(' ')?;
    number.parse().ok()
}
