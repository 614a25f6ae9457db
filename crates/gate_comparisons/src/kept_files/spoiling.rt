//! What is done to a file's bytes: they are cut short, or some of them are set.

use gate_plain_comparisons::Numbers;
use std::alloc::AllocError;

/// A number below the limit, or 0 where there is none. Of 24 bits, unlike `Numbers::below`: files may have more
/// than 64 KiB.
fn below(stream: &mut Numbers, limit: u32) -> u32 {
    (stream.next() / 256).checked_rem(limit).unwrap_or(0)
}

fn next_byte(stream: &mut Numbers) -> u8 {
    let [first, _, _, _] = below(stream, 256).to_le_bytes();
    first
}

/// So many tenths of the bytes, from the first on.
pub fn cut(bytes: &[u8], tenths: usize) -> &[u8] {
    let length = (bytes.len() / 10).saturating_mul(tenths);
    &bytes[..length.min(bytes.len())]
}

/// The spoiled bytes become these, but for one to three of them.
pub fn reset(spoiled: &mut Vec<u8>, bytes: &[u8], stream: &mut Numbers) -> Result<(), AllocError> {
    spoiled.clear();
    spoiled.extend_from_slice(bytes)?;
    let limit = u32::try_from(bytes.len()).unwrap_or(u32::MAX);
    for _ in 0..=below(stream, 3) {
        let place = below(stream, limit) as usize;
        if let Some(byte) = spoiled.get_mut(place) {
            *byte = next_byte(stream);
        }
    }
    Ok(())
}
