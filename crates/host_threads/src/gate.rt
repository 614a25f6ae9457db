//! What a worker passes before each turn.

/// Sees the progress of the harts without the lock, and may hold a worker up.
pub trait Gate {
    /// The hart's worker is about to take the turn of this number, from 0, and has found that the harts
    /// published these lengths of their lists, by hart.
    fn pass(&self, hart: u8, turn: u64, lengths: &[u64]);

    /// The hart's worker has drawn this number, from 0, for the event of its turn. It holds no lock.
    fn draw(&self, _hart: u8, _number: u64) {}
}
