use crate::same::{same, same_of};
use reservations::*;
use tl_types::LineSize;

/// The size and the address of a line that is lost, a reserved word, and whether it stays so.
static LOST: [(LineSize, u32, u32, bool); 6] = [
    (LineSize::Bytes16, 0x8000_0100, 0x8000_0100, false),
    (LineSize::Bytes16, 0x8000_0100, 0x8000_010c, false),
    (LineSize::Bytes16, 0x8000_0100, 0x8000_0110, true),
    (LineSize::Bytes16, 0x8000_0100, 0x8000_00fc, true),
    (LineSize::Bytes64, 0x8000_0100, 0x8000_013c, false),
    (LineSize::Bytes64, 0x8000_0100, 0x8000_0140, true),
];

/// A reservation goes with its line, whose size decides which words it has.
#[test]
fn lost_with_its_line(rt: HostRuntime) {
    for (size, line, word, kept) in &LOST {
        let mut reservation = Reservation::none();
        reservation.set(*word);
        reservation.lose_line(*line, *size);
        same_of(&rt, reservation.valid(*word), *kept, word);
    }
}

#[test]
fn one_word_at_a_time(rt: HostRuntime) {
    let mut reservation = Reservation::none();
    same(&rt, reservation.word(), None);
    reservation.set(0x8000_0100);
    reservation.set(0x8000_0200);
    same(&rt, reservation.valid(0x8000_0100), false);
    same(&rt, reservation.valid(0x8000_0200), true);
    same(&rt, reservation.word(), Some(0x8000_0200));
    reservation.clear();
    same(&rt, reservation.valid(0x8000_0200), false);
}
