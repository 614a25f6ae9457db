//! One hart's reservation.
ghost use Rattle.std.specs.Prelude.{◌≡◌, Some, None};
ghost use Rattle.reservations.specs.Reservation.{is_valid, without_line};

use std::marker::Model;
use tl_types::LineSize;

/// At most one reserved word, named by its address, which is a multiple of 4.
#[derive(Clone, Copy, Debug, PartialEq, Eq, Hash)]
pub struct Reservation {
    word: Option<u32>,
}

impl Model for Reservation {
    ghost use Rattle.std.specs.Prelude.{ℕ, Option};

    ghost Value = { Option ℕ };

    ghost view = { λ r. r.word };

    ghost inverse = { λ word. record { word = word } };
}

impl Reservation {
    /// No word is reserved.
    pub const fn none() -> Self
        ensures { result ≡ None }
    {
        Reservation { word: None }
    }

    /// The reserved word's address.
    pub fn word(&self) -> Option<u32>
        ensures { result ≡ self.now }
    {
        self.word
    }

    /// Whether an SC to this word may succeed.
    pub fn valid(&self, word: u32) -> bool
        ensures { result ≡ is_valid word self.now }
    {
        self.word == Some(word)
    }

    /// Reserves a word, in place of any other.
    pub fn set(&mut self, word: u32)
        ensures { self.new ≡ Some word }
    {
        self.word = Some(word);
    }

    /// The hart lost the line that begins at `line`: a reservation of one of its words ends.
    pub fn lose_line(&mut self, line: u32, size: LineSize)
        ensures { self.new ≡ without_line line size self.old }
    {
        if let Some(word) = self.word
            && line <= word
            && word - line < size.bytes()
        {
            self.word = None;
        }
    }

    /// Ends the reservation, as every SC that retires does.
    pub fn clear(&mut self)
        ensures { self.new ≡ None }
    {
        *self = Reservation::none();
    }
}
