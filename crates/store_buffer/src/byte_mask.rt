//! Which of a word's four bytes are meant.
ghost use Rattle.std.specs.Prelude.{◌≡◌, ◌+◌, ◌≤◌};
ghost use Rattle.store_buffer.specs.ByteMask.{no_marks, marks_of_access, united, covers, laid_over};

use std::marker::Model;

/// Four marks, one for each byte of an aligned word; the first is of the byte at the word's address.
#[derive(Clone, Copy, Debug, PartialEq, Eq, Hash)]
pub struct ByteMask {
    marks: [bool; 4],
}

impl Model for ByteMask {
    ghost use Rattle.std.specs.Prelude.{List, Bool};

    ghost Value = { List Bool };

    ghost view = { λ m. m.marks };

    ghost inverse = { λ marks. record { marks = marks } };
}

impl ByteMask {
    /// Marks no byte.
    pub fn none() -> Self
        ensures { result ≡ no_marks }
    {
        ByteMask { marks: [false; 4] }
    }

    /// The bytes of an access of `size` bytes, from the byte `offset` of its word on.
    pub fn of_access(offset: u32, size: u32) -> Self
        requires { offset + size ≤ 4 }
        ensures { result ≡ marks_of_access offset size }
    {
        let end = offset + size;
        let holds = |place: u32| offset <= place && place < end;
        ByteMask {
            marks: [holds(0), holds(1), holds(2), holds(3)],
        }
    }

    /// The mask with these marks.
    pub fn from_marks(marks: [bool; 4]) -> Self
        ensures { result ≡ marks }
    {
        ByteMask { marks }
    }

    /// The four marks.
    pub fn marks(self) -> [bool; 4]
        ensures { result ≡ self }
    {
        self.marks
    }

    /// What either mask marks.
    pub fn union(self, other: ByteMask) -> ByteMask
        ensures { result ≡ united self other }
    {
        let [a, b, c, d] = self.marks;
        let [e, f, g, h] = other.marks;
        ByteMask {
            marks: [a | e, b | f, c | g, d | h],
        }
    }

    /// Whether it marks every byte that `needed` does.
    pub fn covers(self, needed: ByteMask) -> bool
        ensures { result ≡ covers self needed }
    {
        let [a, b, c, d] = self.marks;
        let [e, f, g, h] = needed.marks;
        (!e | a) & (!f | b) & (!g | c) & (!h | d)
    }

    /// The marked bytes of `upper`, and the others of `lower`.
    pub fn lay_over(self, upper: [u8; 4], lower: [u8; 4]) -> [u8; 4]
        ensures { result ≡ laid_over self upper lower }
    {
        let [a, b, c, d] = self.marks;
        [
            if a { upper[0] } else { lower[0] },
            if b { upper[1] } else { lower[1] },
            if c { upper[2] } else { lower[2] },
            if d { upper[3] } else { lower[3] },
        ]
    }
}
