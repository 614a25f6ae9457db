//! A stream of numbers that is the same in each run.

ghost use Rattle.std.specs.Prelude.{◌<◌};

/// A linear congruential generator modulo 2^32, with the multiplier and increment of "Numerical Recipes".
#[derive(Clone, Copy)]
pub struct Numbers {
    state: u32,
}

impl Numbers {
    pub fn from_seed(seed: u32) -> Numbers {
        Numbers { state: seed }
    }

    /// The next number. Its lower bits have short periods.
    pub fn next(&mut self) -> u32 {
        self.state = self
            .state
            .wrapping_mul(1_664_525)
            .wrapping_add(1_013_904_223);
        self.state
    }

    /// The next number's upper half, below a limit that isn't 0.
    pub fn below(&mut self, limit: u32) -> u32
        requires { 0 < limit }
    {
        (self.next() >> 16) % limit
    }
}
