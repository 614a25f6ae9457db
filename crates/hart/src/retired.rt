//! What is kept of a retired instruction.
ghost use Rattle.std.specs.Prelude.{◌≡◌};

/// A retired instruction.
#[derive(Clone, Copy, Debug, PartialEq, Eq)]
pub struct Retired {
    /// Its address.
    pub pc: u32,
    /// The instruction itself.
    pub word: u32,
    /// What it read from memory, not extended: there exactly for loads, LR and AMOs.
    pub loaded: Option<u32>,
    /// Whether it wrote: there exactly for SC.
    pub sc_ok: Option<bool>,
}

impl Retired {
    ghost use Rattle.hart.specs.Run as run;

    /// The number that the instruction read; of an SC 0 where it succeeded, else 1 (chapter 8.2).
    pub fn number_read(&self) -> u32
        ensures { result ≡ run.number_read self.now }
    {
        match self.sc_ok {
            Some(true) => 0,
            Some(false) => 1,
            None => self.loaded.unwrap_or(0),
        }
    }
}
