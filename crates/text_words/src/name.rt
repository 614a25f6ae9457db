//! Names, kept without memory of their own.
ghost use Rattle.std.specs.Prelude.{◌≡◌, ◌≤◌, length};

use std::fmt::{self, Display, Formatter};
use std::marker::Model;

/// No name is longer.
pub const LONGEST_NAME: usize = 200;

/// A name, at most 200 bytes.
#[derive(Clone, Copy)]
pub struct Name {
    bytes: [u8; LONGEST_NAME],
    len: u8,
}

impl Model for Name {
    ghost use Rattle.std.specs.Prelude.{◌≡◌, ℕ, List, ◌≤◌, ◌-◌, ◌++◌, length, take, drop, replicate};
    ghost use Rattle.std.proofs.Common.{ap, sym, ◌∙◌};
    ghost use Rattle.std.proofs.lemmas.List.{take-append-drop, length-take-le};

    ghost Value = { List ℕ };

    ghost view = { λ name. take name.len name.bytes };

    ghost invariant = { λ name. (length name.bytes ≡ 200) × (name.len ≤ length name.bytes) × (drop name.len name.bytes ≡ replicate (200 - name.len) 0) };

    ghost inverse = { λ text. record { bytes = text ++ replicate (200 - length text) 0; len = length text } };

    ghost inverse_ok = { λ name h.
        ap (λ (l : ℕ). record { bytes = take name.len name.bytes ++ replicate (200 - l) 0; len = l }) (length-take-le name.len name.bytes h.1)
        ∙ ap (λ (b : List ℕ). record { bytes = take name.len name.bytes ++ b; len = name.len }) (sym h.2)
        ∙ ap (λ (b : List ℕ). record { bytes = b; len = name.len }) (take-append-drop name.len name.bytes) };
}

impl Name {
    /// The name of these bytes.
    pub fn of(text: &[u8]) -> Name
        requires { length text.now ≤ 200 }
        ensures { result ≡ text.now }
    {
        let mut bytes = [0; LONGEST_NAME];
        bytes[..text.len()].copy_from_slice(text);
        Name {
            bytes,
            len: text.len() as u8,
        }
    }

    /// Its bytes.
    pub fn as_slice(&self) -> &[u8]
        ensures { result.now ≡ self.now }
    {
        &self.bytes[..self.len as usize]
    }
}

impl Display for Name {
    fn fmt<W: fmt::Write>(&self, f: &mut Formatter<W>) -> fmt::Result {
        let text = self.as_slice().escape_ascii();
        write!(f, "{text}")
    }
}
