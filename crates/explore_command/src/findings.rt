//! What a search for a program's outcomes finds, as the command that made it tells and judges it.

ghost use Rattle.std.specs.Prelude.{◌≡◌, ◌⊎◌, Bool, IfErr, IfOk, IsTrue, List, OnErr, OnOk, ℕ};
ghost use Rattle.std.specs.Io.KnownBytes.{Appends};
ghost use Rattle.flat_model.specs.Shown.{HartEnd, told};
ghost use Rattle.text_fields.specs.Writing.{Begins};

use command_files::Fault;
use flat_model::HartResult;
use std::alloc::{AllocError, Global};
use std::io::Write;
use text_fields::{Piece, put_pieces};

/// What a search for a program's outcomes finds.
pub(crate) trait Findings {
    type Outcome;

    // The lines that tell it.
    ghost text: { Self → List ℕ };

    // As those lines number them.
    ghost outcomes: { Self → List Self.Outcome };

    // What an outcome's line says, its number left out.
    ghost line: { Self → Self.Outcome → List ℕ };

    // How its harts ended.
    ghost harts: { Self.Outcome → List HartEnd };

    // A hart was found to stop, whatever the other harts do then.
    ghost has_failures: { Self → Bool };

    // A state was found from which no schedule ends.
    ghost is_stuck: { Self → Bool };

    // The search ended before all was searched.
    ghost is_incomplete: { Self → Bool };

    // Memory sufficed for the whole search.
    ghost IsWhole: { Self → Type 0 };

    /// The lines that tell it.
    fn text(&self, alloc: Global) -> Result<Vec<u8>, AllocError>
        ensures { IfOk result (λ bytes. bytes.items ≡ text self.now) };

    /// As those lines number them.
    fn outcomes(&self) -> &[Self::Outcome]
        ensures { result.now ≡ outcomes self.now };

    /// What an outcome's line says, its number left out.
    fn line(&self, alloc: Global, outcome: &Self::Outcome) -> Result<Vec<u8>, AllocError>
        ensures { IfOk result (λ bytes. bytes.items ≡ line self.now outcome.now) };

    /// How its harts ended, by hart.
    fn harts(outcome: &Self::Outcome) -> &[HartResult]
        ensures { told result.now ≡ harts outcome.now };

    /// Whether a hart was found to stop, whatever the other harts do then.
    fn has_failures(&self) -> bool
        ensures { result ≡ has_failures self.now };

    /// Whether a state was found from which no schedule ends.
    fn is_stuck(&self) -> bool
        ensures { result ≡ is_stuck self.now };

    /// Whether the search ended before all was searched.
    fn is_incomplete(&self) -> bool
        ensures { result ≡ is_incomplete self.now };

    /// Whether memory sufficed for the whole search.
    fn is_whole(&self) -> bool
        ensures { IsTrue result → IsWhole self.now };
}

/// Prints what was found.
pub(crate) fn print<'a, T: Findings, O: Write>(
    alloc: Global,
    found: &T,
    out: &mut O,
) -> Result<(), Fault<'a>>
    ensures printed { OnOk result (Appends (O.contents out.old) (O.contents out.new) (T.text found.now)) }
    ensures told { IfErr result (λ fault. (fault ≡ Fault.CannotWrite) ⊎ (fault ≡ Fault.OutOfMemory)) }
    ensures begun { OnErr result (Begins (O.contents out.old) (O.contents out.new) (T.text found.now)) }
{
    let Ok(text) = found.text(alloc) else {
        return Err(Fault::OutOfMemory);
    };
    if let Err(error) = put_pieces(out, &[Piece::Text(&text)]) {
        return Err(Fault::writing(error));
    }
    match out.flush() {
        Ok(()) => Ok(()),
        Err(error) => Err(Fault::writing(error)),
    }
}
