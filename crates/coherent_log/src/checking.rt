//! The verdict on a log, in one pass over it.
ghost use Rattle.std.specs.Prelude.{◌≡◌, ◌↔◌, IfOk};
ghost use Rattle.std.specs.Option.{option_copied};
ghost use Rattle.coherent_log.specs.Laws.{IfIncoherent, IsCoherentLog, IsFirstBreach};

use crate::followed::Followed;
use crate::verdict::CoherenceVerdict;
use elf_loader::Image;
use std::alloc::{AllocError, Global};
use trace_recorder::Logged;

/// Whether a log is coherent, where no client has a permission at the start, and memory begins as the image says, or
/// with bytes that aren't known; and where it isn't, the first entry that breaks a rule, with the first of the rules
/// that it breaks and its cause. It goes over the log once, and looks up by line and by client what the entries
/// before say. The only error is want of memory.
pub fn check_coherence(
    alloc: Global,
    image: Option<&Image>,
    log: &[Logged],
) -> Result<CoherenceVerdict, AllocError>
    ensures coherent { IfOk result (λ v. (v ≡ CoherenceVerdict.Coherent) ↔ IsCoherentLog (option_copied image.entry) log.now) }
    ensures incoherent { IfOk result (λ v. IfIncoherent v (λ breach index. IsFirstBreach (option_copied image.entry) log.now breach index)) }
{
    let mut followed = Followed::new(alloc);
    for (index, entry) in log.iter().enumerate() {
        match followed.broken(image, entry) {
            Some(breach) => return Ok(CoherenceVerdict::Incoherent { breach, index }),
            None => followed.note(alloc, entry, index)?,
        }
    }
    Ok(CoherenceVerdict::Coherent)
}
