//! The verdict on a log, in one pass over it.
ghost use Rattle.std.specs.Prelude.{◌≡◌, ◌↔◌, IfOk};
ghost use Rattle.lawful_log.specs.Laws.{IsFirstBreach, IfUnlawful};
ghost use Rattle.lawful_log.specs.Rules.{IsLawfulBy};

use crate::followed::Followed;
use crate::profile::Profile;
use crate::rule::LogVerdict;
use std::alloc::{AllocError, Global};
use trace_recorder::Logged;

/// Whether a log is lawful by these rules, and where it isn't the first entry that breaks one, with the first of the
/// rules that it breaks. It goes over the log once, and looks up by line and by hart what the entries
/// before say. The only error is want of memory.
pub fn check_log(alloc: Global, profile: Profile, log: &[Logged]) -> Result<LogVerdict, AllocError>
    ensures lawful { IfOk result (λ v. (v ≡ LogVerdict.Lawful) ↔ IsLawfulBy profile log.now) }
    ensures unlawful { IfOk result (λ v. IfUnlawful v (λ rule index. IsFirstBreach profile log.now rule index)) }
{
    let mut followed = Followed::new(alloc);
    for (index, entry) in log.iter().enumerate() {
        match followed.broken(profile, entry) {
            Some(rule) => return Ok(LogVerdict::Unlawful { rule, index }),
            None => followed.note(alloc, entry)?,
        }
    }
    Ok(LogVerdict::Lawful)
}
