//! How outcomes are spelt.
ghost use Rattle.std.specs.Prelude.{◌≡◌, ◌+◌, ◌≤◌, ◌++◌, length};
ghost use Rattle.text_fields.specs.Pages.{size};
ghost use Rattle.event_stream.specs.Outcomes as outcomes;

use machine_types::Outcome;
use text_fields::Page;

/// The outcome's name.
pub fn outcome_name(outcome: Outcome) -> &'static str
    ensures value { result.now ≡ outcomes.name outcome }
    ensures len { length result.now ≤ 14 }
{
    match outcome {
        Outcome::Retired => "Retired",
        Outcome::Stopped(_) => "Stopped",
        Outcome::Exited(_) => "Exited",
        Outcome::Drained => "Drained",
        Outcome::Delivered => "Delivered",
        Outcome::Evicted => "Evicted",
        Outcome::Missed(_) => "Missed",
        Outcome::Halted => "Halted",
        Outcome::WaitRelease => "WaitRelease",
        Outcome::WaitGrant => "WaitGrant",
        Outcome::NoTracker => "NoTracker",
        Outcome::SetFull => "SetFull",
        Outcome::BufferFull => "BufferFull",
        Outcome::MustDrain => "MustDrain",
        Outcome::NoEntry => "NoEntry",
        Outcome::NotOldest => "NotOldest",
        Outcome::Empty => "Empty",
        Outcome::Busy => "Busy",
        Outcome::Releasing => "Releasing",
        Outcome::AckFull => "AckFull",
        Outcome::NotHeld => "NotHeld",
        Outcome::AcquirePending => "AcquirePending",
        Outcome::ReleaseFull => "ReleaseFull",
        Outcome::NotLocal => "NotLocal",
    }
}

/// The outcome's name, and the code or the address that it has.
pub(crate) fn spell_outcome(page: &mut Page, outcome: Outcome)
    requires { length page.old + 36 ≤ size }
    ensures value { page.new ≡ page.old ++ outcomes.outcome outcome }
    ensures len { length page.new ≤ length page.old + 36 }
{
    page.text(outcome_name(outcome).as_bytes());
    match outcome {
        Outcome::Stopped(code) | Outcome::Exited(code) => {
            page.text(b" ");
            page.decimal(code as u64);
        }
        Outcome::Missed(line) => {
            page.text(b" ");
            page.word(line);
        }
        _ => {}
    }
}
