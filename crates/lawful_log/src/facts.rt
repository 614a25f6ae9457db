//! What the rules ask of a message that is sent, judged by what was counted before it.
ghost use Rattle.std.specs.Prelude.{◌≡◌};
ghost use Rattle.lawful_log.specs.Facts.{FindsBroken, told};
ghost use Rattle.lawful_log.specs.Facts as spec;
ghost use Rattle.lawful_log.specs.Rules.{is_asked, may_give, may_have_data};

use crate::profile::Profile;
use crate::rule::LogRule;
use crate::tallies::Tallies;
use tl_types::{Body, Cap, Grow};

/// What a log says that the next message to be sent is judged by.
#[derive(Clone, Copy)]
pub(crate) struct Facts<'a> {
    /// The messages of its line in the queues of its hart.
    pub(crate) hart: &'a Tallies,
    /// The messages of its line in all queues.
    pub(crate) line: &'a Tallies,
    /// What the Acquire asked for that the hart's next Grant of the line answers.
    pub(crate) asked: Option<Grow>,
    /// Whether the hart lost its Branch copy of the line since it last asked for it.
    pub(crate) lost: bool,
}

impl Facts<'_> {
    /// The first rule that a message of this body breaks.
    pub(crate) fn broken(&self, profile: Profile, body: &Body) -> Option<LogRule>
        ensures { FindsBroken profile (told self.now) body.now result }
    {
        for rule in LogRule::ALL {
            if !self.may_go_by(profile, rule, body) {
                return Some(rule);
            }
        }
        None
    }

    fn may_go_by(&self, profile: Profile, rule: LogRule, body: &Body) -> bool
        ensures { result ≡ spec.may_go_by profile rule body.now (told self.now) }
    {
        match rule {
            LogRule::InOrder => true,
            LogRule::Question => self.has_question(body),
            LogRule::Permission => self.has_permission(profile, body),
            LogRule::Data => self.has_right_data(profile, body),
            LogRule::AcquireOnce => self.is_acquired_once(body),
            LogRule::ProbeOnce => self.is_probed_once(body),
            LogRule::GrantAlone => self.leaves_grant_alone(body),
            LogRule::ReleaseAlone => self.leaves_release_alone(body),
        }
    }

    fn has_question(&self, body: &Body) -> bool
        ensures { result ≡ spec.has_question body.now (told self.now) }
    {
        match body {
            Body::ProbeAck(_) | Body::ProbeAckData { .. } => {
                self.hart.probe_acks.sent < self.hart.probes.taken
            }
            Body::ReleaseAck => self.hart.release_acks.sent < self.hart.releases.taken,
            Body::GrantAck => self.hart.grant_acks.sent < self.hart.grants.taken,
            Body::Grant(_) | Body::GrantData { .. } => self.asked.is_some(),
            _ => true,
        }
    }

    fn has_permission(&self, profile: Profile, body: &Body) -> bool
        ensures { result ≡ spec.has_permission profile body.now (told self.now) }
    {
        match body {
            Body::Grant(cap) | Body::GrantData { cap, .. } => is_asked(profile, self.asked, *cap),
            _ => true,
        }
    }

    fn has_right_data(&self, profile: Profile, body: &Body) -> bool
        ensures { result ≡ spec.has_right_data profile body.now (told self.now) }
    {
        match body {
            Body::Grant(_) => self.goes_without_data().unwrap_or(true),
            Body::GrantData { .. } => {
                may_have_data(profile, self.goes_without_data().unwrap_or(false))
            }
            _ => true,
        }
    }

    // Whether the next Grant can go without data, if there is a next Grant.
    fn goes_without_data(&self) -> Option<bool>
        ensures { result ≡ spec.goes_without_data (told self.now) }
    {
        let grow = self.asked?;
        Some(grow == Grow::BtoT && !self.lost)
    }

    fn is_acquired_once(&self, body: &Body) -> bool
        ensures { result ≡ spec.is_acquired_once body.now (told self.now) }
    {
        match body {
            Body::AcquireBlock(_) => self.is_no_acquire_open(),
            _ => true,
        }
    }

    fn is_probed_once(&self, body: &Body) -> bool
        ensures { result ≡ spec.is_probed_once body.now (told self.now) }
    {
        match body {
            Body::ProbeBlock(_) => self.hart.probes.sent == self.hart.probe_acks.taken,
            _ => true,
        }
    }

    fn leaves_grant_alone(&self, body: &Body) -> bool
        ensures { result ≡ spec.leaves_grant_alone body.now (told self.now) }
    {
        let no_grant = self.line.grants.sent == self.line.grant_acks.taken;
        match body {
            Body::ProbeBlock(_) => no_grant,
            Body::Grant(_) | Body::GrantData { .. } => {
                self.line.probes.sent == self.line.probe_acks.taken && no_grant
            }
            _ => true,
        }
    }

    fn leaves_release_alone(&self, body: &Body) -> bool
        ensures { result ≡ spec.leaves_release_alone body.now (told self.now) }
    {
        let no_release = self.hart.releases.sent == self.hart.release_acks.taken;
        match body {
            Body::AcquireBlock(_) | Body::ProbeAck(_) | Body::ProbeAckData { .. } => no_release,
            Body::Release(_) | Body::ReleaseData { .. } => no_release && self.is_no_acquire_open(),
            _ => true,
        }
    }

    fn is_no_acquire_open(&self) -> bool
        ensures { result ≡ spec.is_no_acquire_open (told self.now) }
    {
        self.hart.acquires.sent == self.hart.grants.taken
    }
}

// Whether what was asked for may be granted so; it may where nothing was.
fn is_asked(profile: Profile, asked: Option<Grow>, cap: Cap) -> bool
    ensures { result ≡ is_asked profile asked cap }
{
    match asked {
        Some(grow) => may_give(profile, grow, cap),
        None => true,
    }
}

// Whether a Grant may have data that can go without.
fn may_have_data(profile: Profile, can_go_without: bool) -> bool
    ensures { result ≡ may_have_data profile can_go_without }
{
    match profile {
        Profile::Machine => !can_go_without,
        Profile::TileLink => true,
    }
}

// What an Acquire may be granted.
fn may_give(profile: Profile, grow: Grow, cap: Cap) -> bool
    ensures { result ≡ may_give profile grow cap }
{
    match (profile, grow) {
        (Profile::TileLink, Grow::NtoB) => cap != Cap::ToN,
        (Profile::Machine, Grow::NtoB) => cap == Cap::ToB,
        (_, Grow::NtoT | Grow::BtoT) => cap == Cap::ToT,
    }
}
