//! An event: decided, limited, given room, and only then performed.

ghost use Rattle.std.specs.Prelude.{◌≡◌};
ghost use Rattle.machine_model.specs.Events.{verdict};
ghost use Rattle.machine_model.specs.Ready.{AreReady, IsSound};
ghost use Rattle.machine_parts.specs.Applying.{Answers, answer_to, decided};

use crate::errors::ApplyError;
use crate::limits::{is_limited, outcome_of, reserve};
use crate::parts::Parts;
use crate::perform::perform;
use crate::plan::hart_of;
use machine_model::{Act, Plan};
use machine_types::{Event, Outcome};
use std::alloc::AllocError;

impl Parts {
    /// What an event comes to under the limits; nothing changes.
    fn decide(&self, event: &Event) -> Result<Plan, ApplyError>
        requires { IsSound self.now.state }
        ensures { result ≡ decided self.now.state event.now }
    {
        if !self.is_good(event) {
            return Err(ApplyError::BadEvent);
        }
        let plan = self.plan(event);
        if let Plan::Changes(act) = &plan {
            if is_limited(self, hart_of(event), act) {
                return Err(ApplyError::Limit);
            }
        }
        Ok(plan)
    }

    /// What `apply` would answer to the event, had it memory; nothing changes.
    pub fn foresee(&self, event: &Event) -> Result<Outcome, ApplyError>
        requires { IsSound self.now.state }
        ensures { result ≡ answer_to (verdict self.now.state event.now) }
    {
        match self.decide(event) {
            Ok(Plan::Stays(outcome)) => Ok(outcome),
            Ok(Plan::Changes(act)) => Ok(outcome_of(self, hart_of(event), &act)),
            Err(error) => Err(error),
        }
    }

    /// Decides what an event comes to, tests the limits, makes room for all that grows, and only then
    /// changes anything.
    pub fn apply(&mut self, event: &Event) -> Result<Outcome, ApplyError>
        requires sound { IsSound self.old.state }
        requires ready { AreReady self.old.state }
        ensures { Answers (verdict self.old.state event.now) self.old.state result self.new.state }
    {
        let act = match self.decide(event) {
            Ok(Plan::Stays(outcome)) => return Ok(outcome),
            Ok(Plan::Changes(act)) => act,
            Err(error) => return Err(error),
        };
        let hart = hart_of(event);
        let outcome = outcome_of(self, hart, &act);
        reserve(self, hart, &act)?;
        perform(self, hart, &act)?;
        self.changes += 1;
        Ok(outcome)
    }
}
