//! What is answered to a call that asks a machine to go on.

use coherent_machine::{AdoptError, ApplyError};
use machine_types::Outcome;

#[derive(Clone, Copy, Debug, PartialEq, Eq)]
pub enum Answer {
    Came(Outcome),
    Refused(ApplyError),
    NotAdopted(AdoptError),
    Nothing,
}

pub fn applied(came: Result<Outcome, ApplyError>) -> Answer {
    match came {
        Ok(outcome) => Answer::Came(outcome),
        Err(error) => Answer::Refused(error),
    }
}

pub fn adopted(came: Result<Outcome, AdoptError>) -> Answer {
    match came {
        Ok(outcome) => Answer::Came(outcome),
        Err(error) => Answer::NotAdopted(error),
    }
}
