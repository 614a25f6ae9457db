//! What random runs show of a message.
ghost use Rattle.std.specs.Prelude.{◌≡◌};
ghost use Rattle.message_search.specs.Searched.{has_within, length_of};

use machine_types::Event;

/// Events, played from reset, of which the last sends the message, and none before it does.
#[derive(Drop)]
pub struct Met {
    pub events: Vec<Event>,
}

/// What random runs show of a message.
#[derive(Drop)]
pub struct Searched {
    /// The shortest list of events that sends it, if one does.
    pub met: Option<Met>,
    /// How many runs there were.
    pub runs: u64,
    /// Whether memory ended before there were as many as were asked for.
    pub out_of_memory: bool,
}

impl Searched {
    /// How many events are known to send the message, if some are.
    pub fn length(&self) -> Option<usize>
        ensures { result ≡ length_of self.now.met }
    {
        match &self.met {
            Some(met) => Some(met.events.len()),
            None => None,
        }
    }

    /// Whether a list of events is known that sends the message, of no more than so many.
    pub(crate) fn needs_fewer_than(&self, count: usize) -> bool
        ensures { result ≡ has_within (length_of self.now.met) count }
    {
        match &self.met {
            Some(met) => met.events.len() <= count,
            None => false,
        }
    }
}
