//! The messages that wait between one hart's cache and the manager.

use std::alloc::Global;
use tl_types::{Channel, Msg};

/// A list for each channel, the first sent in front.
#[derive(Drop)]
pub(crate) struct Waiting {
    a: Vec<Msg>,
    b: Vec<Msg>,
    c: Vec<Msg>,
    d: Vec<Msg>,
    e: Vec<Msg>,
}

impl Waiting {
    pub fn new(alloc: Global) -> Waiting {
        Waiting {
            a: Vec::new(alloc),
            b: Vec::new(alloc),
            c: Vec::new(alloc),
            d: Vec::new(alloc),
            e: Vec::new(alloc),
        }
    }

    pub fn queue_of(&self, channel: Channel) -> &Vec<Msg> {
        match channel {
            Channel::A => &self.a,
            Channel::B => &self.b,
            Channel::C => &self.c,
            Channel::D => &self.d,
            Channel::E => &self.e,
        }
    }

    pub fn queue_of_mut(&mut self, channel: Channel) -> &mut Vec<Msg> {
        match channel {
            Channel::A => &mut self.a,
            Channel::B => &mut self.b,
            Channel::C => &mut self.c,
            Channel::D => &mut self.d,
            Channel::E => &mut self.e,
        }
    }
}
