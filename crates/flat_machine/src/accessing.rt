//! Which reservations the access of an address ends.
ghost use Rattle.std.specs.Prelude.{◌≡◌, ◌<◌, if◌then◌else◌};
ghost use Rattle.flat_machine.specs.States.{flat_of};
ghost use Rattle.flat_model.specs.Changing as spec;
ghost use Rattle.reservations.specs.Reservation.{without_line};
ghost use Rattle.tl_types.specs.Line.{line_of};

use crate::node::Node;
use crate::state::State;
use machine_types::Config;

/// The set of that line.
fn set_at(config: &Config, address: u32) -> u32
    ensures { result ≡ spec.set_at config.now address }
{
    config.line.line_of(address) / config.line.bytes() % config.sets
}

/// Whether sets hold one line, and the two addresses lie in different lines of one set.
fn are_rivals(config: &Config, one: u32, other: u32) -> bool
    ensures { result ≡ spec.are_rivals config.now one other }
{
    config.ways == 1
        && set_at(config, one) == set_at(config, other)
        && config.line.line_of(one) != config.line.line_of(other)
}

impl Node {
    /// What an access of an address, the hart's own or another's, leaves of the reservation.
    fn keep_reservation(&mut self, config: &Config, is_own: bool, address: u32)
        ensures { self.new ≡ record self.old { reserved = if is_own then spec.without_rival config.now address self.old.reserved else without_line (line_of config.now.line address) config.now.line self.old.reserved } }
    {
        if !is_own {
            self.reservation
                .lose_line(config.line.line_of(address), config.line);
            return;
        }
        let Some(word) = self.reservation.word() else {
            return;
        };
        if are_rivals(config, address, word) {
            self.reservation.clear();
        }
    }
}

/// A hart accesses an address: of each node stays what the access leaves of it.
fn keep_reservations(config: &Config, nodes: &mut Vec<Node>, hart: u8, address: u32)
    ensures { nodes.new.items ≡ spec.accessed_from config.now hart address 0 nodes.old.items }
{
    for place in 0..nodes.len() {
        nodes[place].keep_reservation(config, place == usize::from(hart), address);
    }
}

impl State<'_> {
    /// A hart accesses an address, or nothing.
    pub(crate) fn access(&mut self, hart: u8, accessed: Option<u32>)
        ensures { flat_of self.new ≡ spec.accessed hart accessed (flat_of self.old) }
    {
        if let Some(address) = accessed {
            keep_reservations(&self.config, &mut self.nodes, hart, address);
        }
    }
}
