//! What belongs to one hart.

ghost use Rattle.std.specs.Prelude.{◌≡◌, IfOk};
ghost use Rattle.client_cache.specs.Held.{perm_of};
ghost use Rattle.machine_model.specs.Deliveries.{is_trunk, kept_reservation};
ghost use Rattle.machine_model.specs.Views.{opening_node};

use client_cache::ClientCache;
use elf_loader::Image;
use hart::Hart;
use machine_types::Config;
use reservations::Reservation;
use std::alloc::{AllocError, Global};
use std::marker::Model;
use store_buffer::StoreBuffer;
use tilelink_channels::Queues;
use tl_types::{LineSize, Perm};

/// A hart with the numbers that it put out, its reservation, store buffer and cache, and the messages
/// between its cache and the manager.
#[derive(Drop)]
pub struct Node {
    pub hart: Hart,
    pub output: Vec<u32>,
    pub reservation: Reservation,
    pub buffer: StoreBuffer,
    pub cache: ClientCache,
    pub queues: Queues,
}

impl Model for Node {
    ghost use Rattle.machine_model.specs.Views as views;
    ghost use Rattle.std.specs.Coded.{codes};
    ghost use Rattle.machine_parts.specs.Codes.{cache_coded};

    ghost Value = { views.Node };

    ghost coded = { Prim.hlevel (codes, cache_coded) };

    ghost view = { λ n. record {
      hart = n.hart;
      output = n.output.items;
      reserved = n.reservation;
      buffer = n.buffer;
      cache = n.cache;
      queues = n.queues;
    } };
}

impl Node {
    /// A hart at reset, with an empty buffer and cache.
    pub fn new(alloc: Global, image: &Image, config: &Config, id: u8) -> Result<Node, AllocError>
        ensures { IfOk result (λ node. node ≡ opening_node image.now config.now id) }
    {
        let cache = ClientCache::new(alloc, config.sets, config.ways, config.line)?;
        let queues = Queues::new(alloc)?;
        Ok(Node {
            hart: Hart::at_reset(id, image.entry(), config.harts),
            output: Vec::new(alloc),
            reservation: Reservation::none(),
            buffer: StoreBuffer::new(alloc),
            cache,
            queues,
        })
    }

    /// A reservation of a word of the line lasts while the copy is Trunk.
    pub(crate) fn keep_reservation(&mut self, size: LineSize, line: u32)
        requires { size ≡ self.old.cache.shape.size }
        ensures { self.new ≡ record self.old { reserved = kept_reservation self.old.cache line self.old.reserved } }
    {
        if self.cache.perm(line) != Perm::Trunk {
            self.reservation.lose_line(line, size);
        }
    }
}
