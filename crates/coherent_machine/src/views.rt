//! What can be asked of a machine.

ghost use Rattle.std.specs.Prelude.{◌≡◌, ◌<◌, length};
ghost use Rattle.machine_model.specs.Views.{node_at};

use client_cache::ClientCache;
use directory::Directory;
use hart::Hart;
use machine_model::backing_memory::Memory;
use machine_parts::Parts;
use machine_types::Config;
use std::marker::Model;
use store_buffer::StoreBuffer;
use tilelink_channels::Queues;

/// What a machine is at the moment, lent part by part. No call takes memory.
#[derive(Drop)]
pub struct Views<'a> {
    pub(crate) parts: &'a Parts,
}

impl<'a> Model for Views<'a> {
    ghost use Rattle.machine_model.specs.Views as views;
    ghost use Rattle.std.specs.Coded.{codes};
    ghost use Rattle.machine_parts.specs.Codes.{cache_coded};

    ghost Value = { views.State };

    ghost coded = { Prim.hlevel (codes, cache_coded) };

    ghost view = { λ v. v.parts.now.state };
}

impl<'a> Views<'a> {
    pub fn config(&self) -> &'a Config
        ensures { result.now ≡ self.now.views.config }
    {
        let parts = self.parts;
        &parts.config
    }

    /// How many harts there are.
    pub fn harts(&self) -> usize
        ensures { result ≡ length self.now.views.nodes }
    {
        let parts = self.parts;
        parts.nodes.len()
    }

    /// How many events changed the machine.
    pub fn changes(&self) -> u32
        ensures { result ≡ self.now.views.changes }
    {
        let parts = self.parts;
        parts.changes
    }

    pub fn hart(&self, hart: usize) -> &'a Hart
        requires { hart < length self.now.views.nodes }
        ensures { result.now ≡ (node_at self.now hart).hart }
    {
        let parts = self.parts;
        &parts.nodes[hart].hart
    }

    /// The numbers that the hart put out, the first one first.
    pub fn output(&self, hart: usize) -> &'a [u32]
        requires { hart < length self.now.views.nodes }
        ensures { result.now ≡ (node_at self.now hart).output }
    {
        let parts = self.parts;
        &parts.nodes[hart].output
    }

    /// The word that the hart has reserved.
    pub fn reserved(&self, hart: usize) -> Option<u32>
        requires { hart < length self.now.views.nodes }
        ensures { result ≡ (node_at self.now hart).reserved }
    {
        let parts = self.parts;
        parts.nodes[hart].reservation.word()
    }

    /// The hart's stores that wait.
    pub fn buffer(&self, hart: usize) -> &'a StoreBuffer
        requires { hart < length self.now.views.nodes }
        ensures { result.now ≡ (node_at self.now hart).buffer }
    {
        let parts = self.parts;
        &parts.nodes[hart].buffer
    }

    /// The hart's copies with their permissions and dirty marks, its outstanding Acquires and its
    /// unanswered Releases.
    pub fn cache(&self, hart: usize) -> &'a ClientCache
        requires { hart < length self.now.views.nodes }
        ensures { result.now ≡ (node_at self.now hart).cache }
    {
        let parts = self.parts;
        &parts.nodes[hart].cache
    }

    /// The messages that wait between the hart's cache and the manager.
    pub fn queues(&self, hart: usize) -> &'a Queues
        requires { hart < length self.now.views.nodes }
        ensures { result.now ≡ (node_at self.now hart).queues }
    {
        let parts = self.parts;
        &parts.nodes[hart].queues
    }

    /// Main memory by line.
    pub fn memory(&self) -> &'a Memory
        ensures { result.now ≡ self.now.views.memory }
    {
        let parts = self.parts;
        &parts.memory
    }

    /// The manager's records and transactions by line.
    pub fn directory(&self) -> &'a Directory
        ensures { result.now ≡ self.now.views.notes }
    {
        let parts = self.parts;
        &parts.directory
    }
}
