//! What a log says of a line, and the first rule that a message of it breaks.
ghost use Rattle.std.specs.Prelude.{ℕ, ◌≡◌, ◌<◌, ◌↔◌, ◌==◌, ◌-◌, IsTrue, None, OnOk, drop, if◌then◌else◌, length, take};
ghost use Rattle.std.specs.Option.{option_copied, option_or};
ghost use Rattle.coherent_log.specs.Followed.{FindsBroken, FindsBy, FindsHolder, client_at, client_noted, nothing_told};
ghost use Rattle.coherent_log.specs.Told as told;
ghost use Rattle.coherent_log.specs.Rules.{IsDataKept, IsOfImage};
ghost use Rattle.elf_loader.specs.Size.{base};

use crate::clients::{ClientLog, Held};
use crate::messages::brought;
use crate::rule::CoherenceRule;
use crate::verdict::Breach;
use elf_loader::Image;
use machine_types::BASE;
use std::alloc::{AllocError, Global};
use tl_types::{Body, LineData};
use trace_recorder::Logged;

/// Bytes of a line that the manager took or granted, with the number of their message, counted from 0.
#[derive(Clone, Copy)]
pub(crate) struct Brought {
    pub(crate) bytes: LineData,
    pub(crate) index: usize,
}

/// What a log says last of a line.
#[derive(Drop)]
pub(crate) struct LineLog {
    pub(crate) brought: Option<Brought>,
    /// By client, as far as clients were named.
    pub(crate) clients: Vec<ClientLog>,
}

impl LineLog {
    /// Of a line that no message named.
    pub(crate) fn new(alloc: Global) -> LineLog
        ensures brought { result.brought ≡ None }
        ensures clients { (h : ℕ) → client_at result.clients.items h ≡ nothing_told }
    {
        LineLog {
            brought: None,
            clients: Vec::new(alloc),
        }
    }

    /// The entry is the message of this number.
    pub(crate) fn note(&mut self, entry: &Logged, index: usize) -> Result<(), AllocError>
        ensures brought { OnOk result (self.new.brought ≡ option_or (told.brought_at index (told.brought entry.now.direction entry.now.message.body)) self.old.brought) }
        ensures clients { OnOk result ((h : ℕ) → client_at self.new.clients.items h
            ≡ (if entry.now.hart == h then client_noted entry.now index (client_at self.old.clients.items h) else client_at self.old.clients.items h)) }
    {
        self.brought = brought_at(brought(entry), index, self.brought);
        let client = usize::from(entry.hart);
        reach(&mut self.clients, client)?;
        self.clients[client].note(entry, index);
        Ok(())
    }

    /// What it says.
    pub(crate) fn told(&self) -> LineTold<'_>
        ensures brought { result.brought ≡ self.now.brought }
        ensures clients { result.clients.now ≡ self.now.clients.items }
    {
        LineTold {
            brought: self.brought,
            clients: &self.clients,
        }
    }
}

/// Lengthens the list so that it has the client.
fn reach(clients: &mut Vec<ClientLog>, client: usize) -> Result<(), AllocError>
    requires { client < 256 }
    ensures reaches { OnOk result (client < length clients.new.items) }
    ensures same { OnOk result ((h : ℕ) → client_at clients.new.items h ≡ client_at clients.old.items h) }
{
    while clients.len() <= client {
        clients.push(ClientLog::NOTHING)?;
    }
    Ok(())
}

fn brought_at(bytes: Option<LineData>, index: usize, before: Option<Brought>) -> Option<Brought>
    ensures { result ≡ option_or (told.brought_at index bytes) before }
{
    match bytes {
        Some(bytes) => Some(Brought { bytes, index }),
        None => before,
    }
}

/// What a log says last of a line, to judge a message by.
#[derive(Clone, Copy)]
pub(crate) struct LineTold<'a> {
    pub(crate) brought: Option<Brought>,
    /// By client, as far as clients were named.
    pub(crate) clients: &'a [ClientLog],
}

impl LineTold<'_> {
    /// Of a line that no message named.
    pub(crate) const NOTHING: LineTold<'static> = LineTold {
        brought: None,
        clients: &[],
    };

    /// The first rule that the message breaks as it is sent, with its cause.
    pub(crate) fn broken(&self, image: Option<&Image>, entry: &Logged) -> Option<Breach>
        ensures { FindsBroken (option_copied image.entry) entry.now.hart entry.now.message.line entry.now.message.body (client_at self.now.clients.now) self.now.brought result }
    {
        for rule in CoherenceRule::ALL {
            match self.broken_by(rule, image, entry) {
                Some(breach) => return Some(breach),
                None => {}
            }
        }
        None
    }

    // Whether the message breaks this rule.
    fn broken_by(
        &self,
        rule: CoherenceRule,
        image: Option<&Image>,
        entry: &Logged,
    ) -> Option<Breach>
        ensures { FindsBy rule (option_copied image.entry) entry.now.hart entry.now.message.line entry.now.message.body (client_at self.now.clients.now) self.now.brought result }
    {
        let body = &entry.message.body;
        let client = self.client(entry.hart);
        match rule {
            CoherenceRule::PermissionHeld => {
                if client.is_permission_held(body) {
                    return None;
                }
                Some(Breach::PermissionHeld { held: client.held })
            }
            CoherenceRule::ProbeObeyed => {
                if client.is_probe_obeyed(body) {
                    return None;
                }
                Some(Breach::ProbeObeyed {
                    held: client.held,
                    probe: client.probe,
                })
            }
            CoherenceRule::OneWriter => {
                let (holder, held) = self.holder_beside(entry.hart, body)?;
                Some(Breach::OneWriter { holder, held })
            }
            CoherenceRule::DataAsked => {
                if client.is_data_asked(body) {
                    return None;
                }
                Some(Breach::DataAsked { held: client.held })
            }
            CoherenceRule::DataKept => {
                if self.is_data_kept(image, entry.message.line, body) {
                    return None;
                }
                Some(Breach::DataKept {
                    brought: self.brought.map(|brought| brought.index),
                })
            }
        }
    }

    fn client(&self, hart: u8) -> ClientLog
        ensures { result ≡ client_at self.now.clients.now hart }
    {
        match self.clients.get(usize::from(hart)) {
            Some(client) => *client,
            None => ClientLog::NOTHING,
        }
    }

    // The first other client beside which the message may not go, and what it has by the manager.
    fn holder_beside(&self, hart: u8, body: &Body) -> Option<(usize, Option<Held>)>
        ensures { FindsHolder body.now hart (client_at self.now.clients.now) result }
    {
        for (other, client) in self.clients.iter().enumerate() {
            if other != usize::from(hart) && !client.may_go_beside(body) {
                return Some((other, client.noted));
            }
        }
        None
    }

    fn is_data_kept(&self, image: Option<&Image>, line: u32, body: &Body) -> bool
        ensures { IsTrue result ↔ IsDataKept body.now (option_copied image.entry) line self.now.brought }
    {
        match (body, &self.brought) {
            (Body::GrantData { bytes, .. }, Some(brought)) => is_same(bytes, &brought.bytes),
            (Body::GrantData { bytes, .. }, None) => match image {
                Some(image) => is_of_image(image, line, bytes.as_slice()),
                None => true,
            },
            _ => true,
        }
    }
}

fn is_same(first: &LineData, second: &LineData) -> bool
    ensures { IsTrue result ↔ (first.now ≡ second.now) }
{
    first == second
}

// Whether the image has these bytes from the line on.
fn is_of_image(image: &Image, line: u32, bytes: &[u8]) -> bool
    ensures { IsTrue result ↔ IsOfImage image.now line bytes.now }
{
    is_beginning_of(bytes, bytes_from(image, line))
}

// The image's bytes from the line on.
fn bytes_from(image: &Image, line: u32) -> &[u8]
    ensures { result.now ≡ drop (line - base) image.now.bytes }
{
    rest_from(image.bytes(), line.saturating_sub(BASE) as usize)
}

// What is left behind so many bytes.
#[tactic(auto, using(std::proofs::lemmas::List::drop_min))]
fn rest_from(bytes: &[u8], from: usize) -> &[u8]
    ensures { result.now ≡ drop from bytes.now }
{
    &bytes[from.min(bytes.len())..]
}

fn is_beginning_of(first: &[u8], bytes: &[u8]) -> bool
    ensures { IsTrue result ↔ (first.now ≡ take (length first.now) bytes.now) }
{
    bytes.starts_with(first)
}
