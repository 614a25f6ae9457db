//! What the manager does with a message that it has taken.

ghost use Rattle.std.specs.Prelude.{◌≡◌, ◌≢◌, ◌<◌, ◌≤◌, All, length};
ghost use Rattle.machine_model.specs.Memory.{line_data};
ghost use Rattle.directory.specs.Directory.{SendsToHarts, acquired};
ghost use Rattle.elf_loader.specs.Size.{base};
ghost use Rattle.machine_model.specs.Deliveries.{grant_body, line_in_memory, on_acquire, on_grant_ack, on_probe_ack, on_release, sent_any, sent_grant, sent_probes};
ghost use Rattle.machine_model.specs.Laws.{QueuesFit};
ghost use Rattle.machine_model.specs.Views.{line_size, place_of};
ghost use Rattle.machine_parts.specs.Handled.{HasLine, HasSize, count_of, written_back};
ghost use Rattle.machine_parts.specs.Unstalled.{IsHandled};
ghost use Rattle.tl_types.specs.Line.{size_of};
ghost use Rattle.tl_types.specs.Permission.{left_by};

use super::messages::send;
use crate::lines::place_of;
use crate::parts::Parts;
use directory::{Acquired, Grant, HartSet, Sent};
use machine_model::backing_memory::Memory;
use tl_types::{Body, Cap, Change, Grow, LineData, Msg, Perm};

/// Data that came with a message go to memory.
fn write_back(memory: &mut Memory, place: u32, bytes: Option<LineData>)
    requires place { place < length memory.old }
    requires bytes { HasSize (size_of (line_data memory.old place)) bytes }
    ensures { memory.new ≡ written_back place bytes memory.old }
{
    if let Some(bytes) = bytes {
        memory.set_line(place, bytes);
    }
}

/// The body of a Grant; its data are memory's.
fn grant_body(parts: &Parts, line: u32, grant: Grant) -> Body
    requires low { base ≤ line }
    requires kept { place_of (line_size parts.now.state) line < length parts.now.state.views.memory }
    ensures { result ≡ grant_body grant (line_in_memory parts.now.state line) }
{
    if !grant.with_data {
        return Body::Grant(grant.cap);
    }
    Body::GrantData {
        cap: grant.cap,
        bytes: parts.memory.line(place_of(parts.config.line, line)),
    }
}

/// Sends a Grant, of which the manager has taken note.
fn send_grant(parts: &mut Parts, line: u32, grant: Grant)
    requires low { base ≤ line }
    requires kept { place_of (line_size parts.old.state) line < length parts.old.state.views.memory }
    requires hart { grant.hart < length parts.old.state.views.nodes }
    requires queues { QueuesFit (sent_grant line grant parts.old.state) }
    requires log { 0 < parts.old.room.log }
    ensures { parts.new.state ≡ sent_grant line grant parts.old.state }
{
    let body = grant_body(parts, line, grant);
    send(parts, grant.hart, &Msg { line, body });
}

/// Sends a Probe to each of these harts.
fn send_probes(parts: &mut Parts, harts: HartSet, line: u32, cap: Cap)
    requires harts { All (λ hart. hart < length parts.old.state.views.nodes) harts }
    requires queues { QueuesFit (sent_probes harts line cap parts.old.state) }
    requires log { length harts ≤ parts.old.room.log }
    ensures { parts.new.state ≡ sent_probes harts line cap parts.old.state }
{
    let message = Msg {
        line,
        body: Body::ProbeBlock(cap),
    };
    for hart in harts.iter() {
        send(parts, hart, &message);
    }
}

/// Sends what an Acquire has the manager send.
fn send_any(parts: &mut Parts, line: u32, sent: Sent)
    requires low { base ≤ line }
    requires kept { place_of (line_size parts.old.state) line < length parts.old.state.views.memory }
    requires harts { SendsToHarts (length parts.old.state.views.nodes) sent }
    requires queues { QueuesFit (sent_any line sent parts.old.state) }
    requires log { count_of sent ≤ parts.old.room.log }
    ensures { parts.new.state ≡ sent_any line sent parts.old.state }
{
    match sent {
        Sent::Probes(cap, harts) => send_probes(parts, harts, line, cap),
        Sent::Granting(grant) => send_grant(parts, line, grant),
    }
}

/// An Acquire: Probes to those who stand in its way, or the Grant.
pub(crate) fn on_acquire(parts: &mut Parts, hart: u8, line: u32, grow: Grow)
    requires hart { hart < parts.old.state.views.notes.harts }
    requires harts { parts.old.state.views.notes.harts ≡ length parts.old.state.views.nodes }
    requires line { HasLine line parts.old.state }
    requires unstalled { IsHandled (acquired parts.old.state.views.notes (place_of (line_size parts.old.state) line) hart grow).0 }
    requires queues { QueuesFit (on_acquire hart line grow parts.old.state) }
    requires log { length parts.old.state.views.nodes ≤ parts.old.room.log }
    ensures { parts.new.state ≡ on_acquire hart line grow parts.old.state }
{
    let place = place_of(parts.config.line, line);
    let Acquired::Handled(sent) = parts.directory.on_acquire(place, hart, grow) else {
        unreachable!()
    };
    send_any(parts, line, sent);
}

/// A Release: its data go to memory, and it is answered at once.
pub(crate) fn on_release(parts: &mut Parts, hart: u8, line: u32, bytes: Option<LineData>)
    requires hart { hart < length parts.old.state.views.nodes }
    requires noted { hart < parts.old.state.views.notes.harts }
    requires line { HasLine line parts.old.state }
    requires bytes { HasSize (line_size parts.old.state) bytes }
    requires queues { QueuesFit (on_release hart line bytes parts.old.state) }
    requires log { 0 < parts.old.room.log }
    ensures { parts.new.state ≡ on_release hart line bytes parts.old.state }
{
    let place = place_of(parts.config.line, line);
    write_back(&mut parts.memory, place, bytes);
    parts.directory.on_release(place, hart);
    send(
        parts,
        hart,
        &Msg {
            line,
            body: Body::ReleaseAck,
        },
    );
}

/// A ProbeAck: its data go to memory, and the last one that was awaited sends the Grant.
pub(crate) fn on_probe_ack(
    parts: &mut Parts,
    hart: u8,
    line: u32,
    change: Change,
    bytes: Option<LineData>,
)
    requires hart { hart < parts.old.state.views.notes.harts }
    requires harts { parts.old.state.views.notes.harts ≡ length parts.old.state.views.nodes }
    requires line { HasLine line parts.old.state }
    requires shrinks { left_by change ≢ Perm.Trunk }
    requires bytes { HasSize (line_size parts.old.state) bytes }
    requires queues { QueuesFit (on_probe_ack hart line change bytes parts.old.state) }
    requires log { 0 < parts.old.room.log }
    ensures { parts.new.state ≡ on_probe_ack hart line change bytes parts.old.state }
{
    let place = place_of(parts.config.line, line);
    write_back(&mut parts.memory, place, bytes);
    if let Some(grant) = parts.directory.on_probe_ack(place, hart, change) {
        send_grant(parts, line, grant);
    }
}

/// A GrantAck ends the line's transaction.
pub(crate) fn on_grant_ack(parts: &mut Parts, line: u32)
    requires { HasLine line parts.old.state }
    ensures { parts.new.state ≡ on_grant_ack line parts.old.state }
{
    let place = place_of(parts.config.line, line);
    parts.directory.on_grant_ack(place);
}
