//! The threads of a run.

ghost use Rattle.std.specs.Prelude.{◌≡◌, ◌⊎◌, ◌≤◌, IfErr, IfOk, map, reverse, vec_len};
ghost use Rattle.std.specs.List.{All};
ghost use Rattle.host_threads.specs.Workers.{HandsBack, common_of, counted_by, told_by, turn_of};
ghost use Rattle.progress_board.specs.Seat.{AreFresh, IsSeatOf, view};

use crate::common::Common;
use crate::gate::Gate;
use crate::report::RunError;
use crate::worker::{Done, Worker};
use locked_fabric::{Fabric, Port, Share, Turn};
use progress_board::Seat;
use std::alloc::AllocError;
use std::snapshot::Snapshot;
use std::sync::atomic::Ordering;
use std::sync::ledger::Ledger;
use std::sync::{Mutex, Wait};
use std::thread;
use std::thread::{Promise, Threads};

/// A worker for each hart, the last hart's first.
pub(crate) fn workers<'a, L: Ledger, T: Turn + Drop>(
    common: &'a Common,
    lock: &'a Mutex<Fabric<L>>,
    mut seats: Vec<Seat>,
    mut shares: Vec<Share<L>>,
    mut turns: Vec<T>,
) -> Result<Vec<Worker<'a, L, T>>, AllocError>
    requires board { All (λ seat. IsSeatOf common.now.board seat) seats.items }
    requires opening { All (λ share. share ≡ 0) shares.items }
    requires few { vec_len shares ≤ 8 }
    requires seats { vec_len seats ≡ vec_len shares }
    requires fresh { AreFresh seats.items }
    requires turns { vec_len turns ≡ vec_len shares }
    ensures made { IfOk result (λ made. vec_len made ≡ vec_len shares) }
    ensures common { IfOk result (λ made. All (λ worker. common_of worker ≡ common.now) made.items) }
    ensures opening { IfOk result (λ made. All (λ worker. counted_by worker ≡ 0) made.items) }
    ensures seats { IfOk result (λ made. reverse (map told_by made.items) ≡ map view seats.items) }
    ensures turns { IfOk result (λ made. reverse (map turn_of made.items) ≡ turns.items) }
{
    let harts = shares.len() as u8;
    let mut made = Vec::with_capacity(common.alloc, shares.len())?;
    for hart in (0..harts).rev() {
        let Some(seat) = seats.pop() else {
            unreachable!()
        };
        let Some(share) = shares.pop() else {
            unreachable!()
        };
        let Some(turn) = turns.pop() else {
            unreachable!()
        };
        let port = Port::new(lock, seat, share);
        made.push_reserved(Worker::new(common, port, hart, turn));
    }
    Ok(made)
}

/// The thread of a worker that shares this hands back what [`Worker::run`] does.
#[derive(Drop)]
struct Shared(Snapshot<Common>);

impl<L: Ledger> Promise<Done<L>> for Shared {
    ghost use Rattle.host_threads.specs.Workers.{HandsBack};

    ghost kept_by = { λ shared done. HandsBack shared.0.value done };
}

/// Runs each worker in a thread of its own, and joins them all, the last worker's first.
pub(crate) fn run_all<
    'a,
    L: Ledger + Send + Sync,
    T: Turn + Drop + Send,
    G: Gate + Sync,
    R: Threads + Wait + Sync,
>(
    rt: &R,
    common: &'a Common,
    mut workers: Vec<Worker<'a, L, T>>,
    gate: &G,
) -> Result<Vec<Done<L>>, RunError>
    requires { All (λ worker. common_of worker ≡ common.now) workers.items }
    ensures done { IfOk result (λ done. vec_len done ≡ vec_len workers.entry) }
    ensures back { IfOk result (λ done. All (HandsBack common.now) done.items) }
    ensures refused { IfErr result (λ error. (error ≡ RunError.NoMemory) ⊎ (error ≡ RunError.Thread)) }
{
    let count = workers.len();
    thread::scope(
        thread::scope_env(),
        rt,
        |scope| -> Result<Vec<Done<L>>, RunError>
            requires count { vec_len workers ≡ count }
            requires common { All (λ worker. common_of worker ≡ common.now) workers.items }
            ensures done { IfOk result (λ done. vec_len done ≡ count) }
            ensures back { IfOk result (λ done. All (HandsBack common.entry.now) done.items) }
            ensures refused { IfErr result (λ error. (error ≡ RunError.NoMemory) ⊎ (error ≡ RunError.Thread)) }
        {
            let mut running = Vec::with_capacity(common.alloc, count)?;
            let mut done = Vec::with_capacity(common.alloc, count)?;
            let mut is_refused = false;
            for _worker in 0..count {
                let Some(worker) = workers.pop() else {
                    unreachable!()
                };
                let Ok(thread) = scope.spawn_with(
                    Shared(Snapshot::of(common)),
                    move || -> Done<L>
                        ensures { HandsBack (common_of worker.entry) result }
                    { worker.run(rt, gate) },
                ) else {
                    common.stop.store(true, Ordering::SeqCst);
                    is_refused = true;
                    break;
                };
                running.push_reserved(thread);
            }
            for thread in running {
                done.push_reserved(thread.join(rt));
            }
            if is_refused {
                return Err(RunError::Thread);
            }
            Ok(done)
        },
    )
}
