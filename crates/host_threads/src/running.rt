//! A whole run.

ghost use Rattle.std.specs.Prelude.{◌≡◌, ◌≢◌, ◌↔◌, ◌⊎◌, ◌≤◌, Err, IfErr, IfOk, None, length, map, sum, vec_len, false};
ghost use Rattle.std.specs.List.{All};
ghost use Rattle.locked_fabric.specs.Machine.{IsReached};
ghost use Rattle.host_threads.specs.Workers.{common_of};
ghost use Rattle.host_threads.specs.Faults.{IsFirstFault, first_fault, was_stopped};
ghost use Rattle.host_threads.specs.Replays.{IsOf, IsRun, IsWithinLimit, JournalMoves, JournalReplays, end_of_journal};
ghost use Rattle.machine_model.specs.LawfulLog.{IsLawfulLog};
ghost use Rattle.machine_model.specs.Laws.{IsHeadline};
ghost use Rattle.progress_board.specs.Seat.{AreFresh, IsSeatOf, harts_of};

use crate::common::{Common, shared};
use crate::crew::{run_all, workers};
use crate::gate::Gate;
use crate::report::{Report, RunError};
use crate::reporting::report_of;
use crate::rounds::Rounds;
use crate::worker::{Done, Worker};
use elf_loader::Image;
use locked_fabric::{Fabric, Share, Turn};
use machine_types::Config;
use progress_board::Seat;
use std::alloc::{AllocError, Global};
use std::marker::Brand;
use std::sync::ledger::{Blank, Ledger};
use std::sync::{Mutex, Wait};
use std::thread::Threads;

/// Runs each hart in a thread of its own, whose turns are [`Rounds`]. The run is over when each hart has ended or
/// has retired as much as a hart may, after as many events as the limit says, and where the machine has changed as
/// often as it may.
pub fn run<G: Gate + Sync, R: Threads + Wait + Sync>(
    rt: &R,
    alloc: Global,
    image: Image,
    config: Config,
    limit: u64,
    gate: &G,
) -> Result<Report, RunError>
    ensures report { IfOk result (λ report. IsOf image config report) }
    ensures moves { IfOk result (λ report. JournalMoves image config report) }
    ensures replays { IfOk result (λ report. JournalReplays image config report) }
    ensures reached { IfOk result (λ report. IsReached (end_of_journal image config report)) }
    ensures headline { IfOk result (λ report. IsHeadline image config (end_of_journal image config report)) }
    ensures log { IfOk result (λ report. IsLawfulLog report.trace.history.log) }
    ensures limit { IfOk result (λ report. IsWithinLimit limit report) }
    ensures config { result ≢ Err RunError.Config }
{
    let own = image.try_copy(alloc)?;
    let turns = rounds(alloc, &own, config)?;
    run_with(rt, alloc, image, config, limit, gate, turns)
}

// A turn for each hart.
fn rounds(alloc: Global, image: &Image, config: Config) -> Result<Vec<Rounds<'_>>, AllocError>
    ensures { IfOk result (λ turns. vec_len turns ≡ config.harts) }
{
    let mut turns = Vec::new(alloc);
    for hart in 0..config.harts {
        turns.push(Rounds::new(hart as u8, image, config))?;
    }
    Ok(turns)
}

/// Runs each hart in a thread of its own, whose events the hart's turn picks.
pub fn run_with<G: Gate + Sync, T: Turn + Drop + Send, R: Threads + Wait + Sync>(
    rt: &R,
    alloc: Global,
    image: Image,
    config: Config,
    limit: u64,
    gate: &G,
    turns: Vec<T>,
) -> Result<Report, RunError>
    ensures report { IfOk result (λ report. IsOf image config report) }
    ensures moves { IfOk result (λ report. JournalMoves image config report) }
    ensures replays { IfOk result (λ report. JournalReplays image config report) }
    ensures reached { IfOk result (λ report. IsReached (end_of_journal image config report)) }
    ensures headline { IfOk result (λ report. IsHeadline image config (end_of_journal image config report)) }
    ensures log { IfOk result (λ report. IsLawfulLog report.trace.history.log) }
    ensures limit { IfOk result (λ report. IsWithinLimit limit report) }
    ensures config { (result ≡ Err RunError.Config) ↔ (vec_len turns ≢ config.harts) }
{
    if turns.len() != config.harts as usize {
        return Err(RunError::Config);
    }
    let (common, seats) = shared(alloc, &image, config, limit)?;
    let blank = Blank::new(u64::from(config.harts));
    run_counted::<Brand, G, T, R>(rt, blank, image, &common, gate, seats, turns)
}

// The run, with the ledger that the threads count in.
fn run_counted<
    L: Ledger + Send + Sync,
    G: Gate + Sync,
    T: Turn + Drop + Send,
    R: Threads + Wait + Sync,
>(
    rt: &R,
    blank: Blank,
    image: Image,
    common: &Common,
    gate: &G,
    seats: Vec<Seat>,
    turns: Vec<T>,
) -> Result<Report, RunError>
    requires name { blank.name ≡ L.name }
    requires parts { blank.parts ≡ L.parts }
    requires harts { blank.parts ≡ common.now.config.harts }
    requires image { common.now.image ≡ image }
    requires made { harts_of common.now.board ≡ common.now.config.harts }
    requires board { All (λ seat. IsSeatOf common.now.board seat) seats.items }
    requires seats { vec_len seats ≡ common.now.config.harts }
    requires fresh { AreFresh seats.items }
    requires turns { vec_len turns ≡ common.now.config.harts }
    ensures run { IfOk result (λ report. IsRun image common.now.config common.now.limit report) }
    ensures config { result ≢ Err RunError.Config }
{
    let (fabric, shares) = Fabric::<L>::new(common.alloc, blank, image, common.config)?;
    let lock = Mutex::new(fabric);
    let crew = workers(common, &lock, seats, shares, turns)?;
    let shares = counted(rt, common, crew, gate)?;
    report_of(common, lock.into_inner(), shares)
}

// The shares, once each thread is joined.
fn counted<
    'a,
    L: Ledger + Send + Sync,
    G: Gate + Sync,
    T: Turn + Drop + Send,
    R: Threads + Wait + Sync,
>(
    rt: &R,
    common: &'a Common,
    crew: Vec<Worker<'a, L, T>>,
    gate: &G,
) -> Result<Vec<Share<L>>, RunError>
    requires made { harts_of common.now.board ≡ vec_len crew }
    requires common { All (λ worker. common_of worker ≡ common.now) crew.items }
    ensures harts { IfOk result (λ shares. length shares.items ≡ harts_of common.now.board) }
    ensures limit { IfOk result (λ shares. sum shares.items ≤ common.now.limit) }
    ensures config { result ≢ Err RunError.Config }
{
    let done = run_all(rt, common, crew, gate)?;
    let (seats, shares) = handed_back(common.alloc, done)?;
    let _numbers = common.board.settle(seats);
    Ok(shares)
}

// The seats and the shares in their order, or the first fault. A run that was stopped isn't told as one that ended.
fn handed_back<L: Ledger>(
    alloc: Global,
    done: Vec<Done<L>>,
) -> Result<(Vec<Seat>, Vec<Share<L>>), RunError>
    ensures seats { IfOk result (λ back. back.0.items ≡ map (λ one. one.seat) done.items) }
    ensures shares { IfOk result (λ back. back.1.items ≡ map (λ one. one.share) done.items) }
    ensures sound { IfOk result (λ _. first_fault done.items ≡ None) }
    ensures whole { IfOk result (λ _. was_stopped done.items ≡ false) }
    ensures fault { IfErr result (λ error. (error ≡ RunError.NoMemory) ⊎ IsFirstFault done.items error) }
    ensures config { result ≢ Err RunError.Config }
{
    let mut seats = Vec::with_capacity(alloc, done.len())?;
    let mut shares = Vec::with_capacity(alloc, done.len())?;
    let mut stopped = false;
    for one in done {
        let Done {
            seat,
            share,
            ending,
        } = one;
        if let Some(fault) = ending.fault() {
            return Err(RunError::from(fault));
        }
        stopped = stopped || ending.is_stopped();
        seats.push_reserved(seat);
        shares.push_reserved(share);
    }
    if stopped {
        return Err(RunError::NoMemory);
    }
    Ok((seats, shares))
}
