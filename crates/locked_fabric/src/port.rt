//! A worker's way to the fabric that all workers share.

ghost use Rattle.std.specs.Prelude.{◌≡◌, ◌+◌, IfOk, OnErr, OnOk};
ghost use Rattle.std.specs.Borrow.{sem};
ghost use Rattle.coherent_machine.specs.Adopting.{local_of};
ghost use Rattle.locked_fabric.specs.Port as spec;

use crate::fabric::Fabric;
use crate::numbers::Numbers;
use crate::share::Share;
use crate::taken::Taken;
use crate::taking;
use crate::turn::{Turn, Visit};
use coherent_machine::{AdoptError, ApplyError};
use hart::{Batch, Hart, Status};
use machine_types::{Event, Outcome};
use progress_board::Seat;
use std::sync::atomic::{AtomicU64, Ordering};
use std::sync::ledger::Ledger;
use std::sync::{Mutex, MutexGuard, Wait};
use trace_recorder::Trace;

/// How often a worker tries a lock that another holds before it sleeps. A turn is shorter than it takes to
/// wake a thread.
const TRIES: u32 = 16;

/// How long it pauses before the first of these tries: some 50 nanoseconds, in additions to a word of its
/// own, as `std::hint::spin_loop` takes no time.
const SHORTEST: u32 = 8;

/// How often the pause doubles: it gets no longer than some 50 microseconds.
const DOUBLINGS: u32 = 10;

/// The lock of a fabric, with one worker's share of it and that worker's seat of the board. The share is one
/// that was made with the fabric. Each call takes the lock and gives it back; `new`, `counted`, `seat`
/// and `end` alone wait for nobody.
#[derive(Drop)]
pub struct Port<'a, L: Ledger> {
    lock: &'a Mutex<Fabric<L>>,
    seat: Seat,
    share: Share<L>,
}

impl<'a, L: Ledger> Port<'a, L> {
    ghost use Rattle.std.specs.Prelude.{ℕ};
    ghost use Rattle.locked_fabric.specs.FabricState.{FabricState, IsKept};
    ghost use Rattle.locked_fabric.specs.Turns.{Takes};
    ghost use Rattle.progress_board.specs.Seat.{IsSeatOf, view};
    ghost use Rattle.locked_fabric.specs.Port.{Applied, Committed, IsLast, Left, LendsSeat, hart_at, seat_of, share_of};

    pub fn new(lock: &'a Mutex<Fabric<L>>, seat: Seat, share: Share<L>) -> Port<'a, L>
        ensures seat { seat_of result ≡ seat }
        ensures share { share_of result ≡ share }
    {
        Port { lock, seat, share }
    }

    /// What a turn picks where the machine stands as it does under the lock. It waits for the lock.
    pub fn pick<R: Wait, T: Turn>(
        &mut self,
        rt: &R,
        turn: &mut T,
        last: Option<Outcome>,
    ) -> Option<Event>
        ensures picks { Left (λ held. T.picks turn.old held.machine last result turn.new) }
        ensures same { self.new ≡ self.old }
    {
        let fabric = held(self.lock, rt);
        turn.pick(&fabric.machine().views(), last)
    }

    /// Takes a turn under one lock: what is picked draws a number, and is applied as `Fabric::apply` does
    /// unless it is held back. It waits for the lock.
    pub fn take<R: Wait, T: Visit>(
        &mut self,
        rt: &R,
        numbers: &Numbers<'_>,
        turn: &mut T,
        last: Option<Outcome>,
    ) -> Taken
        requires { IsSeatOf numbers.now.board.now (seat_of self.old) }
        ensures seat { IsSeatOf numbers.now.board.now (seat_of self.new) }
        ensures takes { Left (λ left. (found : FabricState) × IsKept found × (picked : T) × T.sees picked left.machine turn.new
            × Takes (λ machine event. T.picks turn.old machine last event picked) (λ held. T.withholds picked held) numbers.now.limit result
            found left (view (seat_of self.old)) (view (seat_of self.new)) (share_of self.old) (share_of self.new)) }
    {
        let Port { lock, seat, share } = self;
        let mut fabric = held(lock, rt);
        let taken = taking::take(&mut fabric, numbers, seat, share, turn, last);
        turn.see(fabric.machine());
        taken
    }

    /// Applies an event, as `Fabric::apply` does, and lets the turn see what it leaves. It waits for the
    /// lock.
    pub fn apply<R: Wait, T: Visit>(
        &mut self,
        rt: &R,
        event: Event,
        turn: &mut T,
    ) -> Result<Outcome, ApplyError>
        ensures seat { seat_of self.new ≡ seat_of self.old }
        ensures answers { Left (λ left. Applied event result (share_of self.old) (share_of self.new) left × T.sees turn.old left.machine turn.new) }
        ensures err { OnErr result (share_of self.new ≡ share_of self.old) }
    {
        let mut fabric = held(self.lock, rt);
        let applied = fabric.apply(event, &mut self.share);
        turn.see(fabric.machine());
        applied
    }

    /// Commits a batch, as `Fabric::commit` does, and lets the turn see what it leaves. It waits for the
    /// lock.
    pub fn commit<R: Wait, T: Visit>(
        &mut self,
        rt: &R,
        batch: &Batch,
        turn: &mut T,
    ) -> Result<Outcome, AdoptError>
        ensures seat { seat_of self.new ≡ seat_of self.old }
        ensures answers { Left (λ left. Committed batch.now result (share_of self.old) (share_of self.new) left × T.sees turn.old left.machine turn.new) }
        ensures retired { IfOk result (λ outcome. outcome ≡ Outcome.Retired) }
        ensures journalled { OnOk result (Left (IsLast (local_of batch.now.first.id batch.now))) }
        ensures ok { OnOk result (share_of self.new ≡ share_of self.old + 1) }
        ensures err { OnErr result (share_of self.new ≡ share_of self.old) }
    {
        let mut fabric = held(self.lock, rt);
        let committed = fabric.commit(batch, &mut self.share);
        turn.see(fabric.machine());
        committed
    }

    /// How many instructions the hart has retired, and its status; none where there is no such hart. It waits
    /// for the lock.
    pub fn seen<R: Wait>(&mut self, rt: &R, hart: u8) -> Option<(u64, Status)>
        ensures seen { Left (λ held. result ≡ spec.seen_in held.machine.trace hart) }
        ensures same { self.new ≡ self.old }
    {
        let fabric = held(self.lock, rt);
        seen_in(fabric.machine().trace(), hart)
    }

    /// A copy of the hart as it stands; none where there is no such hart. It waits for the lock.
    pub fn hart<R: Wait>(&mut self, rt: &R, hart: u8) -> Option<Hart>
        ensures copy { Left (λ held. result ≡ hart_at held.machine hart) }
        ensures same { self.new ≡ self.old }
    {
        let fabric = held(self.lock, rt);
        let views = fabric.machine().views();
        let hart = usize::from(hart);
        if hart < views.harts() {
            Some(*views.hart(hart))
        } else {
            None
        }
    }

    /// How many events its share counts: those of its calls that changed the machine.
    pub fn counted(&self) -> u64
        ensures { result ≡ share_of self.now }
    {
        self.share.count()
    }

    /// Lends the seat to the board's calls.
    pub fn seat(&mut self) -> &mut Seat
        ensures* lends { sem 𝓛 (LendsSeat L.row L.Ledger self.entry result) }
        ensures now { result.now ≡ seat_of self.old }
    {
        &mut self.seat
    }

    /// The seat and the share.
    pub fn end(self) -> (Seat, Share<L>)
        ensures seat { result.0 ≡ seat_of self.entry }
        ensures share { result.1 ≡ share_of self.entry }
    {
        let Port {
            lock: _,
            seat,
            share,
        } = self;
        (seat, share)
    }
}

/// How many instructions a hart has retired, and its status; none where there is no such hart.
pub fn seen_in(trace: &Trace, hart: u8) -> Option<(u64, Status)>
    ensures { result ≡ spec.seen_in trace.now.history hart }
{
    let hart = usize::from(hart);
    if hart < trace.harts() {
        Some((trace.entries(hart).len() as u64, trace.statuses()[hart]))
    } else {
        None
    }
}

// Takes the lock. It waits for the lock.
#[inline(always)]
fn held<'a, L: Ledger, R: Wait>(lock: &'a Mutex<Fabric<L>>, rt: &R) -> MutexGuard<'a, Fabric<L>> {
    match lock.try_lock() {
        Some(guard) => guard,
        None => awaited(lock, rt),
    }
}

// Takes a lock that another worker holds.
#[cold]
fn awaited<'a, L: Ledger, R: Wait>(
    lock: &'a Mutex<Fabric<L>>,
    rt: &R,
) -> MutexGuard<'a, Fabric<L>> {
    let ticks = AtomicU64::new(0);
    for attempt in 0..TRIES {
        for _tick in 0..SHORTEST << attempt.min(DOUBLINGS) {
            ticks.fetch_add(1, Ordering::SeqCst);
        }
        if let Some(guard) = lock.try_lock() {
            return guard;
        }
    }
    lock.lock(rt)
}
