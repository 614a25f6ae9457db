//! What one thread does.

ghost use Rattle.std.specs.Prelude.{◌≡◌, ◌≢◌, ◌⊎◌, ◌+◌, ◌==◌, false, true, Err, IfOk, IfSome, None, OnErr, OnOk, not};
ghost use Rattle.locked_fabric.specs.Adopting.{local_of};
ghost use Rattle.hart.specs.Local.{private_row_from};
ghost use Rattle.host_threads.specs.Endings.{IsReason, WasBad, ending_of, fault_of, is_spent, outcome_of};
ghost use Rattle.host_threads.specs.Pace.{IsPaced};
ghost use Rattle.host_threads.specs.Picking.{IsTurn, WasAnswered, WentAlone};
ghost use Rattle.host_threads.specs.Telling.{CountsTo, Reports, Tells, is_done, longest_with};
ghost use Rattle.locked_fabric.specs.Port.{IsLast, Left, seat_of, seen_in, share_of};
ghost use Rattle.machine_types.specs.declared.limits.TheConstants.{MAX_ROW};
ghost use Rattle.progress_board.specs.Seat.{IsSeatOf, view};

use crate::common::Common;
use crate::ending::Ending;
use crate::gate::Gate;
use crate::report::Fault;
use crate::watched::Watched;
use hart::{Hart, run_local};
use locked_fabric::coherent_machine::{AdoptError, ApplyError};
use locked_fabric::{Numbers, Port, Share, Taken, Turn};
use machine_types::{Event, MAX_HARTS, MAX_ROW, Outcome};
use progress_board::Seat;
use std::sync::Wait;
use std::sync::atomic::Ordering;
use std::sync::ledger::Ledger;
use std::thread;

/// How long a worker rests that found nothing to do, in looks at whether the run has stopped: some 50
/// nanoseconds.
const SHORTEST_REST: u32 = 64;

/// How often the rest doubles: it gets no longer than some 50 microseconds.
const DOUBLINGS: u32 = 10;

/// One hart's part in a run.
#[derive(Drop)]
pub(crate) struct Worker<'a, L: Ledger, T: Turn + Drop> {
    common: &'a Common,
    port: Port<'a, L>,
    turn: Watched<'a, T>,
    hart: u8,
    last: Option<Outcome>,
    // How many turns in a row changed nothing.
    rests: u32,
    ghost own: { ((view (seat_of port)).hart ≡ hart) × (turn.hart ≡ hart) },
    ghost seated: { IsSeatOf common.now.board port.seat },
    ghost paced: { IsPaced common.now.limit (view (seat_of port)) (share_of port) },
}

/// What a thread hands back.
#[derive(Drop)]
pub(crate) struct Done<L: Ledger> {
    pub(crate) seat: Seat,
    pub(crate) share: Share<L>,
    pub(crate) ending: Ending,
}

impl<'a, L: Ledger, T: Turn + Drop> Worker<'a, L, T> {
    ghost use Rattle.host_threads.specs.Workers.{HandsBack, common_of, counted_by, seen_by, told_by, turn_of};

    pub(crate) fn new(common: &'a Common, port: Port<'a, L>, hart: u8, turn: T) -> Worker<'a, L, T>
        requires seat { IsSeatOf common.now.board port.seat }
        requires share { share_of port ≡ 0 }
        requires hart { (view port.seat).hart ≡ hart }
        ensures common { common_of result ≡ common.now }
        ensures share { counted_by result ≡ 0 }
        ensures seat { told_by result ≡ view (seat_of port.entry) }
        ensures turn { turn_of result ≡ turn }
    {
        let turn = Watched {
            turn,
            hart,
            image: &common.image,
            is_stepping: false,
            stood: Hart::at_reset(hart, common.image.entry(), common.config.harts),
            seen: None,
            is_spent: false,
        };
        Worker {
            common,
            port,
            turn,
            hart,
            last: None,
            rests: 0,
        }
    }

    /// Takes turns until the run is over for this hart, and hands back what it had to itself.
    pub(crate) fn run<R: Wait, G: Gate>(mut self, rt: &R, gate: &G) -> Done<L>
        ensures { HandsBack (common_of self.entry) result }
    {
        let ending = self.take_turns(rt, gate);
        if ending.fault().is_some() {
            self.stop_all();
        }
        self.halt();
        let (seat, share) = self.port.end();
        Done {
            seat,
            share,
            ending,
        }
    }

    // Takes turns until the run is over for this hart, and tells why it is.
    fn take_turns<R: Wait, G: Gate>(&mut self, rt: &R, gate: &G) -> Ending
        ensures common { self.new.common ≡ self.old.common }
        ensures reason { IsReason (common_of self.old) (told_by self.new) result }
    {
        // More turns than this would take centuries.
        for turn in 0..u64::MAX {
            if self.common.stop.load(Ordering::SeqCst) {
                break;
            }
            self.pass(gate, turn);
            if let Some(ending) = self.take_turn(rt, gate) {
                return ending;
            }
        }
        Ending::Stopped
    }

    // Lets the gate see the published lengths.
    fn pass<G: Gate>(&mut self, gate: &G, turn: u64)
        ensures common { self.new.common ≡ self.old.common }
        ensures silent { Tells false None (told_by self.old) (told_by self.new) }
    {
        let harts = self.common.board.harts();
        let mut lengths = [0; MAX_HARTS as usize];
        for hart in 0..harts {
            lengths[usize::from(hart)] = self.common.board.published(self.port.seat(), hart);
        }
        gate.pass(self.hart, turn, &lengths[..usize::from(harts)]);
    }

    // One turn. Why no other one follows, where none does.
    fn take_turn<R: Wait, G: Gate>(&mut self, rt: &R, gate: &G) -> Option<Ending>
        ensures common { self.new.common ≡ self.old.common }
        ensures goes { (result ≡ None) → Left (Reports self.old.hart (counted_by self.old) (counted_by self.new) (told_by self.old) (told_by self.new)) }
        ensures turn { (result ≡ None) → IsTurn T.picks (common_of self.old).image self.old.hart (seen_by self.old) (turn_of self.old) self.old.last (turn_of self.new) self.new.last }
        ensures ends { (result ≢ None) → (counted_by self.new ≡ counted_by self.old) × Tells false None (told_by self.old) (told_by self.new) }
        ensures reason { IfSome result (IsReason (common_of self.old) (told_by self.new)) }
    {
        let before = self.port.counted();
        let board = &self.common.board;
        if board.halted(self.port.seat()) == (1 << board.harts()) - 1 {
            return Some(Ending::Halted);
        }
        let numbers = Numbers {
            board,
            limit: self.common.limit,
        };
        match self.port.take(rt, &numbers, &mut self.turn, self.last) {
            Taken::Nothing => self.leave_out(),
            Taken::Over => Some(Ending::Tries),
            Taken::HeldBack { number, event } => {
                gate.draw(self.hart, number);
                let came = self.go_alone(rt, event);
                self.go_on(came, before)
            }
            Taken::Tried {
                number,
                event: _,
                came,
            } => {
                gate.draw(self.hart, number);
                self.go_on(came, before)
            }
        }
    }

    // Commits what the hart does next alone; where the hart stands there no more, or its list has no room for as much,
    // applies its step.
    fn go_alone<R: Wait>(&mut self, rt: &R, event: Event) -> Result<Outcome, ApplyError>
        requires { IsPaced self.old.common.now.limit (view (seat_of self.old.port)) (share_of self.old.port + 1) }
        ensures common { self.new.common ≡ self.old.common }
        ensures seat { seat_of self.new.port ≡ seat_of self.old.port }
        ensures came { fault_of result ≡ None → Left (λ left. CountsTo (counted_by self.old) (counted_by self.new) left × (seen_by self.new ≡ seen_in left.machine.trace self.old.hart) × (self.new.turn.is_spent ≡ is_spent left.machine)) }
        ensures turn { turn_of self.new ≡ turn_of self.old }
        ensures answered { fault_of result ≡ None → WasAnswered event result ⊎ WentAlone (common_of self.old).image self.old.turn.stood result }
        ensures bad { result ≡ Err ApplyError.BadEvent → WasBad }
        ensures err { OnErr result (counted_by self.new ≡ counted_by self.old) }
    {
        match self.commit(rt) {
            Ok(outcome) => Ok(outcome),
            Err(AdoptError::NoMemory) => Err(ApplyError::NoMemory),
            Err(AdoptError::Limit | AdoptError::Stale | AdoptError::Empty) => {
                self.port.apply(rt, event, &mut self.turn)
            }
        }
    }

    // Runs what the hart does next alone, from where it stood, and commits it.
    fn commit<R: Wait>(&mut self, rt: &R) -> Result<Outcome, AdoptError>
        requires { IsPaced self.old.common.now.limit (view (seat_of self.old.port)) (share_of self.old.port + 1) }
        ensures common { self.new.common ≡ self.old.common }
        ensures hart { self.new.hart ≡ self.old.hart }
        ensures turn { turn_of self.new ≡ turn_of self.old }
        ensures retired { IfOk result (λ outcome. outcome ≡ Outcome.Retired) }
        ensures seat { seat_of self.new.port ≡ seat_of self.old.port }
        ensures came { OnOk result (Left (λ left. CountsTo (counted_by self.old) (counted_by self.new) left × (seen_by self.new ≡ seen_in left.machine.trace self.old.hart) × (self.new.turn.is_spent ≡ is_spent left.machine))) }
        ensures uncounted { OnErr result (counted_by self.new ≡ counted_by self.old) }
        ensures row { let row = private_row_from self.old.common.now.image self.old.turn.stood MAX_ROW in
            OnOk result (Left (IsLast (local_of row.first.id row))) }
        ensures err { OnErr result (IsPaced self.new.common.now.limit (view (seat_of self.new.port)) (share_of self.new.port + 1)) }
    {
        let common = self.common;
        match &run_local(common.alloc, &common.image, &self.turn.stood, MAX_ROW) {
            Ok(batch) => self.port.commit(rt, batch, &mut self.turn),
            Err(_) => Err(AdoptError::NoMemory),
        }
    }

    // Tells the board what came of an event, before which so many counted. Why no turn follows, where none does.
    fn go_on(&mut self, came: Result<Outcome, ApplyError>, counted: u64) -> Option<Ending>
        ensures common { self.new.common ≡ self.old.common }
        ensures turn { turn_of self.new ≡ turn_of self.old }
        ensures ends { result ≡ ending_of (fault_of came) (counted_by self.old == counted) self.old.turn.is_spent }
        ensures counts { counted_by self.new ≡ counted_by self.old }
        ensures last { (result ≡ None) → self.new.last ≡ outcome_of came }
        ensures tells { (result ≡ None) → Tells (not (counted_by self.old == counted)) (seen_by self.old) (told_by self.old) (told_by self.new) }
        ensures silent { (result ≢ None) → Tells false None (told_by self.old) (told_by self.new) }
    {
        self.last = match came {
            Ok(outcome) => Some(outcome),
            Err(ApplyError::Limit) => None,
            Err(ApplyError::NoMemory) => return Some(Ending::Failed(Fault::NoMemory)),
            Err(ApplyError::BadEvent) => return Some(Ending::Failed(Fault::BadEvent)),
        };
        if self.port.counted() == counted {
            return self.idle();
        }
        self.rests = 0;
        self.publish();
        self.halt_when_done();
        None
    }

    // Leaves out a turn of which nothing was picked, and so nothing comes.
    fn leave_out(&mut self) -> Option<Ending>
        ensures common { self.new.common ≡ self.old.common }
        ensures turn { turn_of self.new ≡ turn_of self.old }
        ensures ends { result ≡ ending_of None true self.old.turn.is_spent }
        ensures counts { counted_by self.new ≡ counted_by self.old }
        ensures last { self.new.last ≡ None }
        ensures tells { (result ≡ None) → Tells false (seen_by self.old) (told_by self.old) (told_by self.new) }
        ensures silent { (result ≢ None) → Tells false None (told_by self.old) (told_by self.new) }
    {
        self.last = None;
        self.idle()
    }

    // Rests behind a turn that changed nothing; ends where the machine changes no more.
    fn idle(&mut self) -> Option<Ending>
        ensures common { self.new.common ≡ self.old.common }
        ensures turn { turn_of self.new ≡ turn_of self.old }
        ensures ends { result ≡ ending_of None true self.old.turn.is_spent }
        ensures counts { counted_by self.new ≡ counted_by self.old }
        ensures last { self.new.last ≡ self.old.last }
        ensures tells { (result ≡ None) → Tells false (seen_by self.old) (told_by self.old) (told_by self.new) }
        ensures silent { (result ≢ None) → Tells false None (told_by self.old) (told_by self.new) }
    {
        if self.turn.is_spent {
            return Some(Ending::Changes);
        }
        self.rest();
        None
    }

    // Publishes the length of the hart's list.
    fn publish(&mut self)
        ensures common { self.new.common ≡ self.old.common }
        ensures turn { turn_of self.new ≡ turn_of self.old }
        ensures last { self.new.last ≡ self.old.last }
        ensures counts { counted_by self.new ≡ counted_by self.old }
        ensures seen { seen_by self.new ≡ seen_by self.old }
        ensures length { (told_by self.new).longest ≡ longest_with (seen_by self.old) (told_by self.old).longest }
        ensures bit { (told_by self.new).halted ≡ (told_by self.old).halted }
    {
        if let Some((length, _status)) = self.turn.seen {
            self.common.board.publish(self.port.seat(), length);
        }
    }

    // Waits a little: twice as long as before, until it is long enough to leave the processor to others.
    fn rest(&mut self)
        ensures common { self.new.common ≡ self.old.common }
        ensures turn { turn_of self.new ≡ turn_of self.old }
        ensures last { self.new.last ≡ self.old.last }
        ensures counts { counted_by self.new ≡ counted_by self.old }
        ensures tells { Tells false (seen_by self.old) (told_by self.old) (told_by self.new) }
    {
        self.halt_when_done();
        if self.rests > DOUBLINGS {
            thread::yield_now();
            return;
        }
        for _look in 0..SHORTEST_REST << self.rests {
            if self.common.stop.load(Ordering::SeqCst) {
                break;
            }
        }
        self.rests += 1;
    }

    // Sets the hart's halted bit where the hart retires no more: no other hart waits for its instructions.
    fn halt_when_done(&mut self)
        ensures common { self.new.common ≡ self.old.common }
        ensures turn { turn_of self.new ≡ turn_of self.old }
        ensures last { self.new.last ≡ self.old.last }
        ensures counts { counted_by self.new ≡ counted_by self.old }
        ensures tells { Tells false (seen_by self.old) (told_by self.old) (told_by self.new) }
    {
        if self.turn.is_done() {
            self.halt();
        }
    }

    // Ends the other threads at their next turn: the run answers the error, whatever they do.
    fn stop_all(&self) {
        self.common.stop.store(true, Ordering::SeqCst);
    }

    // Sets the hart's halted bit, once.
    fn halt(&mut self)
        ensures common { self.new.common ≡ self.old.common }
        ensures turn { turn_of self.new ≡ turn_of self.old }
        ensures last { self.new.last ≡ self.old.last }
        ensures counts { counted_by self.new ≡ counted_by self.old }
        ensures length { (told_by self.new).longest ≡ (told_by self.old).longest }
        ensures seen { (told_by self.new).bits_seen ≡ (told_by self.old).bits_seen }
        ensures drawn { (told_by self.new).drawn ≡ (told_by self.old).drawn }
        ensures bit { (told_by self.new).halted ≡ true }
        ensures once { ((told_by self.old).halted ≡ true) → seat_of self.new.port ≡ seat_of self.old.port }
    {
        self.common.board.halt_once(self.port.seat());
    }
}
