//! A turn of a worker that holds the lock.

ghost use Rattle.locked_fabric.specs.FabricState.{IsKept};
ghost use Rattle.locked_fabric.specs.Turns.{Takes};
ghost use Rattle.progress_board.specs.Seat.{IsSeatOf, view};

use crate::fabric::Fabric;
use crate::numbers::Numbers;
use crate::share::Share;
use crate::taken::Taken;
use crate::turn::Visit;
use machine_types::Outcome;
use progress_board::Seat;
use std::sync::ledger::Ledger;

/// Takes a turn: what is picked draws a number, and is applied as `Fabric::apply` does unless it is held back.
pub(crate) fn take<L: Ledger, T: Visit>(
    fabric: &mut Fabric<L>,
    numbers: &Numbers<'_>,
    seat: &mut Seat,
    share: &mut Share<L>,
    turn: &mut T,
    last: Option<Outcome>,
) -> Taken
    requires { IsSeatOf numbers.now.board.now seat.old }
    ensures seat { IsSeatOf numbers.now.board.now seat.new }
    ensures takes { Takes (λ machine picked. T.picks turn.old machine last picked turn.new) (λ held. T.withholds turn.new held) numbers.now.limit result
        fabric.old fabric.new (view seat.old) (view seat.new) share.old share.new }
    ensures found { IsKept fabric.old }
    ensures left { IsKept fabric.new }
{
    let Some(event) = turn.pick(&fabric.machine().views(), last) else {
        return Taken::Nothing;
    };
    let Some(number) = numbers.draw(seat) else {
        return Taken::Over;
    };
    if turn.holds_back() {
        return Taken::HeldBack { number, event };
    }
    let came = fabric.apply(event, share);
    Taken::Tried {
        number,
        event,
        came,
    }
}
