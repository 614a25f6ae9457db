//! The numbers that events are tried by.

ghost use Rattle.std.specs.Prelude.{IfNone, IfSome};
ghost use Rattle.locked_fabric.specs.Turns.{DrewInVain, DrewNumber};
ghost use Rattle.progress_board.specs.Seat.{IsSeatOf, view};

use progress_board::{Board, Seat};

/// The numbers of a board that are below a limit: each event is tried by one of them.
#[derive(Clone, Copy)]
pub struct Numbers<'a> {
    pub board: &'a Board,
    pub limit: u64,
}

impl<'a> Numbers<'a> {
    /// Draws a number; none where it isn't below the limit, or the seat draws no more.
    pub fn draw(&self, seat: &mut Seat) -> Option<u64>
        requires { IsSeatOf self.now.board.now seat.old }
        ensures seat { IsSeatOf self.now.board.now seat.new }
        ensures drawn { IfSome result (λ number. DrewNumber self.now.limit number (view seat.old) (view seat.new)) }
        ensures in_vain { IfNone result (DrewInVain self.now.limit (view seat.old) (view seat.new)) }
    {
        match self.board.draw(seat) {
            Ok(number) if number < self.limit => Some(number),
            _ => None,
        }
    }
}
