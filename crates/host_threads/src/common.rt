//! What the threads of a run share.

ghost use Rattle.std.specs.Prelude.{◌≡◌, IfOk, vec_len};
ghost use Rattle.std.specs.List.{All};
ghost use Rattle.progress_board.specs.Seat.{AreFresh, IsSeatOf, harts_of};

use elf_loader::Image;
use machine_types::Config;
use progress_board::{Board, Seat};
use std::alloc::{AllocError, Global};
use std::sync::atomic::AtomicBool;

/// What the threads of a run share beside the fabric.
#[derive(Drop)]
pub(crate) struct Common {
    pub(crate) alloc: Global,
    pub(crate) image: Image,
    pub(crate) config: Config,
    pub(crate) board: Board,
    /// Set where a thread wasn't started, or ended at an error.
    pub(crate) stop: AtomicBool,
    /// How many events there are at most.
    pub(crate) limit: u64,
}

/// What the threads share, and a seat for each hart.
pub(crate) fn shared(
    alloc: Global,
    image: &Image,
    config: Config,
    limit: u64,
) -> Result<(Common, Vec<Seat>), AllocError>
    ensures image { IfOk result (λ made. made.0.image ≡ image.now) }
    ensures config { IfOk result (λ made. made.0.config ≡ config) }
    ensures limit { IfOk result (λ made. made.0.limit ≡ limit) }
    ensures harts { IfOk result (λ made. harts_of made.0.board ≡ config.harts) }
    ensures board { IfOk result (λ made. All (λ seat. IsSeatOf made.0.board seat) made.1.items) }
    ensures seats { IfOk result (λ made. vec_len made.1 ≡ config.harts) }
    ensures fresh { IfOk result (λ made. AreFresh made.1.items) }
{
    let own = image.try_copy(alloc)?;
    let (board, seats) = Board::new(alloc, config.harts as u8)?;
    let common = Common {
        alloc,
        image: own,
        config,
        board,
        stop: AtomicBool::new(false),
        limit,
    };
    Ok((common, seats))
}
