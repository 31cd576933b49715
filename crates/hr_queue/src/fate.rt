//! What becomes of a turn that is given back, by the words of its job.
ghost use Rattle.std.specs.Prelude.{◌≡◌, ◌≤◌};
ghost use Rattle.hr_base.specs.declared.status.Status.TheVariants.{Scheduled};
ghost use Rattle.hr_board.specs.Roles.{AllowsStatus};
ghost use Rattle.hr_board.specs.View.{Keeps};
ghost use Rattle.hr_queue.specs.Fate.{IsFate};
ghost use Rattle.hr_queue.specs.Whole.{IsTurn};

use hr_base::{Mark, Status};
use hr_board::Board;
use hr_event::Turn;

/// What becomes of a turn.
#[derive(Clone, Copy, Debug, PartialEq, Eq)]
pub(crate) enum Fate {
    /// Its revision is not over.
    Unfinished,
    /// Its job is over, at this revision and with this status.
    Over(u8, Status),
    /// Its revision failed, and the next one follows.
    Next,
}

/// Looks at the word of a turn, and opens that of the next revision where the turn's failed with an
/// attempt left.
pub(crate) fn look_after<B: Board>(board: &mut B, turn: Turn) -> Fate
    requires turn { IsTurn turn }
    requires job { turn.job.0 ≤ (B.seen board.old).jobs }
    requires allowed { AllowsStatus (B.seen board.old) Scheduled }
    ensures fate { IsFate (B.seen board.old) turn result (B.seen board.new) }
    ensures kept { Keeps (B.seen board.old) (B.seen board.new) }
    ensures same { B.same board.old board.new }
{
    let Mark::At(status) = board.look(turn.job, turn.rev) else {
        return Fate::Unfinished;
    };
    if !status.is_final() {
        return Fate::Unfinished;
    }
    match status {
        Status::Error if turn.rev + 1 < turn.attempts => {
            let next = Mark::At(Status::Scheduled);
            match board.advance(turn.job, turn.rev + 1, Mark::Unopened, next) {
                Err(Mark::At(Status::Stopped)) => Fate::Over(turn.rev + 1, Status::Stopped),
                _ => Fate::Next,
            }
        }
        status => Fate::Over(turn.rev, status),
    }
}
