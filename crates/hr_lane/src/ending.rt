//! A revision ends: its word moves for the last time, unless a stop came first. (Our own.)
ghost use Rattle.std.specs.Prelude.{◌≡◌, ◌≤◌, ◌<◌, ◌+◌};
ghost use Rattle.hr_base.specs.declared.status.Mark.TheVariants.{At};
ghost use Rattle.hr_base.specs.declared.status.Status.TheVariants.{Running};
ghost use Rattle.hr_board.specs.Moves.{IsMove};
ghost use Rattle.hr_board.specs.Roles.{AllowsStatus, ServesLane};
ghost use Rattle.hr_board.specs.View.{Keeps, View, place_of};
ghost use Rattle.hr_line.specs.Step.{Closes, end_status};
ghost use Rattle.hr_lane.specs.Word.{ClosesWord};
ghost use Rattle.hr_lane.specs.State.{written};

use crate::roll::{Roll, write};
use hr_base::{Hook, Mark, Status};
use hr_board::Board;
use hr_event::{Cause, Entry, What};
use hr_line::Admitted;

/// Ends a revision by a cause, or with success by none. Where its word is no longer at Running,
/// answers its mark, and the revision was given up.
pub(crate) fn close<B: Board>(
    board: &mut B,
    log: &mut Roll<Entry>,
    hooks: &mut Roll<Hook>,
    by: Admitted,
    why: Option<Cause>,
) -> Result<Status, Mark>
    requires job { (1 ≤ by.job.0) × (by.job.0 ≤ (B.seen board.old).jobs) }
    requires rev { by.rev ≤ 3 }
    requires allowed { ServesLane (B.seen board.old) }
    requires room { (0 < log.old.room) × (0 < hooks.old.room) }
    ensures closes { Closes by why (written log.old.newest hooks.old.newest)
        (written log.new.newest hooks.new.newest) result }
    ensures word { ClosesWord (B.seen board.old) (B.seen board.new) (place_of by.job.0 by.rev)
        result }
    ensures kept { Keeps (B.seen board.old) (B.seen board.new) }
    ensures same { B.same board.old board.new }
    ensures room { (log.old.room ≤ log.new.room + 1) × (hooks.old.room ≤ hooks.new.room + 1) }
{
    let status = status_by(&why);
    let (job, rev) = (by.job, by.rev);
    match board.advance(job, rev, Mark::At(Status::Running), Mark::At(status)) {
        Ok(()) => {
            write(log, &by, What::Ended { status, cause: why });
            hooks.write(Hook { job, rev, status });
            Ok(status)
        }
        Err(mark) => {
            write(log, &by, What::Dropped);
            Err(mark)
        }
    }
}

// The status with which a revision ends.
fn status_by(why: &Option<Cause>) -> Status
    ensures value { result ≡ end_status why.now }
    ensures moves { IsMove (At Running) (At result) }
    ensures allowed { (view : View) → ServesLane view → AllowsStatus view result }
{
    match why {
        None => Status::Success,
        Some(_) => Status::Error,
    }
}
