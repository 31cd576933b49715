//! Stopping a job: the first of its revisions that is not over moves to Stopped. (Our own.)
ghost use Rattle.std.specs.Prelude.{◌≡◌, ◌+◌, ◌≤◌, ◌<◌, IsTrue, IfNone, IfSome};
ghost use Rattle.std.specs.Bool.{OnTrue, OnFalse};
ghost use Rattle.hr_base.specs.Status.{word_of, IsFinal};
ghost use Rattle.hr_board.specs.View.{place_of, Keeps, OpensAfterError};
ghost use Rattle.hr_board.specs.Roles.{ServesStop};
ghost use Rattle.hr_board.specs.Stopping.{Stops, StopsPlace};

use crate::Board;
use hr_base::{JobNo, Mark, Status};

/// What came of a stop.
#[derive(Clone, Copy, Debug, PartialEq, Eq)]
pub enum StopAnswer {
    /// This call moved that revision's word to `Stopped`.
    Stopped { rev: u8 },
    /// The last revision that may run was over already.
    Final { rev: u8, status: Status },
}

/// Stops a job that has 1 to 4 attempts. It goes through the revisions from 0 on, past each that is
/// at `Error` with an attempt left, and moves the first other one to `Stopped`, unless it is final.
pub fn stop<B: Board>(board: &mut B, job: JobNo, attempts: u8) -> StopAnswer
    requires job { (1 ≤ job.0) × (job.0 ≤ (B.seen board.old).jobs) }
    requires attempts { (1 ≤ attempts) × (attempts ≤ 4) }
    requires allowed { ServesStop (B.seen board.old) }
    ensures stops { Stops (B.seen board.old) job.0 attempts result (B.seen board.new) }
    ensures kept { Keeps (B.seen board.old) (B.seen board.new) }
    ensures same { B.same board.old board.new }
{
    let mut rev = 0;
    'revisions: loop {
        match stop_at(board, job, rev) {
            None => return StopAnswer::Stopped { rev },
            Some(status) => {
                if !leaves_attempt(status, rev, attempts) {
                    return StopAnswer::Final { rev, status };
                }
                rev += 1;
            }
        }
    }
}

// Whether another attempt follows a revision that ended so.
fn leaves_attempt(status: Status, rev: u8, attempts: u8) -> bool
    requires { rev < attempts }
    ensures yes { OnTrue result ((status ≡ Status.Error) × (rev + 1 < attempts)) }
    ensures no { OnFalse result (status ≡ Status.Error → attempts ≤ rev + 1) }
{
    match status {
        Status::Error => rev + 1 < attempts,
        _ => false,
    }
}

// Stops one revision. Answers its status where it is final already.
fn stop_at<B: Board>(board: &mut B, job: JobNo, rev: u8) -> Option<Status>
    requires job { (1 ≤ job.0) × (job.0 ≤ (B.seen board.old).jobs) }
    requires rev { rev ≤ 3 }
    requires allowed { ServesStop (B.seen board.old) }
    requires opens { OpensAfterError (B.seen board.old) job.0 rev (word_of Mark.Unopened) }
    ensures stops { StopsPlace (B.seen board.old) (place_of job.0 rev) result (B.seen board.new) }
    ensures same { B.same board.old board.new }
{
    let mut mark = board.look(job, rev);
    'looks: loop {
        match final_status(mark) {
            Some(status) => return Some(status),
            None => match board.advance(job, rev, mark, Mark::At(Status::Stopped)) {
                Ok(()) => return None,
                Err(found) => mark = found,
            },
        }
    }
}

// The status of a revision that is over.
fn final_status(mark: Mark) -> Option<Status>
    ensures unfinished { IfNone result (word_of mark < 4) }
    ensures over { IfSome result (λ status. (mark ≡ Mark.At status) × IsFinal status) }
{
    match mark {
        Mark::At(status) if status.is_final() => Some(status),
        _ => None,
    }
}
