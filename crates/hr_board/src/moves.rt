//! Laws of the moves: what is reached by them, and that a final mark stays. (Our own.)
ghost use Rattle.std.specs.Prelude.{◌≡◌, ◌≤◌, ◌↔◌, Err, IsTrue};
ghost use Rattle.hr_base.specs.Status.{word_of, IsFinal};
ghost use Rattle.hr_base.specs.declared.status.Mark.{Mark};
ghost use Rattle.hr_base.specs.declared.status.Status.{Status};
ghost use Rattle.hr_board.specs.Moves.{IsMove, IsReached, Below};
ghost use Rattle.hr_board.specs.View.{place_of, Noted, OpensAfterError};

use crate::Board;
use hr_base::{JobNo, Mark};

/// A law: one word is below another exactly where the other's mark is reached by moves.
pub fn below_is_reached()
    ensures { (from to : Mark) → Below (word_of from) (word_of to) ↔ IsReached from to }
{}

/// A law: nothing but itself is reached from a final mark.
pub fn final_stays()
    ensures { (status : Status) (mark : Mark) → IsFinal status → IsReached (Mark.At status) mark
        → mark ≡ Mark.At status }
{}

/// A law of every board: a final mark, once noted, is the word for good. A look answers it.
pub fn look_at_final<B: Board>(board: &mut B, job: JobNo, rev: u8) -> Mark
    requires job { (1 ≤ job.0) × (job.0 ≤ (B.seen board.old).jobs) }
    requires rev { rev ≤ 3 }
    ensures { (status : Status) → IsFinal status
        → Noted (B.seen board.old).notes (place_of job.0 rev) (word_of (Mark.At status))
        → result ≡ Mark.At status }
{
    board.look(job, rev)
}

/// A law of every board: a word of which a final mark was noted is never moved. A move finds it.
pub fn move_at_final<B: Board>(
    board: &mut B,
    job: JobNo,
    rev: u8,
    from: Mark,
    to: Mark,
) -> Result<(), Mark>
    requires job { (1 ≤ job.0) × (job.0 ≤ (B.seen board.old).jobs) }
    requires rev { rev ≤ 3 }
    requires moves { IsMove from to }
    requires allowed { IsTrue ((B.seen board.old).allows (word_of to)) }
    requires opens { OpensAfterError (B.seen board.old) job.0 rev (word_of from) }
    ensures { (status : Status) → IsFinal status
        → Noted (B.seen board.old).notes (place_of job.0 rev) (word_of (Mark.At status))
        → result ≡ Err (Mark.At status) }
{
    board.advance(job, rev, from, to)
}
