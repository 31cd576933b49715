//! Worked cases of a board, for every kind of board: each act is one of a queue, a lane, a stop or a
//! reader, by a board that allows that user's moves alone. Start with `first_difference`.
ghost use Rattle.std.specs.Prelude.{◌≡◌, ◌⊎◌, ◌≤◌};
ghost use Rattle.hr_board.specs.Roles.{ServesLane, ServesQueue};

use crate::{Board, StopAnswer};
use hr_base::{JobNo, Mark, Status};

/// One act on a board of seven jobs.
#[derive(Clone, Copy, Debug, PartialEq, Eq)]
pub enum Act {
    /// A queue looks at the revision before this one, and opens it where that failed.
    Open { job: u32, rev: u8 },
    /// A lane looks at a revision, and begins it where it waits.
    Begin { job: u32, rev: u8 },
    /// A lane ends a revision with success.
    Succeed { job: u32, rev: u8 },
    /// A lane ends a revision with an error.
    Fail { job: u32, rev: u8 },
    /// A job of so many attempts is stopped.
    Stop { job: u32, attempts: u8 },
    /// A reader looks.
    Look { job: u32, rev: u8 },
}

impl Act {
    /// The job and the revision that it is about; of a stop, the last attempt.
    pub fn place(self) -> (u32, u8) {
        match self {
            Act::Open { job, rev } => (job, rev),
            Act::Begin { job, rev } => (job, rev),
            Act::Succeed { job, rev } => (job, rev),
            Act::Fail { job, rev } => (job, rev),
            Act::Stop { job, attempts } => (job, attempts.saturating_sub(1)),
            Act::Look { job, rev } => (job, rev),
        }
    }
}

/// What came of an act.
#[derive(Clone, Copy, Debug, PartialEq, Eq)]
pub enum Told {
    /// The word moved.
    Moved,
    /// A look, or a move that was lost, found this mark.
    Found(Mark),
    /// A stop answered this.
    Stop(StopAnswer),
    /// The board has no such job or revision.
    Outside,
}

/// The boards of a queue, a lane, a stop and a reader over the same words of seven jobs.
pub trait Desk {
    /// Does an act by the board of its user.
    fn act(&mut self, act: Act) -> Told;
}

/// Opens a revision, as a queue does: a later one only where the one before it is at `Error`.
pub fn open<B: Board>(board: &mut B, job: JobNo, rev: u8) -> Told
    requires job { (1 ≤ job.0) × (job.0 ≤ (B.seen board.old).jobs) }
    requires rev { rev ≤ 3 }
    requires role { ServesQueue (B.seen board.old) }
    ensures same { B.same board.old board.new }
{
    if rev == 0 {
        return of_move(board.advance(job, 0, Mark::Unopened, Mark::At(Status::Pending)));
    }
    match board.look(job, rev - 1) {
        Mark::At(Status::Error) => of_move(board.advance(
            job,
            rev,
            Mark::Unopened,
            Mark::At(Status::Scheduled),
        )),
        found => Told::Found(found),
    }
}

/// Begins a revision that waits, as a lane does.
pub fn begin<B: Board>(board: &mut B, job: JobNo, rev: u8) -> Told
    requires job { (1 ≤ job.0) × (job.0 ≤ (B.seen board.old).jobs) }
    requires rev { rev ≤ 3 }
    requires role { ServesLane (B.seen board.old) }
    ensures same { B.same board.old board.new }
{
    let running = Mark::At(Status::Running);
    match board.look(job, rev) {
        Mark::At(Status::Pending) => {
            of_move(board.advance(job, rev, Mark::At(Status::Pending), running))
        }
        Mark::At(Status::Scheduled) => {
            of_move(board.advance(job, rev, Mark::At(Status::Scheduled), running))
        }
        found => Told::Found(found),
    }
}

/// Ends a revision that runs with this status, `Success` or `Error`, as a lane does.
pub fn end<B: Board>(board: &mut B, job: JobNo, rev: u8, status: Status) -> Told
    requires job { (1 ≤ job.0) × (job.0 ≤ (B.seen board.old).jobs) }
    requires rev { rev ≤ 3 }
    requires role { ServesLane (B.seen board.old) }
    requires status { (status ≡ Status.Success) ⊎ (status ≡ Status.Error) }
    ensures same { B.same board.old board.new }
{
    of_move(board.advance(job, rev, Mark::At(Status::Running), Mark::At(status)))
}

fn of_move(moved: Result<(), Mark>) -> Told {
    match moved {
        Ok(()) => Told::Moved,
        Err(found) => Told::Found(found),
    }
}

/// Does the worked acts on boards of seven jobs whose words are all `Unopened`, and answers the first
/// act of which something else came, with what came.
pub fn first_difference<D: Desk>(desk: &mut D) -> Option<(Act, Told)> {
    if let Some(found) = difference(desk, &stopped_between_attempts()) {
        return Some(found);
    }
    for attempts in 1..=4u8 {
        if let Some(found) = difference_of_failing(desk, attempts) {
            return Some(found);
        }
    }
    difference(desk, &stopped_and_over())
}

// The first act of which something else came.
fn difference<D: Desk>(desk: &mut D, rows: &[(Act, Told)]) -> Option<(Act, Told)> {
    for (act, wanted) in rows {
        let came = desk.act(*act);
        if came != *wanted {
            return Some((*act, came));
        }
    }
    None
}

// A job that fails at each of so many attempts is over for a stop that knows as many; one that knows
// of one more stops that one. Each of these jobs is its own: the second to the fifth.
fn difference_of_failing<D: Desk>(desk: &mut D, attempts: u8) -> Option<(Act, Told)>
    requires { (1 ≤ attempts) × (attempts ≤ 4) }
{
    let job = u32::from(attempts) + 1;
    for rev in 0..attempts {
        let rows = [
            (Act::Open { job, rev }, Told::Moved),
            (Act::Begin { job, rev }, Told::Moved),
            (Act::Fail { job, rev }, Told::Moved),
        ];
        if let Some(found) = difference(desk, &rows) {
            return Some(found);
        }
    }
    let over = StopAnswer::Final {
        rev: attempts - 1,
        status: Status::Error,
    };
    let rows = [
        (Act::Stop { job, attempts }, Told::Stop(over)),
        (
            Act::Look {
                job,
                rev: attempts - 1,
            },
            Told::Found(Mark::At(Status::Error)),
        ),
    ];
    if let Some(found) = difference(desk, &rows) {
        return Some(found);
    }
    if attempts == 4 {
        return None;
    }
    let stop = Act::Stop {
        job,
        attempts: attempts + 1,
    };
    let stopped = StopAnswer::Stopped { rev: attempts };
    difference(desk, &[(stop, Told::Stop(stopped))])
}

// The first job is stopped while its second attempt waits to be opened.
fn stopped_between_attempts() -> [(Act, Told); 9] {
    let job = 1;
    let stop = Act::Stop { job, attempts: 3 };
    let stopped = Mark::At(Status::Stopped);
    let over = StopAnswer::Final {
        rev: 1,
        status: Status::Stopped,
    };
    [
        (Act::Open { job, rev: 0 }, Told::Moved),
        (
            Act::Open { job, rev: 1 },
            Told::Found(Mark::At(Status::Pending)),
        ),
        (Act::Begin { job, rev: 0 }, Told::Moved),
        (Act::Fail { job, rev: 0 }, Told::Moved),
        (stop, Told::Stop(StopAnswer::Stopped { rev: 1 })),
        (Act::Open { job, rev: 1 }, Told::Found(stopped)),
        (Act::Begin { job, rev: 1 }, Told::Found(stopped)),
        (stop, Told::Stop(over)),
        (Act::Look { job, rev: 2 }, Told::Found(Mark::Unopened)),
    ]
}

// The sixth job is stopped before it begins, the seventh after it succeeded; there is no eighth.
fn stopped_and_over() -> [(Act, Told); 14] {
    let stopped = Told::Found(Mark::At(Status::Stopped));
    let succeeded = Told::Found(Mark::At(Status::Success));
    let over = Told::Stop(StopAnswer::Final {
        rev: 0,
        status: Status::Success,
    });
    [
        (Act::Look { job: 6, rev: 0 }, Told::Found(Mark::Unopened)),
        (
            Act::Stop {
                job: 6,
                attempts: 3,
            },
            Told::Stop(StopAnswer::Stopped { rev: 0 }),
        ),
        (Act::Look { job: 6, rev: 0 }, stopped),
        (Act::Open { job: 6, rev: 0 }, stopped),
        (Act::Look { job: 6, rev: 1 }, Told::Found(Mark::Unopened)),
        (Act::Open { job: 7, rev: 0 }, Told::Moved),
        (Act::Begin { job: 7, rev: 0 }, Told::Moved),
        (Act::Succeed { job: 7, rev: 0 }, Told::Moved),
        (Act::Fail { job: 7, rev: 0 }, succeeded),
        (Act::Open { job: 7, rev: 1 }, succeeded),
        (
            Act::Stop {
                job: 7,
                attempts: 1,
            },
            over,
        ),
        (
            Act::Stop {
                job: 7,
                attempts: 4,
            },
            over,
        ),
        (Act::Look { job: 8, rev: 0 }, Told::Outside),
        (Act::Look { job: 7, rev: 4 }, Told::Outside),
    ]
}
