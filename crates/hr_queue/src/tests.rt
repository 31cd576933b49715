//! The rules of a queue, worked by hand over seven jobs.
ghost use Rattle.std.specs.Prelude.{◌≡◌, ◌⊎◌, ◌/◌, ◌≤◌, ◌<◌, ◌^◌, length, IfOk};
ghost use Rattle.std.specs.Bool.{OnTrue};
ghost use Rattle.std.specs.List.{AllByRecursion};
ghost use Rattle.hr_queue.specs.Adding.{IsFit};
ghost use Rattle.hr_queue.specs.View.{AreDistinct};

use crate::{DoneJob, Queue, Queued, Settled, Taken, a_later_job_is_new};
use hr_base::{JobNo, LAST_MOMENT, Mark, Memory, Moment, Status};
use hr_board::cases::{begin, end};
use hr_board::{Board, PlainBoard, stop};
use hr_event::Turn;
use std::alloc::Global;
use std::test::Fail;

/// One act on a queue, or on the word of a revision: by job, revision and moment.
#[derive(Clone, Copy, Debug, PartialEq, Eq)]
enum Act {
    Take(u64),
    /// Gives back a turn, with four attempts, which are not those of its job.
    Settle(u32, u8, u64),
    OutOf(u32),
    Adopt,
    Look(u32, u8),
    Begin(u32, u8),
    /// Begins and fails.
    Fail(u32, u8),
    Succeed(u32, u8),
    Stop(u32, u8),
}

/// What came of an act.
#[derive(Clone, Copy, Debug, PartialEq, Eq)]
enum Told {
    Took(Taken),
    Settled(Settled),
    Out(Option<Turn>),
    /// The word is at this mark now.
    At(Mark),
    /// The board has no such job or revision.
    Outside,
}

/// A queue and its board.
#[derive(Drop)]
struct Desk {
    queue: Queue,
    board: PlainBoard,
}

impl Desk {
    fn act(&mut self, act: Act) -> Told {
        match act {
            Act::Take(now) => Told::Took(self.queue.take(Moment(now))),
            Act::OutOf(job) => Told::Out(self.queue.out_of(JobNo(job))),
            Act::Adopt => Told::Out(self.queue.adopt()),
            Act::Settle(job, rev, now) => self.settle(turn(job, rev, 4), now),
            Act::Look(job, rev) => self.look(job, rev),
            Act::Begin(job, rev) => self.begin(job, rev),
            Act::Fail(job, rev) => {
                self.begin(job, rev);
                self.end(job, rev, Status::Error)
            }
            Act::Succeed(job, rev) => self.end(job, rev, Status::Success),
            Act::Stop(job, rev) => self.stop(job, rev),
        }
    }

    fn has(&self, job: u32, rev: u8) -> bool
        ensures { OnTrue result ((1 ≤ job) × (job ≤ length self.now.board.words / 4) × (rev ≤ 3)) }
    {
        1 <= job && job <= self.board.jobs() && rev <= 3
    }

    fn settle(&mut self, turn: Turn, now: u64) -> Told {
        if turn.job.0 > self.board.jobs() {
            return Told::Outside;
        }
        Told::Settled(self.queue.settle(&mut self.board, turn, Moment(now)))
    }

    fn look(&mut self, job: u32, rev: u8) -> Told {
        if !self.has(job, rev) {
            return Told::Outside;
        }
        Told::At(self.board.look(JobNo(job), rev))
    }

    fn begin(&mut self, job: u32, rev: u8) -> Told {
        if !self.has(job, rev) {
            return Told::Outside;
        }
        begin(&mut self.board, JobNo(job), rev);
        self.look(job, rev)
    }

    fn end(&mut self, job: u32, rev: u8, status: Status) -> Told
        requires { (status ≡ Status.Success) ⊎ (status ≡ Status.Error) }
    {
        if !self.has(job, rev) {
            return Told::Outside;
        }
        end(&mut self.board, JobNo(job), rev, status);
        self.look(job, rev)
    }

    fn stop(&mut self, job: u32, rev: u8) -> Told {
        if !self.has(job, rev) {
            return Told::Outside;
        }
        stop(&mut self.board, JobNo(job), rev + 1);
        self.look(job, rev)
    }
}

fn turn(job: u32, rev: u8, attempts: u8) -> Turn {
    Turn {
        job: JobNo(job),
        rev,
        attempts,
    }
}

fn took(job: u32, rev: u8, attempts: u8) -> Told {
    Told::Took(Taken::Turn(turn(job, rev, attempts)))
}

fn out(job: u32, rev: u8, attempts: u8) -> Told {
    Told::Out(Some(turn(job, rev, attempts)))
}

fn later(due: u64) -> Told {
    Told::Took(Taken::Later { due: Moment(due) })
}

fn again(due: u64) -> Told {
    Told::Settled(Settled::Again { due: Moment(due) })
}

fn done(status: Status) -> Told {
    Told::Settled(Settled::Done(status))
}

fn at(status: Status) -> Told {
    Told::At(Mark::At(status))
}

// No job was added.
fn no_turns() -> [(Act, Told); 5] {
    [
        (Act::Take(LAST_MOMENT), Told::Took(Taken::Idle)),
        (Act::Adopt, Told::Out(None)),
        (Act::OutOf(1), Told::Out(None)),
        (Act::Settle(1, 0, 0), Told::Settled(Settled::NotOut)),
        (Act::Look(1, 0), Told::At(Mark::Unopened)),
    ]
}

// The jobs were added, the sixth after it was stopped. The first is given back before it began; the
// fourth and then the second fail with an attempt left, the third with none.
fn first_turns() -> [(Act, Told); 18] {
    [
        (Act::Look(1, 0), at(Status::Pending)),
        (Act::Look(6, 0), at(Status::Stopped)),
        (Act::Take(0), took(1, 0, 3)),
        (Act::Take(0), took(2, 0, 3)),
        (Act::Take(0), took(3, 0, 1)),
        (Act::Take(0), took(4, 0, 2)),
        (Act::OutOf(3), out(3, 0, 1)),
        (Act::Settle(1, 1, 0), Told::Settled(Settled::NotOut)),
        (Act::Settle(1, 0, 0), Told::Settled(Settled::Back)),
        (Act::Settle(1, 0, 0), Told::Settled(Settled::NotOut)),
        (Act::Adopt, out(2, 0, 3)),
        (Act::Fail(4, 0), at(Status::Error)),
        (Act::Settle(4, 0, 100), again(110)),
        (Act::Fail(2, 0), at(Status::Error)),
        (Act::Settle(2, 0, 100), again(110)),
        (Act::Look(2, 1), at(Status::Scheduled)),
        (Act::Fail(3, 0), at(Status::Error)),
        (Act::Settle(3, 0, 100), done(Status::Error)),
    ]
}

// Two jobs are delayed to one moment, and come by job number, before those that wait. The job that
// was stopped has its turn, and is done. The one that was given back comes last.
fn delayed_turns() -> [(Act, Told); 17] {
    [
        (Act::Adopt, Told::Out(None)),
        (Act::Take(109), took(5, 0, 4)),
        (Act::Take(110), took(2, 1, 3)),
        (Act::Take(110), took(4, 1, 2)),
        (Act::Take(110), took(6, 0, 3)),
        (Act::Settle(6, 0, 110), done(Status::Stopped)),
        (Act::Fail(2, 1), at(Status::Error)),
        (Act::Settle(2, 1, 110), again(130)),
        (Act::Begin(4, 1), at(Status::Running)),
        (Act::Settle(4, 1, 110), Told::Settled(Settled::Back)),
        (Act::Succeed(4, 1), at(Status::Success)),
        (Act::Take(129), took(7, 0, 2)),
        (Act::Take(129), took(1, 0, 3)),
        (Act::Take(129), took(4, 1, 2)),
        (Act::Settle(4, 1, 129), done(Status::Success)),
        (Act::Take(129), later(130)),
        (Act::Adopt, out(1, 0, 3)),
    ]
}

// The fifth job fails four times, the second a third and last time.
fn last_attempts() -> [(Act, Told); 16] {
    [
        (Act::Fail(5, 0), at(Status::Error)),
        (Act::Settle(5, 0, 121), again(131)),
        (Act::Take(131), took(2, 2, 3)),
        (Act::Take(131), took(5, 1, 4)),
        (Act::Fail(2, 2), at(Status::Error)),
        (Act::Settle(2, 2, 131), done(Status::Error)),
        (Act::Fail(5, 1), at(Status::Error)),
        (Act::Settle(5, 1, 200), again(220)),
        (Act::Take(220), took(5, 2, 4)),
        (Act::Fail(5, 2), at(Status::Error)),
        (Act::Settle(5, 2, 1_000), again(1_040)),
        (Act::Take(1_039), later(1_040)),
        (Act::Take(1_040), took(5, 3, 4)),
        (Act::Fail(5, 3), at(Status::Error)),
        (Act::Settle(5, 3, 1_040), done(Status::Error)),
        (Act::Take(1_040), Told::Took(Taken::Busy { out: 2 })),
    ]
}

// The first job fails at the last moment, and past it. The seventh is stopped before its second
// attempt.
fn last_moments() -> [(Act, Told); 15] {
    [
        (Act::Fail(1, 0), at(Status::Error)),
        (Act::Settle(1, 0, LAST_MOMENT - 5), again(LAST_MOMENT)),
        (Act::Take(LAST_MOMENT - 1), later(LAST_MOMENT)),
        (Act::Take(LAST_MOMENT + 1), took(1, 1, 3)),
        (Act::Fail(1, 1), at(Status::Error)),
        (Act::Settle(1, 1, u64::MAX), again(LAST_MOMENT)),
        (Act::Take(LAST_MOMENT), took(1, 2, 3)),
        (Act::Begin(1, 2), at(Status::Running)),
        (Act::Succeed(1, 2), at(Status::Success)),
        (Act::Settle(1, 2, 0), done(Status::Success)),
        (Act::Take(0), Told::Took(Taken::Busy { out: 1 })),
        (Act::Fail(7, 0), at(Status::Error)),
        (Act::Stop(7, 1), at(Status::Stopped)),
        (Act::Settle(7, 0, 0), done(Status::Stopped)),
        (Act::Take(0), Told::Took(Taken::Idle)),
    ]
}

// The first act of which something else came.
fn difference(desk: &mut Desk, rows: &[(Act, Told)]) -> Option<(Act, Told)> {
    for (act, wanted) in rows {
        let came = desk.act(*act);
        if came != *wanted {
            return Some((*act, came));
        }
    }
    None
}

// Jobs from 1 on, with these attempts.
fn numbered(alloc: Global, attempts: &[u8]) -> Result<Vec<Queued>, Memory>
    requires few { length attempts.now < 2 ^ 31 }
    requires fit { AllByRecursion (λ a. (1 ≤ a) × (a ≤ 4)) attempts.now }
    ensures distinct { IfOk result (λ jobs. AreDistinct jobs.items) }
    ensures fit { IfOk result (λ jobs. AllByRecursion (IsFit (length attempts.now)) jobs.items) }
    ensures len { IfOk result (λ jobs. length jobs.items ≡ length attempts.now) }
{
    a_later_job_is_new();
    let mut jobs = Vec::new(alloc);
    let mut next = 1;
    for attempts in attempts {
        jobs.push(Queued {
            job: JobNo(next),
            attempts: *attempts,
        })?;
        next += 1;
    }
    Ok(jobs)
}

// A queue of the seven jobs, of which the sixth was stopped before.
fn full_desk(alloc: Global) -> Result<Desk, Memory> {
    let jobs = numbered(alloc, &[3, 3, 1, 2, 4, 3, 2])?;
    let mut board = PlainBoard::new(alloc, 7)?;
    let mut queue = Queue::new(alloc);
    queue.reserve(7)?;
    stop(&mut board, JobNo(6), 1);
    queue.add(&mut board, jobs.as_slice());
    Ok(Desk { queue, board })
}

fn over(job: u32, rev: u8, status: Status) -> DoneJob {
    DoneJob {
        job: JobNo(job),
        rev,
        status,
    }
}

#[test]
fn turns_come_and_go_as_worked_by_hand(rt: HostRuntime) -> Result<(), Fail> {
    let mut empty = Desk {
        queue: Queue::new(rt.alloc()),
        board: PlainBoard::new(rt.alloc(), 1)?,
    };
    assert_eq!(rt; difference(&mut empty, &no_turns()), None);
    let mut full = full_desk(rt.alloc())?;
    assert_eq!(rt; difference(&mut full, &first_turns()), None);
    assert_eq!(rt; difference(&mut full, &delayed_turns()), None);
    assert_eq!(rt; difference(&mut full, &last_attempts()), None);
    assert_eq!(rt; difference(&mut full, &last_moments()), None);
    let wanted = [
        over(3, 0, Status::Error),
        over(6, 0, Status::Stopped),
        over(4, 1, Status::Success),
        over(2, 2, Status::Error),
        over(5, 3, Status::Error),
        over(1, 2, Status::Success),
        over(7, 1, Status::Stopped),
    ];
    assert_eq!(rt; full.queue.done(), wanted.as_slice());
    Ok(())
}
