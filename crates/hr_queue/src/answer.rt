//! What a queue is given, and what it answers. (Our own, after Harbor's job service.)

use hr_base::{JobNo, Moment, Status};
use hr_event::Turn;

/// A job for a queue.
#[derive(Clone, Copy, Debug, PartialEq, Eq)]
pub struct Queued {
    pub job: JobNo,
    /// How many revisions it has at most, from 1 to 4.
    pub attempts: u8,
}

/// What came of a take.
#[derive(Clone, Copy, Debug, PartialEq, Eq)]
pub enum Taken {
    /// This turn is out now.
    Turn(Turn),
    /// None is due. The first one is at this moment.
    Later { due: Moment },
    /// None waits. So many turns are out, and may come back.
    Busy { out: u32 },
    /// None waits, and none is out.
    Idle,
}

/// What became of a turn that was given back.
#[derive(Clone, Copy, Debug, PartialEq, Eq)]
pub enum Settled {
    /// The job is over, with this status of its last revision.
    Done(Status),
    /// The revision failed, and the next one waits for this moment.
    Again { due: Moment },
    /// The revision is not over, and waits again.
    Back,
    /// No turn of this job and revision is out.
    NotOut,
}

/// A job that is over, with the revision that ended it.
#[derive(Clone, Copy, Debug, PartialEq, Eq)]
pub struct DoneJob {
    pub job: JobNo,
    /// From 0 to 3.
    pub rev: u8,
    pub status: Status,
}
