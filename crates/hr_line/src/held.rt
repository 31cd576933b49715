//! A revision of a job that a lane holds, and how far it is. (Our own.)

use hr_base::JobNo;
use hr_event::TaskSpec;
use hr_graph::Walk;

/// A revision of a job that was admitted.
#[derive(Debug, Drop, PartialEq, Eq)]
pub struct Admitted {
    pub job: JobNo,
    /// From 0 to 3.
    pub rev: u8,
    /// What is copied.
    pub spec: TaskSpec,
}

/// A tag that was read at the source.
#[derive(Debug, Drop)]
pub struct Work {
    /// Whether the destination was asked already what the tag names there.
    pub looked: bool,
    /// The walk over the graph of its manifest.
    pub walk: Walk,
}

/// A revision that is held.
#[derive(Debug, Drop)]
pub struct Held {
    pub by: Admitted,
    /// How many of its tags are finished.
    pub next: usize,
    /// The tag that comes next, where it was read.
    pub work: Option<Work>,
}
