//! What a lane answers. (Our own.)

use hr_base::{Mark, Status};

/// What became of an admission.
#[derive(Clone, Copy, Debug, PartialEq, Eq)]
pub enum Admit {
    /// The revision was begun.
    Began,
    /// Its word was found at another mark than a turn has.
    Lost(Mark),
    /// There was no room, and all is as it was.
    Memory,
}

/// What became of a step.
#[derive(Clone, Copy, Debug, PartialEq, Eq)]
pub enum Stepped {
    /// One line of the step's table was done, and the revision goes on.
    Did,
    /// The revision ended with this status.
    Ended(Status),
    /// Its word was found at this mark, and the job was given up.
    Lost(Mark),
    /// The lane doesn't hold the job.
    NotHere,
}
