//! The statuses of a task's revision, after those of Harbor's job service, and the hooks that tell
//! them.
ghost use Rattle.std.specs.Prelude.{◌≡◌, ◌↔◌, ◌<◌, ◌≤◌, IsTrue, IsNone, Some};

use crate::JobNo;

/// What has come of one revision of a job. A revision is one attempt at it, from 0.
#[derive(Clone, Copy, Debug, PartialEq, Eq)]
pub enum Status {
    /// It waits for its first turn.
    Pending,
    /// It waits for a later turn, after an error of the revision before it.
    Scheduled,
    /// A worker runs it.
    Running,
    /// It was stopped, and does nothing more.
    Stopped,
    /// It ended with a recorded cause.
    Error,
    /// It did all that it was asked.
    Success,
}

/// The word that a board keeps for one job and revision.
#[derive(Clone, Copy, Debug, PartialEq, Eq)]
pub enum Mark {
    /// The revision has not been opened.
    Unopened,
    /// The revision has this status.
    At(Status),
}

/// The message that a revision, from 0 to 3, of a job reached a status.
#[derive(Clone, Copy, Debug, PartialEq, Eq)]
pub struct Hook {
    pub job: JobNo,
    pub rev: u8,
    pub status: Status,
}

impl Status {
    ghost use Rattle.hr_base.specs.Status.{code_of, IsFinal};

    /// How far along a status is, from 0 to 3. Hooks of one revision are joined by it.
    pub fn code(self) -> u8
        ensures { result ≡ code_of self }
    {
        match self {
            Status::Pending => 0,
            Status::Scheduled => 1,
            Status::Running => 2,
            Status::Stopped | Status::Error | Status::Success => 3,
        }
    }

    /// Whether nothing follows this status in its revision.
    pub fn is_final(self) -> bool
        ensures { IsTrue result ↔ IsFinal self }
    {
        matches!(self, Status::Stopped | Status::Error | Status::Success)
    }
}

impl Mark {
    ghost use Rattle.hr_base.specs.Status.{word_of, Covers};
    ghost use Rattle.hr_base.specs.declared.status.Mark.{Mark};

    /// The number by which a board keeps this mark, from 0 to 6.
    pub fn word(self) -> u64
        ensures value { result ≡ word_of self }
        ensures small { result ≤ 6 }
    {
        match self {
            Mark::Unopened => 0,
            Mark::At(Status::Pending) => 1,
            Mark::At(Status::Scheduled) => 2,
            Mark::At(Status::Running) => 3,
            Mark::At(Status::Stopped) => 4,
            Mark::At(Status::Error) => 5,
            Mark::At(Status::Success) => 6,
        }
    }

    /// The mark that a board keeps by this number, or `None` where no mark has it.
    pub fn of_word(word: u64) -> Option<Mark>
        ensures found { (mark : Mark) → (result ≡ Some mark) ↔ (word_of mark ≡ word) }
        ensures none { IsNone result ↔ (6 < word) }
    {
        match word {
            0 => Some(Mark::Unopened),
            1 => Some(Mark::At(Status::Pending)),
            2 => Some(Mark::At(Status::Scheduled)),
            3 => Some(Mark::At(Status::Running)),
            4 => Some(Mark::At(Status::Stopped)),
            5 => Some(Mark::At(Status::Error)),
            6 => Some(Mark::At(Status::Success)),
            _ => None,
        }
    }

    /// Whether a revision whose word has this mark reached this status, or went past it: the mark is
    /// that status, or one of a greater code.
    pub fn covers(self, status: Status) -> bool
        ensures { IsTrue result ↔ Covers self status }
    {
        match self {
            Mark::Unopened => false,
            Mark::At(known) => known == status || status.code() < known.code(),
        }
    }
}
