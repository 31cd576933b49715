//! What the task manager tells of executions and of rows. (After Harbor's replication
//! executions and tasks.)
ghost use Rattle.std.specs.Prelude.{◌≡◌, IfOk};

use hr_base::{ExecNo, JobNo, Mark, Memory, Moment, PolicyNo, Status};
use hr_name::Name;
use std::alloc::Global;

/// What became of a hook that the task manager received.
#[derive(Clone, Copy, Debug, PartialEq, Eq)]
pub enum Received {
    /// The row rose.
    Raised,
    /// The row knew as much already.
    Known,
    /// The job's word is this mark, which does not cover the hook.
    Unconfirmed(Mark),
    /// There never was such a job.
    Unknown,
    /// The job's execution was swept.
    Swept,
}

/// The status of an execution.
#[derive(Clone, Copy, Debug, PartialEq, Eq)]
pub enum ExecStatus {
    /// A row is not final.
    InProgress,
    /// Each row is at success, or there is none.
    Succeed,
    /// The plan failed, or a row is at error.
    Failed,
    /// A row is stopped, and none at error.
    Stopped,
}

/// What started an execution.
#[derive(Clone, Copy, Debug, PartialEq, Eq)]
pub enum Trigger {
    Manual,
    Scheduled,
}

/// An execution with its counters, which count rows.
#[derive(Clone, Copy, Debug, PartialEq, Eq)]
pub struct ExecView {
    pub exec: ExecNo,
    pub policy: PolicyNo,
    pub trigger: Trigger,
    /// When it was made.
    pub began: Moment,
    pub status: ExecStatus,
    pub total: u32,
    pub succeed: u32,
    pub failed: u32,
    pub in_progress: u32,
    pub stopped: u32,
}

/// The row of a task: the job's last revision, from 0 to 3, and its status.
#[derive(Debug, Drop, PartialEq, Eq)]
pub struct RowView {
    pub job: JobNo,
    pub exec: ExecNo,
    pub rev: u8,
    pub status: Status,
    /// The repository at the source.
    pub from: Name,
    /// The repository at the destination.
    pub to: Name,
}

impl RowView {
    /// An equal value.
    pub fn copy(&self, alloc: Global) -> Result<RowView, Memory>
        ensures { IfOk result (λ made. made ≡ self.now) }
    {
        Ok(RowView {
            job: self.job,
            exec: self.exec,
            rev: self.rev,
            status: self.status,
            from: self.from.copy(alloc)?,
            to: self.to.copy(alloc)?,
        })
    }
}
