//! The answers to the events of the core. (Our own.)
ghost use Rattle.std.specs.Prelude.{◌≡◌, IfOk};

use crate::cause::copy_cause;
use crate::{Cause, ExecView, Received, What};
use hr_base::{ExecNo, JobNo, Mark, Memory, Moment, PolicyNo, Status};
use hr_digest::Digest;
use hr_name::{Name, Tag};
use std::alloc::Global;

/// One answer. Numbers of hooks are from 1, 0 for a forged one; revisions are from 0 to 3.
#[derive(Debug, Drop, PartialEq, Eq)]
pub enum Told {
    /// An execution with so many tasks was made.
    Created {
        exec: ExecNo,
        tasks: u32,
    },
    /// An execution was made whose plan failed.
    PlanFailed {
        exec: ExecNo,
    },
    /// There is no room for the tasks on a board of so many jobs.
    Full {
        jobs: u32,
    },
    /// There is no such policy.
    NoPolicy {
        policy: PolicyNo,
    },
    /// The policy is disabled.
    Off {
        policy: PolicyNo,
    },
    /// A revision began.
    Began {
        job: JobNo,
        rev: u8,
    },
    /// The job's word was found at this mark, and not where it was expected.
    Lost {
        job: JobNo,
        mark: Mark,
    },
    /// The next turn is due at this moment.
    Later {
        due: Moment,
    },
    /// So many turns are out, and none waits.
    Busy {
        out: u32,
    },
    /// There is no turn.
    Idle,
    /// What a step did.
    Did {
        job: JobNo,
        what: What,
    },
    /// A step ended the revision.
    Ended {
        job: JobNo,
        status: Status,
        cause: Option<Cause>,
    },
    /// No worker holds the job.
    NotHere {
        job: JobNo,
    },
    /// The job is over.
    Done {
        job: JobNo,
        status: Status,
    },
    /// The job's next revision is due at this moment.
    Again {
        job: JobNo,
        due: Moment,
    },
    /// The turn waits again.
    Back {
        job: JobNo,
    },
    /// The job has no turn out.
    NotOut {
        job: JobNo,
    },
    /// A worker holds the job.
    InLane {
        job: JobNo,
    },
    /// This stop stopped the revision.
    Stopped {
        job: JobNo,
        rev: u8,
    },
    /// The job was final already.
    FinalAt {
        job: JobNo,
        rev: u8,
        status: Status,
    },
    /// There is no such job.
    NoJob {
        job: JobNo,
    },
    /// What became of a hook.
    Heard {
        hook: u32,
        received: Received,
    },
    /// There is no such hook.
    NoHook {
        hook: u32,
    },
    /// The moment.
    Now {
        now: Moment,
    },
    /// So many executions were dropped.
    Swept {
        count: u32,
    },
    /// A tag of a registry, and the manifest that it names.
    TagIs {
        repo: Name,
        tag: Tag,
        digest: Digest,
    },
    /// A job's row.
    RowIs {
        job: JobNo,
        rev: u8,
        status: Status,
    },
    /// There is no row of the job.
    NoRow {
        job: JobNo,
    },
    /// An execution.
    ExecIs {
        view: ExecView,
    },
    /// There is no such execution.
    NoExec {
        exec: ExecNo,
    },
    /// The word of a revision.
    WordIs {
        job: JobNo,
        rev: u8,
        mark: Mark,
    },
    /// The last cause of a job's errors.
    CauseIs {
        job: JobNo,
        rev: u8,
        cause: Cause,
    },
    /// The job has no error with a cause.
    NoCause {
        job: JobNo,
    },
}

impl Told {
    /// An equal value.
    pub fn copy(&self, alloc: Global) -> Result<Told, Memory>
        ensures { IfOk result (λ made. made ≡ self.now) }
    {
        match self {
            Told::Created { exec, tasks } => Ok(Told::Created {
                exec: *exec,
                tasks: *tasks,
            }),
            Told::PlanFailed { exec } => Ok(Told::PlanFailed { exec: *exec }),
            Told::Full { jobs } => Ok(Told::Full { jobs: *jobs }),
            Told::NoPolicy { policy } => Ok(Told::NoPolicy { policy: *policy }),
            Told::Off { policy } => Ok(Told::Off { policy: *policy }),
            Told::Began { job, rev } => Ok(Told::Began {
                job: *job,
                rev: *rev,
            }),
            Told::Lost { job, mark } => Ok(Told::Lost {
                job: *job,
                mark: *mark,
            }),
            Told::Later { due } => Ok(Told::Later { due: *due }),
            Told::Busy { out } => Ok(Told::Busy { out: *out }),
            Told::Idle => Ok(Told::Idle),
            Told::Did { job, what } => Ok(Told::Did {
                job: *job,
                what: what.copy(alloc)?,
            }),
            Told::Ended { job, status, cause } => Ok(Told::Ended {
                job: *job,
                status: *status,
                cause: copy_cause(alloc, cause)?,
            }),
            Told::NotHere { job } => Ok(Told::NotHere { job: *job }),
            Told::Done { job, status } => Ok(Told::Done {
                job: *job,
                status: *status,
            }),
            Told::Again { job, due } => Ok(Told::Again {
                job: *job,
                due: *due,
            }),
            Told::Back { job } => Ok(Told::Back { job: *job }),
            Told::NotOut { job } => Ok(Told::NotOut { job: *job }),
            Told::InLane { job } => Ok(Told::InLane { job: *job }),
            Told::Stopped { job, rev } => Ok(Told::Stopped {
                job: *job,
                rev: *rev,
            }),
            Told::FinalAt { job, rev, status } => Ok(Told::FinalAt {
                job: *job,
                rev: *rev,
                status: *status,
            }),
            Told::NoJob { job } => Ok(Told::NoJob { job: *job }),
            Told::Heard { hook, received } => Ok(Told::Heard {
                hook: *hook,
                received: *received,
            }),
            Told::NoHook { hook } => Ok(Told::NoHook { hook: *hook }),
            Told::Now { now } => Ok(Told::Now { now: *now }),
            Told::Swept { count } => Ok(Told::Swept { count: *count }),
            Told::TagIs { repo, tag, digest } => Ok(Told::TagIs {
                repo: repo.copy(alloc)?,
                tag: tag.copy(alloc)?,
                digest: *digest,
            }),
            Told::RowIs { job, rev, status } => Ok(Told::RowIs {
                job: *job,
                rev: *rev,
                status: *status,
            }),
            Told::NoRow { job } => Ok(Told::NoRow { job: *job }),
            Told::ExecIs { view } => Ok(Told::ExecIs { view: *view }),
            Told::NoExec { exec } => Ok(Told::NoExec { exec: *exec }),
            Told::WordIs { job, rev, mark } => Ok(Told::WordIs {
                job: *job,
                rev: *rev,
                mark: *mark,
            }),
            Told::CauseIs { job, rev, cause } => Ok(Told::CauseIs {
                job: *job,
                rev: *rev,
                cause: cause.copy(alloc)?,
            }),
            Told::NoCause { job } => Ok(Told::NoCause { job: *job }),
        }
    }
}
