//! The events of the core. (Our own.)

use hr_base::{ExecNo, Hook, JobNo, PolicyNo, RegNo};

/// One event, each of which is answered by some `Told`.
#[derive(Clone, Copy, Debug, PartialEq, Eq)]
pub enum Event {
    /// Plans a policy into an execution.
    Trigger { policy: PolicyNo },
    /// Triggers the policies whose schedules have come due.
    Due,
    /// Takes the next turn and begins it.
    Take,
    /// One step of a job that a worker holds.
    Step { job: JobNo },
    /// Gives back a turn that is over.
    Settle { job: JobNo },
    /// Stops a job.
    Stop { job: JobNo },
    /// Delivers the hook with this number, from 1, in the order in which they were emitted.
    Deliver { hook: u32 },
    /// Delivers a hook that nobody emitted.
    Forge { hook: Hook },
    /// Lets so many seconds pass.
    Wait { seconds: u32 },
    /// Drops all ended executions of each policy but the newest ones.
    Sweep { keep: u32 },
    /// Runs to idle and delivers all hooks.
    Finish,
    /// Asks for the tags of a registry.
    Tags { reg: RegNo },
    /// Asks for a job's row.
    Row { job: JobNo },
    /// Asks for an execution.
    Exec { exec: ExecNo },
    /// Asks for the word of a revision, from 0 to 3.
    Word { job: JobNo, rev: u8 },
    /// Asks for the last cause of a job's errors.
    CauseOf { job: JobNo },
}
