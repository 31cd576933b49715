//! What requests ask for. (After Harbor's replication API.)

use hr_base::{ExecNo, PolicyNo};

/// What a request asks for, or the status of its refusal.
#[derive(Clone, Copy, Debug, PartialEq, Eq)]
pub enum Asked {
    /// All policies.
    Policies,
    /// A new execution of a policy.
    Start { policy: PolicyNo },
    /// A page of the executions, the newest first: its number, from 1, and how many it has at most,
    /// 1 to 100.
    Executions { page: u32, size: u32 },
    /// One execution.
    One { exec: ExecNo },
    /// The stop of all tasks of an execution.
    Stop { exec: ExecNo },
    /// A page of the tasks of an execution, by job.
    Tasks { exec: ExecNo, page: u32, size: u32 },
    /// Nothing: 404 for an unknown path, 405 for a known path under another verb, 400 for a number,
    /// a query or a body that is bad.
    Refused { status: u16 },
}
