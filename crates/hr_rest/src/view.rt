//! What replies are made of. (Our own.)

use hr_base::{ExecNo, List};
use hr_event::{ExecView, RowView};
use hr_policy::Policy;

/// What is known of policies, executions and tasks at a moment.
#[derive(Debug, Drop, PartialEq, Eq)]
pub struct Snapshot {
    /// The policies, in the order of their file.
    pub policies: List<Policy>,
    /// The executions that are kept, in order of creation.
    pub execs: List<ExecView>,
    /// The rows of these, in order of job.
    pub rows: List<RowView>,
    /// The execution that a start made.
    pub made: Option<ExecNo>,
}
