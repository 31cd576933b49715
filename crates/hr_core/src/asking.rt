//! What is asked of rows, executions and the causes of errors. (Our own, after Harbor's task manager.)
ghost use Rattle.std.specs.Prelude.{◌≡◌, IfOk};
ghost use Rattle.hr_run.specs.Does.{cause_among, exec_told, row_told};
ghost use Rattle.hr_promise.specs.Answer.{cause_told};
ghost use Rattle.hr_store.specs.Store.{exec_numbered, row_of_job};

use crate::engine::Core;
use crate::journal::find_cause;
use hr_adapter::Registry;
use hr_base::{ExecNo, JobNo, Memory};
use hr_event::{Cause, Told};
use hr_lane::Lane;
use std::alloc::Global;

impl<A: Registry> Core<A> {
    /// Tells the row of a job.
    pub(crate) fn row(&self, job: JobNo) -> Told
        ensures { result ≡ row_told job (row_of_job job.0 self.now.store.kept) }
    {
        match self.store.row(job) {
            Some((rev, status)) => Told::RowIs { job, rev, status },
            None => Told::NoRow { job },
        }
    }

    /// Tells an execution.
    pub(crate) fn exec(&self, exec: ExecNo) -> Told
        ensures { result ≡ exec_told exec (exec_numbered exec.0 self.now.store.kept) }
    {
        match self.store.exec(exec) {
            Some(view) => Told::ExecIs { view },
            None => Told::NoExec { exec },
        }
    }

    /// Tells the newest cause of a job's errors.
    pub(crate) fn cause_of(&self, alloc: Global, job: JobNo) -> Result<Told, Memory>
        ensures { IfOk result (λ answer.
            answer ≡ cause_told job (cause_among self.now.lanes job.0)) }
    {
        match find_among(alloc, &self.lanes, job)? {
            Some((rev, cause)) => Ok(Told::CauseIs { job, rev, cause }),
            None => Ok(Told::NoCause { job }),
        }
    }
}

// The newest cause of a job's errors, by the journal of the first lane that has one.
fn find_among<A: Registry>(
    alloc: Global,
    lanes: &[Lane<A>],
    job: JobNo,
) -> Result<Option<(u8, Cause)>, Memory>
    ensures { IfOk result (λ found. found ≡ cause_among lanes.now job.0) }
{
    for at in 0..lanes.len() {
        if let Some(found) = find_cause(alloc, lanes[at].journal(), job)? {
            return Ok(Some(found));
        }
    }
    Ok(None)
}
