//! What a journal answers: what the last step did, and why a job failed. (Our own.)
ghost use Rattle.std.specs.Prelude.{◌≡◌, IfOk, IsSome, Some, reverse};
ghost use Rattle.hr_promise.specs.Answer.{cause_in, cause_said, last_cause, last_done};

use hr_base::{JobNo, Memory};
use hr_event::{Cause, Entry, What};
use std::alloc::Global;

/// What the last step did, by a journal in order: a blob that was put goes with its read.
pub(crate) fn copy_last_done(alloc: Global, log: &[Entry]) -> Result<What, Memory>
    requires { IsSome (last_done (reverse log.now)) }
    ensures { IfOk result (λ what. last_done (reverse log.now) ≡ Some what) }
{
    let last = log.len() - 1;
    match &log[last].what {
        What::PutBlob { digest: _, sure: _ } => log[last - 1].what.copy(alloc),
        what => what.copy(alloc),
    }
}

/// The cause of the last entry of a journal in order.
pub(crate) fn copy_last_cause(alloc: Global, log: &[Entry]) -> Result<Option<Cause>, Memory>
    ensures { IfOk result (λ cause. cause ≡ last_cause (reverse log.now)) }
{
    match log.last() {
        Some(entry) => copy_cause(alloc, &entry.what),
        None => Ok(None),
    }
}

// The cause with which an entry says that a revision ended.
fn copy_cause(alloc: Global, what: &What) -> Result<Option<Cause>, Memory>
    ensures { IfOk result (λ cause. cause ≡ cause_said what.now) }
{
    match what {
        What::Ended {
            status: _,
            cause: Some(cause),
        } => Ok(Some(cause.copy(alloc)?)),
        _ => Ok(None),
    }
}

/// The newest cause of a job's errors, with its revision, by a journal in order.
pub(crate) fn find_cause(
    alloc: Global,
    log: &[Entry],
    job: JobNo,
) -> Result<Option<(u8, Cause)>, Memory>
    ensures { IfOk result (λ found. found ≡ cause_in (reverse log.now) job.0) }
{
    for back in 0..log.len() {
        let entry = &log[log.len() - 1 - back];
        if entry.job == job {
            if let Some(cause) = copy_cause(alloc, &entry.what)? {
                return Ok(Some((entry.rev, cause)));
            }
        }
    }
    Ok(None)
}
