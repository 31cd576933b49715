//! A job is stopped, or its word is looked at. (Our own, after Harbor's job service.)
ghost use Rattle.std.specs.Prelude.{◌≡◌, ◌≤◌, ◌⊎◌, None, IfOk, OnErr, MatchOption};
ghost use Rattle.hr_store.specs.Store.{row_of_job};

use crate::engine::Core;
use hr_adapter::Registry;
use hr_base::{Hook, JobNo, Memory, Status};
use hr_board::{Board, StopAnswer, stop};
use hr_event::Told;

impl<A: Registry> Core<A> {
    ghost use Rattle.hr_core.specs.Row.{HasRow};
    ghost use Rattle.hr_run.specs.Ready.{IsReady};
    ghost use Rattle.hr_run.specs.Stopping.{FindsFinal, FindsNoJob, LooksAt, StopsJob};

    /// Stops a job, and emits the hook of the stop.
    pub(crate) fn stop(&mut self, job: JobNo) -> Result<Told, Memory>
        requires ready { IsReady self.old }
        ensures ok { IfOk result (λ answer. StopsJob self.old job answer self.new
            ⊎ (FindsFinal self.old job answer self.new ⊎ FindsNoJob self.old job answer self.new)) }
        ensures err { OnErr result (self.new ≡ self.old) }
    {
        let Some(attempts) = self.attempts_of(job) else {
            return Ok(Told::NoJob { job });
        };
        self.hooks.reserve(1)?;
        match stop(&mut self.board, job, attempts) {
            StopAnswer::Stopped { rev } => {
                self.hooks.push_reserved(Hook {
                    job,
                    rev,
                    status: Status::Stopped,
                });
                Ok(Told::Stopped { job, rev })
            }
            StopAnswer::Final { rev, status } => Ok(Told::FinalAt { job, rev, status }),
        }
    }

    /// Looks at the word of a revision, from 0 to 3, of a job whose row is kept.
    pub(crate) fn word(&mut self, job: JobNo, rev: u8) -> Told
        requires ready { IsReady self.old }
        requires rev { rev ≤ 3 }
        ensures { LooksAt self.old job rev result self.new
            ⊎ FindsNoJob self.old job result self.new }
    {
        if self.attempts_of(job).is_none() {
            return Told::NoJob { job };
        }
        let mark = self.board.look(job, rev);
        Told::WordIs { job, rev, mark }
    }

    // How many revisions a job has at most; none where its row is not kept.
    fn attempts_of(&self, job: JobNo) -> Option<u8>
        ensures { MatchOption result (row_of_job job.0 self.now.store.kept ≡ None)
            (λ attempts. HasRow self.now job.0 attempts) }
    {
        match self.store.spec(job) {
            Some(spec) => Some(spec.attempts),
            None => None,
        }
    }
}
