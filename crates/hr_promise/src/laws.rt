//! Laws of a lane's steps. (Our own.)
ghost use Rattle.std.specs.Prelude.{◌<◌, IfSome};
ghost use Rattle.hr_base.specs.declared.number.JobNo.{JobNo};
ghost use Rattle.hr_line.specs.State.{State, held_at};
ghost use Rattle.hr_line.specs.Step.{GoesOn};
ghost use Rattle.hr_promise.specs.Answer.{IsTold};
ghost use Rattle.hr_promise.specs.Measure.{HasSoundWalk, job_left};

/// A law: a step that goes on leaves its job fewer steps, so that every revision which is stepped on
/// and on ends; and the newest entries of the journal tell what it did.
pub fn steps_come_to_an_end()
    ensures fewer { (s t : State) (job : JobNo) → GoesOn s t job
        → IfSome (held_at s.held job.0) HasSoundWalk → job_left t job.0 < job_left s job.0 }
    ensures told { (s t : State) (job : JobNo) → GoesOn s t job → IsTold t.log }
{}
