//! Turns: one is taken and its revision admitted to a lane, a job is stepped, and a turn is given
//! back. (Our own, after Harbor's job service.)
ghost use Rattle.std.specs.Prelude.{◌≡◌, ◌⊎◌, ◌<◌, None, IfOk, IsSome, OnErr, MatchOption, reverse};
ghost use Rattle.hr_event.specs.declared.task.Turn.{Turn};
ghost use Rattle.hr_queue.specs.declared.answer.Taken.TheVariants as taken;
ghost use Rattle.hr_promise.specs.Answer.{last_done};
ghost use Rattle.hr_promise.specs.Lane.{StepTells};
ghost use Rattle.hr_store.specs.Store.{row_of_job};
ghost use Rattle.hr_run.specs.Turning.{settled_told};

use crate::engine::Core;
use crate::journal::{copy_last_cause, copy_last_done};
use crate::lanes::{admit_turn, find_lane, step_job};
use hr_adapter::Registry;
use hr_base::{JobNo, Memory};
use hr_board::Board;
use hr_event::{Entry, TaskSpec, Told, Turn};
use hr_line::Stepped;
use hr_promise::steps_come_to_an_end;
use hr_queue::{Settled, Taken};
use hr_run::core_stays_ready;
use std::alloc::Global;

impl<A: Registry> Core<A> {
    ghost use Rattle.hr_core.specs.Lanes.{DidStep, HoldsAt, IsAdmissible, StepsAt};
    ghost use Rattle.hr_core.specs.Row.{HasSpec};
    ghost use Rattle.hr_run.specs.Ready.{IsReady};
    ghost use Rattle.hr_run.specs.Run.{TakeCut};
    ghost use Rattle.hr_run.specs.Sound.{IsSound};
    ghost use Rattle.hr_run.specs.Turning.{AdmitsTurn, FindsHeld, FindsNotOut, FindsSwept, GoesOut, SettlesOut, StepsJob, StepsNone, TakesNone, TakesTurn};

    /// Takes the next turn and has its lane begin it.
    pub(crate) fn take(&mut self, alloc: Global) -> Result<Told, Memory>
        requires ready { IsReady self.old }
        ensures ok { IfOk result (λ answer. TakesTurn self.old answer self.new
            ⊎ TakesNone self.old answer self.new) }
        ensures err { OnErr result ((self.new ≡ self.old) ⊎ TakeCut self.old self.new) }
    {
        match self.take_turn() {
            Taken::Turn(turn) => self.admit(alloc, turn),
            Taken::Later { due } => Ok(Told::Later { due }),
            Taken::Busy { out } => Ok(Told::Busy { out }),
            Taken::Idle => Ok(Told::Idle),
        }
    }

    /// Takes the next turn, which is out then.
    pub(crate) fn take_turn(&mut self) -> Taken
        requires ready { IsReady self.old }
        ensures out { GoesOut self.old result self.new }
        ensures sound { IsSound self.new }
        ensures turn { (turn : Turn) → result ≡ taken.Turn turn → IsAdmissible self.new turn }
    {
        self.is_sound();
        let came = self.turns.take(self.moment);
        self.is_sound();
        core_stays_ready();
        came
    }

    /// Has the lane of a turn that is out begin its revision. Where the row of its job was swept, its
    /// word is looked at, and no lane is asked.
    pub(crate) fn admit(&mut self, alloc: Global, turn: Turn) -> Result<Told, Memory>
        requires can { IsAdmissible self.old turn }
        ensures ok { IfOk result (λ answer. AdmitsTurn self.old turn answer self.new
            ⊎ FindsSwept self.old turn answer self.new) }
        ensures err { OnErr result (self.new ≡ self.old) }
    {
        let Some(spec) = self.copy_spec(alloc, turn.job)? else {
            let mark = self.board.look(turn.job, turn.rev);
            return Ok(Told::Lost {
                job: turn.job,
                mark,
            });
        };
        self.hooks.reserve(1)?;
        admit_turn(
            &mut self.lanes[0],
            &mut self.board,
            &mut self.hooks,
            &turn,
            spec,
        )
    }

    // What a job copies; `None` where its row is not kept.
    fn copy_spec(&self, alloc: Global, job: JobNo) -> Result<Option<TaskSpec>, Memory>
        ensures { IfOk result (λ found. MatchOption found
            (row_of_job job.0 self.now.store.kept ≡ None) (λ spec. HasSpec self.now job.0 spec)) }
    {
        match self.store.spec(job) {
            Some(spec) => Ok(Some(spec.copy(alloc)?)),
            None => Ok(None),
        }
    }

    /// Does one step of a job that a lane holds, and tells it.
    pub(crate) fn step(&mut self, alloc: Global, job: JobNo) -> Result<Told, Memory>
        requires ready { IsReady self.old }
        ensures ok { IfOk result (λ answer. StepsJob self.old job answer self.new
            ⊎ StepsNone self.old job answer self.new) }
        ensures err { OnErr result ((self.new ≡ self.old) ⊎ DidStep self.old job self.new) }
    {
        let Some(at) = find_lane(&self.lanes, job) else {
            return Ok(Told::NotHere { job });
        };
        let came = self.step_at(at, job)?;
        tell_step(alloc, self.lanes[at].journal(), job, came)
    }

    /// Does one step of a job that the lane at a place holds.
    pub(crate) fn step_at(&mut self, at: usize, job: JobNo) -> Result<Stepped, Memory>
        requires ready { IsReady self.old }
        requires holds { HoldsAt self.old.lanes job at }
        ensures ok { IfOk result (λ came. StepsAt self.old at job came self.new) }
        ensures err { OnErr result (self.new ≡ self.old) }
    {
        self.hooks.reserve(1)?;
        steps_come_to_an_end();
        Ok(step_job(&mut self.lanes[at], &mut self.board, &mut self.hooks, job))
    }

    /// Gives back the turn of a job that no lane holds.
    pub(crate) fn settle(&mut self, job: JobNo) -> Told
        requires ready { IsReady self.old }
        ensures { SettlesOut self.old job result self.new
            ⊎ (FindsNotOut self.old job result self.new ⊎ FindsHeld self.old job result self.new) }
    {
        let Some(turn) = self.turns.out_of(job) else {
            return Told::NotOut { job };
        };
        if let Some(_) = find_lane(&self.lanes, job) {
            return Told::InLane { job };
        }
        let came = self.turns.settle(&mut self.board, turn, self.moment);
        tell_settled(job, came)
    }
}

// A step as an answer, by the journal after it.
fn tell_step(alloc: Global, log: &[Entry], job: JobNo, came: Stepped) -> Result<Told, Memory>
    requires did { came ≡ Stepped.Did → IsSome (last_done (reverse log.now)) }
    ensures { IfOk result (λ answer. StepTells job came (reverse log.now) answer) }
{
    match came {
        Stepped::NotHere => Ok(Told::NotHere { job }),
        Stepped::Did => Ok(Told::Did {
            job,
            what: copy_last_done(alloc, log)?,
        }),
        Stepped::Lost(mark) => Ok(Told::Lost { job, mark }),
        Stepped::Ended(status) => Ok(Told::Ended {
            job,
            status,
            cause: copy_last_cause(alloc, log)?,
        }),
    }
}

// What became of a turn, as an answer.
fn tell_settled(job: JobNo, came: Settled) -> Told
    ensures { result ≡ settled_told job came }
{
    match came {
        Settled::NotOut => Told::NotOut { job },
        Settled::Back => Told::Back { job },
        Settled::Done(status) => Told::Done { job, status },
        Settled::Again { due } => Told::Again { job, due },
    }
}
