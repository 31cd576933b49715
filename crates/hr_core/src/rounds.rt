//! The rounds of a finish: each takes a turn to its end, or the moment on. (Our own, after Harbor's
//! job service.)
ghost use Rattle.std.specs.Prelude.{◌≡◌, true, IfOk, OnErr, OnOk};
ghost use Rattle.std.specs.List.{Contains};

use crate::engine::Core;
use crate::lanes::find_lane;
use hr_adapter::Registry;
use hr_base::{Memory, Moment};
use hr_event::Turn;
use hr_queue::Taken;
use hr_run::core_stays_ready;
use std::alloc::Global;

impl<A: Registry> Core<A> {
    ghost use Rattle.hr_core.specs.Rounds.{BeginsNext, GivesBack, IsBusy, RoundCame, RoundCut, StepsAway};
    ghost use Rattle.hr_run.specs.Finish.{Rounds};
    ghost use Rattle.hr_run.specs.Ready.{IsReady};
    ghost use Rattle.hr_run.specs.Run.{StepsSome, TakeCut};
    ghost use Rattle.hr_run.specs.Turning.{NoneHolds};

    /// Runs one round, and answers whether there was one.
    pub(crate) fn run_round(&mut self, alloc: Global) -> Result<bool, Memory>
        requires ready { IsReady self.old }
        ensures ok { IfOk result (λ more. RoundCame self.old more self.new) }
        ensures err { OnErr result (RoundCut self.old self.new) }
    {
        let came = self.begin(alloc)?;
        match came {
            Taken::Turn(turn) => self.end_turn(turn),
            Taken::Busy { out: _ } => self.end_least(),
            Taken::Later { due } => {
                self.moment = Moment(self.moment.0.max(due.0));
                Ok(true)
            }
            Taken::Idle => Ok(false),
        }
    }

    // Takes the next turn, where one is due, and has its lane begin it.
    fn begin(&mut self, alloc: Global) -> Result<Taken, Memory>
        requires ready { IsReady self.old }
        ensures ok { IfOk result (λ came. BeginsNext self.old came self.new) }
        ensures err { OnErr result (TakeCut self.old self.new) }
    {
        self.is_sound();
        let came = self.take_turn();
        let Taken::Turn(turn) = came else {
            return Ok(came);
        };
        self.admit(alloc, turn)?;
        self.is_sound();
        core_stays_ready();
        Ok(came)
    }

    // Steps the job of the turn that is out of the least job until no lane holds it, and gives the turn
    // back.
    fn end_least(&mut self) -> Result<bool, Memory>
        requires ready { IsReady self.old }
        requires busy { IsBusy self.old }
        ensures ok { IfOk result (λ more. RoundCame self.old more self.new) }
        ensures err { OnErr result (RoundCut self.old self.new) }
    {
        let Some(turn) = self.turns.adopt() else {
            unreachable!()
        };
        self.end_turn(turn)
    }

    // Steps the job of a turn that is out until no lane holds it, and gives the turn back.
    fn end_turn(&mut self, turn: Turn) -> Result<bool, Memory>
        requires ready { IsReady self.old }
        requires out { Contains self.old.turns.out turn }
        ensures ok { IfOk result (λ more. (more ≡ true) × Rounds self.old turn.job self.new) }
        ensures err { OnErr result (StepsSome turn.job self.old self.new) }
    {
        self.step_away(turn)?;
        self.give_back(turn);
        Ok(true)
    }

    // Steps the job of a turn that is out until no lane holds it.
    fn step_away(&mut self, turn: Turn) -> Result<(), Memory>
        requires ready { IsReady self.old }
        requires out { Contains self.old.turns.out turn }
        ensures ok { OnOk result (StepsAway self.old turn self.new) }
        ensures err { OnErr result (StepsSome turn.job self.old self.new) }
    {
        self.is_sound();
        core_stays_ready();
        'steps: for _ in 0..u64::MAX {
            let Some(at) = find_lane(&self.lanes, turn.job) else {
                return Ok(());
            };
            self.step_at(at, turn.job)?;
            self.is_sound();
        }
        Err(Memory)
    }

    // Gives back a turn that is out, and whose job no lane holds.
    fn give_back(&mut self, turn: Turn)
        requires ready { IsReady self.old }
        requires out { Contains self.old.turns.out turn }
        requires none { NoneHolds self.old.lanes turn.job }
        ensures { GivesBack self.old turn.job self.new }
    {
        self.turns.settle(&mut self.board, turn, self.moment);
    }
}
