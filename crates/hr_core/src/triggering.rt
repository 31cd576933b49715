//! A trigger: the plan becomes an execution, with a job for each of its tasks. (Our own, after
//! Harbor's replication controller.)
ghost use Rattle.std.specs.Prelude.{◌≡◌, ◌+◌, ◌<◌, ◌^◌, Some, None, IfOk, OnErr, length};
ghost use Rattle.hr_run.specs.State.{queued_from};

use crate::engine::Core;
use hr_adapter::Registry;
use hr_base::{JobNo, List, Memory, PolicyNo};
use hr_event::{TaskSpec, Told, Trigger};
use hr_queue::Queued;
use hr_store::{CreateRefused, a_new_execution_is_found};
use std::alloc::Global;

impl<A: Registry> Core<A> {
    ghost use Rattle.hr_core.specs.Planning.{FailsAsPlanned, RunsPlan, TriggerCut};
    ghost use Rattle.hr_run.specs.Ready.{IsReady};
    ghost use Rattle.hr_run.specs.Triggering.{Triggers};

    /// Triggers policy 1, and no other.
    pub(crate) fn trigger(&mut self, alloc: Global, policy: PolicyNo) -> Result<Told, Memory>
        requires ready { IsReady self.old }
        ensures ok { IfOk result (λ answer. Triggers self.old policy answer self.new) }
        ensures err { OnErr result (TriggerCut self.old self.new) }
    {
        if policy.0 != 1 {
            return Ok(Told::NoPolicy { policy });
        }
        let Some(plan) = &self.plan else {
            return self.fail_to_plan(alloc);
        };
        let specs = copy_tasks(alloc, plan.view())?;
        self.run_plan(alloc, specs)
    }

    // Makes an execution whose plan failed.
    fn fail_to_plan(&mut self, alloc: Global) -> Result<Told, Memory>
        requires planned { self.old.plan ≡ None }
        ensures ok { IfOk result (λ answer. FailsAsPlanned self.old answer self.new) }
        ensures err { OnErr result (self.new ≡ self.old) }
    {
        let none = List::new(alloc);
        self.store.is_sound();
        match self
            .store
            .create(alloc, PolicyNo(1), Trigger::Manual, none, self.moment)
        {
            Ok(exec) => {
                a_new_execution_is_found();
                self.store.mark_failed(exec);
                Ok(Told::PlanFailed { exec })
            }
            Err(CreateRefused::Full { jobs }) => Ok(Told::Full { jobs }),
            Err(CreateRefused::Memory) => Err(Memory),
        }
    }

    // Makes an execution of these tasks, and adds their jobs to the queue.
    fn run_plan(&mut self, alloc: Global, specs: List<TaskSpec>) -> Result<Told, Memory>
        requires ready { IsReady self.old }
        requires planned { self.old.plan ≡ Some specs }
        ensures ok { IfOk result (λ answer. RunsPlan self.old specs answer self.new) }
        ensures err { OnErr result (TriggerCut self.old self.new) }
    {
        let jobs = self.store.limit();
        let before = self.made.count();
        let count = specs.view().len();
        if count > (jobs - before) as usize {
            return Ok(Told::Full { jobs });
        }
        let queued = queue_tasks(alloc, before, specs.view())?;
        let tasks = count as u32;
        self.turns.reserve(tasks)?;
        self.is_sound();
        let made = self.made.with(specs.view());
        match self
            .store
            .create(alloc, PolicyNo(1), Trigger::Manual, specs, self.moment)
        {
            Ok(exec) => {
                self.turns.add(&mut self.board, &queued);
                self.made = made;
                Ok(Told::Created { exec, tasks })
            }
            Err(CreateRefused::Full { jobs }) => Ok(Told::Full { jobs }),
            Err(CreateRefused::Memory) => Err(Memory),
        }
    }
}

// Equal tasks.
fn copy_tasks(alloc: Global, tasks: &[TaskSpec]) -> Result<List<TaskSpec>, Memory>
    ensures { IfOk result (λ made. made ≡ tasks.now) }
{
    let mut made = List::new(alloc);
    for task in tasks {
        made.push(task.copy(alloc)?)?;
    }
    Ok(made)
}

// The jobs of tasks as the queue is given them, numbered on from a number.
fn queue_tasks(alloc: Global, before: u32, tasks: &[TaskSpec]) -> Result<Vec<Queued>, Memory>
    requires { before + length tasks.now < 2 ^ 32 }
    ensures { IfOk result (λ queued. queued.items ≡ queued_from before tasks.now) }
{
    let mut queued = Vec::new(alloc);
    for at in 0..tasks.len() {
        queued.push(Queued {
            job: JobNo(before + at as u32 + 1),
            attempts: tasks[at].attempts,
        })?;
    }
    Ok(queued)
}
