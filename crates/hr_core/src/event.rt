//! An event is done and answered. (Our own, after Harbor's job service and its task manager.)
ghost use Rattle.std.specs.Prelude.{◌≡◌, ◌∷◌, [], IfOk};

use crate::engine::Core;
use hr_adapter::Registry;
use hr_base::{List, Memory};
use hr_event::{Event, Told};
use std::alloc::Global;

impl<A: Registry> Core<A> {
    ghost use Rattle.hr_core.specs.Comes.{Comes, IsTaken};
    ghost use Rattle.hr_run.specs.Ready.{IsReady};

    /// Does what an event says, and answers it. Want of memory is the one error: then some of what the
    /// event does may be done, in its order, and any event may follow.
    pub fn event(&mut self, alloc: Global, event: Event) -> Result<List<Told>, Memory>
        requires ready { IsReady self.old }
        requires taken { IsTaken event }
        ensures { Comes self.old event result self.new }
    {
        match event {
            Event::Trigger { policy } => one(alloc, self.trigger(alloc, policy)?),
            Event::Due => unreachable!(),
            Event::Take => one(alloc, self.take(alloc)?),
            Event::Step { job } => one(alloc, self.step(alloc, job)?),
            Event::Settle { job } => one(alloc, self.settle(job)),
            Event::Stop { job } => one(alloc, self.stop(job)?),
            Event::Deliver { hook } => one(alloc, self.deliver(hook)?),
            Event::Forge { hook } => one(alloc, self.forge(hook)),
            Event::Wait { seconds } => one(alloc, self.wait(seconds)),
            Event::Sweep { keep } => one(alloc, self.sweep(keep)),
            Event::Finish => {
                self.finish(alloc)?;
                one(alloc, Told::Idle)
            }
            Event::Tags { reg } => self.tags(alloc, reg),
            Event::Row { job } => one(alloc, self.row(job)),
            Event::Exec { exec } => one(alloc, self.exec(exec)),
            Event::Word { job, rev } => one(alloc, self.word(job, rev)),
            Event::CauseOf { job } => one(alloc, self.cause_of(alloc, job)?),
        }
    }
}

// One answer.
fn one(alloc: Global, told: Told) -> Result<List<Told>, Memory>
    ensures { IfOk result (λ answers. answers ≡ told ∷ []) }
{
    let mut answers = List::new(alloc);
    answers.push(told)?;
    Ok(answers)
}
