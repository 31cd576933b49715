//! Hooks are delivered to the store: emitted ones by their number, or one that nobody emitted. (Our
//! own, after Harbor's task manager.)
ghost use Rattle.std.specs.Prelude.{◌≡◌, ◌≤◌, ◌<◌, IfOk, OnErr, length};

use crate::engine::Core;
use hr_adapter::Registry;
use hr_base::{Hook, Memory};
use hr_event::{Received, Told};

impl<A: Registry> Core<A> {
    ghost use Rattle.hr_core.specs.Hooks.{GivesHook};
    ghost use Rattle.hr_run.specs.Delivering.{Forges};
    ghost use Rattle.hr_run.specs.Does.{DeliversNumber};
    ghost use Rattle.hr_run.specs.Ready.{IsReady};

    /// Delivers the hook of a number, from 1, in the order in which they were emitted.
    pub(crate) fn deliver(&mut self, number: u32) -> Result<Told, Memory>
        requires ready { IsReady self.old }
        ensures ok { IfOk result (λ answer. DeliversNumber self.old number answer self.new) }
        ensures err { OnErr result (self.new ≡ self.old) }
    {
        if number == 0 || self.hooks.len() < number as usize {
            return Ok(Told::NoHook { hook: number });
        }
        let received = self.deliver_at(number as usize - 1)?;
        Ok(Told::Heard {
            hook: number,
            received,
        })
    }

    /// Delivers the hook at a place, from 0.
    pub(crate) fn deliver_at(&mut self, place: usize) -> Result<Received, Memory>
        requires ready { IsReady self.old }
        requires place { place < length self.old.hooks }
        ensures ok { IfOk result (λ came. GivesHook self.old place came self.new) }
        ensures err { OnErr result (self.new ≡ self.old) }
    {
        let hook = self.hooks[place];
        self.delivered.reserve(place)?;
        let came = self.store.receive(&mut self.board, hook);
        self.delivered.set(place);
        Ok(came)
    }

    /// Delivers a hook, of a revision from 0 to 3, that nobody emitted.
    pub(crate) fn forge(&mut self, hook: Hook) -> Told
        requires ready { IsReady self.old }
        requires rev { hook.rev ≤ 3 }
        ensures { Forges self.old hook result self.new }
    {
        let received = self.store.receive(&mut self.board, hook);
        Told::Heard { hook: 0, received }
    }
}
