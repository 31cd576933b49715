//! A finish: all turns are taken to their ends, and all hooks delivered. (Our own, after Harbor's job
//! service.)
ghost use Rattle.std.specs.Prelude.{◌<◌, OnErr, OnOk};
ghost use Rattle.hr_event.specs.declared.event.Event.TheVariants as event;

use crate::engine::Core;
use hr_adapter::Registry;
use hr_base::Memory;
use hr_run::core_stays_ready;
use std::alloc::Global;

impl<A: Registry> Core<A> {
    ghost use Rattle.hr_run.specs.Finish.{DeliversFrom, Finishes};
    ghost use Rattle.hr_run.specs.Ready.{IsReady};
    ghost use Rattle.hr_run.specs.Run.{Cut, DeliversSome};

    /// Takes all turns to their ends, and delivers all hooks. Where turns wait for a moment, that one
    /// comes.
    pub(crate) fn finish(&mut self, alloc: Global) -> Result<(), Memory>
        requires ready { IsReady self.old }
        ensures ok { OnOk result (Finishes self.old self.new) }
        ensures err { OnErr result (Cut self.old event.Finish self.new) }
    {
        self.is_sound();
        core_stays_ready();
        'rounds: for _ in 0..u64::MAX {
            let more = self.run_round(alloc)?;
            if !more {
                return self.deliver_all();
            }
            self.is_sound();
        }
        Err(Memory)
    }

    // Delivers each hook that was not delivered, in order, from the first such one on.
    fn deliver_all(&mut self) -> Result<(), Memory>
        requires ready { IsReady self.old }
        ensures ok { OnOk result (DeliversFrom 0 self.old self.new) }
        ensures err { OnErr result (DeliversSome 0 self.old self.new) }
    {
        self.is_sound();
        core_stays_ready();
        let first = self.delivered.front();
        for place in first..self.hooks.len() {
            if !self.delivered.has(place) {
                self.deliver_at(place)?;
                self.is_sound();
            }
        }
        Ok(())
    }
}
