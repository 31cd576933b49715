//! Time passes, and ended executions are swept. (Our own, after Harbor's task manager.)

use crate::engine::Core;
use hr_adapter::Registry;
use hr_event::Told;

impl<A: Registry> Core<A> {
    ghost use Rattle.hr_run.specs.Delivering.{Sweeps, Waits};

    /// Lets so many seconds pass, up to the last moment.
    pub(crate) fn wait(&mut self, seconds: u32) -> Told
        ensures { Waits self.old seconds result self.new }
    {
        self.moment = self.moment.plus(seconds as u64);
        Told::Now { now: self.moment }
    }

    /// Drops the ended executions of each policy but so many of the newest.
    pub(crate) fn sweep(&mut self, keep: u32) -> Told
        ensures { Sweeps self.old keep result self.new }
    {
        Told::Swept {
            count: self.store.sweep(keep),
        }
    }
}
