//! What the jobs copy that were made, as contracts see it. (Our own.)
ghost use Rattle.std.specs.Prelude.{◌≡◌, ◌+◌, ◌<◌, ◌^◌, ◌++◌, [], length};

use hr_base::Trace;
use hr_event::TaskSpec;
use std::marker::Model;

/// What each job copies, from job 1 on. It counts them, and keeps nothing more.
#[derive(Drop)]
pub(crate) struct Made {
    count: u32,
    specs: Trace<TaskSpec>,
}

impl Model for Made {
    ghost use Rattle.std.specs.Prelude.{◌≡◌, List, length};
    ghost use Rattle.hr_event.specs.declared.task.TaskSpec.{TaskSpec};

    ghost Value = { List TaskSpec };

    ghost view = { λ m. m.specs.items };

    ghost invariant = { λ m. m.count ≡ length m.specs.items };
}

impl Made {
    /// No jobs.
    pub(crate) fn new() -> Made
        ensures { result ≡ [] }
    {
        Made {
            count: 0,
            specs: Trace::new(),
        }
    }

    /// How many jobs were made.
    pub(crate) fn count(&self) -> u32
        ensures { result ≡ length self.now }
    {
        self.count
    }

    /// These jobs and those of more tasks.
    pub(crate) fn with(&self, specs: &[TaskSpec]) -> Made
        requires { length self.now + length specs.now < 2 ^ 32 }
        ensures { result ≡ self.now ++ specs.now }
    {
        Made {
            count: self.count + specs.len() as u32,
            specs: self.specs.then_all(specs),
        }
    }
}
