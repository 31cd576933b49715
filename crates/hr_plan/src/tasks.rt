//! The tasks of a policy, one for each repository that it picks. (Our own, after Harbor's.)
ghost use Rattle.std.specs.Prelude.{◌≤ℤ◌, ◌≡◌, IfOk, pos, negsuc};
ghost use Rattle.hr_plan.specs.Tasks.{MakesTask, MakesTasks};

use crate::PlanRefused;
use hr_base::{List, Memory};
use hr_event::TaskSpec;
use hr_filter::{DestRefused, Pick, destination};
use hr_name::Tag;
use hr_policy::Policy;
use std::alloc::Global;

/// A task for each pick, in order, unless a name at the destination is too long.
pub(crate) fn make_tasks(
    alloc: Global,
    policy: &Policy,
    picks: &[Pick],
) -> Result<List<TaskSpec>, PlanRefused>
    requires least { negsuc 0 ≤ℤ policy.now.replace }
    requires most { policy.now.replace ≤ℤ pos 3 }
    ensures { MakesTasks policy.now picks.now result }
{
    let mut specs = List::new(alloc);
    for pick in picks {
        let spec = match make_task(alloc, policy, pick) {
            Ok(spec) => spec,
            Err(why) => return Err(why),
        };
        specs.push(spec)?;
    }
    Ok(specs)
}

// The task of a pick.
fn make_task(alloc: Global, policy: &Policy, pick: &Pick) -> Result<TaskSpec, PlanRefused>
    requires least { negsuc 0 ≤ℤ policy.now.replace }
    requires most { policy.now.replace ≤ℤ pos 3 }
    ensures { MakesTask policy.now pick.now result }
{
    let namespace = policy.namespace.as_ref();
    let to = match destination(alloc, namespace, policy.replace, &pick.repo) {
        Ok(to) => to,
        Err(DestRefused::TooLong { .. }) => {
            let repo = pick.repo.copy(alloc)?;
            return Err(PlanRefused::Dest { repo });
        }
        Err(DestRefused::Memory) => return Err(PlanRefused::Memory),
    };
    Ok(TaskSpec {
        policy: policy.id,
        src: policy.src,
        dst: policy.dst,
        from: pick.repo.copy(alloc)?,
        to,
        tags: copy_tags(alloc, pick.tags.view())?,
        override_it: policy.override_it,
        attempts: policy.attempts,
    })
}

fn copy_tags(alloc: Global, tags: &[Tag]) -> Result<List<Tag>, Memory>
    ensures { IfOk result (λ made. made ≡ tags.now) }
{
    let mut made = List::new(alloc);
    for tag in tags {
        made.push(tag.copy(alloc)?)?;
    }
    Ok(made)
}
