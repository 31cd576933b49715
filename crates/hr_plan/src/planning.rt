//! The plan of a policy: what its filters select of a source, a task for each repository. (Our own,
//! after Harbor's.)
ghost use Rattle.std.specs.Prelude.{◌≡◌, ◌≤ℤ◌, ℕ, IfOk, IfSome, IsTrue, Err, pos, negsuc};
ghost use Rattle.hr_plan.specs.Plan.{AnswersBy, AreInOrder, HasRisen, Listens, Plans};

use crate::PlanRefused;
use crate::listing::list_source;
use crate::tasks::make_tasks;
use hr_adapter::Registry;
use hr_base::{List, Memory};
use hr_event::TaskSpec;
use hr_filter::select;
use hr_policy::Policy;
use std::alloc::Global;

/// Plans a policy: a task for each repository that it picks of the source, in byte order.
///
/// It asks for the repositories, and then for the tags of each that meets all filters on names, in
/// order, until one answers an error. A name at the destination that is too long is told only where
/// all of them answered.
pub fn plan<A: Registry>(
    alloc: Global,
    policy: &Policy,
    source: &mut A,
) -> Result<List<TaskSpec>, PlanRefused>
    requires least { negsuc 0 ≤ℤ policy.now.replace }
    requires most { policy.now.replace ≤ℤ pos 3 }

    // What was asked, in order, with which answers, and what came out of them.
    ensures exact { Plans policy.now (A.seen source.old) (A.seen source.new) result }

    // Where it tells its content, and no change of it is planned.
    ensures told { IsTrue (A.seen source.old).quiet
        → IfSome (A.seen source.old).told (λ c. AnswersBy policy.now c result) }
    ensures in_order { IfOk result AreInOrder }
    ensures failed { (low high : ℕ) → (result ≡ Err (PlanRefused.Fault low high))
        → HasRisen (A.seen source.old) (A.seen source.new) low high }
    ensures left { Listens (A.seen source.old) (A.seen source.new) }
{
    plan_source(alloc, policy, source)
}

// The plan of a policy, by the exact relation alone.
fn plan_source<A: Registry>(
    alloc: Global,
    policy: &Policy,
    source: &mut A,
) -> Result<List<TaskSpec>, PlanRefused>
    requires least { negsuc 0 ≤ℤ policy.now.replace }
    requires most { policy.now.replace ≤ℤ pos 3 }
    ensures { Plans policy.now (A.seen source.old) (A.seen source.new) result }
{
    let listing = list_source(alloc, policy.filters.view(), source)?;
    let picks = match select(alloc, policy.filters.view(), listing.view()) {
        Ok(picks) => picks,
        Err(Memory) => return Err(PlanRefused::Memory),
    };
    make_tasks(alloc, policy, picks.view())
}
