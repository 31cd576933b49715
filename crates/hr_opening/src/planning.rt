//! The tasks that a trigger plans: one for each repository that has a tag. (Our own.)
ghost use Rattle.std.specs.Prelude.{◌≡◌, ◌++◌, IfOk, OnOk, map};
ghost use Rattle.hr_opening.specs.Plan.{plan_of, spec_of, specs_for};

use hr_adapter::{RegFault, Tagged};
use hr_base::{List, Memory, PolicyNo, RegNo};
use hr_event::TaskSpec;
use hr_memreg::MemRegistry;
use hr_name::{Name, Tag};
use std::alloc::Global;

/// The tasks for the tags of a registry, or `None` where it has more repositories, or more tags in
/// one, than may be listed.
pub fn plan(alloc: Global, source: &MemRegistry) -> Result<Option<List<TaskSpec>>, Memory>
    ensures { IfOk result (λ specs. specs ≡ plan_of source.now.content) }
{
    let names = match source.list_repos(alloc) {
        Ok(names) => names,
        Err(RegFault::TooLong { .. }) => return Ok(None),
        Err(RegFault::Memory) => return Err(Memory),
        Err(RegFault::Failed) => unreachable!(),
    };
    let mut specs = List::new(alloc);
    for name in names.view() {
        match source.list_tags(alloc, name) {
            Ok(tags) => push_spec(alloc, &mut specs, name, &tags)?,
            Err(RegFault::TooLong { .. }) => return Ok(None),
            Err(RegFault::Memory) => return Err(Memory),
            Err(RegFault::Failed) => unreachable!(),
        }
    }
    Ok(Some(specs))
}

// Puts the task of a repository at the end, where it has a tag.
#[tactic(auto, using(crate::proofs::PlanLemmas::specs_some))]
fn push_spec(
    alloc: Global,
    specs: &mut List<TaskSpec>,
    name: &Name,
    tags: &List<Tagged>,
) -> Result<(), Memory>
    ensures ok { OnOk result (specs.new ≡ specs.old ++ specs_for name.now tags.now) }
{
    if tags.view().is_empty() {
        return Ok(());
    }
    let spec = make_spec(alloc, name, tags)?;
    specs.push(spec)?;
    Ok(())
}

// The task of a repository with these tags.
fn make_spec(alloc: Global, name: &Name, tags: &List<Tagged>) -> Result<TaskSpec, Memory>
    ensures { IfOk result (λ spec. spec ≡ spec_of name.now tags.now) }
{
    Ok(TaskSpec {
        policy: PolicyNo(1),
        src: RegNo(1),
        dst: RegNo(2),
        from: name.copy(alloc)?,
        to: name.copy(alloc)?,
        tags: pick_tags(alloc, tags.view())?,
        override_it: true,
        attempts: 3,
    })
}

// The tags without their labels.
fn pick_tags(alloc: Global, tags: &[Tagged]) -> Result<List<Tag>, Memory>
    ensures { IfOk result (λ picked. picked ≡ map (λ tagged. tagged.tag) tags.now) }
{
    let mut picked = List::new(alloc);
    for tagged in tags {
        picked.push(tagged.tag.copy(alloc)?)?;
    }
    Ok(picked)
}
