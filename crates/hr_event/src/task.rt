//! What a task copies, and its turns. (Our own, after Harbor's job service.)
ghost use Rattle.std.specs.Prelude.{◌≡◌, IfOk};

use hr_base::{JobNo, List, Memory, PolicyNo, RegNo};
use hr_name::{Name, Tag};
use std::alloc::Global;

/// What a task copies: some tags of one repository, each with its whole graph.
#[derive(Debug, Drop, PartialEq, Eq)]
pub struct TaskSpec {
    /// The policy that planned it.
    pub policy: PolicyNo,
    /// The source registry.
    pub src: RegNo,
    /// The destination registry.
    pub dst: RegNo,
    /// The repository at the source.
    pub from: Name,
    /// The repository at the destination.
    pub to: Name,
    /// The tags, in byte order.
    pub tags: List<Tag>,
    /// Whether a tag that names another manifest at the destination is replaced.
    pub override_it: bool,
    /// How many revisions the job has at most, from 1 to 4.
    pub attempts: u8,
}

/// A turn of a job: one revision of it that a worker may take.
#[derive(Clone, Copy, Debug, PartialEq, Eq)]
pub struct Turn {
    pub job: JobNo,
    /// From 0 to 3.
    pub rev: u8,
    /// How many revisions the job has at most, from 1 to 4.
    pub attempts: u8,
}

impl TaskSpec {
    /// An equal value.
    pub fn copy(&self, alloc: Global) -> Result<TaskSpec, Memory>
        ensures { IfOk result (λ made. made ≡ self.now) }
    {
        Ok(TaskSpec {
            policy: self.policy,
            src: self.src,
            dst: self.dst,
            from: self.from.copy(alloc)?,
            to: self.to.copy(alloc)?,
            tags: copy_tags(alloc, self.tags.view())?,
            override_it: self.override_it,
            attempts: self.attempts,
        })
    }
}

// Equal tags.
fn copy_tags(alloc: Global, tags: &[Tag]) -> Result<List<Tag>, Memory>
    ensures { IfOk result (λ made. made ≡ tags.now) }
{
    let mut made = List::new(alloc);
    for tag in tags {
        made.push(tag.copy(alloc)?)?;
    }
    Ok(made)
}
