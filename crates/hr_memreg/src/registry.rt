//! A registry in memory, which tells its content, its operations and what is planned for them. (Our
//! own.)
ghost use Rattle.std.specs.Prelude.{◌≡◌, IfOk, map};
ghost use Rattle.std.specs.List.Sorted.{IsStrictlySortedBy};
ghost use Rattle.std.specs.Cmp.Lexicographic.{slice_cmp};
ghost use Rattle.std.specs.Ordering.{nat_cmp};
ghost use Rattle.hr_adapter.specs.Listing.{repos_of, tags_of};
ghost use Rattle.hr_adapter.specs.Reg.{IsSound};
ghost use Rattle.hr_memreg.specs.Answer.{GivesList};
ghost use Rattle.hr_memreg.specs.Listed.{content_of, lines_of};
ghost use Rattle.hr_memreg.specs.Mem.{new_mem, seen_of, with_failing, with_moves};

use crate::Content;
use crate::blob::Reading;
use crate::held::Held;
use crate::standing::Standing;
use crate::writing::Begun;
use hr_adapter::{Change, Planned, RegFault, Tagged};
use hr_base::{List, Memory, Trace};
use hr_name::Name;
use std::alloc::Global;
use std::marker::Model;

/// A registry in memory. Its operations are counted from 1 to `2^64 - 1`, where the number stays.
/// It fails at the operations that were planned, and at no other.
#[derive(Drop)]
pub struct MemRegistry {
    pub(crate) alloc: Global,
    pub(crate) standing: Standing,
    pub(crate) failing: List<Planned>,
    pub(crate) faults: u64,
    pub(crate) reading: Option<Reading>,
    pub(crate) writing: Option<Begun>,
    pub(crate) trace: Trace<Standing>,
}

// A registry in memory may stand behind a lock, or go to another thread.
trait Movable: Send {}

impl Movable for MemRegistry {}

impl Model for MemRegistry {
    ghost use Rattle.std.specs.Prelude.{option_map};
    ghost use Rattle.hr_memreg.specs.Begun.{writing_of};
    ghost use Rattle.hr_memreg.specs.Mem.{Mem};
    ghost use Rattle.hr_memreg.specs.Shown.{AreRows, rows_ever};

    ghost Value = { Mem };

    ghost view = { λ registry. record {
      content = registry.standing.held;
      ever = rows_ever registry.trace.items;
      plan = record {
        operations = registry.standing.operations;
        failing = registry.failing;
        moves = registry.standing.moves;
      };
      faults = registry.faults;
      reading = registry.reading;
      writing = option_map writing_of registry.writing;
    } };

    ghost invariant = { λ registry. AreRows registry.standing (rows_ever registry.trace.items) };
}

impl MemRegistry {
    /// A registry that holds this content. It was asked for nothing, and nothing is planned.
    pub fn new(alloc: Global, content: Content) -> Result<MemRegistry, Memory>
        ensures { IfOk result (λ registry. registry ≡ new_mem (content_of content)) }
    {
        let standing = Standing {
            held: Held::of(alloc, content)?,
            moves: List::new(alloc),
            operations: 0,
        };
        let trace = Trace::new().then(&standing);
        Ok(MemRegistry {
            alloc,
            standing,
            failing: List::new(alloc),
            faults: 0,
            reading: None,
            writing: None,
            trace,
        })
    }

    /// Plans which operations fail, in place of what was planned before. One that several entries
    /// name takes effect all the same where one of them says so. It takes no memory.
    pub fn with_faults(&mut self, planned: List<Planned>)
        ensures { self.new ≡ with_failing planned self.old }
    {
        self.failing = planned;
    }

    /// Plans changes of tags, in place of those that were planned before. Several at one operation
    /// are made in their order. It takes no memory.
    pub fn with_changes(&mut self, changes: List<Change>)
        ensures { self.new ≡ with_moves changes self.old }
    {
        self.standing.moves = changes;
        self.trace = self.trace.then(&self.standing);
    }

    /// Its content, all in byte order. It is no operation.
    pub fn content(&self, alloc: Global) -> Result<Content, Memory>
        ensures { IfOk result (λ content. content ≡ lines_of self.now.content) }
    {
        self.standing.held.content(alloc)
    }

    /// How often it failed: 0 to `2^64 - 1`, where it stays. It is no operation.
    pub fn faults(&self) -> u64
        ensures value { result ≡ self.now.faults }
        ensures sound { IsSound (seen_of self.now) }
    {
        let _ = &self.standing;
        self.faults
    }

    /// The names of all repositories, in byte order. It is no operation.
    ///
    /// `TooLong` comes exactly where there are more than `LIST_LIMIT`; it never fails.
    pub fn list_repos(&self, alloc: Global) -> Result<List<Name>, RegFault>
        ensures gives { GivesList (repos_of self.now.content) result }
        ensures ordered { IsStrictlySortedBy (slice_cmp nat_cmp) (repos_of self.now.content) }
    {
        self.standing.held.names(alloc)
    }

    /// All tags of a repository with their labels, in byte order: none where there is no such
    /// repository. It is no operation.
    ///
    /// `TooLong` comes exactly where there are more than `LIST_LIMIT`; it never fails.
    pub fn list_tags(&self, alloc: Global, repo: &Name) -> Result<List<Tagged>, RegFault>
        ensures gives { GivesList (tags_of self.now.content repo.now) result }
        ensures ordered { IsStrictlySortedBy (slice_cmp nat_cmp)
            (map (λ t. t.tag) (tags_of self.now.content repo.now)) }
    {
        self.standing.held.tags(alloc, repo)
    }
}
