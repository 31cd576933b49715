//! The revisions that a lane holds, each by its job. (Our own.)
ghost use Rattle.std.specs.Prelude.{◌≡◌, ◌≤◌, ◌<◌, ◌+◌, ◌^◌, [], None, Some, IfNone, IfSome, OnOk, is_some, length};
ghost use Rattle.hr_line.specs.State.{HeldAfter, held_at};

use hr_base::{JobNo, Memory};
use hr_line::Held;
use indexmap::IndexMap;
use std::alloc::Global;
use std::marker::Model;

/// Revisions that are held, at most one of each job. A revision is found by its job in about the same
/// time, however many there are.
#[derive(Drop)]
pub(crate) struct Holding {
    jobs: IndexMap<u32, Held>,
}

impl Model for Holding {
    ghost use Rattle.indexmap.specs.IndexMap.{spare};
    ghost use Rattle.hr_lane.specs.Holding.{AreKeyed, Kept};
    ghost use Rattle.std.specs.Map.{values_of};

    ghost Value = { Kept };

    ghost view = { λ h. record { held = values_of h.jobs.entries; room = spare h.jobs } };

    ghost invariant = { λ h. AreKeyed h.jobs.entries };
}

impl Holding {
    /// No revision. It takes no memory, and keeps the allocator for those to come.
    pub(crate) fn new(alloc: Global) -> Holding
        ensures { result.held ≡ [] }
    {
        Holding {
            jobs: IndexMap::new(alloc),
        }
    }

    /// How many are held.
    pub(crate) fn len(&self) -> usize
        ensures value { result ≡ length self.now.held }
        ensures small { result < 2 ^ 63 }
    {
        self.jobs.len()
    }

    /// Whether a revision of that job is held.
    pub(crate) fn has(&self, job: JobNo) -> bool
        ensures { result ≡ is_some (held_at self.now.held job.0) }
    {
        self.jobs.contains_key(&job.0)
    }

    /// Takes room for one revision more.
    pub(crate) fn reserve(&mut self) -> Result<(), Memory>
        ensures ok { OnOk result (0 < self.new.room) }
        ensures unchanged { self.new.held ≡ self.old.held }
    {
        self.jobs.reserve(1)?;
        Ok(())
    }

    /// Takes out the revision of that job, where one is held.
    pub(crate) fn take(&mut self, job: JobNo) -> Option<Held>
        ensures value { result ≡ held_at self.old.held job.0 }
        ensures gone { HeldAfter job.0 None self.old.held self.new.held }
        ensures absent { IfNone result (self.new.held ≡ self.old.held) }
        ensures fewer { IfSome result (λ h. length self.new.held + 1 ≡ length self.old.held) }
    {
        self.jobs.swap_remove(&job.0)
    }

    /// Puts a revision there, for which there is room, and of whose job none is held.
    pub(crate) fn put(&mut self, held: Held)
        requires room { 0 < self.old.room }
        requires free { held_at self.old.held held.by.job.0 ≡ None }
        ensures there { HeldAfter held.by.job.0 (Some held) self.old.held self.new.held }
        ensures more { length self.new.held ≡ length self.old.held + 1 }
    {
        let job = held.by.job.0;
        match self.jobs.insert(job, held) {
            Ok(None) => {}
            Ok(Some(_)) => unreachable!(),
            Err(_) => unreachable!(),
        }
    }
}
