//! A lane: it holds revisions of jobs, and does one step of one of them at a time. What it read,
//! found and put, it writes down. (Our own, after Harbor's job service.)
ghost use Rattle.std.specs.Prelude.{◌≡◌, ◌≤◌, ◌<◌, ◌+◌, IfSome, IsSome, None, is_some, length, reverse};
ghost use Rattle.std.specs.List.{AllByRecursion};
ghost use Rattle.hr_adapter.specs.Reg.{IsSound};
ghost use Rattle.hr_board.specs.Roles.{ServesLane};
ghost use Rattle.hr_board.specs.View.{Keeps};
ghost use Rattle.hr_line.specs.State.{held_at, link_at};

use crate::admission::admit_held;
use crate::conn::{Conn, are_sound};
use crate::holding::Holding;
use crate::roll::Roll;
use crate::stepping::step_held;
use hr_adapter::Registry;
use hr_base::{Hook, JobNo, List, Trace};
use hr_board::Board;
use hr_event::{Entry, TaskSpec, Turn};
use hr_line::{Admit, Admitted, Stepped};
use std::alloc::Global;
use std::marker::Model;

/// A lane with connections to the registries that it reads from, and to those that it writes to.
#[derive(Drop)]
pub struct Lane<A: Registry> {
    alloc: Global,
    sources: Vec<Conn<A>>,
    dests: Vec<Conn<A>>,
    log: Roll<Entry>,
    hooks: Roll<Hook>,
    admitted: Trace<Admitted>,
    holding: Holding,
    // Blobs go through it: of `PIECE` bytes, once a revision was admitted.
    buf: Vec<u8>,
}

impl<A: Registry> Model for Lane<A> {
    ghost use Rattle.std.specs.Prelude.{reverse, length};
    ghost use Rattle.hr_line.specs.State.{State};

    ghost Value = { State };

    ghost use Rattle.hr_lane.specs.Conn.{links_of};
    ghost use Rattle.hr_lane.specs.State.{IsReady, state_of};

    ghost view = { λ l. state_of (links_of A.seen l.sources.items) (links_of A.seen l.dests.items)
        l.log.newest l.hooks.newest (reverse l.admitted.items) l.holding.held };

    ghost invariant = { λ l. IsReady
        (state_of (links_of A.seen l.sources.items) (links_of A.seen l.dests.items)
        l.log.newest l.hooks.newest (reverse l.admitted.items) l.holding.held)
        l.log.room l.hooks.room (length l.buf.items) };
}

impl<A: Registry> Lane<A> {
    ghost use Rattle.hr_lane.specs.Admission.{AdmitsWord, AreNoted, by_turn};
    ghost use Rattle.hr_lane.specs.Conn.{AreDistinct, links_of};
    ghost use Rattle.hr_lane.specs.State.{new_lane};
    ghost use Rattle.hr_lane.specs.Word.{Steps};

    /// A lane that holds nothing. It takes no memory, and keeps the allocator.
    pub fn new(alloc: Global, sources: List<Conn<A>>, dests: List<Conn<A>>) -> Lane<A>
        requires sources { AreDistinct (links_of A.seen sources) }
        requires dests { AreDistinct (links_of A.seen dests) }
        ensures { result ≡ new_lane (links_of A.seen sources) (links_of A.seen dests) }
    {
        let sources = Vec::from(sources);
        let dests = Vec::from(dests);
        are_sound(&sources);
        are_sound(&dests);
        Lane {
            alloc,
            sources,
            dests,
            log: Roll::new(alloc),
            hooks: Roll::new(alloc),
            admitted: Trace::new(),
            holding: Holding::new(alloc),
            buf: Vec::new(alloc),
        }
    }

    /// Admits a revision whose word waits for its turn, and begins it. All room that it needs up to its
    /// end is taken first; `Memory` and `Lost` leave the lane as it was.
    pub fn admit<B: Board>(&mut self, board: &mut B, turn: &Turn, spec: TaskSpec) -> Admit
        requires job { (1 ≤ turn.now.job.0) × (turn.now.job.0 ≤ (B.seen board.old).jobs) }
        requires rev { turn.now.rev ≤ 3 }
        requires source { IsSome (link_at self.old.sources spec.src) }
        requires dest { IsSome (link_at self.old.dests spec.dst) }
        requires free { held_at self.old.held turn.now.job.0 ≡ None }
        requires allowed { ServesLane (B.seen board.old) }
        requires noted { AreNoted self.old.admitted (B.seen board.old) }
        ensures admits { AdmitsWord self.old self.new (by_turn turn.now spec)
            (B.seen board.old) (B.seen board.new) result }
        ensures kept { Keeps (B.seen board.old) (B.seen board.new) }
        ensures same { B.same board.old board.new }
    {
        let by = Admitted {
            job: turn.job,
            rev: turn.rev,
            spec,
        };
        admit_held(
            self.alloc,
            &mut self.log,
            &mut self.hooks,
            &mut self.buf,
            &mut self.admitted,
            &mut self.holding,
            board,
            by,
        )
    }

    /// Does one step of a job: it looks at the word of the revision that is held, and where that is at
    /// Running, does one line of the table, or ends the revision.
    pub fn step<B: Board>(&mut self, board: &mut B, job: JobNo) -> Stepped
        requires job { IfSome (held_at self.old.held job.0) (λ h. job.0 ≤ (B.seen board.old).jobs) }
        requires allowed { ServesLane (B.seen board.old) }
        ensures steps { Steps self.old self.new job (B.seen board.old) (B.seen board.new) result }
        ensures kept { Keeps (B.seen board.old) (B.seen board.new) }
        ensures same { B.same board.old board.new }
    {
        let Some(held) = self.holding.take(job) else {
            return Stepped::NotHere;
        };
        step_held(
            self.alloc,
            &mut self.sources,
            &mut self.dests,
            &mut self.log,
            &mut self.hooks,
            &mut self.buf,
            &mut self.holding,
            board,
            held,
        )
    }

    /// Whether a revision of that job is held.
    pub fn holds(&self, job: JobNo) -> bool
        ensures { result ≡ is_some (held_at self.now.held job.0) }
    {
        self.holding.has(job)
    }

    /// What happened, the oldest first.
    pub fn journal(&self) -> &[Entry]
        ensures { reverse result.now ≡ self.now.log }
    {
        self.log.view()
    }

    /// The hooks of the revisions that it began and ended, the oldest first.
    pub fn hooks(&self) -> &[Hook]
        ensures { reverse result.now ≡ self.now.hooks }
    {
        self.hooks.view()
    }

    /// The connections that it reads from.
    pub fn sources(&self) -> &[Conn<A>]
        ensures { links_of A.seen result.now ≡ self.now.sources }
    {
        &self.sources
    }

    /// The connections that it writes to.
    pub fn dests(&self) -> &[Conn<A>]
        ensures { links_of A.seen result.now ≡ self.now.dests }
    {
        &self.dests
    }

    /// A law: every connection is sound at every moment.
    pub fn is_sound(&self)
        ensures sources { AllByRecursion (λ l. IsSound l.seen) self.now.sources }
        ensures dests { AllByRecursion (λ l. IsSound l.seen) self.now.dests }
    {
        let _ = &self.sources;
    }
}
