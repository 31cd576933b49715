//! The turns that are out, by job number. Each added job has a row, so that a turn that goes out or
//! comes back is found by a binary search, and moves no other.

use crate::candidates::{drop_firsts, offer};
use crate::rows::{Row, Side, find, known_row, row_of, write_row};
use hr_base::{JobNo, Memory};
use hr_event::Turn;
use std::alloc::Global;
use std::cmp::Reverse;
use std::collections::BinaryHeap;
use std::marker::Model;

/// Rows of the added jobs, and candidates for the least job that is out.
#[derive(Debug, Drop)]
pub(crate) struct ByJob {
    rows: Vec<Row>,
    candidates: BinaryHeap<Reverse<JobNo>>,
    room: usize,
}

impl Model for ByJob {
    ghost use Rattle.std.specs.Vec.{vec_len, vec_capacity};
    ghost use Rattle.std.specs.BinaryHeap.{IsHeap, heap_items, heap_len, heap_capacity};
    ghost use Rattle.hr_queue.specs.Rows.{AreCandidates, HasPlaces, LeadsOut, Rows};

    ghost Value = { Rows };

    ghost view = { λ t. record { rows = t.rows.items; room = t.room } };

    ghost invariant = { λ t.
        AreCandidates t.rows.items (heap_items t.candidates) (heap_len t.candidates)
        × LeadsOut t.rows.items
        × IsHeap ⟦<Reverse<JobNo> as Ord>⟧.cmp (heap_items t.candidates)
        × HasPlaces (vec_len t.rows) t.room (vec_capacity t.rows) (heap_capacity t.candidates) };
}

impl ByJob {
    ghost use Rattle.std.specs.Prelude.{◌≡◌, ℕ, ◌+◌, ◌<◌, ◌≤◌, OnOk, MatchOption, cond, nat_eq, [], length, slice_get};
    ghost use Rattle.hr_queue.specs.ByJob.{IsOut, NoneOut, NotOut, with_turn, without_job};
    ghost use Rattle.hr_queue.specs.Rows.{SameJobs, outs, times_row};
    ghost use Rattle.hr_queue.specs.View.{times_in};

    /// No rows.
    pub(crate) fn new(alloc: Global) -> ByJob
        ensures { result ≡ record { rows = []; room = 0 } }
    {
        ByJob {
            rows: Vec::new(alloc),
            candidates: BinaryHeap::new(alloc),
            room: 0,
        }
    }

    /// Takes room for so many rows in all.
    pub(crate) fn reserve(&mut self, room: usize) -> Result<(), Memory>
        ensures ok { OnOk result (room ≤ self.new.room) }
        ensures unchanged { self.new.rows ≡ self.old.rows }
        ensures grows { self.old.room ≤ self.new.room }
    {
        if room <= self.room {
            return Ok(());
        }
        self.rows.reserve(room - self.rows.len())?;
        self.candidates.reserve(room - self.candidates.len())?;
        self.room = room;
        Ok(())
    }

    /// Makes the row of a new job, whose turn is not out. Jobs that come by rising number move no
    /// other row.
    pub(crate) fn add(&mut self, turn: Turn)
        requires new { times_row self.old.rows turn.job.0 ≡ 0 }
        requires room { length self.old.rows < self.old.room }
        ensures outs { outs self.new.rows ≡ outs self.old.rows }
        ensures jobs { (job : ℕ) → times_row self.new.rows job
            ≡ times_row self.old.rows job + cond (nat_eq turn.job.0 job) 1 0 }
        ensures len { length self.new.rows ≡ length self.old.rows + 1 }
        ensures room { self.new.room ≡ self.old.room }
    {
        let at = find(&self.rows, turn.job);
        let side = Side::In;
        match self.rows.insert(at, Row { turn, side }) {
            Ok(()) => {}
            Err(_) => unreachable!(),
        }
    }

    /// Puts a turn out, of a job that has a row and is not out.
    pub(crate) fn put_out(&mut self, turn: Turn)
        requires known { 1 ≤ times_row self.old.rows turn.job.0 }
        requires new { times_in (outs self.old.rows) turn.job.0 ≡ 0 }
        ensures is { outs self.new.rows ≡ with_turn (outs self.old.rows) turn }
        ensures jobs { SameJobs self.old.rows self.new.rows }
        ensures len { length (outs self.new.rows) ≡ length (outs self.old.rows) + 1 }
        ensures room { self.new.room ≡ self.old.room }
    {
        let (at, row) = known_row(&self.rows, turn.job);
        offer(&mut self.candidates, row);
        let side = Side::Out;
        write_row(&mut self.rows, at, Row { turn, side });
    }

    /// Takes back the turn of a job that is out.
    pub(crate) fn take_back(&mut self, job: JobNo)
        requires out { 1 ≤ times_in (outs self.old.rows) job.0 }
        ensures is { outs self.new.rows ≡ without_job (outs self.old.rows) job.0 }
        ensures jobs { SameJobs self.old.rows self.new.rows }
        ensures len { length (outs self.new.rows) + 1 ≡ length (outs self.old.rows) }
        ensures room { self.new.room ≡ self.old.room }
    {
        let (at, row) = known_row(&self.rows, job);
        let back = Row {
            side: Side::Back,
            ..row
        };
        write_row(&mut self.rows, at, back);
        drop_firsts(&mut self.rows, &mut self.candidates);
    }

    /// The turn of a job, where it is out.
    pub(crate) fn of(&self, job: JobNo) -> Option<Turn>
        ensures { MatchOption result (NoneOut (outs self.now.rows) job) (λ turn.
            (turn.job ≡ job) × IsOut (outs self.now.rows) turn turn) }
    {
        let Some((_, row)) = row_of(&self.rows, job) else {
            return None;
        };
        if !row.side.is_out() {
            return None;
        }
        Some(row.turn)
    }

    /// The turn of this job and revision, where it is out.
    pub(crate) fn held(&self, turn: Turn) -> Option<Turn>
        ensures { MatchOption result (NotOut (outs self.now.rows) turn) (λ held.
            IsOut (outs self.now.rows) turn held) }
    {
        let Some(held) = self.of(turn.job) else {
            return None;
        };
        if held.rev != turn.rev {
            return None;
        }
        Some(held)
    }

    /// The turn that is out of the least job, where one is out.
    pub(crate) fn first(&self) -> Option<Turn>
        ensures { result ≡ slice_get (outs self.now.rows) 0 }
    {
        let Some(first) = self.candidates.peek() else {
            return None;
        };
        let (_, row) = known_row(&self.rows, first.0);
        Some(row.turn)
    }
}
