//! The queue of turns: each added job waits, is delayed, is out, or is done. (Our own.)
ghost use Rattle.std.specs.Prelude.{◌≡◌, ◌≤◌, ◌++◌, OnOk, MatchOption, length, slice_get};
ghost use Rattle.std.specs.List.{AllByRecursion};
ghost use Rattle.hr_base.specs.declared.status.Status.TheVariants.{Pending};
ghost use Rattle.hr_board.specs.Roles.{AllowsStatus, ServesQueue};
ghost use Rattle.hr_board.specs.View.{Keeps};
ghost use Rattle.hr_queue.specs.Adding.{IsFit};

use crate::answer::{DoneJob, Queued, Settled, Taken};
use crate::by_job::ByJob;
use crate::delayed::{Delayed, delay, take_due};
use crate::fate::{Fate, look_after};
use hr_base::{JobNo, Mark, Memory, Moment, Status, Trace};
use hr_board::Board;
use hr_event::Turn;
use std::alloc::Global;
use std::collections::{BinaryHeap, VecDeque};
use std::marker::Model;

/// Jobs and their turns. A job that was added waits, is delayed until a moment, is out with whoever
/// took its turn, or is done. Nothing but `reserve` takes memory.
#[derive(Debug, Drop)]
pub struct Queue {
    waiting: VecDeque<Turn>,
    delayed: BinaryHeap<Delayed>,
    out: ByJob,
    done: Vec<DoneJob>,
    jobs: u32,
    room: u32,
    added: Trace<Queued>,
}

impl Model for Queue {
    ghost use Rattle.std.specs.Prelude.{◌+◌, ◌-◌, length};
    ghost use Rattle.std.specs.VecDeque.{deque_len, deque_capacity};
    ghost use Rattle.std.specs.Vec.{vec_len, vec_capacity};
    ghost use Rattle.std.specs.BinaryHeap.{IsHeap, heap_items, heap_len, heap_capacity};
    ghost use Rattle.hr_queue.specs.Room.{HasRoom, HasRows};
    ghost use Rattle.hr_queue.specs.Rows.{outs};
    ghost use Rattle.hr_queue.specs.View.{View};
    ghost use Rattle.hr_queue.specs.Whole.{HoldEach};

    ghost Value = { View };

    ghost view = { λ q. record {
      waiting = q.waiting.items;
      delayed = heap_items q.delayed;
      out = outs q.out.rows;
      done = q.done.items;
      added = q.added.items;
      spare = q.room - q.jobs;
    } };

    ghost invariant = { λ q.
        HoldEach q.waiting.items (heap_items q.delayed) (outs q.out.rows) q.done.items
        q.added.items
        × IsHeap ⟦<Delayed as Ord>⟧.cmp (heap_items q.delayed)
        × HasRows q.out.rows q.added.items q.jobs
        × HasRoom q.jobs q.room
        (deque_len q.waiting + heap_len q.delayed + length (outs q.out.rows) + vec_len q.done)
        (deque_capacity q.waiting) (heap_capacity q.delayed) q.out.room
        (vec_capacity q.done) };
}

impl Queue {
    ghost use Rattle.std.specs.Prelude.{MatchOption, ◌≡◌, ◌++◌, length, slice_get};
    ghost use Rattle.hr_queue.specs.Adding.{Adds, AddsOne};
    ghost use Rattle.hr_queue.specs.ByJob.{IsOut, NoneOut};
    ghost use Rattle.hr_queue.specs.Settling.{Settles};
    ghost use Rattle.hr_queue.specs.Taking.{Rests, Takes};
    ghost use Rattle.hr_queue.specs.View.{View, empty_queue, AreDistinct, times_added};
    ghost use Rattle.hr_queue.specs.Whole.{IsWhole};

    /// A queue without jobs.
    pub fn new(alloc: Global) -> Queue
        ensures { result ≡ empty_queue }
    {
        Queue {
            waiting: VecDeque::new(alloc),
            delayed: BinaryHeap::new(alloc),
            out: ByJob::new(alloc),
            done: Vec::new(alloc),
            jobs: 0,
            room: 0,
            added: Trace::new(),
        }
    }

    /// Takes all room that so many more jobs will ever need, and changes nothing else.
    pub fn reserve(&mut self, jobs: u32) -> Result<(), Memory>
        ensures ok { OnOk result (jobs ≤ self.new.spare) }
        ensures unchanged { self.new ≡ record self.old { spare = self.new.spare } }
        ensures grows { self.old.spare ≤ self.new.spare }
    {
        let Some(room) = self.jobs.checked_add(jobs) else {
            return Err(Memory);
        };
        if room <= self.room {
            return Ok(());
        }
        let all = room as usize;
        self.waiting.reserve(all - self.waiting.len())?;
        self.delayed.reserve(all - self.delayed.len())?;
        self.out.reserve(all)?;
        self.done.reserve(all - self.done.len())?;
        self.room = room;
        Ok(())
    }

    // Puts a job at the end of the waiting ones, and opens the word of its revision 0.
    fn add_one<B: Board>(&mut self, board: &mut B, job: Queued)
        requires fit { IsFit (B.seen board.old).jobs job }
        requires new { times_added self.old.added job.job.0 ≡ 0 }
        requires room { 1 ≤ self.old.spare }
        requires allowed { AllowsStatus (B.seen board.old) Pending }
        ensures adds { AddsOne self.old (B.seen board.old) job self.new (B.seen board.new) }
        ensures kept { Keeps (B.seen board.old) (B.seen board.new) }
        ensures same { B.same board.old board.new }
    {
        let _ = board.advance(job.job, 0, Mark::Unopened, Mark::At(Status::Pending));
        let turn = Turn {
            job: job.job,
            rev: 0,
            attempts: job.attempts,
        };
        self.waiting.push_back_reserved(turn);
        self.out.add(turn);
        self.added = self.added.then(&job);
        self.jobs += 1;
    }

    /// Puts new jobs at the end of the waiting ones, in order, and opens the word of revision 0 of
    /// each as `Pending`. A word that is at another mark already stays, as one that was stopped.
    /// Jobs that come by rising number are added fastest: one whose number is lower than that of
    /// jobs added before takes time by how many those are.
    pub fn add<B: Board>(&mut self, board: &mut B, jobs: &[Queued])
        requires fit { AllByRecursion (IsFit (B.seen board.old).jobs) jobs.now }
        requires new { AreDistinct (self.old.added ++ jobs.now) }
        requires room { length jobs.now ≤ self.old.spare }
        requires allowed { ServesQueue (B.seen board.old) }
        ensures adds { Adds self.old (B.seen board.old) jobs.now self.new (B.seen board.new) }
        ensures kept { Keeps (B.seen board.old) (B.seen board.new) }
        ensures same { B.same board.old board.new }
    {
        for job in jobs {
            self.add_one(board, *job);
        }
    }

    /// The next turn at this moment, which is then out: of the delayed turns that are due the one
    /// with the least moment and then job number, else the first waiting one.
    pub fn take(&mut self, now: Moment) -> Taken
        ensures { Takes now.0 self.old result self.new }
    {
        if let Some(turn) = take_due(&mut self.delayed, now) {
            self.out.put_out(turn);
            return Taken::Turn(turn);
        }
        if let Some(turn) = self.waiting.pop_front() {
            self.out.put_out(turn);
            return Taken::Turn(turn);
        }
        self.rest()
    }

    // How many turns are out.
    fn count_out(&self) -> u32
        ensures { result ≡ length self.now.out }
    {
        let jobs = self.jobs;
        let others = self.waiting.len() + self.delayed.len() + self.done.len();
        jobs - others as u32
    }

    // Why no turn goes out, where none is due and none waits.
    fn rest(&self) -> Taken
        ensures { Rests self.now.delayed self.now.out result }
    {
        if let Some(first) = self.delayed.peek() {
            return Taken::Later { due: first.due() };
        }
        match self.count_out() {
            0 => Taken::Idle,
            out => Taken::Busy { out },
        }
    }

    /// Takes back the turn of a job and revision that is out. What becomes of it goes by its word,
    /// and by the attempts with which its job was added: `Back` where the word isn't final; `Again`,
    /// 10, 20 or 40 seconds later, where it is `Error` with an attempt left; else `Done`, also where
    /// the next attempt was stopped before it began.
    pub fn settle<B: Board>(&mut self, board: &mut B, turn: Turn, now: Moment) -> Settled
        requires job { turn.job.0 ≤ (B.seen board.old).jobs }
        requires allowed { ServesQueue (B.seen board.old) }
        ensures settles { Settles now.0 self.old (B.seen board.old) turn result self.new
            (B.seen board.new) }
        ensures kept { Keeps (B.seen board.old) (B.seen board.new) }
        ensures same { B.same board.old board.new }
    {
        let Some(held) = self.out.held(turn) else {
            return Settled::NotOut;
        };
        match look_after(board, held) {
            Fate::Unfinished => {
                self.out.take_back(held.job);
                self.waiting.push_back_reserved(held);
                Settled::Back
            }
            Fate::Over(rev, status) => {
                self.out.take_back(held.job);
                self.done.push_reserved(DoneJob {
                    job: held.job,
                    rev,
                    status,
                });
                Settled::Done(status)
            }
            Fate::Next => {
                self.out.take_back(held.job);
                Settled::Again {
                    due: delay(&mut self.delayed, held, now),
                }
            }
        }
    }

    /// The turn of a job, where it is out.
    pub fn out_of(&self, job: JobNo) -> Option<Turn>
        ensures { MatchOption result (NoneOut self.now.out job) (λ turn.
            (turn.job ≡ job) × IsOut self.now.out turn turn) }
    {
        self.out.of(job)
    }

    /// The turn that is out of the least job, where one is out.
    pub fn adopt(&self) -> Option<Turn>
        ensures { result ≡ slice_get self.now.out 0 }
    {
        self.out.first()
    }

    /// The jobs that are over, in the order in which they ended.
    pub fn done(&self) -> &[DoneJob]
        ensures { result.now ≡ self.now.done }
    {
        self.done.as_slice()
    }

    /// A law: at every moment each added job stands in exactly one list.
    pub fn is_whole(&self)
        ensures { IsWhole self.now }
    {
        let _ = &self.done;
    }
}
