//! Turns that wait for their moment. The order is that of moments, and then of job numbers.
ghost use Rattle.std.specs.Prelude.{◌≡◌, ◌<◌, ◌≤◌, ◌+◌, IfSome, IfNone, MatchOption};
ghost use Rattle.std.specs.BinaryHeap.{IsHeap, heap_items, heap_len, heap_capacity};
ghost use Rattle.hr_queue.specs.Settling.{IsDelayed, backoff_of};
ghost use Rattle.hr_queue.specs.Taking.{IsDue, NoneDue};
ghost use Rattle.hr_queue.specs.View.{turn_of};

use hr_base::{JobNo, Moment};
use hr_event::Turn;
use std::cmp::Reverse;
use std::collections::BinaryHeap;

/// A turn that waits for its moment. Of two, the greater is the one with the lower moment, and of
/// those the one with the lower job number.
#[derive(Clone, Copy, Debug, PartialEq, Eq, PartialOrd, Ord)]
pub(crate) struct Delayed {
    due: Reverse<Moment>,
    job: Reverse<JobNo>,
    rev: u8,
    attempts: u8,
}

impl Delayed {
    pub(crate) fn new(due: Moment, turn: Turn) -> Delayed
        ensures { (result.due.0 ≡ due) × (turn_of result ≡ turn) }
    {
        Delayed {
            due: Reverse(due),
            job: Reverse(turn.job),
            rev: turn.rev,
            attempts: turn.attempts,
        }
    }

    pub(crate) fn due(&self) -> Moment
        ensures { result ≡ self.now.due.0 }
    {
        self.due.0
    }

    pub(crate) fn turn(&self) -> Turn
        ensures { result ≡ turn_of self.now }
    {
        Turn {
            job: self.job.0,
            rev: self.rev,
            attempts: self.attempts,
        }
    }
}

/// Takes the delayed turn that comes first, where it is due.
pub(crate) fn take_due(delayed: &mut BinaryHeap<Delayed>, now: Moment) -> Option<Turn>
    requires { IsHeap ⟦<Delayed as Ord>⟧.cmp (heap_items delayed.old) }
    ensures due { IfSome result (λ turn.
        IsDue now.0 (heap_items delayed.old) turn (heap_items delayed.new)) }
    ensures none { IfNone result (NoneDue now.0 (heap_items delayed.old)
        × (delayed.new ≡ delayed.old)) }
    ensures len { MatchOption result (heap_len delayed.new ≡ heap_len delayed.old)
        (λ _. heap_len delayed.new + 1 ≡ heap_len delayed.old) }
    ensures heap { IsHeap ⟦<Delayed as Ord>⟧.cmp (heap_items delayed.new) }
    ensures room { heap_capacity delayed.new ≡ heap_capacity delayed.old }
{
    let Some(first) = delayed.peek() else {
        return None;
    };
    if now.0 < first.due().0 {
        return None;
    }
    let Some(due) = delayed.pop() else {
        return None;
    };
    Some(due.turn())
}

/// Delays the revision after a turn's, by the turn's backoff. Answers the moment that it waits for.
pub(crate) fn delay(delayed: &mut BinaryHeap<Delayed>, held: Turn, now: Moment) -> Moment
    requires heap { IsHeap ⟦<Delayed as Ord>⟧.cmp (heap_items delayed.old) }
    requires room { heap_len delayed.old < heap_capacity delayed.old }
    requires turn { held.rev + 1 < held.attempts }
    requires few { held.attempts ≤ 4 }
    ensures is { IsDelayed now.0 (heap_items delayed.old) held result.0 (heap_items delayed.new) }
    ensures heap { IsHeap ⟦<Delayed as Ord>⟧.cmp (heap_items delayed.new) }
    ensures len { heap_len delayed.new ≡ heap_len delayed.old + 1 }
    ensures room { heap_capacity delayed.old ≤ heap_capacity delayed.new }
{
    let due = now.plus(backoff(held.rev));
    let next = Turn {
        rev: held.rev + 1,
        ..held
    };
    match delayed.push(Delayed::new(due, next)) {
        Ok(()) => due,
        Err(_) => unreachable!(),
    }
}

// How many seconds a job waits after its revision of this number failed. Each wait is twice the one
// before.
fn backoff(rev: u8) -> u64
    requires { rev ≤ 2 }
    ensures { result ≡ backoff_of rev }
{
    match rev {
        0 => 10,
        1 => 20,
        _ => 40,
    }
}
