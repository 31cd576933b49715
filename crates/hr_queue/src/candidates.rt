//! Candidates for the least job whose turn is out: each job that is out, and some that came back.
ghost use Rattle.std.specs.Prelude.{◌≡◌, ◌<◌, ◌≤◌, ◌+◌, cond, true, false};
ghost use Rattle.std.specs.BinaryHeap.{IsHeap, heap_items, heap_len, heap_capacity};
ghost use Rattle.std.specs.Vec.{vec_len, vec_capacity};
ghost use Rattle.hr_queue.specs.Rows.{is_candidate, outs, Offers, AreCandidates, LeadsOut, SameJobs};

use crate::rows::{Row, Side, known_row, write_row};
use hr_base::JobNo;
use std::cmp::Reverse;
use std::collections::BinaryHeap;

/// Puts the job of a row among the candidates, where it is none yet.
pub(crate) fn offer(candidates: &mut BinaryHeap<Reverse<JobNo>>, row: Row)
    requires heap { IsHeap ⟦<Reverse<JobNo> as Ord>⟧.cmp (heap_items candidates.old) }
    requires room { is_candidate row.side ≡ false
        → heap_len candidates.old < heap_capacity candidates.old }
    ensures is { Offers row.side row.turn.job (heap_items candidates.old)
        (heap_items candidates.new) }
    ensures len { heap_len candidates.new
        ≡ heap_len candidates.old + cond (is_candidate row.side) 0 1 }
    ensures heap { IsHeap ⟦<Reverse<JobNo> as Ord>⟧.cmp (heap_items candidates.new) }
    ensures room { heap_capacity candidates.old ≤ heap_capacity candidates.new }
{
    match row.side {
        Side::In => match candidates.push(Reverse(row.turn.job)) {
            Ok(()) => {}
            Err(_) => unreachable!(),
        },
        _ => {}
    }
}

/// Drops the first candidate, where it came back.
pub(crate) fn drop_first(rows: &mut Vec<Row>, candidates: &mut BinaryHeap<Reverse<JobNo>>) -> bool
    requires heap { IsHeap ⟦<Reverse<JobNo> as Ord>⟧.cmp (heap_items candidates.old) }
    requires are { AreCandidates rows.old.items (heap_items candidates.old)
        (heap_len candidates.old) }
    ensures heap { IsHeap ⟦<Reverse<JobNo> as Ord>⟧.cmp (heap_items candidates.new) }
    ensures are { AreCandidates rows.new.items (heap_items candidates.new)
        (heap_len candidates.new) }
    ensures outs { outs rows.new.items ≡ outs rows.old.items }
    ensures jobs { SameJobs rows.old.items rows.new.items }
    ensures dropped { result ≡ true → heap_len candidates.new < heap_len candidates.old }
    ensures kept { result ≡ false → LeadsOut rows.new.items }
    ensures len { vec_len rows.new ≡ vec_len rows.old }
    ensures rows_room { vec_capacity rows.new ≡ vec_capacity rows.old }
    ensures room { heap_capacity candidates.new ≡ heap_capacity candidates.old }
    ensures fewer { heap_len candidates.new ≤ heap_len candidates.old }
{
    let Some(first) = candidates.peek() else {
        return false;
    };
    let (at, row) = known_row(rows, first.0);
    if row.side.is_out() {
        return false;
    }
    let Some(_dropped) = candidates.pop() else {
        unreachable!()
    };
    let left = Row {
        side: Side::In,
        ..row
    };
    write_row(rows, at, left);
    true
}

/// Drops the first candidates, up to one that is out.
pub(crate) fn drop_firsts(rows: &mut Vec<Row>, candidates: &mut BinaryHeap<Reverse<JobNo>>)
    requires heap { IsHeap ⟦<Reverse<JobNo> as Ord>⟧.cmp (heap_items candidates.old) }
    requires are { AreCandidates rows.old.items (heap_items candidates.old)
        (heap_len candidates.old) }
    ensures heap { IsHeap ⟦<Reverse<JobNo> as Ord>⟧.cmp (heap_items candidates.new) }
    ensures are { AreCandidates rows.new.items (heap_items candidates.new)
        (heap_len candidates.new) }
    ensures leads { LeadsOut rows.new.items }
    ensures outs { outs rows.new.items ≡ outs rows.old.items }
    ensures jobs { SameJobs rows.old.items rows.new.items }
    ensures len { vec_len rows.new ≡ vec_len rows.old }
    ensures rows_room { vec_capacity rows.new ≡ vec_capacity rows.old }
    ensures room { heap_capacity candidates.new ≡ heap_capacity candidates.old }
    ensures fewer { heap_len candidates.new ≤ heap_len candidates.old }
{
    'firsts: while drop_first(rows, candidates) {}
}
