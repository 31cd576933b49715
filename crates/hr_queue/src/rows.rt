//! Rows of the jobs that were added, by job number. A row says whether the turn of its job is out.
ghost use Rattle.std.specs.Prelude.{◌≡◌, ◌<◌, ◌≤◌, MatchOption, length, slice_set};
ghost use Rattle.std.specs.Vec.{vec_len, vec_capacity};
ghost use Rattle.hr_queue.specs.Rows.{is_out, row_rank, times_row, AreByJob, IsRow};

use hr_base::JobNo;
use hr_event::Turn;

/// Whether the turn of a job is out, and whether its job is a candidate for the least one out.
#[derive(Clone, Copy, Debug, PartialEq, Eq)]
pub(crate) enum Side {
    /// It is not out, and no candidate.
    In,
    /// It came back, and is a candidate still.
    Back,
    /// It is out, and a candidate.
    Out,
}

impl Side {
    pub(crate) fn is_out(self) -> bool
        ensures { result ≡ is_out self }
    {
        match self {
            Side::Out => true,
            _ => false,
        }
    }
}

/// The last turn of a job that was out, or its first one where none was yet.
#[derive(Clone, Copy, Debug, PartialEq, Eq)]
pub(crate) struct Row {
    pub(crate) turn: Turn,
    pub(crate) side: Side,
}

/// The place of a job among rows by job number.
pub(crate) fn find(rows: &Vec<Row>, job: JobNo) -> usize
    requires { AreByJob rows.now.items }
    ensures is { result ≡ row_rank job.0 rows.now.items }
    ensures within { result ≤ length rows.now.items }
{
    let mut low = 0;
    let mut high = rows.len();
    'halves: while low < high {
        let middle = low + (high - low) / 2;
        if rows[middle].turn.job.0 < job.0 {
            low = middle + 1;
        } else {
            high = middle;
        }
    }
    low
}

/// The row of a job and its place, where it has one.
pub(crate) fn row_of(rows: &Vec<Row>, job: JobNo) -> Option<(usize, Row)>
    requires { AreByJob rows.now.items }
    ensures { MatchOption result (times_row rows.now.items job.0 ≡ 0) (λ found.
        IsRow rows.now.items found.0 job found.1) }
{
    let at = find(rows, job);
    if at == rows.len() {
        return None;
    }
    let row = rows[at];
    if row.turn.job.0 != job.0 {
        return None;
    }
    Some((at, row))
}

/// The row of a job that has one, and its place.
pub(crate) fn known_row(rows: &Vec<Row>, job: JobNo) -> (usize, Row)
    requires by_job { AreByJob rows.now.items }
    requires known { 1 ≤ times_row rows.now.items job.0 }
    ensures { IsRow rows.now.items result.0 job result.1 }
{
    match row_of(rows, job) {
        Some(found) => found,
        None => unreachable!(),
    }
}

/// Writes another row at a place.
pub(crate) fn write_row(rows: &mut Vec<Row>, at: usize, row: Row)
    requires { at < length rows.old.items }
    ensures is { rows.new.items ≡ slice_set rows.old.items at row }
    ensures len { vec_len rows.new ≡ vec_len rows.old }
    ensures room { vec_capacity rows.new ≡ vec_capacity rows.old }
{
    rows[at] = row;
}
