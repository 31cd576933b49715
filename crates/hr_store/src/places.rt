//! Where the row of a job stands in a store: a binary search, since job numbers rise. (Our own.)
ghost use Rattle.std.specs.Prelude.{◌≡◌, ◌<◌, length};
ghost use Rattle.hr_store.specs.Execution.{last_job};
ghost use Rattle.hr_store.specs.Places.{FindsRow, rank_by};
ghost use Rattle.hr_store.specs.Store.{AreOrdered};

use crate::kept::Kept;

/// The place of the first execution whose last job is this one or a later one, or the number of
/// executions where there is none.
fn find_job(kept: &Kept, job: u32) -> usize
    requires { AreOrdered 0 0 kept.now }
    ensures { result ≡ rank_by last_job job kept.now }
{
    let mut low = 0;
    let mut high = kept.len();
    'halves: while low < high {
        let middle = low + (high - low) / 2;
        if kept.at(middle).last_job() < job {
            low = middle + 1;
        } else {
            high = middle;
        }
    }
    low
}

/// Where the row of a job stands: the place of its execution, and its place there. `None` where it is
/// not kept.
pub(crate) fn find_row(kept: &Kept, job: u32) -> Option<(usize, usize)>
    requires { AreOrdered 0 0 kept.now }
    ensures { FindsRow kept.now job result }
{
    let at = find_job(kept, job);
    if at >= kept.len() {
        return None;
    }
    let before = kept.at(at).before();
    if job <= before {
        return None;
    }
    Some((at, (job - before - 1) as usize))
}
