//! Rows, raised by the marks of the board. (Our own.)
ghost use Rattle.std.specs.Prelude.{◌≡◌};
ghost use Rattle.hr_base.specs.Merge.{is_above};
ghost use Rattle.hr_rest.specs.Raising.{raised, raised_by};

use hr_base::{Mark, Status};

/// A row, which is a revision from 0 to 3 with its status, raised by the marks of the revisions 0 to
/// 3 of its job: the first greatest of the row and of the revisions that were opened. A board may
/// know more than the hooks that were received.
pub fn raise(row: (u8, Status), marks: &[Mark; 4]) -> (u8, Status)
    ensures { result ≡ raised row marks.now }
{
    let mut known = row;
    let mut rev = 0u8;
    for mark in marks {
        known = raised_by(known, rev, *mark);
        rev += 1;
    }
    known
}

// What is known of a job, and the mark of a revision besides.
fn raised_by(known: (u8, Status), rev: u8, mark: Mark) -> (u8, Status)
    ensures { result ≡ raised_by known rev mark }
{
    let Mark::At(status) = mark else {
        return known;
    };
    if is_above(rev, status, known) {
        (rev, status)
    } else {
        known
    }
}

// Whether a revision with its status is above what is known: by revision, and then by code.
fn is_above(rev: u8, status: Status, known: (u8, Status)) -> bool
    ensures { result ≡ is_above (rev, status) known }
{
    rev > known.0 || rev == known.0 && status.code() > known.1.code()
}
