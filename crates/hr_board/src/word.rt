//! Where the word of a revision stands on a board, and what mark it means.
ghost use Rattle.std.specs.Prelude.{◌≡◌, ◌≤◌};
ghost use Rattle.hr_base.specs.Status.{word_of};
ghost use Rattle.hr_board.specs.View.{place_of};

use hr_base::{JobNo, Mark};

/// Where the word of a revision, 0 to 3, stands, from 0: four places in a row for each job.
pub fn place(job: JobNo, rev: u8) -> usize
    requires { 1 ≤ job.0 }
    ensures { result ≡ place_of job.0 rev }
{
    4 * (job.0 as usize - 1) + rev as usize
}

/// The mark of a word.
pub fn mark_of(word: u64) -> Mark
    requires { word ≤ 6 }
    ensures { word_of result ≡ word }
{
    match Mark::of_word(word) {
        Some(mark) => mark,
        None => unreachable!(),
    }
}
