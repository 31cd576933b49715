//! The plain board, for one thread: a word of eight bytes for each revision, and nothing else.
ghost use Rattle.std.specs.Prelude.{◌≡◌, ◌/◌, ◌≤◌, IfOk, length};

use crate::Board;
use crate::trail::{Note, new_trace, noted};
use crate::word::{mark_of, place};
use hr_base::{JobNo, Mark, Memory, Status, Trace};
use std::alloc::Global;
use std::marker::Model;

/// A board of its own, which nobody else moves. It allows every move, and tells its words.
#[derive(Debug, Drop)]
pub struct PlainBoard {
    words: Vec<u64>,
    trail: Trace<Note>,
}

impl Model for PlainBoard {
    ghost use Rattle.hr_board.specs.Past.{past_of};
    ghost use Rattle.hr_board.specs.Plain.{Plain, IsLawful};

    ghost Value = { Plain };

    ghost view = { λ board. record { words = board.words.items; past = past_of board.trail.items } };

    ghost invariant = { λ board. IsLawful board.words.items (past_of board.trail.items) };
}

impl PlainBoard {
    ghost use Rattle.hr_board.specs.Plain.{new_board, IsLawful};
    ghost use Rattle.hr_board.specs.Current.{IsCurrent};

    /// A board of this many jobs, all of whose words are `Unopened`.
    pub fn new(alloc: Global, jobs: u32) -> Result<PlainBoard, Memory>
        ensures { IfOk result (λ board. board ≡ new_board jobs) }
    {
        Ok(PlainBoard {
            words: vec![in alloc; 0u64; 4 * jobs as usize]?,
            trail: new_trace(),
        })
    }

    /// Where a job stands: its last opened revision with the status of that, or revision 0 with
    /// `Pending` where none is opened.
    pub fn current(&self, job: JobNo) -> (u8, Status)
        requires { (1 ≤ job.0) × (job.0 ≤ length self.now.words / 4) }
        ensures { IsCurrent self.now.words job.0 4 result }
    {
        let mut row = (0, Status::Pending);
        for rev in 0..4u8 {
            if let Mark::At(status) = mark_of(self.words[place(job, rev)]) {
                row = (rev, status);
            }
        }
        row
    }

    /// A law: at every moment words, notes, own final moves and opens agree.
    pub fn is_lawful(&self)
        ensures { IsLawful self.now.words self.now.past }
    {
        let _ = &self.words;
    }
}

impl Board for PlainBoard {
    ghost use Rattle.hr_board.specs.Plain.{view_of};

    ghost seen = { view_of };

    ghost use Rattle.std.specs.Prelude.{⊤};

    ghost same = { λ _ _. ⊤ };

    ghost same_as_itself = { λ _. tt };

    ghost same_after = { λ _ _ _ _ _. tt };

    fn jobs(&self) -> u32 {
        (self.words.len() / 4) as u32
    }

    fn look(&mut self, job: JobNo, rev: u8) -> Mark {
        let at = place(job, rev);
        let found = self.words[at];
        self.trail = noted(&self.trail, &Note::Saw(at, found));
        mark_of(found)
    }

    fn advance(&mut self, job: JobNo, rev: u8, from: Mark, to: Mark) -> Result<(), Mark> {
        let at = place(job, rev);
        let word = self.words[at];
        let (old, new) = (from.word(), to.word());
        if word != old {
            self.trail = noted(&self.trail, &Note::Saw(at, word));
            return Err(mark_of(word));
        }
        self.words[at] = new;
        self.trail = noted(&self.trail, &Note::Moved(at, old, new));
        Ok(())
    }
}
