//! What a board saw and did, for contracts alone: a trace, which takes no bytes.
ghost use Rattle.std.specs.Prelude.{◌≡◌};
ghost use Rattle.hr_board.specs.Past.{no_past, past_of, with_note};

use hr_base::Trace;

/// One thing that a board saw or did, by places and words.
#[derive(Clone, Copy)]
pub(crate) enum Note {
    /// It saw this word there.
    Saw(usize, u64),
    /// It moved the word there from one to the other itself.
    Moved(usize, u64, u64),
}

/// The trace of a board that saw and did nothing.
pub(crate) fn new_trace() -> Trace<Note>
    ensures { past_of result.items ≡ no_past }
{
    Trace::new()
}

/// The trace with one note more.
pub(crate) fn noted(before: &Trace<Note>, note: &Note) -> Trace<Note>
    ensures { past_of result.items ≡ with_note (past_of before.now.items) note.now }
{
    before.then(note)
}
