//! What a board of status words is: the contract that whatever steps, queues or records jobs is
//! written against. (Our own.)
ghost use Rattle.std.specs.Prelude.{◌≡◌, ◌≢◌, ℕ, ◌≤◌, ◌∷◌, [], IsTrue, IfErr, OnOk};
ghost use Rattle.hr_board.specs.Moves.{IsMove};
ghost use Rattle.hr_board.specs.View.{View, place_of, Finds, noting, moving, Keeps, OpensAfterError};
ghost use Rattle.hr_base.specs.Status.{word_of};

use hr_base::{JobNo, Mark};

/// A board has a word for each revision, 0 to 3, of each job, from 1 to `jobs()`. A word opens as
/// `Unopened`, and moves
///
/// ```text
/// Unopened ──→ Pending | Scheduled ──→ Running ──→ Error | Success
///     └───────────────┴───────────────────┴─────→ Stopped
/// ```
///
/// A later revision opens only after the one before it ended at `Error`. Others may move the words
/// too, so a board knows of a word what it noted: what is noted later is reached from it, and a
/// final mark, once noted, is the word for good.
pub trait Board: Drop {
    /// The board as contracts see it.
    ghost seen: { Self → View };

    /// It is the same board, of which this is the same part, with the same leave to move.
    ghost same: { Self → Self → Type 0 };

    /// How many jobs it has.
    fn jobs(&self) -> u32
        ensures { result ≡ (seen self.now).jobs };

    /// Looks at a word, and notes it.
    fn look(&mut self, job: JobNo, rev: u8) -> Mark
        requires job { (1 ≤ job.0) × (job.0 ≤ (seen self.old).jobs) }
        requires rev { rev ≤ 3 }
        ensures found { Finds (seen self.old) (place_of job.0 rev) (word_of result) }
        ensures noted { seen self.new
            ≡ noting (seen self.old) ((place_of job.0 rev, word_of result) ∷ []) }
        ensures kept { Keeps (seen self.old) (seen self.new) }
        ensures same { same self.old self.new };

    /// Moves a word from one mark to another in one step, and notes where it is then. Where the
    /// word is another than `from`, answers that one, and moves nothing.
    fn advance(&mut self, job: JobNo, rev: u8, from: Mark, to: Mark) -> Result<(), Mark>
        requires job { (1 ≤ job.0) × (job.0 ≤ (seen self.old).jobs) }
        requires rev { rev ≤ 3 }
        requires moves { IsMove from to }
        requires allowed { IsTrue ((seen self.old).allows (word_of to)) }
        requires opens { OpensAfterError (seen self.old) job.0 rev (word_of from) }
        ensures ok { OnOk result (Finds (seen self.old) (place_of job.0 rev) (word_of from)) }
        ensures moved { OnOk result (seen self.new
            ≡ moving (seen self.old) (place_of job.0 rev) (word_of from) (word_of to)) }
        ensures other { IfErr result (λ found. found ≢ from) }
        ensures found { IfErr result (λ found.
            Finds (seen self.old) (place_of job.0 rev) (word_of found)) }
        ensures noted { IfErr result (λ found. seen self.new
            ≡ noting (seen self.old) ((place_of job.0 rev, word_of found) ∷ [])) }
        ensures kept { Keeps (seen self.old) (seen self.new) }
        ensures same { same self.old self.new };

    /// A board is the same as itself.
    ghost same_as_itself: { (board : Self) → same board board };

    /// Sameness goes on from call to call.
    ghost same_after: { (a b c : Self) → same a b → same b c → same a c };
}
