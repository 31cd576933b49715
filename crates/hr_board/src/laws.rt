//! Laws of boards, for whoever steps, queues or stops jobs over them. (Our own.)
ghost use Rattle.std.specs.Prelude.{ℕ, ◌≤◌, List};
ghost use Rattle.hr_board.specs.Over.{IsOver, WasOver};
ghost use Rattle.hr_board.specs.Past.{Past};
ghost use Rattle.hr_board.specs.Plain.{IsLawful};
ghost use Rattle.hr_board.specs.Stopping.{Stops};
ghost use Rattle.hr_board.specs.View.{Keeps, View, Word};
ghost use Rattle.hr_board.specs.declared.stopping.StopAnswer.{StopAnswer};

/// A law: no call keeps all, and what each of two calls in turn keeps, both together keep.
pub fn calls_keep_in_turn()
    ensures none { (view : View) → Keeps view view }
    ensures both { (first second third : View) → Keeps first second → Keeps second third
        → Keeps first third }
{}

/// A law: a job of at most four attempts that was noted as over is over by the words, from then on.
pub fn what_was_over_is_over()
    ensures { (words : List Word) (past : Past) (job attempts : ℕ) → attempts ≤ 4
        → IsLawful words past → WasOver past.notes job attempts → IsOver words job attempts }
{}

/// A law: a stop leaves its job over, and has noted it.
pub fn a_stop_leaves_a_job_over()
    ensures { (before after : View) (job attempts : ℕ) (answer : StopAnswer)
        → Stops before job attempts answer after → WasOver after.notes job attempts }
{}
