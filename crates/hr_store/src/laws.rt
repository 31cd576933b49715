//! Laws of the store, for whoever states what holds of its jobs. (Our own.)
ghost use Rattle.std.specs.Prelude.{◌≡◌, ◌<◌, ◌≤◌, ◌↔◌, ℕ, List, [], ◌∷◌, ◌++◌, Bool, Some, IsTrue};
ghost use Rattle.std.specs.List.{AllByRecursion, Contains};
ghost use Rattle.std.specs.Option.{option_map};
ghost use Rattle.hr_base.specs.declared.status.Hook.{Hook};
ghost use Rattle.hr_base.specs.declared.status.Status.{Status};
ghost use Rattle.hr_board.specs.Over.{EndsJob};
ghost use Rattle.hr_board.specs.View.{View, Word};
ghost use Rattle.hr_store.specs.Execution.{ExecState};
ghost use Rattle.hr_store.specs.Laws.{Goes, RowIsOver, RowStays, Stays, TakenIsPut};
ghost use Rattle.hr_store.specs.Row.{ends_job, is_among};
ghost use Rattle.hr_store.specs.Store.{AreMade, AreOrdered, FailsBare, StoreState, exec_numbered, execs_hearing, row_hearing, row_of_job};
ghost use Rattle.hr_store.specs.Sweeping.{ended_of, kept_by};

/// A law: after a hook the row of each job is as before, but that of the hook's own job received it.
pub fn hooks_reach_one_row()
    ensures { (hook : Hook) (job : ℕ) (execs : List ExecState)
        → row_of_job job (execs_hearing hook execs)
        ≡ option_map (row_hearing hook) (row_of_job job execs) }
{}

/// A law: what takes a hook puts it to the row of its job, and leaves the others.
pub fn a_taken_hook_is_put()
    ensures { (store after : StoreState) (board board_after : View) (hook : Hook) (raised : Bool)
        → TakenIsPut store board hook raised after board_after }
{}

/// A law: whether a hook is among others says just whether they contain it.
pub fn is_among_says_contains()
    ensures { (hooks : List Hook) (hook : Hook)
        → IsTrue (is_among hooks hook) ↔ Contains hooks hook }
{}

/// A law: an execution of a number above all that were made is found where it is put at the end.
pub fn a_new_execution_is_found()
    ensures { (made jobs : ℕ) (execs : List ExecState) (exec : ExecState)
        → AreMade made jobs execs → made < exec.exec
        → exec_numbered exec.exec (execs ++ exec ∷ []) ≡ Some exec }
{}

/// A law: a sweep keeps exactly the executions that have not ended and, of those of each policy that
/// have, so many of the newest.
pub fn sweep_keeps_the_newest()
    ensures stays { (keep : ℕ) (older newer : List ExecState) (exec : ExecState)
        → Stays keep older exec newer }
    ensures goes { (keep : ℕ) (older newer : List ExecState) (exec : ExecState)
        → Goes keep older exec newer }
    ensures few { (keep policy : ℕ) (execs : List ExecState)
        → ended_of policy (kept_by keep execs) ≤ keep }
{}

/// A law: a sweep drops only rows that are over.
pub fn sweep_drops_rows_that_are_over()
    ensures { (keep job : ℕ) (execs : List ExecState) → AreOrdered 0 0 execs
        → AllByRecursion FailsBare execs → RowStays keep job execs }
{}

/// A law: a job whose row ends it is over by its words, where none past its attempts was begun.
pub fn row_ends_its_job()
    ensures says { (attempts rev : ℕ) (status : Status)
        → IsTrue (ends_job attempts rev status) ↔ EndsJob attempts (rev, status) }
    ensures over { (words : List Word) (job attempts rev : ℕ) (status : Status)
        → RowIsOver words job attempts rev status }
{}
