//! Laws of readiness: what the calls of the core ask of it is there at every moment. (Our own.)
ghost use Rattle.std.specs.Prelude.{◌≡◌, ◌≤◌, ℕ, true, List, Option, Some, IfSome, length, slice_get};
ghost use Rattle.std.specs.List.{AllByRecursion, Contains};
ghost use Rattle.hr_base.specs.declared.status.Hook.{Hook};
ghost use Rattle.hr_event.specs.declared.event.Event.{Event};
ghost use Rattle.hr_event.specs.declared.task.TaskSpec.{TaskSpec};
ghost use Rattle.hr_event.specs.declared.task.Turn.{Turn};
ghost use Rattle.hr_event.specs.declared.told.Told.{Told};
ghost use Rattle.hr_line.specs.Run.{IsOpening};
ghost use Rattle.hr_line.specs.State.{Link, State, held_at};
ghost use Rattle.hr_line.specs.declared.held.Held.{Held};
ghost use Rattle.hr_queue.specs.declared.answer.Taken.TheVariants as taken;
ghost use Rattle.hr_store.specs.Creating.{has_room};
ghost use Rattle.hr_store.specs.Row.{RowState};
ghost use Rattle.hr_store.specs.Store.{row_of_job};
ghost use Rattle.hr_run.specs.Holds.{HasAttempts};
ghost use Rattle.hr_run.specs.Ready.{CanAdd, CanAdmit, CanRun, IsOnBoard, IsReady, IsTurnOnBoard};
ghost use Rattle.hr_run.specs.Run.{Cut, Does, Runs};
ghost use Rattle.hr_run.specs.Sound.{IsSound};
ghost use Rattle.hr_run.specs.State.{CoreState, hook_at, lane_of, opening};
ghost use Rattle.hr_run.specs.Turning.{GoesOut};

use crate::laws::{events_are_parts, parts_keep};

/// A law: what the calls of the core ask of it holds as it opens with a lane that has the
/// connections of each planned task, and stays with each event, also with one that was cut short.
pub fn core_stays_ready()
    ensures opens { (lanes : List State) (others : List Link) (plan : Option (List TaskSpec))
        (jobs : ℕ) → AllByRecursion IsOpening lanes → IfSome plan (AllByRecursion HasAttempts)
        → IsSound (opening lanes others plan jobs) → 1 ≤ length lanes
        → IfSome plan (AllByRecursion (CanRun lanes)) → IsReady (opening lanes others plan jobs) }
    ensures does { (s t : CoreState) (event : Event) (answers : List Told)
        → IsReady s → IsSound s → IsSound t → Does s event answers t → IsReady t }
    ensures cut { (s t : CoreState) (event : Event)
        → IsReady s → IsSound s → IsSound t → Cut s event t → IsReady t }
    ensures runs { (s t : CoreState) (events : List Event) (said : List Told)
        → IsReady s → IsSound s → Runs s events said t → IsReady t }
{
    parts_keep();
    events_are_parts();
}

/// A law: a core that is ready has what single calls ask: turns that are out or go out, jobs that a
/// lane holds or whose row is kept, and emitted hooks are on the board; a turn that goes out can be
/// admitted to the lane of its task; and planned tasks, where the store has room, can be added.
pub fn calls_can_be_made()
    ensures out { (s : CoreState) (turn : Turn)
        → IsReady s → Contains s.turns.out turn → IsTurnOnBoard s turn }
    ensures held { (s : CoreState) (lane : State) (h : Held) (job : ℕ)
        → IsReady s → Contains s.lanes lane → held_at lane.held job ≡ Some h → IsOnBoard s job }
    ensures rows { (s : CoreState) (job : ℕ) (row : RowState) → IsReady s
        → row_of_job job s.store.kept ≡ Some row → IsOnBoard s job × HasAttempts row.spec }
    ensures hooks { (s : CoreState) (number : ℕ) (hook : Hook) → IsReady s
        → hook_at s.hooks number ≡ Some hook → IsOnBoard s hook.job.0 × (hook.rev ≤ 3) }
    ensures goes { (s mid : CoreState) (turn : Turn)
        → IsReady s → GoesOut s (taken.Turn turn) mid → IsTurnOnBoard mid turn }
    ensures admits { (s mid : CoreState) (turn : Turn) (row : RowState) (lane : State)
        → IsReady s → GoesOut s (taken.Turn turn) mid
        → row_of_job turn.job.0 mid.store.kept ≡ Some row
        → slice_get mid.lanes (lane_of mid.lanes row.spec) ≡ Some lane
        → CanAdmit mid lane turn row.spec }
    ensures adds { (s : CoreState) (specs : List TaskSpec) → IsReady s → s.plan ≡ Some specs
        → has_room s.store (length specs) ≡ true → CanAdd s specs }
{}
