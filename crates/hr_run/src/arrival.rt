//! Laws of arrival: what can be copied arrives, and what succeeded was copied. (Our own, over OCI
//! Image 1.1 and Harbor's job service.)
ghost use Rattle.std.specs.Prelude.{◌≡◌, ℕ, List, Option, Some, IfSome, length, slice_get};
ghost use Rattle.std.specs.List.{AllByRecursion};
ghost use Rattle.hr_event.specs.declared.event.Event.{Event};
ghost use Rattle.hr_event.specs.declared.task.TaskSpec.{TaskSpec};
ghost use Rattle.hr_event.specs.declared.told.Told.{Told};
ghost use Rattle.hr_line.specs.Run.{IsOpening};
ghost use Rattle.hr_line.specs.State.{Link, State};
ghost use Rattle.hr_store.specs.Row.{RowState};
ghost use Rattle.hr_store.specs.Store.{row_of_job};
ghost use Rattle.hr_whole.specs.Texts.{HaveSources};
ghost use Rattle.hr_run.specs.Arrives.{Arrives, AskForAll, CanArrive, ExecsSucceed, IsTaskCopied, LanesHaveSource, RunsThrough};
ghost use Rattle.hr_run.specs.Holds.{HasAttempts, Holds};
ghost use Rattle.hr_run.specs.Sound.{IsSound};
ghost use Rattle.hr_run.specs.State.{CoreState, opening};

use crate::laws::{
    done_when_finished, each_end_has_one_hook, events_are_parts, lanes_keep_their_promise,
    lanes_run, parts_keep,
};

/// A law: events that were all done leave as many lanes as there were, and each revision that was
/// admitted to a lane reads from a connection that this lane was opened with, where each planned
/// task does.
pub fn revisions_have_sources()
    ensures count { (lanes : List State) (others : List Link) (plan : Option (List TaskSpec))
        (jobs : ℕ) (events : List Event) (said : List Told) (t : CoreState)
        → RunsThrough (opening lanes others plan jobs) events said t
        → length t.lanes ≡ length lanes }
    ensures sources { (lanes : List State) (others : List Link) (plan : Option (List TaskSpec))
        (jobs : ℕ) (events : List Event) (said : List Told) (t : CoreState) (place : ℕ)
        (lane now : State) → Holds t → RunsThrough (opening lanes others plan jobs) events said t
        → IfSome plan (AllByRecursion (LanesHaveSource lanes))
        → slice_get lanes place ≡ Some lane → slice_get t.lanes place ≡ Some now
        → HaveSources lane now }
{}

/// A law: where each execution that is kept succeeded, the task of each row was copied: a revision
/// of its job put each tag, or found it to name the manifest already, or another one that is kept.
pub fn what_succeeded_was_copied()
    ensures { (s : CoreState) (job : ℕ) (row : RowState) → Holds s → ExecsSucceed s
        → row_of_job job s.store.kept ≡ Some row → IsTaskCopied s job row.spec }
{
    each_end_has_one_hook();
}

/// What can be copied arrives: where all that is planned can be copied, as the lanes were opened,
/// no job is stopped, and a finish comes behind each trigger, each execution that is kept succeeded,
/// or a revision ended by want of memory. Whatever else is asked between them: jobs may be taken,
/// left half done and given back, hooks delivered or forged, and rows swept.
pub fn what_can_be_copied_arrives()
    ensures { (lanes : List State) (others : List Link) (plan : Option (List TaskSpec))
        (jobs : ℕ) (events : List Event) (said : List Told) (t : CoreState)
        → AllByRecursion IsOpening lanes → IfSome plan (AllByRecursion HasAttempts)
        → IsSound (opening lanes others plan jobs) → CanArrive lanes plan → AskForAll events
        → RunsThrough (opening lanes others plan jobs) events said t → Arrives t }
{
    parts_keep();
    events_are_parts();
    lanes_run();
    lanes_keep_their_promise();
    done_when_finished();
    each_end_has_one_hook();
    revisions_have_sources();
}
