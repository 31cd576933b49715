//! Laws of the core: what its events are made of, what their parts keep, and what follows from it
//! at every moment. (Our own.)
ghost use Rattle.std.specs.Prelude.{◌≡◌, ℕ, List, Option, Some, None, IfSome};
ghost use Rattle.std.specs.List.{AllByRecursion};
ghost use Rattle.hr_event.specs.declared.event.Event.{Event};
ghost use Rattle.hr_event.specs.declared.task.TaskSpec.{TaskSpec};
ghost use Rattle.hr_event.specs.declared.told.Told.{Told};
ghost use Rattle.hr_print.specs.Text.{HasText};
ghost use Rattle.hr_board.specs.Over.{IsOver};
ghost use Rattle.hr_board.specs.Plain.{IsLawful, new_board};
ghost use Rattle.hr_line.specs.Run.{IsOpening};
ghost use Rattle.hr_line.specs.State.{AreSound, Link, State};
ghost use Rattle.hr_promise.specs.Holds.{LaneHolds, LaneRuns};
ghost use Rattle.hr_promise.specs.Lane.{IsLaneSound};
ghost use Rattle.hr_store.specs.Row.{RowState};
ghost use Rattle.hr_store.specs.Store.{row_of_job};
ghost use Rattle.hr_run.specs.Claims.{AllConfirmed, AllDone, IsFinished, LanesHold, LanesRun, OneEach, OneFinal, RowsTell, TellsWord};
ghost use Rattle.hr_run.specs.Delivering.{Sweeps};
ghost use Rattle.hr_run.specs.Finish.{Finishes};
ghost use Rattle.hr_run.specs.Holds.{HasAttempts, Holds};
ghost use Rattle.hr_run.specs.Part.{Part, Parts};
ghost use Rattle.hr_run.specs.Run.{Cut, Does, Runs};
ghost use Rattle.hr_run.specs.Sound.{IsSound};
ghost use Rattle.hr_run.specs.State.{CoreState, opening};

use hr_board::what_was_over_is_over;
use hr_lane::calls_are_those_of_a_lane;
use hr_line::{
    causes_stay_shown, ends_are_what_the_journal_shows, hooks_go_with_the_journal,
    lanes_stay_in_order, revisions_end_once, tags_are_finished_as_they_were_read,
    tags_of_runs_are_complete,
};
use hr_promise::steps_come_to_an_end;
use hr_queue::{
    a_queue_agrees_with_its_board, a_turn_taken_back_is_out_no_more, done_jobs_were_over,
    gains_add_up, what_calls_gain,
};
use hr_store::{
    a_taken_hook_is_put, hooks_reach_one_row, is_among_says_contains, row_ends_its_job,
    sweep_drops_rows_that_are_over,
};
use hr_whole::{texts_stay_one, what_can_be_copied_is_copied};

/// A law: all of `Holds` holds as the core opens, each part keeps it, and so do parts one after the
/// other.
pub fn parts_keep()
    ensures opens { (lanes : List State) (others : List Link) (plan : Option (List TaskSpec))
        (jobs : ℕ) → AllByRecursion IsOpening lanes → IfSome plan (AllByRecursion HasAttempts)
        → IsLawful (new_board jobs).words (new_board jobs).past
        → Holds (opening lanes others plan jobs) }
    ensures one { (s t : CoreState) → Holds s → Part s t → Holds t }
    ensures all { (s t : CoreState) → Holds s → Parts s t → Holds t }
{
    lanes_stay_in_order();
    ends_are_what_the_journal_shows();
    hooks_go_with_the_journal();
    a_queue_agrees_with_its_board();
    hooks_reach_one_row();
    a_taken_hook_is_put();
    is_among_says_contains();
}

/// A law: each final status that is named for a revision is its word: by an entry of a lane, by a
/// hook that was emitted, or by one that was received.
pub fn one_final_status()
    ensures { (s : CoreState) → Holds s → OneFinal s }
{}

/// A law: each final word has exactly one emitted hook, a stop's included, and each Error or
/// Success exactly one entry of a lane.
pub fn each_end_has_one_hook()
    ensures { (s : CoreState) → Holds s → OneEach s }
{}

/// A law: each hook that a row received is of that row's job, and is covered by its word: so nobody
/// can invent a status.
pub fn hooks_are_covered()
    ensures { (s : CoreState) → Holds s → AllConfirmed s }
{}

/// A law: when nothing is left to do, each job that was made is over, each emitted hook is among
/// those received where its job's row is kept, and each such row is current.
pub fn done_when_finished()
    ensures { (s : CoreState) → Holds s → IsFinished s → AllDone s }
{
    done_jobs_were_over();
    what_was_over_is_over();
}

/// A law: what each event does is made of parts, and so is what it leaves where memory is wanted in
/// its middle; and so are events one after the other, whichever of them were cut short.
pub fn events_are_parts()
    ensures does { (s t : CoreState) (event : Event) (answers : List Told)
        → Holds s → IsSound s → IsSound t → Does s event answers t → Parts s t }
    ensures cut { (s t : CoreState) (event : Event)
        → Holds s → IsSound s → IsSound t → Cut s event t → Parts s t }
    ensures runs { (s t : CoreState) (events : List Event) (said : List Told)
        → Holds s → IsSound s → Runs s events said t → Parts s t }
{
    lanes_stay_in_order();
    ends_are_what_the_journal_shows();
    hooks_go_with_the_journal();
    a_queue_agrees_with_its_board();
    hooks_reach_one_row();
    a_taken_hook_is_put();
    is_among_says_contains();
    what_calls_gain();
    a_turn_taken_back_is_out_no_more();
    gains_add_up();
    sweep_drops_rows_that_are_over();
}

/// What operators rest on: whatever the core opens with, and whatever events come, all of `Holds`
/// holds then, also after an event that was cut short; and each lane keeps its promise: tags that
/// were put are complete and were read before, and each end has its evidence. Nothing is asked of the
/// events, so it holds after every front of them.
pub fn the_core_holds()
    ensures state { (lanes : List State) (others : List Link) (plan : Option (List TaskSpec))
        (jobs : ℕ) (events : List Event) (said : List Told) (t : CoreState)
        → AllByRecursion IsOpening lanes → IfSome plan (AllByRecursion HasAttempts)
        → IsSound (opening lanes others plan jobs)
        → Runs (opening lanes others plan jobs) events said t → Holds t }
    ensures lanes { (lanes : List State) (others : List Link) (plan : Option (List TaskSpec))
        (jobs : ℕ) (events : List Event) (said : List Told) (t : CoreState)
        → AllByRecursion IsOpening lanes → IfSome plan (AllByRecursion HasAttempts)
        → IsSound (opening lanes others plan jobs)
        → Runs (opening lanes others plan jobs) events said t → LanesHold lanes t.lanes }
{
    parts_keep();
    events_are_parts();
    lanes_run();
    lanes_keep_their_promise();
}

/// A law: after a finish each job that was made is over, each emitted hook was received where its
/// job's row is kept, and each such row is current.
pub fn done_after_finish()
    ensures { (s t : CoreState) → Holds s → IsSound s → IsSound t → Finishes s t → AllDone t }
{
    parts_keep();
    events_are_parts();
    done_when_finished();
}

/// A law: whatever parts come, each lane does calls, one after the other, and its connections stay
/// as each one is at every moment: so all laws of lanes hold of it.
pub fn lanes_run()
    ensures runs { (s t : CoreState) → Parts s t → LanesRun s.lanes t.lanes }
    ensures sound { (s t : CoreState) → AllByRecursion IsLaneSound s.lanes → Parts s t
        → AllByRecursion IsLaneSound t.lanes }
{
    calls_are_those_of_a_lane();
}

/// A law: what operators rest on holds of each lane, as it was opened and after any calls: tags that
/// were put are complete and were read before, and each end has its evidence.
pub fn lanes_keep_their_promise()
    ensures { (opened now : State) → IsOpening opened → AreSound now.sources → LaneRuns opened now
        → LaneHolds opened now }
{
    tags_of_runs_are_complete();
    tags_are_finished_as_they_were_read();
    revisions_end_once();
    ends_are_what_the_journal_shows();
    causes_stay_shown();
    hooks_go_with_the_journal();
    texts_stay_one();
    what_can_be_copied_is_copied();
}

/// A law: what rows tell is what the words are: a row at a final status tells the word of its
/// revision, and a row that ends its job is of one that is over.
pub fn rows_tell_words()
    ensures { (s : CoreState) → Holds s → RowsTell s }
{
    row_ends_its_job();
}

/// A law: a sweep drops only rows of jobs that are over.
pub fn swept_jobs_are_over()
    ensures { (s t : CoreState) (keep job : ℕ) (answer : Told) (row : RowState)
        → Holds s → IsSound s → Sweeps s keep answer t → row_of_job job s.store.kept ≡ Some row
        → row_of_job job t.store.kept ≡ None → IsOver s.board.words job row.spec.attempts }
{
    row_ends_its_job();
    sweep_drops_rows_that_are_over();
}

/// A law: each answer that tells a status of a revision tells its word: that a stop stopped it, or
/// found it final; what a look found; and a row at a final status.
pub fn answers_tell_words()
    ensures { (s t : CoreState) (event : Event) (answers : List Told)
        → Holds s → IsSound t → Does s event answers t → AllByRecursion (TellsWord t.board) answers }
{
    rows_tell_words();
}

/// A law: each answer to an event has a text.
pub fn answers_have_texts()
    ensures { (s t : CoreState) (event : Event) (answers : List Told)
        → Does s event answers t → AllByRecursion HasText answers }
{
    steps_come_to_an_end();
}
