//! Laws of the lines of a step, and of the steps of a lane: what holds after every call, and after
//! every run. (Our own.)
ghost use Rattle.std.specs.Prelude.{◌≡◌, ◌≤◌, ℕ, length, List, ◌∷◌, ◌++◌, Contains, Option, Some, IfSome};
ghost use Rattle.hr_base.specs.declared.number.JobNo.{JobNo};
ghost use Rattle.hr_base.specs.declared.number.RegNo.{RegNo};
ghost use Rattle.hr_base.specs.declared.status.Status.{Status};
ghost use Rattle.hr_digest.specs.declared.digest.Digest.{Digest};
ghost use Rattle.hr_name.specs.Name.{RepoName};
ghost use Rattle.hr_name.specs.Tag.{TagName};
ghost use Rattle.hr_event.specs.declared.cause.Cause.{Cause};
ghost use Rattle.hr_event.specs.declared.entry.Entry.{Entry};
ghost use Rattle.hr_event.specs.declared.entry.How.{How};
ghost use Rattle.hr_event.specs.declared.entry.What.TheVariants.{Ended, Show};
ghost use Rattle.hr_adapter.specs.Content.{Content};
ghost use Rattle.hr_adapter.specs.Reg.{IsSound, Reg};
ghost use Rattle.hr_journal.specs.OneEach.{OneEach};
ghost use Rattle.hr_journal.specs.Origin.{AllTell, OneText, ShowedManifest, Source};
ghost use Rattle.hr_journal.specs.Promise.{Promise};
ghost use Rattle.hr_journal.specs.Says.{placed};
ghost use Rattle.hr_journal.specs.Shown.{WasRead};
ghost use Rattle.hr_line.specs.Admission.{Admits};
ghost use Rattle.hr_line.specs.Causes.{AreCausesShown, IsCauseShown};
ghost use Rattle.hr_line.specs.Destination.{AreKept};
ghost use Rattle.hr_line.specs.Finals.{EndHolds, EndOnce, EndsHold, endings};
ghost use Rattle.hr_line.specs.Hooks.{HooksTell};
ghost use Rattle.hr_line.specs.Kept.{EndSeen, WorkSeen};
ghost use Rattle.hr_line.specs.Line.{LineEnd};
ghost use Rattle.hr_line.specs.Orderly.{IsNew, IsOrderly, admitted_at, placement};
ghost use Rattle.hr_line.specs.Run.{AreComplete, Call, IsDestination, IsOpening, OthersStay, Runs};
ghost use Rattle.hr_line.specs.Shows.{AreShowsRead, Decides, RootRead};
ghost use Rattle.hr_line.specs.Sources.{AreSourced, origin};
ghost use Rattle.hr_line.specs.State.{AreSound, Link, State};
ghost use Rattle.hr_line.specs.Step.{Line, Step};
ghost use Rattle.hr_line.specs.declared.answer.Admit.{Admit};
ghost use Rattle.hr_line.specs.declared.answer.Stepped.{Stepped};
ghost use Rattle.hr_line.specs.declared.held.Admitted.{Admitted};
ghost use Rattle.hr_line.specs.declared.held.Work.{Work};

use hr_journal::{digests_stand_for_one_text, tags_are_complete, tags_were_read};

/// A law: each line of the step's table has evidence for its end. Where the revision goes on, all
/// that its walk has open or finished was read or found by it; where it ends with a cause, that
/// cause is shown.
pub fn lines_have_evidence()
    ensures { (a : Admitted) (tag : TagName) (work : Option Work) (f g p q : Reg)
        (log after : List Entry) (end : LineEnd)
        → Contains a.spec.tags tag → IsSound g → IfSome work (WorkSeen a log)
        → Line a tag work f g p q log after end → EndSeen a after g q end }
{}

/// A law: a lane opens in order, and stays so with each admission of a revision that was not
/// admitted before, and with each step; a step leaves what the lane has of every other job.
pub fn lanes_stay_in_order()
    ensures opens { (s : State) → IsOpening s → IsOrderly s }
    ensures admits { (s t : State) (a : Admitted) (answer : Admit)
        → IsOrderly s → IsNew s.admitted a → Admits s t a answer → IsOrderly t }
    ensures steps { (s t : State) (job : JobNo) (answer : Stepped)
        → IsOrderly s → Step s t job answer → IsOrderly t }
    ensures others { (s t : State) (job : JobNo) (answer : Stepped)
        → IsOrderly s → Step s t job answer → OthersStay s t job.0 }
{}

/// A law: a lane opens with the promise of each destination, and keeps it with each admission of a
/// revision that was not admitted before, and with each step, as it keeps the work of each revision
/// that it holds standing there. So each destination that was opened quiet, telling its content, with
/// all of it under its own digest, has its promise at every state.
pub fn destinations_keep_their_promise()
    ensures opens { (s : State) → IsOpening s → AreKept s.dests s }
    ensures admits { (opened : List Link) (s t : State) (a : Admitted) (answer : Admit)
        → IsOrderly s → IsNew s.admitted a → Admits s t a answer
        → AreKept opened s → AreKept opened t }
    ensures steps { (opened : List Link) (s t : State) (job : JobNo) (answer : Stepped)
        → IsOrderly s → AreSound s.dests → Step s t job answer
        → AreKept opened s → AreKept opened t }
    ensures promise { (opened : List Link) (s : State) (reg : RegNo) (o c : Content)
        → AreKept opened s → IsDestination opened s reg o c
        → Promise (placement reg s.admitted) o s.log c }
{}

/// A law: what a lane read is what its sources have, where they tell, and stays so with each
/// admission of a revision that was not admitted before, and with each step.
pub fn sources_have_what_was_read()
    ensures opens { (s : State) → IsOpening s → AreSourced s }
    ensures admits { (s t : State) (a : Admitted) (answer : Admit)
        → IsOrderly s → IsNew s.admitted a → Admits s t a answer → AreSourced s → AreSourced t }
    ensures steps { (s t : State) (job : JobNo) (answer : Stepped)
        → IsOrderly s → AreSound s.sources → AreSound t.sources → Step s t job answer
        → AreSourced s → AreSourced t }
{}

/// What holds of a lane after every run: it is in order, each destination keeps its promise, and
/// what was read is what the sources have, where they tell.
pub fn runs_keep_the_promise()
    ensures orderly { (calls : List Call) (s t : State)
        → IsOpening s → AreSound t.sources → Runs calls s t → IsOrderly t }
    ensures kept { (calls : List Call) (s t : State) (reg : RegNo) (o c : Content)
        → IsOpening s → AreSound t.sources → Runs calls s t → IsDestination s.dests t reg o c
        → Promise (placement reg t.admitted) o t.log c }
    ensures sourced { (calls : List Call) (s t : State)
        → IsOpening s → AreSound t.sources → Runs calls s t → AreSourced t }
{}

/// What operators rest on, of every run: each tag that was put, or may have been, and names that
/// manifest still, names one that is there, is readable, has that hash, and whose children all stand
/// there with their own graphs, where no two texts of the opening and the sources have one digest, or
/// no digest stands for two contents in the journal; an earlier entry of the same revision read it
/// under that tag at the source, which showed it there, where it tells.
pub fn tags_of_runs_are_complete()
    ensures told { (calls : List Call) (s t : State) (reg : RegNo) (o c : Content)
        → IsOpening s → AreSound t.sources → Runs calls s t → IsDestination s.dests t reg o c
        → AllTell (placement reg t.admitted) (origin t.sources t.admitted) t.log
        → OneText o (origin t.sources t.admitted) → AreComplete (placement reg t.admitted) t.log c }
    ensures untold { (calls : List Call) (s t : State) (reg : RegNo) (o c : Content)
        → IsOpening s → AreSound t.sources → Runs calls s t → IsDestination s.dests t reg o c
        → OneEach (placement reg t.admitted) o t.log → AreComplete (placement reg t.admitted) t.log c }
    ensures read { (calls : List Call) (s t : State) (reg : RegNo) (o c : Content)
        → (newer older : List Entry) (e : Entry) (repo : RepoName) (tag : TagName) (d : Digest)
        → (old : Option Digest) (how : How)
        → IsOpening s → AreSound t.sources → Runs calls s t → IsDestination s.dests t reg o c
        → t.log ≡ newer ++ e ∷ older → placed (placement reg t.admitted) e ≡ Some repo
        → e.what ≡ Show tag d old how → WasRead older e tag d }
    ensures shown { (calls : List Call) (s t : State) (newer older : List Entry) (e : Entry)
        → (src : Source) (tag : TagName) (d : Digest)
        → IsOpening s → AreSound t.sources → Runs calls s t → t.log ≡ newer ++ e ∷ older
        → origin t.sources t.admitted e.job.0 e.rev ≡ Some src → (was : WasRead older e tag d)
        → ShowedManifest src tag was.media was.bytes }
{
    tags_are_complete();
    digests_stand_for_one_text();
    tags_were_read();
}

/// A law: no revision ends twice: the journal has at most one final status of each, and none of one
/// that is held.
pub fn revisions_end_once()
    ensures opens { (s : State) → IsOpening s → EndOnce s }
    ensures admits { (s t : State) (a : Admitted) (answer : Admit)
        → IsOrderly s → IsNew s.admitted a → EndOnce s → Admits s t a answer → EndOnce t }
    ensures steps { (s t : State) (job : JobNo) (answer : Stepped)
        → IsOrderly s → EndOnce s → Step s t job answer → EndOnce t }
    ensures runs { (calls : List Call) (s t : State) (job rev : ℕ)
        → IsOpening s → Runs calls s t → length (endings job rev t.log) ≤ 1 }
{}

/// A law: a revision ends with success only where its journal has an entry of each of its tags that
/// it was put, was the same already, or is another one that is kept; and with an error only by a
/// cause.
pub fn ends_are_what_the_journal_shows()
    ensures opens { (s : State) → IsOpening s → EndsHold s }
    ensures admits { (s t : State) (a : Admitted) (answer : Admit)
        → IsOrderly s → IsNew s.admitted a → EndsHold s → Admits s t a answer → EndsHold t }
    ensures steps { (s t : State) (job : JobNo) (answer : Stepped)
        → IsOrderly s → EndsHold s → Step s t job answer → EndsHold t }
    ensures runs { (calls : List Call) (s t : State) (e : Entry) (a : Admitted)
        → (status : Status) (cause : Option Cause)
        → IsOpening s → Runs calls s t → Contains t.log e
        → admitted_at t.admitted e.job.0 e.rev ≡ Some a → e.what ≡ Ended status cause
        → EndHolds a t.log status cause }
{}

/// A law: the cause of each error goes on being shown, by the journal and by the two connections of
/// the revision as they are then; and all that the walk of a revision which is held has open or
/// finished was read or found by it.
pub fn causes_stay_shown()
    ensures opens { (s : State) → IsOpening s → AreCausesShown s }
    ensures admits { (s t : State) (a : Admitted) (answer : Admit)
        → IsOrderly s → IsNew s.admitted a → AreCausesShown s → Admits s t a answer
        → AreCausesShown t }
    ensures steps { (s t : State) (job : JobNo) (answer : Stepped)
        → IsOrderly s → AreSound s.sources → AreSound s.dests → AreSound t.sources
        → AreCausesShown s → Step s t job answer → AreCausesShown t }
    ensures runs { (calls : List Call) (s t : State) (e : Entry) (a : Admitted)
        → (status : Status) (why : Cause)
        → IsOpening s → AreSound t.sources → Runs calls s t → Contains t.log e
        → admitted_at t.admitted e.job.0 e.rev ≡ Some a → e.what ≡ Ended status (Some why)
        → IsCauseShown t a why }
{}

/// A law: a lane has given one hook of each revision that began, and one of each that ended, with
/// that status, in the order of its journal, and no other.
pub fn hooks_go_with_the_journal()
    ensures opens { (s : State) → IsOpening s → HooksTell s }
    ensures admits { (s t : State) (a : Admitted) (answer : Admit)
        → Admits s t a answer → HooksTell s → HooksTell t }
    ensures steps { (s t : State) (job : JobNo) (answer : Stepped)
        → Step s t job answer → HooksTell s → HooksTell t }
    ensures runs { (calls : List Call) (s t : State)
        → IsOpening s → Runs calls s t → HooksTell t }
{}

/// A law: each tag that a revision finished is one of its task, and came out as the look just before
/// decides, for a manifest that an earlier entry of that revision read under it, readable and of that
/// digest.
pub fn tags_are_finished_as_they_were_read()
    ensures opens { (s : State) → IsOpening s → AreShowsRead s }
    ensures admits { (s t : State) (a : Admitted) (answer : Admit)
        → IsOrderly s → IsNew s.admitted a → AreShowsRead s → Admits s t a answer
        → AreShowsRead t }
    ensures steps { (s t : State) (job : JobNo) (answer : Stepped)
        → IsOrderly s → AreCausesShown s → AreShowsRead s → Step s t job answer → AreShowsRead t }
    ensures runs { (calls : List Call) (s t : State) (newer older : List Entry) (e : Entry)
        → (a : Admitted) (tag : TagName) (d : Digest) (old : Option Digest) (how : How)
        → IsOpening s → AreSound t.sources → Runs calls s t → t.log ≡ newer ++ e ∷ older
        → admitted_at t.admitted e.job.0 e.rev ≡ Some a → e.what ≡ Show tag d old how
        → Contains a.spec.tags tag × RootRead a older tag d × Decides a.spec.override_it d old how }
{}
