//! Laws of tasks that can be copied. (Our own.)
ghost use Rattle.std.specs.Prelude.{◌≡◌, ◌≤◌, ◌+◌, Contains, length, List, Option, Some};
ghost use Rattle.std.specs.List.{AllByRecursion};
ghost use Rattle.hr_base.specs.declared.status.Status.{Status};
ghost use Rattle.hr_digest.specs.declared.digest.Digest.{Digest};
ghost use Rattle.hr_name.specs.Name.{RepoName};
ghost use Rattle.hr_event.specs.declared.cause.Cause.{Cause};
ghost use Rattle.hr_event.specs.declared.entry.Entry.{Entry};
ghost use Rattle.hr_event.specs.declared.entry.What.TheVariants.{Ended};
ghost use Rattle.hr_graph.specs.declared.opened.TheConstants.{PAIR_LIMIT};
ghost use Rattle.hr_adapter.specs.Content.{Content};
ghost use Rattle.hr_adapter.specs.Reg.{Reg};
ghost use Rattle.hr_line.specs.Evidence.{IsShown};
ghost use Rattle.hr_line.specs.Orderly.{admitted_at};
ghost use Rattle.hr_line.specs.Run.{Call, IsOpening, Runs};
ghost use Rattle.hr_line.specs.State.{AreSound, State};
ghost use Rattle.hr_line.specs.declared.held.Admitted.{Admitted};
ghost use Rattle.hr_whole.specs.Copied.{BothUnfailing, CanBeCopied, EndsWell, NoTwoTexts, NoneFailed};
ghost use Rattle.hr_whole.specs.Said.{AreSaid, EndsFor, IsFromSource};
ghost use Rattle.hr_whole.specs.Texts.{HaveSources, OpensWithOneText};
ghost use Rattle.hr_whole.specs.Whole.{AreAllOf, HasFewPairs, TagIsWhole};

use hr_line::{
    causes_stay_shown, destinations_keep_their_promise, ends_are_what_the_journal_shows,
    lanes_stay_in_order, runs_keep_the_promise,
};

/// A law: no more pairs are reached of a graph than a walk may meet, where all its blobs and
/// manifests are among so many.
pub fn few_pairs_are_reached_of_few()
    ensures { (c : Content) (repo : RepoName) (root : Digest) (blobs manifests : List Digest)
        → AreAllOf c repo root blobs manifests → length blobs + length manifests ≤ PAIR_LIMIT
        → HasFewPairs c repo root }
{}

/// A law: no cause but want of memory can be shown of a task whose tags are whole, where all that
/// was read is what the source has, and neither connection has failed.
pub fn whole_tags_show_no_cause()
    ensures { (a : Admitted) (log : List Entry) (c : Content) (source dest : Reg) (why : Cause)
        → IsFromSource a log c → AllByRecursion (TagIsWhole c a.spec.from) a.spec.tags
        → source.told ≡ Some c → source.faults ≡ 0 → dest.faults ≡ 0
        → EndsFor a c log why → IsShown a log source dest why → why ≡ Cause.Memory }
{}

/// A law: after every run each entry of a revision whose two ends were opened calm is what its
/// source has: a tag that was read leads there to that manifest, a child that was read was reached,
/// and what ended the revision as gone or too long is so.
pub fn journals_say_what_quiet_sources_have()
    ensures { (calls : List Call) (s t : State)
        → IsOpening s → AreSound t.sources → Runs calls s t → AreSaid s t.admitted t.log }
{
    lanes_stay_in_order();
    destinations_keep_their_promise();
    causes_stay_shown();
}

/// A law: connections of a revision that had not failed at the opening, and could not, have not
/// failed after any run.
pub fn connections_that_cannot_fail_do_not()
    ensures { (calls : List Call) (s t : State) (a : Admitted)
        → IsOpening s → AreSound t.sources → Runs calls s t → BothUnfailing s a → NoneFailed t a }
{
    lanes_stay_in_order();
    destinations_keep_their_promise();
    causes_stay_shown();
}

/// A law: where every source was opened quiet and tells, and no digest stood for two texts of them
/// and of a destination, none does after any run.
pub fn texts_stay_one()
    ensures { (calls : List Call) (s t : State) (a : Admitted) (o : Content)
        → IsOpening s → AreSound t.sources → Runs calls s t
        → OpensWithOneText s o → HaveSources s t → NoTwoTexts t a o }
{
    lanes_stay_in_order();
    destinations_keep_their_promise();
    causes_stay_shown();
}

/// What can be copied is copied: where a task can be copied, neither of its connections failed, and
/// no digest stands for two texts, its revision ends by no cause but want of memory, and without a
/// cause with success, each of its tags finished.
pub fn what_can_be_copied_is_copied()
    ensures causes { (calls : List Call) (s t : State) (e : Entry) (a : Admitted) (c o : Content)
        → (status : Status) (why : Cause)
        → IsOpening s → AreSound t.sources → Runs calls s t → CanBeCopied s a c o
        → NoneFailed t a → NoTwoTexts t a o → Contains t.log e
        → admitted_at t.admitted e.job.0 e.rev ≡ Some a → e.what ≡ Ended status (Some why)
        → why ≡ Cause.Memory }
    ensures ends { (calls : List Call) (s t : State) (e : Entry) (a : Admitted) (c o : Content)
        → (status : Status) (found : Option Cause)
        → IsOpening s → AreSound t.sources → Runs calls s t → CanBeCopied s a c o
        → NoneFailed t a → NoTwoTexts t a o → Contains t.log e
        → admitted_at t.admitted e.job.0 e.rev ≡ Some a → e.what ≡ Ended status found
        → EndsWell a t.log status found }

    // All premises but the entry's are about the opening.
    ensures opened { (calls : List Call) (s t : State) (e : Entry) (a : Admitted) (c o : Content)
        → (status : Status) (found : Option Cause)
        → IsOpening s → AreSound t.sources → Runs calls s t → CanBeCopied s a c o
        → BothUnfailing s a → OpensWithOneText s o → HaveSources s t → Contains t.log e
        → admitted_at t.admitted e.job.0 e.rev ≡ Some a → e.what ≡ Ended status found
        → EndsWell a t.log status found }
{
    lanes_stay_in_order();
    destinations_keep_their_promise();
    causes_stay_shown();
    runs_keep_the_promise();
    ends_are_what_the_journal_shows();
}
