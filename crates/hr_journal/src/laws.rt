//! The laws of the journal of copies: what goes on from entry to entry, and what the promise says
//! in the end. (Our own.)
ghost use Rattle.std.specs.Prelude.{◌≡◌, ◌≢◌, List, [], ◌∷◌, ◌++◌, Option, Some, None};
ghost use Rattle.std.specs.List.{AllByRecursion};
ghost use Rattle.hr_digest.specs.declared.digest.Digest.{Digest};
ghost use Rattle.hr_name.specs.Name.{RepoName};
ghost use Rattle.hr_name.specs.Tag.{TagName};
ghost use Rattle.hr_event.specs.declared.entry.Entry.{Entry};
ghost use Rattle.hr_event.specs.declared.entry.How.{How};
ghost use Rattle.hr_event.specs.declared.entry.How.TheVariants.{Kept, Same};
ghost use Rattle.hr_event.specs.declared.entry.What.TheVariants.{Show};
ghost use Rattle.hr_event.specs.declared.reference.Reference.TheVariants as by;
ghost use Rattle.hr_adapter.specs.Content.{Content, Honest, head_at, tag_at};
ghost use Rattle.hr_journal.specs.Graph.{StandsUnder};
ghost use Rattle.hr_journal.specs.Grows.{Grows};
ghost use Rattle.hr_journal.specs.OneEach.{OneEach};
ghost use Rattle.hr_journal.specs.Origin.{AllTell, OneText, Origin, Source};
ghost use Rattle.hr_journal.specs.Origin.{ShowedManifest, WereThere};
ghost use Rattle.hr_journal.specs.Promise.{IsPut, Promise, TagsStandWhole, WasPut};
ghost use Rattle.hr_journal.specs.Puts.{Does, Puts, PutsTag};
ghost use Rattle.hr_journal.specs.Says.{Placement, placed};
ghost use Rattle.hr_journal.specs.Shown.{IsComplete, WasRead};
ghost use Rattle.hr_journal.specs.Still.{IsStill, PutsNoTag};

/// A law: an entry loses nothing of what the entries before it left, where no digest stands for two
/// contents.
pub fn nothing_is_lost()
    ensures { (to : Placement) (o : Content) (e : Entry) (es : List Entry) (b c : Content)
        → Puts to o es b → Does to e es b c → OneEach to o (e ∷ es) → Grows b c }
{}

/// A law: where everything stood under its own digest, and each tag named what is there, that stays
/// so with each entry and with a journal.
pub fn all_stays_honest()
    ensures next { (to : Placement) (o : Content) (e : Entry) (es : List Entry) (b c : Content)
        → Honest b → Does to e es b c → Honest c }
    ensures journal { (to : Placement) (o : Content) (log : List Entry) (c : Content)
        → Honest o → Puts to o log c → Honest c }
{}

/// A law: the promise holds of a destination that opened with everything under its own digest.
pub fn the_promise_opens()
    ensures { (to : Placement) (o : Content) → Honest o → Promise to o [] o }
{}

/// A law: the promise goes on with an entry that puts no tag, with an entry of another destination,
/// and with any number of entries that say nothing of the destination.
pub fn the_promise_goes_on()
    ensures next { (to : Placement) (o : Content) (e : Entry) (es : List Entry) (b c : Content)
        → Promise to o es b → Does to e es b c → PutsNoTag e.what → Promise to o (e ∷ es) c }
    ensures elsewhere { (to : Placement) (o : Content) (e : Entry) (es : List Entry) (b : Content)
        → Promise to o es b → placed to e ≡ None → Promise to o (e ∷ es) b }
    ensures still { (to : Placement) (o : Content) (more es : List Entry) (b : Content)
        → Promise to o es b → AllByRecursion (λ e. IsStill e.what) more
        → Promise to o (more ++ es) b }
{}

/// A law: the promise goes on with a tag that was put, or may have been, where the children of its
/// manifest stood there with their own graphs, each of fewer than eight levels.
pub fn the_promise_shows_a_tag()
    ensures { (to : Placement) (repo : RepoName) (o : Content) (e : Entry) (es : List Entry)
        → (b c : Content) (tag : TagName) (d : Digest) (old : Option Digest) (how : How)
        → Promise to o es b → placed to e ≡ Some repo → e.what ≡ Show tag d old how → IsPut how
        → (puts : PutsTag repo e tag d old how es b c)
        → (OneEach to o (e ∷ es) → AllByRecursion
        (λ kid. StandsUnder 8 b repo kid.kind kid.digest kid.size) puts.kids)
        → Promise to o (e ∷ es) c }
{}

/// What the promise comes to: where no digest stands for two contents, a tag that was put, or may
/// have been, and names that manifest still, names one that is there, is readable, has that hash,
/// and whose children all stand there with their own graphs.
pub fn tags_are_complete()
    ensures { (to : Placement) (o : Content) (log : List Entry) (c : Content)
        → (repo : RepoName) (tag : TagName) (d : Digest) → Promise to o log c → OneEach to o log
        → tag_at c repo tag ≡ Some d → WasPut to log repo tag d → IsComplete c repo d }
{}

/// Why no digest stands for two contents in a journal: all that it says was read is what sources
/// that tell have, all else that it says was so, and no two texts of the opening and those sources
/// have one digest.
pub fn digests_stand_for_one_text()
    ensures { (to : Placement) (from : Origin) (o : Content) (log : List Entry) (c : Content)
        → Honest o → Puts to o log c → WereThere from log → AllTell to from log → OneText o from
        → OneEach to o log }
{}

/// What the promise comes to where the sources tell: as long as no two texts of the opening and the
/// sources have one digest, each tag that was put, or may have been, and names that manifest still,
/// names one whose graph stands there whole.
pub fn tags_stand_whole()
    ensures { (to : Placement) (from : Origin) (o : Content) (log : List Entry) (c : Content)
        → Promise to o log c → Honest o → WereThere from log → AllTell to from log
        → OneText o from → TagsStandWhole to log c }
{}

/// What a tag named where it was left: at that moment the destination showed this manifest under it
/// where it was the same, and what was found, which is not this manifest, where it is kept.
pub fn left_tags_were_looked_at()
    ensures same { (to : Placement) (o : Content) (newer older : List Entry) (e : Entry)
        → (c : Content) (repo : RepoName) (tag : TagName) (d : Digest) (old : Option Digest)
        → Puts to o (newer ++ e ∷ older) c → placed to e ≡ Some repo
        → e.what ≡ Show tag d old Same
        → (b : Content) × Puts to o older b × (head_at b repo (by.Tag tag) ≡ Some d) }
    ensures kept { (to : Placement) (o : Content) (newer older : List Entry) (e : Entry)
        → (c : Content) (repo : RepoName) (tag : TagName) (d : Digest) (old : Option Digest)
        → Puts to o (newer ++ e ∷ older) c → placed to e ≡ Some repo
        → e.what ≡ Show tag d old Kept
        → (b : Content) × Puts to o older b × (head_at b repo (by.Tag tag) ≡ old)
        × (old ≢ Some d) }
{}

/// Where it came from: each tag was put, or may have been, or was left, for a manifest that an
/// earlier entry of the same revision of the job read under that tag, and that the source showed
/// there, where it tells.
pub fn tags_were_read()
    ensures read { (to : Placement) (o : Content) (newer older : List Entry) (e : Entry)
        → (c : Content) (repo : RepoName) (tag : TagName) (d : Digest) (old : Option Digest)
        → (how : How) → Puts to o (newer ++ e ∷ older) c → placed to e ≡ Some repo
        → e.what ≡ Show tag d old how → WasRead older e tag d }
    ensures shown { (from : Origin) (newer older : List Entry) (e : Entry) (s : Source)
        → (tag : TagName) (d : Digest) → WereThere from (newer ++ e ∷ older)
        → from e.job.0 e.rev ≡ Some s → (was : WasRead older e tag d)
        → ShowedManifest s tag was.media was.bytes }
{}
