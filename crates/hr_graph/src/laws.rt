//! Laws of walks, for the crates above. (Our own.)
ghost use Rattle.std.specs.Prelude.{◌≡◌, ◌≢◌, ◌⊎◌, List, [], ◌∷◌, Ok, Err};
ghost use Rattle.hr_digest.specs.Digest.{digest_of};
ghost use Rattle.hr_digest.specs.declared.digest.Digest.{Digest};
ghost use Rattle.hr_manifest.specs.Manifest.{Parts};
ghost use Rattle.hr_manifest.specs.declared.child.Child.{Child};
ghost use Rattle.hr_graph.specs.declared.need.Given.{Given};
ghost use Rattle.hr_graph.specs.declared.need.Given.TheVariants as given;
ghost use Rattle.hr_graph.specs.declared.need.Need.{Need};
ghost use Rattle.hr_graph.specs.declared.need.Need.TheVariants as need;
ghost use Rattle.hr_graph.specs.declared.need.WalkRefused.{WalkRefused};
ghost use Rattle.hr_graph.specs.declared.opened.Finished.{Finished};
ghost use Rattle.hr_graph.specs.Answered.{IsAnswered};
ghost use Rattle.hr_graph.specs.Reached.{AreFromReadings, IsRefusal};
ghost use Rattle.hr_graph.specs.Run.{Exchange, HasRun, IsOrderly, IsWholeRun, WasGiven, WasTold, exchanged};
ghost use Rattle.hr_graph.specs.Sound.{ComesLast, IsAttained, IsSound};
ghost use Rattle.hr_graph.specs.Step.{begun, height_of, outcome};
ghost use Rattle.hr_graph.specs.Walk.{Answers, View};

/// A law: a walk begins sound, and each answer that it takes keeps it so.
pub fn steps_keep()
    ensures begins { (root : Digest) (manifest : Parts) (view : View)
        → digest_of manifest.bytes ≡ root → begun root manifest ≡ Ok view → IsSound view }
    ensures goes_on { (old new : View) (answer : Given) → IsSound old → Answers old.need answer
        → outcome old answer ≡ Ok new → IsSound new }
{}

/// A law: each answer that is taken changes the walk in one of four ways, by the need.
pub fn answers_are_taken()
    ensures { (old new : View) (answer : Given) → IsSound old → Answers old.need answer
        → outcome old answer ≡ Ok new → IsAnswered old old.need answer new }
{}

/// A law: the root's digest never changes.
pub fn the_root_stays()
    ensures begins { (root : Digest) (manifest : Parts) (view : View)
        → begun root manifest ≡ Ok view → view.root ≡ root }
    ensures goes_on { (old new : View) (answer : Given) → IsSound old → Answers old.need answer
        → outcome old answer ≡ Ok new → new.root ≡ old.root }
{}

/// A law: a walk is done only once its root was put.
pub fn done_after_the_root()
    ensures begins { (root : Digest) (manifest : Parts) (view : View)
        → digest_of manifest.bytes ≡ root → begun root manifest ≡ Ok view
        → view.need ≢ need.Done }
    ensures goes_on { (old new : View) (answer : Given) → IsSound old → Answers old.need answer
        → outcome old answer ≡ Ok new → new.need ≡ need.Done
        → (old.need ≡ need.PutManifest old.root) × (answer ≡ given.Put) }
{}

/// A law: a manifest is to be put only once all that it lists is finished, with the sizes that its
/// descriptors say, and it is higher than each manifest that it lists. The root comes last.
pub fn put_comes_last()
    ensures { (view : View) (digest : Digest) → IsSound view → view.need ≡ need.PutManifest digest
        → ComesLast view digest }
{}

/// A law: a height is 0, or one more than that of some child that was put.
pub fn heights_are_attained()
    ensures { (manifests : List (Digest × Finished)) (children : List Child)
        → (height_of manifests children ≡ 0)
        ⊎ IsAttained manifests children (height_of manifests children) }
{}

/// A law: while a walk runs, all that it has open or finished is from what it was given.
pub fn runs_go_over_what_was_given()
    ensures { (root : Digest) (manifest : Parts) (run : List Exchange) (view : View)
        → HasRun root manifest run view
        → AreFromReadings (WasGiven root manifest run) (WasTold run) view }
{}

/// A law: where a walk refuses to begin or to take an answer, what it was given shows why.
pub fn refusals_are_shown()
    ensures begins { (root : Digest) (manifest : Parts) (why : WalkRefused)
        → digest_of manifest.bytes ≡ root → begun root manifest ≡ Err why
        → IsRefusal (WasGiven root manifest []) (WasTold []) root why }
    ensures goes_on { (root : Digest) (manifest : Parts) (run : List Exchange) (view : View)
        (answer : Given) (why : WalkRefused) → HasRun root manifest run view
        → Answers view.need answer → outcome view answer ≡ Err why
        → IsRefusal (WasGiven root manifest (exchanged view.need answer ∷ run))
        (WasTold (exchanged view.need answer ∷ run)) root why }
{}

/// A law: a run finishes each pair of kind and digest at most once, each manifest after all that
/// it lists; once the walk is done, each manifest that was given was put, and the root last.
pub fn runs_are_orderly()
    ensures going { (root : Digest) (manifest : Parts) (run : List Exchange) (view : View)
        → HasRun root manifest run view → IsOrderly root manifest run }
    ensures done { (root : Digest) (manifest : Parts) (run : List Exchange) (view : View)
        → HasRun root manifest run view → view.need ≡ need.Done
        → IsWholeRun root manifest run }
{}
