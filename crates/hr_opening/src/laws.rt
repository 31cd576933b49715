//! What holds of every opening of a script, and of every plan. (Our own.)
ghost use Rattle.std.specs.Prelude.{◌≡◌, List, Some, length};
ghost use Rattle.std.specs.List.{AllByRecursion};
ghost use Rattle.hr_base.specs.Bytes.{Text};
ghost use Rattle.hr_adapter.specs.Content.{Content, Honest};
ghost use Rattle.hr_event.specs.declared.task.TaskSpec.{TaskSpec};
ghost use Rattle.hr_script.specs.Reading.{IsReading};
ghost use Rattle.hr_script.specs.declared.reading.Lines.{Lines};
ghost use Rattle.hr_script.specs.declared.reading.Numbered.{Numbered};
ghost use Rattle.hr_opening.specs.Fit.{AreFit, IsJobLimit, KeepsHonest};
ghost use Rattle.hr_opening.specs.Opening.{Opens};
ghost use Rattle.hr_opening.specs.Plan.{IsPlanned, plan_of};
ghost use Rattle.hr_opening.specs.declared.opening.Opened.{Opened};

/// A law: the lines that are read of a text can be opened.
pub fn what_is_read_is_fit()
    ensures { (text : Text) (read : Lines) → IsReading text read → AreFit read.lines }
{}

/// A law: there are eight registries.
pub fn eight_registries_open()
    ensures { (lines : List Numbered) (opened : Opened) → Opens lines opened
        → length opened.regs ≡ 8 }
{}

/// A law: there may be some jobs, and 262,144 at most, whatever is read of a text.
pub fn some_jobs_may_be()
    ensures { (lines : List Numbered) (opened : Opened) → AreFit lines → Opens lines opened
        → IsJobLimit opened.jobs }
{}

/// A law: where no line stores bytes under the digest of others, everything stands under its own
/// digest in each registry, and each tag names a manifest that is there.
pub fn honest_lines_open_honest_registries()
    ensures { (lines : List Numbered) (opened : Opened) → Opens lines opened
        → AllByRecursion (λ numbered. KeepsHonest numbered.line) lines
        → AllByRecursion (λ registry. Honest registry.content) opened.regs }
{}

/// A law: each task of a plan is of policy 1, and goes from registry 1 to registry 2 in three
/// attempts.
pub fn plans_go_from_1_to_2()
    ensures { (c : Content) (specs : List TaskSpec) → plan_of c ≡ Some specs
        → AllByRecursion IsPlanned specs }
{}
