//! Laws of the calls of a lane. (Our own.)
ghost use Rattle.std.specs.Prelude.{◌≡◌};
ghost use Rattle.hr_base.specs.declared.number.JobNo.{JobNo};
ghost use Rattle.hr_board.specs.View.{View};
ghost use Rattle.hr_line.specs.Admission.{Admits};
ghost use Rattle.hr_line.specs.Orderly.{IsNew};
ghost use Rattle.hr_line.specs.State.{State};
ghost use Rattle.hr_line.specs.Step.{Step};
ghost use Rattle.hr_line.specs.declared.answer.Admit.{Admit};
ghost use Rattle.hr_line.specs.declared.answer.Admit.TheVariants.{Began};
ghost use Rattle.hr_line.specs.declared.answer.Stepped.{Stepped};
ghost use Rattle.hr_line.specs.declared.held.Admitted.{Admitted};
ghost use Rattle.hr_lane.specs.Admission.{AdmitsWord};
ghost use Rattle.hr_lane.specs.Word.{Steps};

/// A law: what a step and an admission do to a lane, beside what they do to the word of the revision,
/// are a step and an admission as all laws of lanes take them. A revision that is begun was not
/// admitted before.
pub fn calls_are_those_of_a_lane()
    ensures steps { (s t : State) (job : JobNo) (v w : View) (answer : Stepped)
        → Steps s t job v w answer → Step s t job answer }
    ensures admits { (s t : State) (a : Admitted) (v w : View) (answer : Admit)
        → AdmitsWord s t a v w answer → Admits s t a answer }
    ensures new { (s t : State) (a : Admitted) (v w : View)
        → AdmitsWord s t a v w Began → IsNew s.admitted a }
{}
