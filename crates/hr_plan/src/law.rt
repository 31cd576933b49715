//! What holds of every plan for a listing. (Our own.)
ghost use Rattle.std.specs.Prelude.{◌≡◌, ◌↔◌, List, Contains};
ghost use Rattle.hr_event.specs.declared.task.TaskSpec.{TaskSpec};
ghost use Rattle.hr_filter.specs.Selection.{IsSelected, RepoTag};
ghost use Rattle.hr_filter.specs.declared.listed.Listed.{Listed};
ghost use Rattle.hr_policy.specs.declared.config.Policy.{Policy};
ghost use Rattle.hr_plan.specs.Plan.{IsPlan, planned_tags};

/// A law: the tasks of a plan have exactly the tags that the filters of the policy select.
pub fn plans_have_what_is_selected()
    ensures { (policy : Policy) (listing : List Listed) (specs : List TaskSpec)
        → IsPlan policy listing specs → (tag : RepoTag)
        → Contains (planned_tags specs) tag ↔ IsSelected policy.filters listing tag }
{}

/// A law: a policy has at most one plan for a listing.
pub fn a_listing_has_one_plan()
    ensures { (policy : Policy) (listing : List Listed) (specs others : List TaskSpec)
        → IsPlan policy listing specs → IsPlan policy listing others → specs ≡ others }
{}
