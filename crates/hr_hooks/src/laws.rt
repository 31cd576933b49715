//! Laws of deliveries. (Our own.)
ghost use Rattle.std.specs.Prelude.{[], ◌++◌, List, Option};
ghost use Rattle.hr_base.specs.declared.status.Hook.{Hook};
ghost use Rattle.hr_hooks.specs.Link.{Delivers};

/// A law: where nothing is delivered nothing is added, and what is delivered in two turns is added in
/// that order.
pub fn deliveries_add_up()
    ensures none { (before : Option (List Hook)) → Delivers before [] before }
    ensures both { (before mid now : Option (List Hook)) (hooks more : List Hook)
        → Delivers before hooks mid → Delivers mid more now → Delivers before (hooks ++ more) now }
{}
