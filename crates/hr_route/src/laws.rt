//! Laws of first lines, whatever reads and writes them.
ghost use Rattle.std.specs.Prelude.{◌≡◌, Ok, Result};
ghost use Rattle.hr_base.specs.Bytes.{Text};
ghost use Rattle.hr_route.specs.declared.route.NoRoute.{NoRoute};
ghost use Rattle.hr_route.specs.declared.route.Route.{Route};
ghost use Rattle.hr_route.specs.Path.{IsWay, Way};
ghost use Rattle.hr_route.specs.Routing.{Answers, IsRouteOf};
ghost use Rattle.hr_route.specs.Target.{IsFit, target_text, verb_of};

/// A law: a path leads one way.
pub fn a_path_has_one_way()
    ensures { (path : Text) (one other : Way) → IsWay path one → IsWay path other → one ≡ other }
{}

/// A law: what a verb and a target ask for that are of something fit to be asked is that, unless
/// memory runs out.
pub fn what_is_asked_is_read_back()
    ensures { (route : Route) (answer : Result Route NoRoute) → IsFit route
        → IsRouteOf (verb_of route) (target_text route) answer → Answers (Ok route) answer }
{}
