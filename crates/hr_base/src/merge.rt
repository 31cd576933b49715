//! The join of hooks: what is known of a job, in whatever order its hooks came. (Our own.)
ghost use Rattle.std.specs.Prelude.{◌≡◌, List, [], ◌∷◌, ◌++◌, map};
ghost use Rattle.std.specs.List.{Contains};
ghost use Rattle.hr_base.specs.Merge.{told_by, greater_of, joined, IsFirstGreatest, SameMembers, OneFinalEach};
ghost use Rattle.hr_base.specs.declared.status.Hook.{Hook};
ghost use Rattle.hr_base.specs.declared.status.Status.TheVariants.{Pending};

use crate::{Hook, Status};

/// The greater of what is known, a revision with its status, and what a hook tells: by revision,
/// and then by code. Where neither is above the other, what is known stays.
pub fn join(old: (u8, Status), hook: Hook) -> (u8, Status)
    ensures { result ≡ greater_of old (told_by hook) }
{
    let (rev, status) = old;
    if hook.rev > rev || hook.rev == rev && hook.status.code() > status.code() {
        (hook.rev, hook.status)
    } else {
        (rev, status)
    }
}

/// What all of these hooks together tell of a job, of which nothing else is known.
pub fn join_all(hooks: &[Hook]) -> (u8, Status)
    ensures { result ≡ joined hooks.now }
{
    let mut known = (0, Status::Pending);
    for hook in hooks {
        known = join(known, *hook);
    }
    known
}

/// A law: the join of hooks is the first greatest pair of what they tell, after revision 0 with
/// `Pending`.
pub fn joined_is_first_greatest()
    ensures { (hooks : List Hook)
        → IsFirstGreatest ((0, Pending) ∷ map told_by hooks) (joined hooks) }
{}

/// A law: joining hook by hook gives the join of them all.
pub fn joined_in_turn()
    ensures { (hooks : List Hook) (hook : Hook)
        → joined (hooks ++ hook ∷ []) ≡ greater_of (joined hooks) (told_by hook) }
{}

/// A law: a hook that is among them already changes nothing.
pub fn joined_again()
    ensures { (hooks : List Hook) (hook : Hook) → Contains hooks hook
        → greater_of (joined hooks) (told_by hook) ≡ joined hooks }
{}

/// A law: hooks of which no revision has two final statuses have the same join in any order, and
/// however often each comes.
pub fn joined_in_any_order()
    ensures { (hooks others : List Hook) → SameMembers hooks others → OneFinalEach hooks
        → joined hooks ≡ joined others }
{}
