//! What has a number. (Our own.)
ghost use Rattle.std.specs.Prelude.{◌≡◌, option_copied};
ghost use Rattle.hr_rest.specs.Replying.{policy_numbered, view_numbered};

use hr_base::{ExecNo, PolicyNo};
use hr_event::ExecView;
use hr_policy::Policy;

/// The policy of a number, where there is one.
pub(crate) fn policy_numbered(policies: &[Policy], number: PolicyNo) -> Option<&Policy>
    ensures { option_copied result ≡ policy_numbered number.0 policies.now }
{
    policies.iter().find(|policy| policy.id.0 == number.0)
}

/// The execution of a number, where there is one.
pub(crate) fn view_numbered(execs: &[ExecView], number: ExecNo) -> Option<&ExecView>
    ensures { option_copied result ≡ view_numbered number.0 execs.now }
{
    execs.iter().find(|exec| exec.exec.0 == number.0)
}
