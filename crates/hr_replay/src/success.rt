//! Whether executions succeeded. (Our own.)
ghost use Rattle.std.specs.Prelude.{◌≡◌};
ghost use Rattle.std.specs.List.{list_all};
ghost use Rattle.hr_replay.specs.Success.{is_succeed, view_succeeds};

use hr_event::{ExecStatus, ExecView};

/// Whether each of the executions succeeded.
pub(crate) fn all_succeed(views: &[ExecView]) -> bool
    ensures { result ≡ list_all view_succeeds views.now }
{
    views.iter().all(|view| succeeds(view.status))
}

// Whether the status is that of a success.
fn succeeds(status: ExecStatus) -> bool
    ensures { result ≡ is_succeed status }
{
    match status {
        ExecStatus::Succeed => true,
        ExecStatus::Stopped | ExecStatus::InProgress | ExecStatus::Failed => false,
    }
}
