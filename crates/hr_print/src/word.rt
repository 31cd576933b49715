//! The words of statuses and marks. (Our own; the names are those of Harbor's job service and of
//! its replication executions.)
ghost use Rattle.std.specs.Prelude.{◌≡◌, ◌≢◌};
ghost use Rattle.hr_print.specs.Step.{how_text};
ghost use Rattle.hr_print.specs.Word.{exec_status_text, mark_text, status_text};

use hr_base::{Mark, Status};
use hr_event::{ExecStatus, How};

/// The status of a revision, by its name.
pub(crate) fn status_word(status: Status) -> &'static str
    ensures { result.now ≡ status_text status }
{
    match status {
        Status::Pending => "Pending",
        Status::Scheduled => "Scheduled",
        Status::Running => "Running",
        Status::Stopped => "Stopped",
        Status::Error => "Error",
        Status::Success => "Success",
    }
}

/// The mark of a revision: that it is unopened, or its status.
pub(crate) fn mark_word(mark: Mark) -> &'static str
    ensures { result.now ≡ mark_text mark }
{
    match mark {
        Mark::Unopened => "Unopened",
        Mark::At(status) => status_word(status),
    }
}

/// The status of an execution, by its name.
pub(crate) fn exec_status_word(status: ExecStatus) -> &'static str
    ensures { result.now ≡ exec_status_text status }
{
    match status {
        ExecStatus::InProgress => "InProgress",
        ExecStatus::Succeed => "Succeed",
        ExecStatus::Failed => "Failed",
        ExecStatus::Stopped => "Stopped",
    }
}

/// How a tag came to show what it shows.
pub(crate) fn how_word(how: How) -> &'static str
    requires { how ≢ How.Unsure }
    ensures { result.now ≡ how_text how }
{
    match how {
        How::Put => "put",
        How::Same => "same",
        How::Kept => "kept",
        How::Unsure => unreachable!(),
    }
}
