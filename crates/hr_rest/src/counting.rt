//! Executions, counted anew over rows that were raised. (Our own.)
ghost use Rattle.std.specs.Prelude.{◌≡◌, ◌≤◌, length};
ghost use Rattle.hr_store.specs.Execution.{is_error, is_stopped, is_success, is_unfinished};
ghost use Rattle.hr_rest.specs.Counting.{recounted, rows_with, some_with, status_over};

use hr_base::Status;
use hr_event::{ExecStatus, ExecView, RowView};

/// An execution with the counters and the status of these rows, which are all of its own; as it was
/// where it has none.
pub fn recount(view: ExecView, rows: &[RowView]) -> ExecView
    requires { length rows.now ≡ view.total }
    ensures { result ≡ recounted view rows.now }
{
    if rows.is_empty() {
        return view;
    }
    ExecView {
        status: status_over(rows),
        succeed: succeeded(rows) as u32,
        failed: failed(rows) as u32,
        in_progress: unfinished(rows) as u32,
        stopped: stopped(rows) as u32,
        ..view
    }
}

fn status_over(rows: &[RowView]) -> ExecStatus
    ensures { result ≡ status_over rows.now }
{
    if some_unfinished(rows) {
        ExecStatus::InProgress
    } else if some_error(rows) {
        ExecStatus::Failed
    } else if some_stopped(rows) {
        ExecStatus::Stopped
    } else {
        ExecStatus::Succeed
    }
}

fn some_unfinished(rows: &[RowView]) -> bool
    ensures { result ≡ some_with is_unfinished rows.now }
{
    rows.iter().any(|row| is_unfinished(row.status))
}

fn some_error(rows: &[RowView]) -> bool
    ensures { result ≡ some_with is_error rows.now }
{
    rows.iter().any(|row| is_error(row.status))
}

fn some_stopped(rows: &[RowView]) -> bool
    ensures { result ≡ some_with is_stopped rows.now }
{
    rows.iter().any(|row| is_stopped(row.status))
}

fn succeeded(rows: &[RowView]) -> usize
    ensures is { result ≡ rows_with is_success rows.now }
    ensures few { result ≤ length rows.now }
{
    rows.iter().filter(|row| is_success(row.status)).count()
}

fn failed(rows: &[RowView]) -> usize
    ensures is { result ≡ rows_with is_error rows.now }
    ensures few { result ≤ length rows.now }
{
    rows.iter().filter(|row| is_error(row.status)).count()
}

fn unfinished(rows: &[RowView]) -> usize
    ensures is { result ≡ rows_with is_unfinished rows.now }
    ensures few { result ≤ length rows.now }
{
    rows.iter().filter(|row| is_unfinished(row.status)).count()
}

fn stopped(rows: &[RowView]) -> usize
    ensures is { result ≡ rows_with is_stopped rows.now }
    ensures few { result ≤ length rows.now }
{
    rows.iter().filter(|row| is_stopped(row.status)).count()
}

fn is_success(status: Status) -> bool
    ensures { result ≡ is_success status }
{
    matches!(status, Status::Success)
}

fn is_error(status: Status) -> bool
    ensures { result ≡ is_error status }
{
    matches!(status, Status::Error)
}

fn is_stopped(status: Status) -> bool
    ensures { result ≡ is_stopped status }
{
    matches!(status, Status::Stopped)
}

fn is_unfinished(status: Status) -> bool
    ensures { result ≡ is_unfinished status }
{
    matches!(
        status,
        Status::Pending | Status::Scheduled | Status::Running
    )
}
