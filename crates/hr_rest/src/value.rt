//! The JSON values of replies. (After Harbor's replication API.)
ghost use Rattle.std.specs.Prelude.{◌≡◌, IfOk};
ghost use Rattle.serde_json.specs.View.{view};
ghost use Rattle.hr_rest.specs.Value.{exec_status_text, exec_value, row_value, status_text, text_value, trigger_text};

use hr_base::Status;
use hr_event::{ExecStatus, ExecView, RowView, Trigger};
use serde_json::{Value, json};
use std::alloc::{AllocError, Global};

/// The value of an execution.
pub(crate) fn exec_value(alloc: Global, exec: &ExecView) -> Result<Value, AllocError>
    ensures { IfOk result (λ v. view v ≡ exec_value exec.now) }
{
    let failed = exec.failed;
    let id = exec.exec.0;
    let in_progress = exec.in_progress;
    let policy_id = exec.policy.0;
    let start_time = exec.began.0;
    let status = exec_status_text(exec.status);
    let stopped = exec.stopped;
    let succeed = exec.succeed;
    let total = exec.total;
    let trigger = trigger_text(exec.trigger);
    json!(in alloc; {
        "failed": failed,
        "id": id,
        "in_progress": in_progress,
        "policy_id": policy_id,
        "start_time": start_time,
        "status": status,
        "stopped": stopped,
        "succeed": succeed,
        "total": total,
        "trigger": trigger
    })
}

/// The value of a task.
pub(crate) fn row_value(alloc: Global, row: &RowView) -> Result<Value, AllocError>
    ensures { IfOk result (λ v. view v ≡ row_value row.now) }
{
    let dst_resource = text_value(alloc, row.to.view())?;
    let src_resource = text_value(alloc, row.from.view())?;
    let execution_id = row.exec.0;
    let id = row.job.0;
    let revision = row.rev;
    let status = status_text(row.status);
    json!(in alloc; {
        "dst_resource": dst_resource,
        "execution_id": execution_id,
        "id": id,
        "revision": revision,
        "src_resource": src_resource,
        "status": status
    })
}

/// The value of a text, in which U+FFFD stands for what is no UTF-8.
pub(crate) fn text_value(alloc: Global, text: &[u8]) -> Result<Value, AllocError>
    ensures { IfOk result (λ v. view v ≡ text_value text.now) }
{
    Ok(Value::String(String::from_utf8_lossy(alloc, text)?))
}

fn trigger_text(trigger: Trigger) -> &'static str
    ensures { result.now ≡ trigger_text trigger }
{
    match trigger {
        Trigger::Manual => "manual",
        Trigger::Scheduled => "scheduled",
    }
}

fn exec_status_text(status: ExecStatus) -> &'static str
    ensures { result.now ≡ exec_status_text status }
{
    match status {
        ExecStatus::InProgress => "InProgress",
        ExecStatus::Succeed => "Succeed",
        ExecStatus::Failed => "Failed",
        ExecStatus::Stopped => "Stopped",
    }
}

fn status_text(status: Status) -> &'static str
    ensures { result.now ≡ status_text status }
{
    match status {
        Status::Pending => "Pending",
        Status::Scheduled => "Scheduled",
        Status::Running => "Running",
        Status::Stopped => "Stopped",
        Status::Error => "Error",
        Status::Success => "Success",
    }
}
