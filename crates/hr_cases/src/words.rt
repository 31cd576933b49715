//! Hooks, executions with their rows, and where jobs stand, a line for each.

use crate::kept::core;
use hr_base::{Hook, JobNo, Memory, Status};
use hr_board::{Board, PlainBoard};
use hr_event::{ExecStatus, ExecView, RowView};
use hr_replay::Ending;
use hr_store::Store;
use std::alloc::Global;

/// Writes the hooks, the first to be emitted first.
pub fn write_hooks(said: &mut String, kept: &Ending) -> Result<(), Memory> {
    match core(kept) {
        Some(core) => write_each(said, "hook", core.hooks()),
        None => Ok(()),
    }
}

fn write_each(said: &mut String, word: &str, hooks: &[Hook]) -> Result<(), Memory> {
    for hook in hooks {
        let Hook { job, rev, status } = *hook;
        write_stand(said, word, job, rev, status)?;
    }
    Ok(())
}

fn write_stand(
    said: &mut String,
    word: &str,
    job: JobNo,
    rev: u8,
    status: Status,
) -> Result<(), Memory> {
    writeln!(said, "{word} {}.{rev} {}", job.0, word_of(status))?;
    Ok(())
}

/// Writes each execution that is kept, and below it its rows with the hooks that they received.
pub fn write_rows(alloc: Global, said: &mut String, kept: &Ending) -> Result<(), Memory> {
    let Some(core) = core(kept) else {
        return Ok(());
    };
    let store = core.store();
    let executions = store.executions(alloc)?;
    for view in executions.view() {
        write_execution(said, view)?;
        let rows = store.tasks(alloc, view.exec)?;
        for row in rows.view() {
            write_stand(said, "row", row.job, row.rev, row.status)?;
            write_each(said, "received", store.received(row.job))?;
        }
    }
    Ok(())
}

fn write_execution(said: &mut String, view: &ExecView) -> Result<(), Memory> {
    write!(
        said,
        "execution {} {} total {}",
        view.exec.0,
        status_of(view.status),
        view.total
    )?;
    write!(said, " succeed {} failed {}", view.succeed, view.failed)?;
    writeln!(
        said,
        " in_progress {} stopped {}",
        view.in_progress, view.stopped
    )?;
    Ok(())
}

/// Writes of each job that is kept its last revision that was opened, with the status of that.
pub fn write_words(alloc: Global, said: &mut String, kept: &Ending) -> Result<(), Memory> {
    let Some(core) = core(kept) else {
        return Ok(());
    };
    let executions = core.store().executions(alloc)?;
    for view in executions.view() {
        let rows = core.store().tasks(alloc, view.exec)?;
        for row in rows.view() {
            write_word(said, core.board(), row)?;
        }
    }
    Ok(())
}

fn write_word(said: &mut String, board: &PlainBoard, row: &RowView) -> Result<(), Memory> {
    if row.job.0 == 0 || board.jobs() < row.job.0 {
        return Ok(());
    }
    let (rev, status) = board.current(row.job);
    write_stand(said, "word", row.job, rev, status)
}

fn status_of(status: ExecStatus) -> &'static str {
    match status {
        ExecStatus::InProgress => "InProgress",
        ExecStatus::Succeed => "Succeed",
        ExecStatus::Failed => "Failed",
        ExecStatus::Stopped => "Stopped",
    }
}

fn word_of(status: Status) -> &'static str {
    match status {
        Status::Pending => "Pending",
        Status::Scheduled => "Scheduled",
        Status::Running => "Running",
        Status::Stopped => "Stopped",
        Status::Error => "Error",
        Status::Success => "Success",
    }
}
