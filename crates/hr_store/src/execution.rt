//! An execution: its rows, and how many of them are at each end. (Our own.)
ghost use Rattle.std.specs.Prelude.{◌≡◌, ◌+◌, ◌-◌, ◌^◌, ◌<◌, ◌≤◌, length, true, false, Some};
ghost use Rattle.std.specs.List.{AllByRecursion};
ghost use Rattle.hr_store.specs.Execution.{is_error, is_stopped, is_success, one_if};
ghost use Rattle.hr_store.specs.Row.{RowState};

use crate::row::Row;
use hr_base::{ExecNo, Hook, List, Memory, Moment, PolicyNo, Status};
use hr_event::{ExecStatus, ExecView, RowView, Trigger};
use std::alloc::Global;
use std::marker::Model;

/// An execution, with its counters: how many rows are at Success, at Error, at Stopped, and over.
#[derive(Debug, Drop)]
pub(crate) struct Execution {
    exec: ExecNo,
    policy: PolicyNo,
    trigger: Trigger,
    began: Moment,
    plan_failed: bool,
    before: u32,
    rows: Vec<Row>,
    succeed: u32,
    failed: u32,
    stopped: u32,
    over: u32,
}

impl Model for Execution {
    ghost use Rattle.std.specs.Prelude.{◌<◌, ◌^◌, ◌-◌, ◌+◌, length};
    ghost use Rattle.hr_store.specs.Execution.{CountRows, ExecState};

    ghost Value = { ExecState };

    ghost view = { λ e. record {
      exec = e.exec.0;
      policy = e.policy;
      trigger = e.trigger;
      began = e.began;
      plan_failed = e.plan_failed;
      before = e.before;
      rows = e.rows.items;
    } };

    ghost invariant = { λ e. CountRows e.rows.items e.succeed e.failed e.stopped e.over
        × (e.before + length e.rows.items < 2 ^ 32 - 1) };
}

impl Execution {
    ghost use Rattle.std.specs.Prelude.{IfOk, [], map, slice_get};
    ghost use Rattle.hr_store.specs.Execution.{RowReceives, exec_view, has_ended, is_unfinished, last_job, row_view, rows_at, status_by};

    /// An execution with these rows, of which nothing is known yet, after so many jobs.
    pub(crate) fn new(
        exec: ExecNo,
        policy: PolicyNo,
        trigger: Trigger,
        began: Moment,
        before: u32,
        rows: Vec<Row>,
    ) -> Execution
        requires few { before + length rows.items < 2 ^ 32 - 1 }
        requires new { AllByRecursion (λ row. row.received ≡ []) rows.items }
        ensures { result ≡ record {
          exec = exec.0;
          policy = policy;
          trigger = trigger;
          began = began;
          plan_failed = false;
          before = before;
          rows = rows.items;
        } }
    {
        Execution {
            exec,
            policy,
            trigger,
            began,
            plan_failed: false,
            before,
            rows,
            succeed: 0,
            failed: 0,
            stopped: 0,
            over: 0,
        }
    }

    /// Its number.
    pub(crate) fn exec(&self) -> u32
        ensures { result ≡ self.now.exec }
    {
        self.exec.0
    }

    /// The number of its policy.
    pub(crate) fn policy(&self) -> u32
        ensures { result ≡ self.now.policy.0 }
    {
        self.policy.0
    }

    /// How many jobs were made before it.
    pub(crate) fn before(&self) -> u32
        ensures { result ≡ self.now.before }
    {
        self.before
    }

    /// The number of its last job.
    pub(crate) fn last_job(&self) -> u32
        ensures is { result ≡ last_job self.now }
        ensures small { last_job self.now < 2 ^ 32 - 1 }
    {
        self.before + self.rows.len() as u32
    }

    /// Whether it has ended: its plan failed, or each of its rows is over.
    pub(crate) fn has_ended(&self) -> bool
        ensures { result ≡ has_ended self.now }
    {
        self.plan_failed || self.over as usize == self.rows.len()
    }

    // How many rows are at no end.
    fn in_progress(&self) -> u32
        ensures { result ≡ rows_at is_unfinished self.now.rows }
    {
        self.rows.len() as u32 - self.succeed - self.failed - self.stopped
    }

    fn status(&self) -> ExecStatus
        ensures { result ≡ status_by self.now.plan_failed self.now.rows }
    {
        if self.plan_failed {
            ExecStatus::Failed
        } else if self.in_progress() > 0 {
            ExecStatus::InProgress
        } else if self.failed > 0 {
            ExecStatus::Failed
        } else if self.stopped > 0 {
            ExecStatus::Stopped
        } else {
            ExecStatus::Succeed
        }
    }

    /// What is told of it.
    pub(crate) fn view(&self) -> ExecView
        ensures { result ≡ exec_view self.now }
    {
        ExecView {
            exec: self.exec,
            policy: self.policy,
            trigger: self.trigger,
            began: self.began,
            status: self.status(),
            total: self.rows.len() as u32,
            succeed: self.succeed,
            failed: self.failed,
            in_progress: self.in_progress(),
            stopped: self.stopped,
        }
    }

    /// Notes that its plan failed.
    pub(crate) fn fail(&mut self)
        ensures { self.new ≡ record self.old { plan_failed = true } }
    {
        self.plan_failed = true;
    }

    /// Its rows, by job.
    pub(crate) fn rows(&self) -> &[Row]
        ensures { result.now ≡ self.now.rows }
    {
        self.rows.as_slice()
    }

    /// What is told of its rows, by job.
    pub(crate) fn tasks(&self, alloc: Global) -> Result<List<RowView>, Memory>
        ensures { IfOk result (λ all. all ≡ map (row_view self.now.exec) self.now.rows) }
    {
        let mut all = List::new(alloc);
        for row in self.rows.as_slice() {
            all.push(row.view(alloc, self.exec)?)?;
        }
        Ok(all)
    }

    /// Its row at this place, from 0, receives a hook of its job. Answers whether the row rose.
    pub(crate) fn receive(&mut self, at: usize, hook: Hook) -> bool
        requires at { at < length self.old.rows }
        requires job { (row : RowState) → slice_get self.old.rows at ≡ Some row
            → hook.job.0 ≡ row.job }
        requires rev { hook.rev ≤ 3 }
        ensures receives { RowReceives self.old.rows at hook result self.new.rows }
        ensures same { self.new ≡ record self.old { rows = self.new.rows } }
    {
        let row = &mut self.rows[at];
        let old = row.known().1;
        let old_over = row.is_over();
        let raised = row.receive(hook);
        let new = row.known().1;
        let new_over = row.is_over();
        self.succeed = moved(self.succeed, is_success(old), is_success(new));
        self.failed = moved(self.failed, is_error(old), is_error(new));
        self.stopped = moved(self.stopped, is_stopped(old), is_stopped(new));
        self.over = moved(self.over, old_over, new_over);
        raised
    }
}

// A counter, after one row that was counted or not came to be counted or not.
fn moved(count: u32, old: bool, new: bool) -> u32
    requires low { one_if old ≤ count }
    requires high { count < 2 ^ 32 - 1 }
    ensures { result + one_if old ≡ count + one_if new }
{
    count - u32::from(old) + u32::from(new)
}

fn is_success(status: Status) -> bool
    ensures { result ≡ is_success status }
{
    matches!(status, Status::Success)
}

fn is_error(status: Status) -> bool
    ensures { result ≡ is_error status }
{
    matches!(status, Status::Error)
}

fn is_stopped(status: Status) -> bool
    ensures { result ≡ is_stopped status }
{
    matches!(status, Status::Stopped)
}
