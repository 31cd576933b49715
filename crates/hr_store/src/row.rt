//! The row of a job: what it copies, and what is known of it by the hooks that it received. (Our own.)
ghost use Rattle.std.specs.Prelude.{◌≡◌, ◌↔◌, ◌≤◌, [], IfOk, IsTrue};
ghost use Rattle.hr_base.specs.Merge.{joined};
ghost use Rattle.hr_store.specs.Row.{ends_job, is_among};

use hr_base::{ExecNo, Hook, JobNo, Memory, Status, join, joined_in_turn};
use hr_event::{RowView, TaskSpec};
use std::alloc::Global;
use std::marker::Model;

/// A row. It has room for all hooks that its job can have: six for each of four revisions.
#[derive(Debug, Drop)]
pub(crate) struct Row {
    job: JobNo,
    spec: TaskSpec,
    received: Vec<Hook>,
    known: (u8, Status),
}

impl Model for Row {
    ghost use Rattle.std.specs.Prelude.{◌≡◌, ◌≤◌};
    ghost use Rattle.std.specs.Vec.{vec_capacity};
    ghost use Rattle.hr_base.specs.Merge.{joined};
    ghost use Rattle.hr_store.specs.Row.{OnceEach, RowState};

    ghost Value = { RowState };

    ghost view = { λ r. record { job = r.job.0; spec = r.spec; received = r.received.items } };

    ghost invariant = { λ r. (r.known ≡ joined r.received.items)
        × OnceEach r.job.0 r.received.items × (24 ≤ vec_capacity r.received) };
}

impl Row {
    ghost use Rattle.hr_store.specs.Execution.{row_view};
    ghost use Rattle.hr_store.specs.Row.{RoseIf, is_over, row_with, with_hook};

    /// A row that received nothing yet, with the room for all that it can receive.
    pub(crate) fn new(alloc: Global, job: JobNo, spec: TaskSpec) -> Result<Row, Memory>
        ensures { IfOk result (λ row. row ≡ record { job = job.0; spec = spec; received = [] }) }
    {
        Ok(Row {
            job,
            spec,
            received: Vec::with_capacity(alloc, 24)?,
            known: (0, Status::Pending),
        })
    }

    /// What is known of the job, a revision and its status: the join of the hooks.
    pub(crate) fn known(&self) -> (u8, Status)
        ensures { result ≡ joined self.now.received }
    {
        self.known
    }

    /// What the job copies.
    pub(crate) fn spec(&self) -> &TaskSpec
        ensures { result.now ≡ self.now.spec }
    {
        &self.spec
    }

    /// What is told of it, as a row of this execution.
    pub(crate) fn view(&self, alloc: Global, exec: ExecNo) -> Result<RowView, Memory>
        ensures { IfOk result (λ made. made ≡ row_view exec.0 self.now) }
    {
        Ok(RowView {
            job: self.job,
            exec,
            rev: self.known.0,
            status: self.known.1,
            from: self.spec.from.copy(alloc)?,
            to: self.spec.to.copy(alloc)?,
        })
    }

    /// The hooks that it received, in order, each once.
    pub(crate) fn received(&self) -> &[Hook]
        ensures { result.now ≡ self.now.received }
    {
        self.received.as_slice()
    }

    /// Whether the job is over by what is known.
    pub(crate) fn is_over(&self) -> bool
        ensures { result ≡ is_over self.now }
    {
        ends_job(self.spec.attempts, self.known.0, self.known.1)
    }

    /// Receives a hook of its job. Answers whether more is known by it.
    pub(crate) fn receive(&mut self, hook: Hook) -> bool
        requires job { hook.job.0 ≡ self.old.job }
        requires rev { hook.rev ≤ 3 }
        ensures received { self.new ≡ row_with self.old hook }
        ensures rose { RoseIf result self.old.received (with_hook self.old.received hook) }
    {
        if is_among(self.received.as_slice(), hook) {
            return false;
        }
        joined_in_turn();
        let known = join(self.known, hook);
        let raised = !same(known, self.known);
        self.received.push_reserved(hook);
        self.known = known;
        raised
    }
}

// Whether the hook is among these.
fn is_among(hooks: &[Hook], hook: Hook) -> bool
    ensures { result ≡ is_among hooks.now hook }
{
    hooks.contains(&hook)
}

// Whether a job of so many attempts is over at this revision with this status.
fn ends_job(attempts: u8, rev: u8, status: Status) -> bool
    ensures { result ≡ ends_job attempts rev status }
{
    match status {
        Status::Success | Status::Stopped => true,
        Status::Error => u32::from(rev) + 1 == u32::from(attempts),
        Status::Pending | Status::Scheduled | Status::Running => false,
    }
}

// Whether two pairs are the same.
fn same(known: (u8, Status), other: (u8, Status)) -> bool
    ensures { IsTrue result ↔ (known ≡ other) }
{
    known == other
}
