//! The store: executions with the rows of their jobs, in order of creation. (Our own.)
ghost use Rattle.std.specs.Prelude.{◌≡◌, ◌+◌, ◌-◌, ◌^◌, ◌<◌, ◌≤◌, [], length, IfOk, Option, Some, None, MatchOption, IsSome, List, map};
ghost use Rattle.std.specs.Option.{option_map, option_copied};
ghost use Rattle.std.specs.List.{AllByRecursion};
ghost use Rattle.hr_base.specs.Merge.{joined};
ghost use Rattle.hr_board.specs.View.{Keeps};
ghost use Rattle.hr_store.specs.Creating.{CreatesExec, new_rows};
ghost use Rattle.hr_store.specs.Execution.{ExecState, exec_view};
ghost use Rattle.hr_store.specs.Receiving.{ReceivesHook};
ghost use Rattle.hr_store.specs.Store.{AreMade, AreOrdered, FailsBare, exec_numbered, execs_failing, hooks_in, row_of_job, tasks_in};
ghost use Rattle.hr_store.specs.Sweeping.{SweepsEnded};

use crate::CreateRefused;
use crate::execution::Execution;
use crate::kept::Kept;
use crate::places::find_row;
use crate::row::Row;
use crate::sweeping::admit;
use hr_base::{ExecNo, Hook, JobNo, List, Memory, Moment, PolicyNo, Status};
use hr_board::Board;
use hr_event::{ExecView, Received, RowView, TaskSpec, Trigger};
use indexmap::IndexMap;
use std::alloc::Global;
use std::marker::Model;

/// Executions and their rows. A row says what is known of a job: the join of the hooks that the
/// store received for it.
#[derive(Drop)]
pub struct Store {
    limit: u32,
    jobs: u32,
    made: u32,
    kept: Kept,
    counts: IndexMap<u32, u64>,
}

impl Model for Store {
    ghost use Rattle.hr_store.specs.Store.{IsSound, StoreState};

    ghost Value = { StoreState };

    ghost view = { λ s. record {
      limit = s.limit;
      jobs = s.jobs;
      made = s.made;
      kept = s.kept;
    } };

    ghost invariant = { λ s. IsSound s.limit s.jobs s.made s.kept s.counts };
}

impl Store {
    /// A store that has made nothing. It makes at most so many jobs, whether it keeps them or not. It
    /// takes no memory, and keeps the allocator for the executions to come.
    pub fn new(alloc: Global, jobs: u32) -> Store
        requires { jobs ≤ 262144 }
        ensures { result ≡ record { limit = jobs; jobs = 0; made = 0; kept = [] } }
    {
        Store {
            limit: jobs,
            jobs: 0,
            made: 0,
            kept: Kept::new(alloc),
            counts: IndexMap::new(alloc),
        }
    }

    /// How many jobs it may make, which a board that it is used with must have.
    pub fn limit(&self) -> u32
        ensures { result ≡ self.now.limit }
    {
        self.limit
    }

    /// Makes an execution of a policy, with a job and a row for each task, in order: no hook was
    /// received for it. It takes the room for all hooks that these jobs can have. `Full` where the
    /// jobs would pass the number of the store, or it has made 4,294,967,295 executions; after an
    /// error the store is as it was.
    pub fn create(
        &mut self,
        alloc: Global,
        policy: PolicyNo,
        trigger: Trigger,
        specs: List<TaskSpec>,
        now: Moment,
    ) -> Result<ExecNo, CreateRefused>
        ensures { CreatesExec self.old policy trigger specs now result self.new }
    {
        let count = specs.view().len();
        if count > (self.limit - self.jobs) as usize || self.made == u32::MAX {
            return Err(CreateRefused::Full { jobs: self.limit });
        }
        admit(&mut self.counts, policy.0)?;
        let rows = new_rows(alloc, specs, self.jobs)?;
        let exec = ExecNo(self.made + 1);
        let execution = Execution::new(exec, policy, trigger, now, self.jobs, rows);
        self.kept.push(execution)?;
        self.jobs += count as u32;
        self.made += 1;
        Ok(exec)
    }

    /// Notes that the plan of an execution failed, which has no tasks. It changes nothing where that
    /// execution is not kept.
    pub fn mark_failed(&mut self, exec: ExecNo)
        requires { (e : ExecState) → exec_numbered exec.0 self.old.kept ≡ Some e → e.rows ≡ [] }
        ensures { self.new ≡ record self.old { kept = execs_failing exec.0 self.old.kept } }
    {
        self.kept.fail(exec.0);
    }

    /// Receives a hook, of a revision from 0 to 3, which counts only where the word of its revision
    /// covers it: so nobody can invent a status. It takes no memory.
    pub fn receive<B: Board>(&mut self, board: &mut B, hook: Hook) -> Received
        requires rev { hook.rev ≤ 3 }
        requires jobs { self.old.limit ≤ (B.seen board.old).jobs }
        ensures receives { ReceivesHook self.old (B.seen board.old) hook result
            self.new (B.seen board.new) }
        ensures kept { Keeps (B.seen board.old) (B.seen board.new) }
        ensures same { B.same board.old board.new }
    {
        if hook.job.0 == 0 || hook.job.0 > self.jobs {
            return Received::Unknown;
        }
        let Some((at, place)) = find_row(&self.kept, hook.job.0) else {
            return Received::Swept;
        };
        let mark = board.look(hook.job, hook.rev);
        if !mark.covers(hook.status) {
            return Received::Unconfirmed(mark);
        }
        if self.kept.receive(at, place, hook) {
            Received::Raised
        } else {
            Received::Known
        }
    }

    /// Drops the ended executions of each policy but so many of the newest, and answers how many it
    /// dropped. It takes no memory.
    pub fn sweep(&mut self, keep: u32) -> u32
        ensures { SweepsEnded self.old keep result self.new }
    {
        let before = self.kept.len();
        self.kept.sweep(&mut self.counts, keep);
        (before - self.kept.len()) as u32
    }

    /// An execution with its counters; `None` where it is not kept.
    pub fn exec(&self, exec: ExecNo) -> Option<ExecView>
        ensures { result ≡ option_map exec_view (exec_numbered exec.0 self.now.kept) }
    {
        let execution = self.kept.numbered(exec.0)?;
        Some(execution.view())
    }

    /// The executions that are kept, in order of creation.
    pub fn executions(&self, alloc: Global) -> Result<List<ExecView>, Memory>
        ensures { IfOk result (λ all. all ≡ map exec_view self.now.kept) }
    {
        let mut all = List::new(alloc);
        for i in 0..self.kept.len() {
            all.push(self.kept.at(i).view())?;
        }
        Ok(all)
    }

    /// The rows of an execution, by job; none where it is not kept.
    pub fn tasks(&self, alloc: Global, exec: ExecNo) -> Result<List<RowView>, Memory>
        ensures { IfOk result (λ all. all ≡ tasks_in (exec_numbered exec.0 self.now.kept)) }
    {
        match self.kept.numbered(exec.0) {
            Some(execution) => execution.tasks(alloc),
            None => Ok(List::new(alloc)),
        }
    }

    /// What is known of a job, a revision and its status; `None` where its row is not kept.
    pub fn row(&self, job: JobNo) -> Option<(u8, Status)>
        ensures { result
            ≡ option_map (λ row. joined row.received) (row_of_job job.0 self.now.kept) }
    {
        let (at, place) = find_row(&self.kept, job.0)?;
        Some(self.kept.at(at).rows()[place].known())
    }

    /// What a job copies; `None` where its row is not kept.
    pub fn spec(&self, job: JobNo) -> Option<&TaskSpec>
        ensures { option_copied result
            ≡ option_map (λ row. row.spec) (row_of_job job.0 self.now.kept) }
    {
        match find_row(&self.kept, job.0) {
            Some((at, place)) => Some(self.kept.at(at).rows()[place].spec()),
            None => None,
        }
    }

    /// The hooks that were received for a job, in order, each once; none where its row is not kept.
    pub fn received(&self, job: JobNo) -> &[Hook]
        ensures { result.now ≡ hooks_in (row_of_job job.0 self.now.kept) }
    {
        match find_row(&self.kept, job.0) {
            Some((at, place)) => self.kept.at(at).rows()[place].received(),
            None => &[],
        }
    }

    /// A law: what a store keeps to at every moment.
    pub fn is_sound(&self)
        ensures ordered { AreOrdered 0 0 self.now.kept }
        ensures made { AreMade self.now.made self.now.jobs self.now.kept }
        ensures no_rows { AllByRecursion FailsBare self.now.kept }
        ensures within { self.now.jobs ≤ self.now.limit }
    {
        let _jobs = self.jobs;
    }
}

// Rows that received nothing, one for each task, of jobs that are numbered on from a number.
fn new_rows(alloc: Global, specs: List<TaskSpec>, before: u32) -> Result<Vec<Row>, Memory>
    requires { before + length specs < 2 ^ 32 - 1 }
    ensures { IfOk result (λ rows. rows.items ≡ new_rows before specs) }
{
    let specs: Vec<TaskSpec> = Vec::from(specs);
    let mut rows = Vec::with_capacity(alloc, specs.len())?;
    let mut job = before;
    for spec in specs {
        job += 1;
        rows.push(Row::new(alloc, JobNo(job), spec)?)?;
    }
    Ok(rows)
}
