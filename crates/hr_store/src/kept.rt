//! The executions that a store keeps, in a map by their numbers, in order of creation. (Our own.)
ghost use Rattle.std.specs.Prelude.{◌≡◌, ◌<◌, ◌≤◌, ◌∷◌, ◌++◌, [], ℕ, length, nat_eq, slice_get, IsSome, None, Some, OnOk, OnErr};
ghost use Rattle.std.specs.Option.{option_copied};
ghost use Rattle.indexmap.specs.IndexMap.{get};
ghost use Rattle.hr_store.specs.Execution.{ExecState};
ghost use Rattle.hr_store.specs.Kept.{ExecReceives};
ghost use Rattle.hr_store.specs.Row.{RowState};
ghost use Rattle.hr_store.specs.Store.{AreCountable, AreOrdered, exec_numbered, execs_failing};
ghost use Rattle.hr_store.specs.Sweeping.{kept_by};

use crate::execution::Execution;
use crate::held::Held;
use crate::sweeping::drop_ended;
use hr_base::{Hook, Memory};
use indexmap::IndexMap;
use std::alloc::Global;
use std::marker::Model;

/// Executions by number, in order of creation.
#[derive(Drop)]
pub(crate) struct Kept {
    by_number: IndexMap<u32, Held>,
}

impl Model for Kept {
    ghost use Rattle.std.specs.Prelude.{List};
    ghost use Rattle.hr_store.specs.Execution.{ExecState};
    ghost use Rattle.hr_store.specs.Kept.{AreKeyed, execs_in};

    ghost Value = { List ExecState };

    ghost view = { λ k. execs_in k.by_number.entries };

    ghost invariant = { λ k. AreKeyed k.by_number.entries };
}

impl Kept {
    /// No executions.
    pub(crate) fn new(alloc: Global) -> Kept
        ensures { result ≡ [] }
    {
        Kept {
            by_number: IndexMap::new(alloc),
        }
    }

    /// How many there are.
    pub(crate) fn len(&self) -> usize
        ensures { result ≡ length self.now }
    {
        self.by_number.len()
    }

    /// The execution at this place, from 0.
    pub(crate) fn at(&self, at: usize) -> &Execution
        requires { at < length self.now }
        ensures { slice_get self.now at ≡ Some result.now }
    {
        &self.by_number[at].execution
    }

    /// The execution of this number, where it is kept.
    pub(crate) fn numbered(&self, exec: u32) -> Option<&Execution>
        ensures { option_copied result ≡ exec_numbered exec self.now }
    {
        match self.by_number.get(&exec) {
            Some(held) => Some(&held.execution),
            None => None,
        }
    }

    /// Puts an execution at the end. Where there is no room nothing is changed.
    pub(crate) fn push(&mut self, execution: Execution) -> Result<(), Memory>
        requires { exec_numbered execution.exec self.old ≡ None }
        ensures ok { OnOk result (self.new ≡ self.old ++ execution ∷ []) }
        ensures err { OnErr result (self.new ≡ self.old) }
    {
        let number = execution.exec();
        let held = Held {
            execution,
            dropped: false,
        };
        self.by_number.insert(number, held)?;
        Ok(())
    }

    /// Notes that the plan of the execution of this number failed, where it is kept.
    pub(crate) fn fail(&mut self, exec: u32)
        requires { AreOrdered 0 0 self.old }
        ensures { self.new ≡ execs_failing exec self.old }
    {
        let Some(held) = self.by_number.get_mut(&exec) else {
            return;
        };
        held.execution.fail();
    }

    /// The row at a place of the execution at another receives a hook of its job. Answers whether
    /// the row rose.
    pub(crate) fn receive(&mut self, at: usize, place: usize, hook: Hook) -> bool
        requires at { at < length self.old }
        requires place { (exec : ExecState) → slice_get self.old at ≡ Some exec
            → place < length exec.rows }
        requires job { (exec : ExecState) (row : RowState) → slice_get self.old at ≡ Some exec
            → slice_get exec.rows place ≡ Some row → hook.job.0 ≡ row.job }
        requires rev { hook.rev ≤ 3 }
        ensures { ExecReceives self.old at place hook result self.new }
    {
        self.by_number[at].execution.receive(place, hook)
    }

    /// Drops the ended executions of each policy but so many of the newest. The counts of the
    /// policies serve for that. It takes no memory.
    pub(crate) fn sweep(&mut self, counts: &mut IndexMap<u32, u64>, keep: u32)
        requires { AreCountable counts.old self.old }
        ensures kept { self.new ≡ kept_by keep self.old }
        ensures others { (p : ℕ) → IsSome (get nat_eq counts.old p)
            → IsSome (get nat_eq counts.new p) }
    {
        drop_ended(&mut self.by_number, counts, keep);
    }
}
