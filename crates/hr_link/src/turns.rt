//! The calls of a dial in memory, some of which fail by a list. (Our own.)
ghost use Rattle.std.specs.Prelude.{◌≡◌, ◌↔◌, ◌+◌, ◌<◌, ◌^◌, ℕ, IfOk, IsTrue, Contains};
ghost use Rattle.hr_cause.specs.Calls.{Called};
ghost use Rattle.hr_cause.specs.Stream.{FailsByFault};

use hr_base::{List, Memory};
use hr_cause::Failed;
use std::alloc::Global;
use std::marker::Model;

/// The calls of a dial, numbered from 1: how many there were, which of them fail, and how many
/// faults there were. Both counts stay at `2^64 - 1`.
#[derive(Drop)]
pub(crate) struct Turns {
    failing: List<u64>,
    calls: u64,
    faults: u64,
}

impl Model for Turns {
    ghost use Rattle.hr_cause.specs.Calls.{CallState};

    ghost Value = { CallState };

    ghost view = { λ t. record { failing = t.failing; calls = t.calls; faults = t.faults } };
}

impl Turns {
    /// No call yet, and no fault.
    pub(crate) fn new(failing: List<u64>) -> Turns
        ensures { result ≡ record { failing = failing; calls = 0; faults = 0 } }
    {
        Turns {
            failing,
            calls: 0,
            faults: 0,
        }
    }

    /// Counts a call. Where it fails by the list, the fault is counted too.
    pub(crate) fn call(&mut self) -> Result<(), Failed>
        ensures exact { Called self.old result self.new }
        ensures cause { FailsByFault self.old.faults self.new.faults result }
    {
        let planned = is_planned(self.failing.view(), self.calls);
        self.calls = self.calls.saturating_add(1);
        if planned {
            self.faults = self.faults.saturating_add(1);
            return Err(Failed);
        }
        Ok(())
    }

    /// How often a call failed.
    pub(crate) fn faults(&self) -> u64
        ensures { result ≡ self.now.faults }
    {
        self.faults
    }

    /// The same calls, none of which is taken to have failed.
    pub(crate) fn fork(&self, alloc: Global) -> Result<Turns, Memory>
        ensures { IfOk result (λ made. made ≡ record self.now { faults = 0 }) }
    {
        Ok(Turns {
            failing: List::from(self.failing.view().to_vec(alloc)?),
            calls: self.calls,
            faults: 0,
        })
    }
}

// A call past the last number of 64 bits stands in no list.
fn is_planned(failing: &[u64], calls: u64) -> bool
    ensures { IsTrue result ↔ Contains failing.now (calls + 1) }
{
    match calls.checked_add(1) {
        Some(number) => failing.contains(&number),
        None => false,
    }
}
