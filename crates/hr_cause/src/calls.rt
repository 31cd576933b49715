//! How devices count their faults, and those in memory their calls, some of which fail by a list.
//! (Our own.)
ghost use Rattle.std.specs.Prelude.{◌≡◌, ◌↔◌, ◌+◌, ◌<◌, ◌^◌, ℕ, IfOk, IsTrue, Contains};
ghost use Rattle.std.specs.Ordering.{nat_cmp};
ghost use Rattle.std.specs.BTreeSet as ordered;
ghost use Rattle.hr_cause.specs.Calls.{counted, Called};

use crate::Failed;
use hr_base::{List, Memory};
use std::alloc::Global;
use std::collections::BTreeSet;
use std::marker::Model;
use std::snapshot::Snapshot;

/// The calls of a device, numbered from 1: how many there were, which of them fail, and how many
/// faults there were. Both counts stay at `2^64 - 1`.
#[derive(Drop)]
pub(crate) struct Calls {
    failing: BTreeSet<u64>,
    listed: Snapshot<List<u64>>,
    calls: u64,
    faults: u64,
}

impl Model for Calls {
    ghost use Rattle.std.specs.Prelude.{◌<◌, ◌^◌, ◌↔◌, ℕ, IsTrue, Contains};
    ghost use Rattle.std.specs.Ordering.{nat_cmp};
    ghost use Rattle.std.specs.BTreeSet as ordered;
    ghost use Rattle.hr_cause.specs.Calls.{CallState};

    ghost Value = { CallState };

    ghost view = { λ c. record { failing = c.listed.value; calls = c.calls; faults = c.faults } };

    // The set has the numbers of the list, and each is one of 64 bits.
    ghost invariant = { λ c.
        ((n : ℕ) → IsTrue (ordered.contains nat_cmp c.failing n) ↔ Contains c.listed.value n)
        × ((n : ℕ) → Contains c.listed.value n → n < 2 ^ 64) };
}

impl Calls {
    /// No call yet, and no fault.
    pub(crate) fn new(alloc: Global, failing: List<u64>) -> Result<Calls, Memory>
        ensures { IfOk result (λ made. made ≡ record { failing = failing; calls = 0; faults = 0 }) }
    {
        let listed = Snapshot::of(&failing);
        let failing = gathered(alloc, failing.view())?;
        Ok(Calls {
            failing,
            listed,
            calls: 0,
            faults: 0,
        })
    }

    /// Counts a call. Where it fails by the list, the fault is counted too.
    pub(crate) fn call(&mut self) -> Result<(), Failed>
        ensures exact { Called self.old result self.new }
        ensures in_range { self.old.faults < 2 ^ 64 }
    {
        let planned = is_planned(&self.failing, self.calls);
        self.calls = self.calls.saturating_add(1);
        if planned {
            return Err(fault(&mut self.faults));
        }
        Ok(())
    }

    /// Counts a fault that no list foresaw, and answers it.
    pub(crate) fn fault(&mut self) -> Failed
        ensures { self.new ≡ record self.old { faults = counted self.old.faults } }
    {
        fault(&mut self.faults)
    }

    /// How often a call failed.
    pub(crate) fn faults(&self) -> u64
        ensures { result ≡ self.now.faults }
    {
        self.faults
    }
}

/// Counts a fault, and answers it.
pub(crate) fn fault(faults: &mut u64) -> Failed
    ensures one_more { faults.new ≡ counted faults.old }
    ensures in_range { faults.old < 2 ^ 64 }
{
    *faults = faults.saturating_add(1);
    Failed
}

fn gathered(alloc: Global, numbers: &[u64]) -> Result<BTreeSet<u64>, Memory>
    ensures same { IfOk result (ordered.IsFromIterResult nat_cmp numbers.now) }
    ensures in_range { (n : ℕ) → Contains numbers.now n → n < 2 ^ 64 }
{
    Ok(numbers.iter().copied().collect(alloc)?)
}

// A call past the last number of 64 bits stands in no list.
fn is_planned(failing: &BTreeSet<u64>, calls: u64) -> bool
    ensures { IsTrue result
        ↔ ((calls + 1 < 2 ^ 64) × IsTrue (ordered.contains nat_cmp failing.now (calls + 1))) }
{
    match calls.checked_add(1) {
        Some(number) => failing.contains(&number),
        None => false,
    }
}
