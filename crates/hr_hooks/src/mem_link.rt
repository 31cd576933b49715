//! A link in memory, which keeps the hooks that it is handed and fails by a list. (Our own.)
ghost use Rattle.std.specs.Prelude.{◌≡◌, ◌↔◌, [], ◌∷◌, Some, OnErr, OnOk, IsTrue, Contains};
ghost use Rattle.hr_cause.specs.Stream.{FailsByFault};
ghost use Rattle.hr_hooks.specs.Link.{Delivers};
ghost use Rattle.hr_hooks.specs.MemLink.{DeliversTo};

use crate::{HookLink, LinkFault};
use hr_base::{Hook, List, Memory};
use hr_cause::Counted;
use hr_event::Received;
use std::alloc::Global;
use std::marker::Model;

/// A link over memory, which tells what it was handed. It answers `Raised` to each hook.
#[derive(Debug, Drop)]
pub struct MemHookLink {
    taken: List<Hook>,
    failing: List<u64>,
    calls: u64,
    faults: u64,
}

impl Model for MemHookLink {
    ghost use Rattle.hr_hooks.specs.MemLink.{LinkState};

    ghost Value = { LinkState };

    ghost view = { λ l. record {
      taken = l.taken;
      failing = l.failing;
      calls = l.calls;
      faults = l.faults;
    } };
}

impl MemHookLink {
    /// A link that was handed nothing. The deliveries whose numbers, from 1, stand in `failing` fail.
    /// Besides, one fails that finds no memory for its hook. It takes no memory itself.
    pub fn new(alloc: Global, failing: List<u64>) -> MemHookLink
        ensures { result ≡ record { taken = []; failing = failing; calls = 0; faults = 0 } }
    {
        MemHookLink {
            taken: List::new(alloc),
            failing,
            calls: 0,
            faults: 0,
        }
    }

    /// The hooks that it was handed and answered, in order.
    pub fn taken(&self) -> &[Hook]
        ensures { result.now ≡ self.now.taken }
    {
        self.taken.view()
    }
}

impl Counted for MemHookLink {
    ghost faults = { λ l. l.faults };

    fn faults(&self) -> u64 {
        self.faults
    }
}

impl HookLink for MemHookLink {
    ghost delivered = { λ l. Some l.taken };

    fn deliver(&mut self, hook: Hook) -> Result<Received, LinkFault>
        ensures exact { DeliversTo self.old hook result self.new }
        ensures ok { OnOk result (Delivers (Some self.old.taken) (hook ∷ []) (Some self.new.taken)) }
        ensures err { OnErr result (self.new.taken ≡ self.old.taken) }
        ensures cause { FailsByFault self.old.faults self.new.faults result }
    {
        self.calls = self.calls.saturating_add(1);
        if is_planned(self.failing.view(), self.calls) || self.taken.push(hook).is_err() {
            self.faults = self.faults.saturating_add(1);
            return Err(LinkFault::Failed);
        }
        Ok(Received::Raised)
    }
}

// Whether the call of this number fails by the list.
fn is_planned(failing: &[u64], call: u64) -> bool
    ensures { IsTrue result ↔ Contains failing.now call }
{
    failing.contains(&call)
}
