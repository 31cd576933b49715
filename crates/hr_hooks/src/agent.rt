//! The agent: hooks that wait for their delivery, in order. (Our own.)
ghost use Rattle.std.specs.Prelude.{◌≡◌, ◌<◌, ◌≤◌, ◌∷◌, ◌++◌, [], drop, length, take, OnErr, OnOk};
ghost use Rattle.hr_cause.specs.Stream.{FailsByFault};
ghost use Rattle.hr_hooks.specs.Link.{Delivers};
ghost use Rattle.hr_hooks.specs.Agent.{Pushes};

use crate::{HookLink, LinkFault};
use hr_base::{Hook, Memory};
use std::alloc::Global;
use std::marker::Model;

/// Hooks that wait for their delivery, in order.
#[derive(Debug, Drop)]
pub struct Agent {
    waiting: Vec<Hook>,
}

impl Model for Agent {
    ghost use Rattle.std.specs.Prelude.{List};
    ghost use Rattle.hr_base.specs.declared.status.Hook.{Hook};

    ghost Value = { List Hook };

    ghost view = { λ agent. agent.waiting.items };
}

impl Agent {
    /// No hook waits. It takes no memory, and keeps the allocator for the hooks to come.
    pub fn new(alloc: Global) -> Agent
        ensures { result ≡ [] }
    {
        Agent {
            waiting: Vec::new(alloc),
        }
    }

    /// Puts a hook behind all that wait. Where there is no room they stay as they were.
    pub fn add(&mut self, hook: Hook) -> Result<(), Memory>
        ensures ok { OnOk result (self.new ≡ self.old ++ hook ∷ []) }
        ensures err { OnErr result (self.new ≡ self.old) }
    {
        self.waiting.push(hook)?;
        Ok(())
    }

    /// Delivers the hooks that wait, in order, and answers how many it delivered: all of them. At the
    /// first fault it stops; that hook and those behind it wait on.
    pub fn push<K: HookLink>(&mut self, link: &mut K) -> Result<u64, LinkFault>
        ensures pushes { Pushes self.old (K.delivered link.old) result
            self.new (K.delivered link.new) }
        ensures cause { FailsByFault (K.faults link.old) (K.faults link.new) result }
    {
        let mut count = 0;
        let all = deliver_all(self.waiting.as_slice(), link, &mut count);
        drop_front(&mut self.waiting, count);
        match all {
            Ok(()) => Ok(count as u64),
            Err(fault) => Err(fault),
        }
    }

    /// The hooks that wait, in order.
    pub fn left(&self) -> &[Hook]
        ensures { result.now ≡ self.now }
    {
        self.waiting.as_slice()
    }
}

// Delivers these hooks, in order, up to the first fault, and counts those that it delivered.
fn deliver_all<K: HookLink>(
    hooks: &[Hook],
    link: &mut K,
    count: &mut usize,
) -> Result<(), LinkFault>
    requires { count.old ≡ 0 }
    ensures ok { OnOk result (count.new ≡ length hooks.now) }
    ensures err { OnErr result (count.new < length hooks.now) }
    ensures delivered { Delivers (K.delivered link.old) (take count.new hooks.now)
        (K.delivered link.new) }
    ensures cause { FailsByFault (K.faults link.old) (K.faults link.new) result }
{
    for hook in hooks {
        link.deliver(*hook)?;
        *count += 1;
    }
    Ok(())
}

// Lets so many of the first go.
fn drop_front(hooks: &mut Vec<Hook>, count: usize)
    requires { count ≤ length hooks.old.items }
    ensures { hooks.new.items ≡ drop count hooks.old.items }
{
    hooks.drain(..count);
}
