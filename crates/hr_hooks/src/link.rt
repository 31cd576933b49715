//! Who receives hooks: the contract of a link that hands them on. (Our own, after the hooks of Harbor's
//! job service.)
ghost use Rattle.std.specs.Prelude.{◌≡◌, ◌∷◌, [], List, Option, OnErr, OnOk};
ghost use Rattle.hr_base.specs.declared.status.Hook.{Hook};
ghost use Rattle.hr_cause.specs.Stream.{FailsByFault};
ghost use Rattle.hr_hooks.specs.Link.{Delivers};

use hr_base::Hook;
use hr_cause::Counted;
use hr_event::Received;

/// Why a hook was not delivered.
#[derive(Clone, Copy, Debug, PartialEq, Eq)]
pub enum LinkFault {
    /// The link failed, and counted the fault. The hook was not handed on.
    Failed,
}

/// A link to whoever receives hooks, as the task store.
pub trait HookLink: Counted {
    /// The hooks that it was handed and answered, in order, where it tells.
    ghost delivered: { Self → Option (List Hook) };

    /// Delivers a hook, and answers what became of it.
    fn deliver(&mut self, hook: Hook) -> Result<Received, LinkFault>
        ensures ok { OnOk result
            (Delivers (delivered self.old) (hook ∷ []) (delivered self.new)) }
        ensures err { OnErr result (delivered self.new ≡ delivered self.old) }
        ensures cause { FailsByFault (Self.faults self.old) (Self.faults self.new) result };
}
