//! Why bytes are no configuration. (Our own.)
ghost use Rattle.std.specs.Prelude.{◌≡◌};

use crate::Key;
use hr_base::Memory;

/// The first fault of a configuration, in the order of the variants.
#[derive(Clone, Copy, Debug, PartialEq, Eq)]
pub enum ConfigRefused {
    /// There are more than `CONFIG_LIMIT` bytes. `len` is their number.
    TooLong { len: u64 },
    /// They are no JSON document, or its root is no object.
    NotJson,
    /// A member is missing that has no default, or has no value that it may have. The members of
    /// the root come first, then those of the registries one after the other, then those of the
    /// policies. `policy` is the policy's number, or 0 outside of policies and where the number
    /// itself is bad.
    Field { policy: u32, name: Key },
    /// The number of a registry, or else of a policy, stands further to the front too.
    Repeated { id: u32 },
    /// The source or the destination of a policy is no registry's number.
    Unknown { reg: u8 },
    /// The source of this policy is its destination.
    SameRegistry { policy: u32 },
    /// The source of a policy is the destination of one.
    Chain { reg: u8 },
    /// Memory ran out.
    Memory,
}

impl From<Memory> for ConfigRefused {
    ghost use Rattle.std.specs.Prelude.{◌≡◌};
    ghost use Rattle.hr_policy.specs.declared.refusal.ConfigRefused.TheVariants as why;

    ghost from_gives = { λ _ made. made ≡ why.Memory };

    fn from(_: Memory) -> ConfigRefused {
        ConfigRefused::Memory
    }
}

/// A bad member of a policy, or of none where its number is 0.
pub(crate) fn refused(policy: u32, name: Key) -> ConfigRefused
    ensures { result ≡ ConfigRefused.Field policy name }
{
    ConfigRefused::Field { policy, name }
}
