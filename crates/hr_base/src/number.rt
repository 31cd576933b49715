//! The numbers that name jobs, executions, policies and registries, and moments. (Our own.)
ghost use Rattle.std.specs.Prelude.{◌≡◌};
ghost use Rattle.hr_base.specs.Moment.{capped, later_by};

/// A job, which is one task of an execution, from 1, in the order in which they were made.
#[derive(Clone, Copy, Debug, PartialEq, Eq, PartialOrd, Ord, Hash)]
pub struct JobNo(pub u32);

/// An execution, which is one run of a policy, from 1, in the order in which they were made.
#[derive(Clone, Copy, Debug, PartialEq, Eq, PartialOrd, Ord, Hash)]
pub struct ExecNo(pub u32);

/// A policy, by the number that its file or script gives it.
#[derive(Clone, Copy, Debug, PartialEq, Eq, PartialOrd, Ord, Hash)]
pub struct PolicyNo(pub u32);

/// A registry, by the number that its file or script gives it: 1 to 250 in a file, 1 to 8 in a
/// script.
#[derive(Clone, Copy, Debug, PartialEq, Eq, PartialOrd, Ord, Hash)]
pub struct RegNo(pub u8);

/// The last moment, in the year 9987: what is beyond it counts as it.
pub const LAST_MOMENT: u64 = 253_000_000_000;

/// A moment in whole seconds since 1970-01-01T00:00:00Z, from 0 to `LAST_MOMENT`.
#[derive(Clone, Copy, Debug, PartialEq, Eq, PartialOrd, Ord, Hash)]
pub struct Moment(pub u64);

impl Moment {
    /// So many seconds since 1970-01-01T00:00:00Z, or the last moment where that is earlier.
    pub fn capped(seconds: u64) -> Moment
        ensures { result.0 ≡ capped seconds }
    {
        Moment(seconds.min(LAST_MOMENT))
    }

    /// The moment so many seconds later, or the last moment where that is earlier.
    pub fn plus(self, seconds: u64) -> Moment
        ensures { result.0 ≡ later_by self.0 seconds }
    {
        Moment::capped(self.0.saturating_add(seconds))
    }
}
