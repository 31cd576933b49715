//! The members of a configuration.

/// A member, in the order in which the members of one object are tested.
#[derive(Clone, Copy, Debug, PartialEq, Eq)]
pub enum Key {
    /// Of the root: the number 1.
    Version,
    /// Of the root: the number of lanes.
    Lanes,
    /// Of the root: how many jobs there may be.
    Jobs,
    /// Of the root: how many ended executions of a policy are kept.
    Keep,
    /// Of the root: the list of registries.
    Registries,
    /// Of a registry or a policy: its number.
    Id,
    /// Of a registry or a filter: its kind.
    Kind,
    /// Of a registry: where it lies.
    At,
    /// Of the root: the list of policies.
    Policies,
    /// Of a policy: its name.
    Name,
    /// Of a policy: whether it is on.
    Enabled,
    /// Of a policy: the number of its source.
    Src,
    /// Of a policy: the number of its destination.
    Dst,
    /// Of a policy: what the names at the destination begin with.
    Namespace,
    /// Of a policy: how many leading components of a name go.
    Replace,
    /// Of a policy: whether a tag that is there may be changed.
    Override,
    /// Of a policy: how many attempts a job has.
    Attempts,
    /// Of a policy: when it runs by itself.
    Trigger,
    /// Of a policy: the list of filters.
    Filters,
    /// Of a filter: its pattern, its labels or its resource.
    Value,
    /// Of a filter: whether it takes what fits or leaves it.
    Decoration,
}
