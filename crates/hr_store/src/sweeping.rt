//! The sweep: ended executions are dropped, but the newest of each policy. (Our own.)
ghost use Rattle.std.specs.Prelude.{◌≡◌, ◌+◌, ◌-◌, ◌^◌, ◌<◌, ℕ, Some, IsSome, nat_eq, not, if◌then◌else◌, OnOk, slice_get};
ghost use Rattle.std.specs.List.{AllByRecursion};
ghost use Rattle.indexmap.specs.IndexMap.{get, index_map_len, values};
ghost use Rattle.hr_store.specs.Kept.{AreKeyed, execs_in};
ghost use Rattle.hr_store.specs.Marking.{AreCleared, AreMarked, MarksAt, MarksEntries};
ghost use Rattle.hr_store.specs.Store.{AreCountable};
ghost use Rattle.hr_store.specs.Sweeping.{AsksAndCounts, kept_by};
ghost use Rattle.hr_store.specs.declared.held.Held.{Held};

use crate::execution::Execution;
use crate::held::Held;
use hr_base::Memory;
use indexmap::IndexMap;

/// Makes sure that a policy has a count.
pub(crate) fn admit(counts: &mut IndexMap<u32, u64>, policy: u32) -> Result<(), Memory>
    ensures there { OnOk result (IsSome (get nat_eq counts.new policy)) }
    ensures others { (p : ℕ) → IsSome (get nat_eq counts.old p) → IsSome (get nat_eq counts.new p) }
{
    counts.insert(policy, 0)?;
    Ok(())
}

/// Drops the ended executions of each policy but so many of the newest. It takes no memory.
pub(crate) fn drop_ended(
    entries: &mut IndexMap<u32, Held>,
    counts: &mut IndexMap<u32, u64>,
    keep: u32,
)
    requires countable { AreCountable counts.old (execs_in entries.old.entries) }
    requires keyed { AreKeyed entries.old.entries }
    ensures kept { execs_in entries.new.entries ≡ kept_by keep (execs_in entries.old.entries) }
    ensures keyed { AreKeyed entries.new.entries }
    ensures others { (p : ℕ) → IsSome (get nat_eq counts.old p) → IsSome (get nat_eq counts.new p) }
{
    clear(entries, counts);
    mark(entries, counts, keep);
    entries.retain(
        |_number: &u32, held: &mut Held| -> bool
            ensures { (result ≡ not held.old.dropped) × (held.new ≡ held.old) }
        { !held.dropped },
    );
}

// Sets the counts of the executions' policies to 0.
fn clear(entries: &IndexMap<u32, Held>, counts: &mut IndexMap<u32, u64>)
    requires { AreCountable counts.old (execs_in entries.now.entries) }
    ensures cleared { AreCleared counts.new (execs_in entries.now.entries) }
    ensures others { (p : ℕ) → IsSome (get nat_eq counts.old p) → IsSome (get nat_eq counts.new p) }
{
    for at in 0..entries.len() {
        put(counts, entries[at].execution.policy(), 0);
    }
}

// Marks each entry as dropped just where it is to be, from the newest on.
fn mark(entries: &mut IndexMap<u32, Held>, counts: &mut IndexMap<u32, u64>, keep: u32)
    requires { AreCleared counts.old (execs_in entries.old.entries) }
    ensures marked { MarksEntries keep entries.old.entries entries.new.entries }
    ensures others { (p : ℕ) → IsSome (get nat_eq counts.old p) → IsSome (get nat_eq counts.new p) }
{
    let mut left = entries.len();
    'newest: while left > 0 {
        left -= 1;
        mark_at(entries, left, counts, keep);
    }
}

// Marks the entry at a place as dropped just where it is to be, and counts it.
fn mark_at(entries: &mut IndexMap<u32, Held>, at: usize, counts: &mut IndexMap<u32, u64>, keep: u32)
    requires at { at < index_map_len entries.old }
    requires there { (held : Held) → slice_get (values entries.old) at ≡ Some held
        → IsSome (get nat_eq counts.old held.execution.policy.0) }
    requires few { (held : Held) (n : ℕ) → slice_get (values entries.old) at ≡ Some held
        → get nat_eq counts.old held.execution.policy.0 ≡ Some n → n < 2 ^ 64 - 1 }
    ensures { MarksAt keep at entries.old.entries counts.old entries.new.entries counts.new }
{
    let held = &mut entries[at];
    held.dropped = is_dropped(&held.execution, counts, keep);
}

// Whether an execution is dropped, where the newer ones are counted. Counts it.
fn is_dropped(execution: &Execution, counts: &mut IndexMap<u32, u64>, keep: u32) -> bool
    requires there { IsSome (get nat_eq counts.old execution.now.policy.0) }
    requires few { (n : ℕ) → get nat_eq counts.old execution.now.policy.0 ≡ Some n
        → n < 2 ^ 64 - 1 }
    ensures { AsksAndCounts execution.now keep counts.old result counts.new }
{
    if !execution.has_ended() {
        return false;
    }
    let newer = count(counts, execution.policy());
    put(counts, execution.policy(), newer + 1);
    newer >= u64::from(keep)
}

// The count of a policy.
fn count(counts: &IndexMap<u32, u64>, policy: u32) -> u64
    requires { IsSome (get nat_eq counts.now policy) }
    ensures { get nat_eq counts.now policy ≡ Some result }
{
    match counts.get(&policy) {
        Some(count) => *count,
        None => unreachable!(),
    }
}

// Sets the count of a policy.
fn put(counts: &mut IndexMap<u32, u64>, policy: u32, count: u64)
    requires { IsSome (get nat_eq counts.old policy) }
    ensures { (p : ℕ) → get nat_eq counts.new p
        ≡ (if nat_eq policy p then Some count else get nat_eq counts.old p) }
{
    if let Some(place) = counts.get_mut(&policy) {
        *place = count;
    }
}
