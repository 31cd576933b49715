//! What is wrong with a configuration as a whole.
ghost use Rattle.std.specs.Prelude.{◌≡◌, IfOk, ℕ, [], not};
ghost use Rattle.std.specs.Ordering.{nat_cmp};
ghost use Rattle.std.specs.BTreeSet.{contains};
ghost use Rattle.hr_policy.specs.Fault.{chain_fault, destinations, fault_of, first_such, first_turning, policy_ids, reg_ids, repeated, repeated_fault, same_fault, sources, stands, unknown_fault, used};

use crate::{Config, ConfigRefused, Policy};
use hr_base::Memory;
use std::alloc::Global;
use std::collections::BTreeSet;

/// The first fault of a configuration as a whole. Its time is n log n for n registries and
/// policies together.
pub(crate) fn fault_of(alloc: Global, config: &Config) -> Result<Option<ConfigRefused>, Memory>
    ensures { IfOk result (λ found. found ≡ fault_of config.now) }
{
    let registries = reg_ids(alloc, config)?;
    if let Some(why) = repeated_fault(alloc, &registries)? {
        return Ok(Some(why));
    }
    let policies = policy_ids(alloc, config)?;
    if let Some(why) = repeated_fault(alloc, &policies)? {
        return Ok(Some(why));
    }
    if let Some(why) = unknown_fault(alloc, config)? {
        return Ok(Some(why));
    }
    if let Some(why) = same_fault(config) {
        return Ok(Some(why));
    }
    chain_fault(alloc, config)
}

fn repeated_fault(alloc: Global, ids: &[u32]) -> Result<Option<ConfigRefused>, Memory>
    ensures { IfOk result (λ found. found ≡ repeated_fault ids.now) }
{
    match repeated(alloc, ids)? {
        Some(id) => Ok(Some(ConfigRefused::Repeated { id })),
        None => Ok(None),
    }
}

fn unknown_fault(alloc: Global, config: &Config) -> Result<Option<ConfigRefused>, Memory>
    ensures { IfOk result (λ found. found ≡ unknown_fault config.now) }
{
    let used = used(alloc, config)?;
    let known = reg_ids(alloc, config)?;
    match first_unknown(alloc, &used, &known)? {
        Some(reg) => Ok(Some(ConfigRefused::Unknown { reg })),
        None => Ok(None),
    }
}

fn same_fault(config: &Config) -> Option<ConfigRefused>
    ensures { result ≡ same_fault config.now }
{
    match first_turning(config.policies.view()) {
        Some(policy) => Some(ConfigRefused::SameRegistry { policy }),
        None => None,
    }
}

fn chain_fault(alloc: Global, config: &Config) -> Result<Option<ConfigRefused>, Memory>
    ensures { IfOk result (λ found. found ≡ chain_fault config.now) }
{
    let sources = sources(alloc, config)?;
    let destinations = destinations(alloc, config)?;
    match first_known(alloc, &sources, &destinations)? {
        Some(reg) => Ok(Some(ConfigRefused::Chain { reg })),
        None => Ok(None),
    }
}

// The first number that stands further to the front too.
fn repeated(alloc: Global, numbers: &[u32]) -> Result<Option<u32>, Memory>
    ensures { IfOk result (λ found. found ≡ repeated [] numbers.now) }
{
    let mut before = BTreeSet::new(alloc);
    for number in numbers {
        if !before.insert(*number)? {
            return Ok(Some(*number));
        }
    }
    Ok(None)
}

// The number of the first policy whose source is its destination.
fn first_turning(policies: &[Policy]) -> Option<u32>
    ensures { result ≡ first_turning policies.now }
{
    for policy in policies {
        if policy.src.0 == policy.dst.0 {
            return Some(policy.id.0);
        }
    }
    None
}

// The numbers of the registries, in order.
fn reg_ids(alloc: Global, config: &Config) -> Result<Vec<u32>, Memory>
    ensures { IfOk result (λ found. found.items ≡ reg_ids config.now) }
{
    let mut found = Vec::new(alloc);
    let registries = config.registries.view();
    for registry in registries {
        found.push(registry.id.0 as u32)?;
    }
    Ok(found)
}

// The numbers of the policies, in order.
fn policy_ids(alloc: Global, config: &Config) -> Result<Vec<u32>, Memory>
    ensures { IfOk result (λ found. found.items ≡ policy_ids config.now) }
{
    let mut found = Vec::new(alloc);
    let policies = config.policies.view();
    for policy in policies {
        found.push(policy.id.0)?;
    }
    Ok(found)
}

// The sources of the policies, in order.
fn sources(alloc: Global, config: &Config) -> Result<Vec<u8>, Memory>
    ensures { IfOk result (λ found. found.items ≡ sources config.now) }
{
    let mut found = Vec::new(alloc);
    let policies = config.policies.view();
    for policy in policies {
        found.push(policy.src.0)?;
    }
    Ok(found)
}

// The destinations of the policies, in order.
fn destinations(alloc: Global, config: &Config) -> Result<Vec<u32>, Memory>
    ensures { IfOk result (λ found. found.items ≡ destinations config.now) }
{
    let mut found = Vec::new(alloc);
    let policies = config.policies.view();
    for policy in policies {
        found.push(policy.dst.0 as u32)?;
    }
    Ok(found)
}

// The registries of the policies in order, each policy's source first.
fn used(alloc: Global, config: &Config) -> Result<Vec<u8>, Memory>
    ensures { IfOk result (λ found. found.items ≡ used config.now) }
{
    let mut found = Vec::new(alloc);
    let policies = config.policies.view();
    for policy in policies {
        found.push(policy.src.0)?;
        found.push(policy.dst.0)?;
    }
    Ok(found)
}

// The first number that stands among others.
fn first_known(alloc: Global, numbers: &[u8], others: &[u32]) -> Result<Option<u8>, Memory>
    ensures { IfOk result (λ found. found ≡ first_such (stands others.now) numbers.now) }
{
    let set = set_of(alloc, others)?;
    Ok(first_in(numbers, &set))
}

// The first number that doesn't stand among others.
fn first_unknown(alloc: Global, numbers: &[u8], others: &[u32]) -> Result<Option<u8>, Memory>
    ensures { IfOk result
        (λ found. found ≡ first_such (λ n. not (stands others.now n)) numbers.now) }
{
    let set = set_of(alloc, others)?;
    Ok(first_outside(numbers, &set))
}

// The numbers, as a set.
fn set_of(alloc: Global, numbers: &[u32]) -> Result<BTreeSet<u32>, Memory>
    ensures { IfOk result (λ set. (n : ℕ) → contains nat_cmp set n ≡ stands numbers.now n) }
{
    let mut found = BTreeSet::new(alloc);
    for number in numbers {
        found.insert(*number)?;
    }
    Ok(found)
}

// The first number of a list that stands in the set.
fn first_in(numbers: &[u8], set: &BTreeSet<u32>) -> Option<u8>
    ensures { result ≡ first_such (λ n. contains nat_cmp set.now n) numbers.now }
{
    for number in numbers {
        if set.contains(&(*number as u32)) {
            return Some(*number);
        }
    }
    None
}

// The first number of a list that doesn't stand in the set.
fn first_outside(numbers: &[u8], set: &BTreeSet<u32>) -> Option<u8>
    ensures { result ≡ first_such (λ n. not (contains nat_cmp set.now n)) numbers.now }
{
    for number in numbers {
        if !set.contains(&(*number as u32)) {
            return Some(*number);
        }
    }
    None
}
