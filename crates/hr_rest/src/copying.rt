//! Copies of policies. (Our own.)
ghost use Rattle.std.specs.Prelude.{◌≡◌, IfOk};

use hr_base::{Bytes, List, Memory};
use hr_filter::Filter;
use hr_name::Name;
use hr_policy::Policy;
use std::alloc::Global;

/// Equal policies, in order.
pub(crate) fn copy_policies(alloc: Global, policies: &[Policy]) -> Result<List<Policy>, Memory>
    ensures { IfOk result (λ made. made ≡ policies.now) }
{
    let mut made = List::new(alloc);
    for policy in policies {
        made.push(copy_policy(alloc, policy)?)?;
    }
    Ok(made)
}

fn copy_policy(alloc: Global, policy: &Policy) -> Result<Policy, Memory>
    ensures { IfOk result (λ made. made ≡ policy.now) }
{
    Ok(Policy {
        id: policy.id,
        name: policy.name.copy(alloc)?,
        enabled: policy.enabled,
        src: policy.src,
        dst: policy.dst,
        namespace: copy_namespace(alloc, &policy.namespace)?,
        replace: policy.replace,
        override_it: policy.override_it,
        attempts: policy.attempts,
        cron: copy_cron(alloc, &policy.cron)?,
        filters: copy_filters(alloc, policy.filters.view())?,
    })
}

fn copy_namespace(alloc: Global, namespace: &Option<Name>) -> Result<Option<Name>, Memory>
    ensures { IfOk result (λ made. made ≡ namespace.now) }
{
    match namespace {
        Some(name) => Ok(Some(name.copy(alloc)?)),
        None => Ok(None),
    }
}

fn copy_cron(alloc: Global, cron: &Option<Bytes>) -> Result<Option<Bytes>, Memory>
    ensures { IfOk result (λ made. made ≡ cron.now) }
{
    match cron {
        Some(cron) => Ok(Some(cron.copy(alloc)?)),
        None => Ok(None),
    }
}

fn copy_filters(alloc: Global, filters: &[Filter]) -> Result<List<Filter>, Memory>
    ensures { IfOk result (λ made. made ≡ filters.now) }
{
    let mut made = List::new(alloc);
    for filter in filters {
        made.push(filter.copy(alloc)?)?;
    }
    Ok(made)
}
