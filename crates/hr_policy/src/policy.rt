//! Policies, read.
ghost use Rattle.std.specs.Prelude.{◌≡◌, IfOk, None, codes, option_map};
ghost use Rattle.hr_json.specs.Node.{value_of, values_of};
ghost use Rattle.hr_policy.specs.Choice.{namespace_in};
ghost use Rattle.hr_policy.specs.Reading.{policy_of, route_of};
ghost use Rattle.hr_policy.specs.Step.{Gives, each, field};
ghost use Rattle.hr_policy.specs.declared.key.Key.TheVariants as key;
ghost use Rattle.hr_setting.specs.Member.{may};

use crate::choice::{count_or, trigger_or_none};
use crate::filter::read_filters;
use crate::refusal::refused;
use crate::{ConfigRefused, Key, Policy};
use hr_base::{Bytes, List, Memory, PolicyNo, RegNo};
use hr_json::{Items, Node};
use hr_name::{Name, NameRefused};
use hr_setting::{flag_or, short_text_at, text_in, whole_at, whole_or};
use std::alloc::Global;

/// From where to where a policy copies.
#[derive(Debug, Drop)]
pub(crate) struct Route {
    src: RegNo,
    dst: RegNo,
    namespace: Option<Name>,
    replace: i8,
}

/// The policies of a list, in order.
pub(crate) fn read_policies(alloc: Global, items: &Items<'_>) -> Result<List<Policy>, ConfigRefused>
    ensures { Gives result (each policy_of (values_of items.now)) }
{
    let mut found = List::new(alloc);
    for at in 0..items.count() {
        let Some(node) = items.at(at) else {
            continue;
        };
        let policy = match read_policy(alloc, &node) {
            Ok(policy) => policy,
            Err(why) => return Err(why),
        };
        found.push(policy)?;
    }
    Ok(found)
}

fn read_policy(alloc: Global, node: &Node<'_>) -> Result<Policy, ConfigRefused>
    ensures { Gives result (policy_of (value_of node.now)) }
{
    let Some(id) = whole_at(node, "id", 1, 4_294_967_295) else {
        return Err(refused(0, Key::Id));
    };
    let policy = id as u32;
    let Some(name) = short_text_at(node, "name", 255) else {
        return Err(refused(policy, Key::Name));
    };
    let Some(enabled) = flag_or(node, "enabled", true) else {
        return Err(refused(policy, Key::Enabled));
    };
    let route = match read_route(alloc, policy, node) {
        Ok(route) => route,
        Err(why) => return Err(why),
    };
    let Some(override_it) = flag_or(node, "override", true) else {
        return Err(refused(policy, Key::Override));
    };
    let Some(attempts) = whole_or(node, "attempts", 3, 1, 4) else {
        return Err(refused(policy, Key::Attempts));
    };
    let Some(cron) = trigger_or_none(node) else {
        return Err(refused(policy, Key::Trigger));
    };
    let filters = match read_filters(alloc, policy, node) {
        Ok(filters) => filters,
        Err(why) => return Err(why),
    };
    Ok(Policy {
        id: PolicyNo(policy),
        name: Bytes::of(alloc, name)?,
        enabled,
        src: route.src,
        dst: route.dst,
        namespace: route.namespace,
        replace: route.replace,
        override_it,
        attempts: attempts as u8,
        cron: copied(alloc, cron)?,
        filters,
    })
}

fn read_route(alloc: Global, policy: u32, node: &Node<'_>) -> Result<Route, ConfigRefused>
    ensures { Gives result (route_of policy (value_of node.now)) }
{
    let Some(src) = whole_at(node, "src", 1, 250) else {
        return Err(refused(policy, Key::Src));
    };
    let Some(dst) = whole_at(node, "dst", 1, 250) else {
        return Err(refused(policy, Key::Dst));
    };
    let namespace = match read_namespace(alloc, policy, node) {
        Ok(namespace) => namespace,
        Err(why) => return Err(why),
    };
    let Some(replace) = count_or(node, "replace", 1) else {
        return Err(refused(policy, Key::Replace));
    };
    Ok(Route {
        src: RegNo(src as u8),
        dst: RegNo(dst as u8),
        namespace,
        replace,
    })
}

fn read_namespace(
    alloc: Global,
    policy: u32,
    node: &Node<'_>,
) -> Result<Option<Name>, ConfigRefused>
    ensures { Gives result
        (field policy key.Namespace (may None namespace_in (codes "namespace") (value_of node.now))) }
{
    let Some(member) = node.member("namespace") else {
        return Ok(None);
    };
    let Some(text) = text_in(&member) else {
        return Err(refused(policy, Key::Namespace));
    };
    if text.is_empty() {
        return Ok(None);
    }
    match Name::read(alloc, text) {
        Ok(name) => Ok(Some(name)),
        Err(NameRefused::Memory) => Err(ConfigRefused::Memory),
        Err(NameRefused::Shape { .. } | NameRefused::TooLong { .. }) => {
            Err(refused(policy, Key::Namespace))
        }
    }
}

fn copied(alloc: Global, text: Option<&[u8]>) -> Result<Option<Bytes>, Memory>
    ensures { IfOk result (λ made. made ≡ option_map (λ t. t.now) text.entry) }
{
    match text {
        Some(text) => Ok(Some(Bytes::of(alloc, text)?)),
        None => Ok(None),
    }
}
