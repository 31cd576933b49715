//! The filters of a policy, read.
ghost use Rattle.std.specs.Prelude.{◌≡◌, codes, option_map};
ghost use Rattle.hr_filter.specs.declared.filter.Filter.TheVariants as filter;
ghost use Rattle.hr_json.specs.Node.{items_in, value_of, values_of};
ghost use Rattle.hr_policy.specs.Choice.{label_in, pattern_in};
ghost use Rattle.hr_policy.specs.Filter.{filter_of, filters_of, labelled, labels_of, patterned, resourced};
ghost use Rattle.hr_policy.specs.Step.{Gives, each, each_some, field, mapped};
ghost use Rattle.hr_policy.specs.declared.key.Key.TheVariants as key;
ghost use Rattle.hr_setting.specs.Member.{must};

use crate::choice::{FilterKind, decoration_of, filter_kind_at, has_resource, label_in};
use crate::refusal::refused;
use crate::{ConfigRefused, Key};
use hr_base::{Bytes, List};
use hr_filter::{Decoration, Filter};
use hr_json::{Items, Node};
use hr_pattern::{Pattern, PatternRefused};
use hr_setting::{list_in, text_at};
use std::alloc::Global;

/// The filters of a policy, which may have none.
pub(crate) fn read_filters(
    alloc: Global,
    policy: u32,
    node: &Node<'_>,
) -> Result<List<Filter>, ConfigRefused>
    ensures { Gives result (filters_of policy (value_of node.now)) }
{
    let Some(member) = node.member("filters") else {
        return Ok(List::new(alloc));
    };
    match list_in(&member, 16) {
        Some(items) => read_each(alloc, policy, &items),
        None => Err(refused(policy, Key::Filters)),
    }
}

// The filters of a list, in order, without those that are left out.
fn read_each(alloc: Global, policy: u32, items: &Items<'_>) -> Result<List<Filter>, ConfigRefused>
    ensures { Gives result (each_some (filter_of policy) (values_of items.now)) }
{
    let mut found = List::new(alloc);
    for at in 0..items.count() {
        let Some(node) = items.at(at) else {
            continue;
        };
        let filter = match read_filter(alloc, policy, &node) {
            Ok(Some(filter)) => filter,
            Ok(None) => continue,
            Err(why) => return Err(why),
        };
        found.push(filter)?;
    }
    Ok(found)
}

fn read_filter(alloc: Global, policy: u32, node: &Node<'_>) -> Result<Option<Filter>, ConfigRefused>
    ensures { Gives result (filter_of policy (value_of node.now)) }
{
    let Some(kind) = filter_kind_at(node) else {
        return Err(refused(policy, Key::Kind));
    };
    match kind {
        FilterKind::Name => read_name(alloc, policy, node),
        FilterKind::Tag => read_tag(alloc, policy, node),
        FilterKind::Label => read_labelled(alloc, policy, node),
        FilterKind::Resource => read_resource(policy, node),
    }
}

fn read_name(alloc: Global, policy: u32, node: &Node<'_>) -> Result<Option<Filter>, ConfigRefused>
    ensures { Gives result (patterned filter.Name policy (value_of node.now)) }
{
    let pattern = read_pattern(alloc, policy, node)?;
    let Some(decoration) = decoration_of(node) else {
        return Err(refused(policy, Key::Decoration));
    };
    if pattern.text().is_empty() {
        return Ok(None);
    }
    Ok(Some(Filter::Name {
        pattern,
        decoration,
    }))
}

fn read_tag(alloc: Global, policy: u32, node: &Node<'_>) -> Result<Option<Filter>, ConfigRefused>
    ensures { Gives result (patterned filter.Tag policy (value_of node.now)) }
{
    let pattern = read_pattern(alloc, policy, node)?;
    let Some(decoration) = decoration_of(node) else {
        return Err(refused(policy, Key::Decoration));
    };
    if pattern.text().is_empty() {
        return Ok(None);
    }
    Ok(Some(Filter::Tag {
        pattern,
        decoration,
    }))
}

fn read_pattern(alloc: Global, policy: u32, node: &Node<'_>) -> Result<Pattern, ConfigRefused>
    ensures { Gives result
        (field policy key.Value (must pattern_in (codes "value") (value_of node.now))) }
{
    let Some(text) = text_at(node, "value") else {
        return Err(refused(policy, Key::Value));
    };
    match Pattern::read(alloc, text) {
        Ok(pattern) => Ok(pattern),
        Err(PatternRefused::Memory) => Err(ConfigRefused::Memory),
        Err(PatternRefused::At { .. }) => Err(refused(policy, Key::Value)),
    }
}

fn read_labelled(
    alloc: Global,
    policy: u32,
    node: &Node<'_>,
) -> Result<Option<Filter>, ConfigRefused>
    ensures { Gives result (labelled policy (value_of node.now)) }
{
    let labels = read_labels(alloc, policy, node)?;
    let Some(decoration) = decoration_of(node) else {
        return Err(refused(policy, Key::Decoration));
    };
    Ok(Some(Filter::Label { labels, decoration }))
}

fn read_labels(alloc: Global, policy: u32, node: &Node<'_>) -> Result<List<Bytes>, ConfigRefused>
    ensures { Gives result (labels_of policy (value_of node.now)) }
{
    match items_at(node) {
        Some(items) => read_each_label(alloc, policy, &items),
        None => Err(refused(policy, Key::Value)),
    }
}

// The items of the value of a filter.
fn items_at<'a>(node: &Node<'a>) -> Option<Items<'a>>
    ensures { option_map values_of result ≡ must items_in (codes "value") (value_of node.now) }
{
    match node.member("value") {
        Some(member) => member.items(),
        None => None,
    }
}

fn read_each_label(
    alloc: Global,
    policy: u32,
    items: &Items<'_>,
) -> Result<List<Bytes>, ConfigRefused>
    ensures { Gives result
        (each (λ item. field policy key.Value (label_in item)) (values_of items.now)) }
{
    let mut found = List::new(alloc);
    for at in 0..items.count() {
        let Some(node) = items.at(at) else {
            continue;
        };
        let label = match read_label(policy, &node) {
            Ok(label) => label,
            Err(why) => return Err(why),
        };
        found.push(Bytes::of(alloc, label)?)?;
    }
    Ok(found)
}

fn read_label<'a>(policy: u32, node: &Node<'a>) -> Result<&'a [u8], ConfigRefused>
    ensures { Gives (mapped (λ t. t.now) result)
        (field policy key.Value (label_in (value_of node.now))) }
{
    match label_in(node) {
        Some(text) => Ok(text),
        None => Err(refused(policy, Key::Value)),
    }
}

fn read_resource(policy: u32, node: &Node<'_>) -> Result<Option<Filter>, ConfigRefused>
    ensures { Gives result (resourced policy (value_of node.now)) }
{
    if !has_resource(node) {
        return Err(refused(policy, Key::Value));
    }
    match decoration_of(node) {
        Some(Decoration::Matches) => Ok(Some(Filter::Resource)),
        Some(Decoration::Excludes) | None => Err(refused(policy, Key::Decoration)),
    }
}
