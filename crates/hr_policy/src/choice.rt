//! Members of registries, policies and filters, each with the values that it may have.
ghost use Rattle.std.specs.Prelude.{◌≡◌, None, codes, is_none, is_some, option_map};
ghost use Rattle.hr_filter.specs.declared.filter.Decoration.TheVariants as decoration;
ghost use Rattle.hr_json.specs.Node.{value_of};
ghost use Rattle.hr_periodic.specs.Reading.{fault_of};
ghost use Rattle.hr_policy.specs.Choice.{count_in, cron_in, decoration_named, filter_kind_in, filter_kind_named, is_manual, is_resource, kind_in, kind_named, label_in, resource_in, trigger_in};
ghost use Rattle.hr_policy.specs.Filter.{decoration_of};
ghost use Rattle.hr_setting.specs.Member.{may, must};

use crate::Kind;
use hr_filter::Decoration;
use hr_json::Node;
use hr_periodic::Cron;
use hr_setting::{text_at, text_in};

/// What a filter looks at.
#[derive(Clone, Copy, Debug, PartialEq, Eq)]
pub(crate) enum FilterKind {
    Name,
    Tag,
    Label,
    Resource,
}

/// The kind of a registry.
pub(crate) fn kind_at(node: &Node<'_>) -> Option<Kind>
    ensures { result ≡ must kind_in (codes "kind") (value_of node.now) }
{
    match node.member("kind") {
        Some(member) => match member.text() {
            Some(text) => kind_named(text),
            None => None,
        },
        None => None,
    }
}

fn kind_named(text: &[u8]) -> Option<Kind>
    ensures { result ≡ kind_named text.now }
{
    if text == b"memory".as_slice() {
        Some(Kind::Memory)
    } else if text == b"folder".as_slice() {
        Some(Kind::Folder)
    } else if text == b"http".as_slice() {
        Some(Kind::Http)
    } else {
        None
    }
}

/// How many leading components of a name go.
pub(crate) fn count_or(node: &Node<'_>, name: &str, default: i8) -> Option<i8>
    ensures { result ≡ may default count_in name.now (value_of node.now) }
{
    match node.member(name) {
        Some(member) => count_in(&member),
        None => Some(default),
    }
}

fn count_in(node: &Node<'_>) -> Option<i8>
    ensures { result ≡ count_in (value_of node.now) }
{
    match node.signed() {
        Some(n) if n >= -1 && n <= 3 => Some(n as i8),
        _ => None,
    }
}

/// The text of a policy's schedule, where it has one. There is none where it runs by hand, as it
/// does without a trigger.
pub(crate) fn trigger_or_none<'a>(node: &Node<'a>) -> Option<Option<&'a [u8]>>
    ensures { option_map (option_map (λ t. t.now)) result
        ≡ may None trigger_in (codes "trigger") (value_of node.now) }
{
    let Some(member) = node.member("trigger") else {
        return Some(None);
    };
    if is_manual(&member) {
        return Some(None);
    }
    match cron_at(&member) {
        Some(text) => Some(Some(text)),
        None => None,
    }
}

fn is_manual(node: &Node<'_>) -> bool
    ensures { result ≡ is_manual (value_of node.now) }
{
    match node.text() {
        Some(text) => text == b"manual".as_slice(),
        None => false,
    }
}

fn cron_at<'a>(node: &Node<'a>) -> Option<&'a [u8]>
    ensures { option_map (λ t. t.now) result ≡ must cron_in (codes "cron") (value_of node.now) }
{
    match text_at(node, "cron") {
        Some(text) if is_cron(text) => Some(text),
        _ => None,
    }
}

fn is_cron(text: &[u8]) -> bool
    ensures { result ≡ is_none (fault_of text.now) }
{
    Cron::read(text).is_ok()
}

/// What a filter looks at.
pub(crate) fn filter_kind_at(node: &Node<'_>) -> Option<FilterKind>
    ensures { result ≡ must filter_kind_in (codes "kind") (value_of node.now) }
{
    match node.member("kind") {
        Some(member) => match member.text() {
            Some(text) => filter_kind_named(text),
            None => None,
        },
        None => None,
    }
}

fn filter_kind_named(text: &[u8]) -> Option<FilterKind>
    ensures { result ≡ filter_kind_named text.now }
{
    if text == b"name".as_slice() {
        Some(FilterKind::Name)
    } else if text == b"tag".as_slice() {
        Some(FilterKind::Tag)
    } else if text == b"label".as_slice() {
        Some(FilterKind::Label)
    } else if text == b"resource".as_slice() {
        Some(FilterKind::Resource)
    } else {
        None
    }
}

/// A label.
pub(crate) fn label_in<'a>(node: &Node<'a>) -> Option<&'a [u8]>
    ensures { option_map (λ t. t.now) result ≡ label_in (value_of node.now) }
{
    match text_in(node) {
        Some(text) if 1 <= text.len() && text.len() <= 64 => Some(text),
        _ => None,
    }
}

/// Whether the value of a filter names what each listed tag is.
pub(crate) fn has_resource(node: &Node<'_>) -> bool
    ensures { result ≡ is_some (must resource_in (codes "value") (value_of node.now)) }
{
    match node.member("value") {
        Some(member) => match member.text() {
            Some(text) => is_resource(text),
            None => false,
        },
        None => false,
    }
}

fn is_resource(text: &[u8]) -> bool
    ensures { result ≡ is_resource text.now }
{
    text == b"image".as_slice() || text == b"artifact".as_slice()
}

/// The decoration of a filter, which matches where it has none.
pub(crate) fn decoration_of(node: &Node<'_>) -> Option<Decoration>
    ensures { result ≡ decoration_of (value_of node.now) }
{
    match node.member("decoration") {
        Some(member) => match member.text() {
            Some(text) => decoration_named(text),
            None => None,
        },
        None => Some(Decoration::Matches),
    }
}

fn decoration_named(text: &[u8]) -> Option<Decoration>
    ensures { result ≡ decoration_named text.now }
{
    if text == b"matches".as_slice() {
        Some(Decoration::Matches)
    } else if text == b"excludes".as_slice() {
        Some(Decoration::Excludes)
    } else {
        None
    }
}
