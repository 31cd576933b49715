//! Members of JSON objects that must be of one kind (RFC 8259, section 4).
ghost use Rattle.std.specs.Prelude.{◌≡◌, option_map};
ghost use Rattle.hr_json.specs.Node.{value_of, values_of};
ghost use Rattle.hr_manifest.specs.Descriptor.{has, items_at, number_at, object_at, text_at};

use hr_json::{Items, Node};

/// Whether a member of this name is there. It may be null.
pub(crate) fn has(node: &Node<'_>, name: &str) -> bool
    ensures { result ≡ has name.now (value_of node.now) }
{
    node.member(name).is_some()
}

/// The text of this name.
pub(crate) fn text_at<'a>(node: &Node<'a>, name: &str) -> Option<&'a [u8]>
    ensures { option_map (λ t. t.now) result ≡ text_at name.now (value_of node.now) }
{
    match node.member(name) {
        Some(member) => member.text(),
        None => None,
    }
}

/// The whole number of this name, from 0 to 2^64 - 1.
pub(crate) fn number_at(node: &Node<'_>, name: &str) -> Option<u64>
    ensures { result ≡ number_at name.now (value_of node.now) }
{
    match node.member(name) {
        Some(member) => member.number(),
        None => None,
    }
}

/// The object of this name.
pub(crate) fn object_at<'a>(node: &Node<'a>, name: &str) -> Option<Node<'a>>
    ensures { option_map value_of result ≡ object_at name.now (value_of node.now) }
{
    match node.member(name) {
        Some(member) if member.is_object() => Some(member),
        _ => None,
    }
}

/// The items of the list of this name.
pub(crate) fn items_at<'a>(node: &Node<'a>, name: &str) -> Option<Items<'a>>
    ensures { option_map values_of result ≡ items_at name.now (value_of node.now) }
{
    match node.member(name) {
        Some(member) => member.items(),
        None => None,
    }
}
