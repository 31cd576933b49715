//! Members of JSON objects, each with the values that it may have (RFC 8259, section 4).
ghost use Rattle.std.specs.Prelude.{◌≡◌, ◌≤◌, IfSome, option_map};
ghost use Rattle.std.specs.Str.{IsUtf8};
ghost use Rattle.serde_json.specs.Find.{as_bool};
ghost use Rattle.hr_json.specs.Node.{value_of, values_of};
ghost use Rattle.hr_setting.specs.Member.{list_in, may, must, short_text_in, text_in, whole_in};

use hr_json::{Items, Node};

/// A whole number from `low` to `high`, which must be there.
pub fn whole_at(node: &Node<'_>, name: &str, low: u64, high: u64) -> Option<u64>
    ensures value { result ≡ must (whole_in low high) name.now (value_of node.now) }
    ensures high { IfSome result (λ n. n ≤ high) }
{
    match node.member(name) {
        Some(member) => whole_in(&member, low, high),
        None => None,
    }
}

/// A whole number from `low` to `high`, or the default where it isn't there.
pub fn whole_or(node: &Node<'_>, name: &str, default: u64, low: u64, high: u64) -> Option<u64>
    requires { default ≤ high }
    ensures value { result ≡ may default (whole_in low high) name.now (value_of node.now) }
    ensures high { IfSome result (λ n. n ≤ high) }
{
    match node.member(name) {
        Some(member) => whole_in(&member, low, high),
        None => Some(default),
    }
}

// The number of a value, where it is whole and within the limits.
fn whole_in(node: &Node<'_>, low: u64, high: u64) -> Option<u64>
    ensures value { result ≡ whole_in low high (value_of node.now) }
    ensures high { IfSome result (λ n. n ≤ high) }
{
    match node.number() {
        Some(n) if low <= n && n <= high => Some(n),
        _ => None,
    }
}

/// A text, which must be there.
pub fn text_at<'a>(node: &Node<'a>, name: &str) -> Option<&'a [u8]>
    ensures value { option_map (λ t. t.now) result ≡ must text_in name.now (value_of node.now) }
    ensures utf8 { IfSome result (λ t. IsUtf8 t.now) }
{
    match node.member(name) {
        Some(member) => text_in(&member),
        None => None,
    }
}

/// The text of a value, where it is one.
pub fn text_in<'a>(node: &Node<'a>) -> Option<&'a [u8]>
    ensures value { option_map (λ t. t.now) result ≡ text_in (value_of node.now) }
    ensures utf8 { IfSome result (λ t. IsUtf8 t.now) }
{
    match node.text() {
        Some(text) => Some(text),
        None => None,
    }
}

/// A text of at most `high` bytes, which must be there.
pub fn short_text_at<'a>(node: &Node<'a>, name: &str, high: usize) -> Option<&'a [u8]>
    ensures { option_map (λ t. t.now) result
        ≡ must (short_text_in high) name.now (value_of node.now) }
{
    match text_at(node, name) {
        Some(text) if text.len() <= high => Some(text),
        _ => None,
    }
}

/// A truth value, or the default where it isn't there.
pub fn flag_or(node: &Node<'_>, name: &str, default: bool) -> Option<bool>
    ensures { result ≡ may default as_bool name.now (value_of node.now) }
{
    match node.member(name) {
        Some(member) => member.flag(),
        None => Some(default),
    }
}

/// A list of at most `high` items, which must be there.
pub fn list_at<'a>(node: &Node<'a>, name: &str, high: u64) -> Option<Items<'a>>
    ensures { option_map values_of result ≡ must (list_in high) name.now (value_of node.now) }
{
    match node.member(name) {
        Some(member) => list_in(&member, high),
        None => None,
    }
}

/// The items of a value, where it is a list of at most `high`.
pub fn list_in<'a>(node: &Node<'a>, high: u64) -> Option<Items<'a>>
    ensures { option_map values_of result ≡ list_in high (value_of node.now) }
{
    match node.items() {
        Some(items) if items.count() <= high => Some(items),
        _ => None,
    }
}
