//! A value within a document, and what it has (RFC 8259, sections 3 to 7).
ghost use Rattle.std.specs.Prelude.{◌≡◌, IfSome, length, is_some, option_and_then, option_map, slice_get, IsTrue};
ghost use Rattle.std.specs.Str.{IsUtf8};
ghost use Rattle.serde_json.specs.Find.{as_array, as_bool, as_i64, as_null, as_number, as_object, as_str, as_u64, get, get_member};
ghost use Rattle.serde_json.specs.View.{members_view, view};
ghost use Rattle.hr_json.specs.Node.{items_in, value_of, values_of};

use crate::Items;
use serde_json::{Map, Value};

/// A value within a document. It is as small as a reference.
#[derive(Clone, Copy, Debug)]
pub struct Node<'a> {
    value: &'a Value,
}

impl<'a> Node<'a> {
    // The node of a value.
    pub(crate) fn of(value: &'a Value) -> Node<'a>
        ensures { value_of result ≡ view value.now }
    {
        Node { value }
    }

    /// The member of this name, where this is an object that has one. The bytes are compared with
    /// the name as it reads, without escapes.
    pub fn field(&self, name: &[u8]) -> Option<Node<'a>>
        ensures { option_map value_of result ≡ get name.now (value_of self.now) }
    {
        let members = self.value.as_object()?;
        match find(members, name) {
            Some(value) => Some(Node { value }),
            None => None,
        }
    }

    /// The member of this name, as `field` gives it: a name that is known to be text is not looked
    /// through again.
    pub fn member(&self, name: &str) -> Option<Node<'a>>
        ensures { option_map value_of result ≡ get name.now (value_of self.now) }
    {
        match self.value.get(name) {
            Some(value) => Some(Node { value }),
            None => None,
        }
    }

    /// The text, without escapes, where this is one.
    pub fn text(&self) -> Option<&'a [u8]>
        ensures value { option_map (λ t. t.now) result ≡ as_str (value_of self.now) }
        ensures utf8 { IfSome result (λ t. IsUtf8 t.now) }
    {
        match self.value.as_str() {
            Some(text) => Some(text.as_bytes()),
            None => None,
        }
    }

    /// The number, where this is a whole number from 0 to 2^64 - 1, written without a fraction, an
    /// exponent or a sign.
    pub fn number(&self) -> Option<u64>
        ensures { result ≡ option_and_then as_u64 (as_number (value_of self.now)) }
    {
        self.value.as_u64()
    }

    /// The number, where this is a whole number from -2^63 to 2^63 - 1, written without a fraction
    /// or an exponent, and not `-0`.
    pub fn signed(&self) -> Option<i64>
        ensures { result ≡ option_and_then as_i64 (as_number (value_of self.now)) }
    {
        self.value.as_i64()
    }

    /// The truth value, where this is `true` or `false`.
    pub fn flag(&self) -> Option<bool>
        ensures { result ≡ as_bool (value_of self.now) }
    {
        self.value.as_bool()
    }

    /// The items, where this is a list.
    pub fn items(&self) -> Option<Items<'a>>
        ensures { option_map values_of result ≡ items_in (value_of self.now) }
    {
        match self.value.as_array() {
            Some(list) => Some(Items::of(list)),
            None => None,
        }
    }

    /// How many items this has, where it is a list.
    pub fn count(&self) -> Option<u64>
        ensures { result ≡ option_map length (items_in (value_of self.now)) }
    {
        match self.items() {
            Some(items) => Some(items.count()),
            None => None,
        }
    }

    /// The item at a place, from 0, where this is a list that has one there. It takes the same time
    /// at every place.
    pub fn item(&self, at: u64) -> Option<Node<'a>>
        ensures { option_map value_of result
            ≡ option_and_then (λ items. slice_get items at) (items_in (value_of self.now)) }
    {
        match self.items() {
            Some(items) => items.at(at),
            None => None,
        }
    }

    /// Whether this is an object.
    pub fn is_object(&self) -> bool
        ensures { result ≡ is_some (as_object (value_of self.now)) }
    {
        self.value.is_object()
    }

    /// Whether this is `null`.
    pub fn is_null(&self) -> bool
        ensures { result ≡ is_some (as_null (value_of self.now)) }
    {
        self.value.is_null()
    }
}

// The member of this name. What is no text is no member's name.
fn find<'a>(members: &'a Map<String, Value>, name: &[u8]) -> Option<&'a Value>
    ensures { option_map (λ v. view v.now) result
        ≡ get_member name.now (members_view members.now.entries) }
{
    match str::from_utf8(name) {
        Ok(name) => members.get(name),
        Err(_) => None,
    }
}
