//! The items of a list (RFC 8259, section 5).
ghost use Rattle.std.specs.Prelude.{◌≡◌, ◌<◌, ◌^◌, length, map, option_map, slice_get};
ghost use Rattle.serde_json.specs.View.{view};
ghost use Rattle.hr_json.specs.Node.{value_of, values_of};

use crate::Node;
use serde_json::Value;

/// The items of a list within a document, in order. It is as small as a reference.
#[derive(Clone, Copy, Debug)]
pub struct Items<'a> {
    list: &'a Vec<Value>,
}

impl<'a> Items<'a> {
    // The items of a list of values.
    pub(crate) fn of(list: &'a Vec<Value>) -> Items<'a>
        ensures { values_of result ≡ map view list.now.items }
    {
        Items { list }
    }

    /// How many there are.
    pub fn count(&self) -> u64
        ensures told { result ≡ length (values_of self.now) }
        ensures bounded { result < 2 ^ 63 }
    {
        self.list.len() as u64
    }

    /// The item at a place, from 0, where there is one. It takes the same time at every place.
    pub fn at(&self, at: u64) -> Option<Node<'a>>
        ensures { option_map value_of result ≡ slice_get (values_of self.now) at }
    {
        let at = at as usize;
        if at < self.list.len() {
            Some(Node::of(&self.list[at]))
        } else {
            None
        }
    }
}
