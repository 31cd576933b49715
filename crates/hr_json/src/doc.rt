//! Documents, read from their bytes (RFC 8259, section 2).
ghost use Rattle.std.specs.Prelude.{◌≡◌, ◌≢◌, ◌<◌, ◌≤◌, ◌↔◌, ℕ, IfOk, Some, length};
ghost use Rattle.hr_json.specs.Doc.{content_of, document_of};
ghost use Rattle.hr_json.specs.Node.{value_of};

use crate::Node;
use serde_json::Value;
use std::alloc::Global;

/// How many bytes a document has at most. (Our own.)
pub const DOC_LIMIT: usize = 16_777_216;

/// Why bytes are not read as a document.
#[derive(Clone, Copy, Debug, PartialEq, Eq)]
pub enum JsonRefused {
    /// There are more than `DOC_LIMIT` bytes. `len` is their number.
    TooLong { len: u64 },
    /// They are no text in UTF-8, or it is no JSON, or nests deeper than 127, or has a number that
    /// is too large for a float of 64 bits.
    NotJson,
    /// There was no room for the value.
    Memory,
}

/// A document: one JSON value, with all that stands in it.
#[derive(Debug, Drop)]
pub struct Doc {
    value: Value,
}

impl Doc {
    /// Reads a whole text as one value. Of members of one name in an object the last one stays. A
    /// whole number that does not fit 64 bits, and `-0`, is a float.
    pub fn read(alloc: Global, bytes: &[u8]) -> Result<Doc, JsonRefused>
        ensures ok { IfOk result (λ doc. (length bytes.now ≤ DOC_LIMIT)
            × (document_of bytes.now ≡ Some (content_of doc))) }

        // The length is looked at first.
        ensures too_long { (len : ℕ) → (result ≡ Err (JsonRefused.TooLong len))
            ↔ ((len ≡ length bytes.now) × (DOC_LIMIT < len)) }
        ensures not_json { (result ≡ Err JsonRefused.NotJson)
            → (length bytes.now ≤ DOC_LIMIT) × (document_of bytes.now ≡ None) }
        ensures memory { (result ≡ Err JsonRefused.Memory)
            → (0 < length bytes.now) × (length bytes.now ≤ DOC_LIMIT) }
    {
        if bytes.len() > DOC_LIMIT {
            return Err(JsonRefused::TooLong {
                len: bytes.len() as u64,
            });
        }
        let Ok(text) = str::from_utf8(bytes) else {
            return Err(JsonRefused::NotJson);
        };
        match Value::from_str(alloc, text) {
            Ok(value) => Ok(Doc { value }),
            Err(error) if error.is_memory() => Err(JsonRefused::Memory),
            Err(_) => Err(JsonRefused::NotJson),
        }
    }

    /// The whole value.
    pub fn root(&self) -> Node<'_>
        ensures { value_of result ≡ content_of self.now }
    {
        Node::of(&self.value)
    }
}
