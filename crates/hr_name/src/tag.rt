//! Tags of manifests (OCI Distribution 1.1, "Pulling manifests").
ghost use Rattle.std.specs.Prelude.{◌≡◌, ◌≤◌, ◌↔◌, ℕ, IfOk, IfSome, IsOk, MatchOption, length};
ghost use Rattle.hr_name.specs.Front.{IsFaultAt};
ghost use Rattle.hr_name.specs.Tag.{IsTag, may_stand};

use crate::NameRefused;
use crate::alphabet::{begins_tag, goes_on_tag};
use hr_base::{Bytes, Memory};
use std::alloc::Global;
use std::marker::Model;

/// How many bytes a tag has at most.
pub const TAG_LIMIT: usize = 128;

/// The tag of a manifest, as `v1.2`, of 1 to `TAG_LIMIT` bytes.
#[derive(Debug, Drop)]
pub struct Tag {
    bytes: Bytes,
}

impl Model for Tag {
    ghost use Rattle.hr_name.specs.Tag.{IsTag, TagName};

    ghost Value = { TagName };

    ghost view = { λ t. t.bytes };

    ghost invariant = { λ t. IsTag t.bytes };
}

impl Tag {
    /// Reads a whole text as a tag: letters, digits, `_`, `.` and `-`, of which the last two are
    /// not the first byte. It never answers `TooLong`.
    pub fn read(alloc: Global, text: &[u8]) -> Result<Tag, NameRefused>
        ensures ok { IfOk result (λ tag. tag ≡ text.now) }
        ensures tagged { IsOk result → IsTag text.now }
        ensures too_long { (len : ℕ) → result ≡ Err (NameRefused.TooLong len) → ⊥ }
        ensures shape { (at : ℕ) → (result ≡ Err (NameRefused.Shape at))
            ↔ IsFaultAt IsTag text.now at }
        ensures memory { (result ≡ Err NameRefused.Memory) → IsTag text.now }
    {
        if let Some(at) = tag_fault(text) {
            return Err(NameRefused::Shape { at: at as u32 });
        }
        Ok(Tag {
            bytes: Bytes::of(alloc, text)?,
        })
    }

    /// The bytes of the tag.
    pub fn view(&self) -> &[u8]
        ensures value { result.now ≡ self.now }
        ensures is_tag { IsTag self.now }
        ensures short { length self.now ≤ TAG_LIMIT }
    {
        self.bytes.view()
    }

    /// An equal tag.
    pub fn copy(&self, alloc: Global) -> Result<Tag, Memory>
        ensures { IfOk result (λ made. made ≡ self.now) }
    {
        Ok(Tag {
            bytes: self.bytes.copy(alloc)?,
        })
    }
}

// Where the text leaves the grammar of tags, or `None` for a tag.
fn tag_fault(text: &[u8]) -> Option<usize>
    ensures fault { MatchOption result (IsTag text.now) (λ at. IsFaultAt IsTag text.now at) }
    ensures near { IfSome result (λ at. at ≤ TAG_LIMIT) }
{
    for (at, byte) in text.iter().enumerate() {
        if !may_stand(at, *byte) {
            return Some(at);
        }
    }
    if text.is_empty() { Some(0) } else { None }
}

// Whether a tag may have this byte at this place, from 0.
fn may_stand(at: usize, byte: u8) -> bool
    ensures { result ≡ may_stand at byte }
{
    if at == 0 {
        begins_tag(byte)
    } else {
        at < TAG_LIMIT && goes_on_tag(byte)
    }
}
