//! The texts by which calls name repositories, tags and digests (OCI Distribution 1.1, "Pulling
//! manifests").
ghost use Rattle.std.specs.Prelude.{◌≡◌, IfOk};
ghost use Rattle.hr_call.specs.Reading.{digest_in, name_in, reference_in, tag_in, text_of_reference};

use hr_base::{Bytes, Memory};
use hr_digest::{Digest, digest_is_whole};
use hr_event::Reference;
use hr_name::{Name, NameRefused, Tag};
use std::alloc::Global;

/// The name of a repository of which this is the text, or `None` where it is none.
pub fn read_name(alloc: Global, text: &[u8]) -> Result<Option<Name>, Memory>
    ensures { IfOk result (λ read. read ≡ name_in text.now) }
{
    match Name::read(alloc, text) {
        Ok(name) => Ok(Some(name)),
        Err(NameRefused::Memory) => Err(Memory),
        Err(NameRefused::Shape { .. }) => Ok(None),
        Err(NameRefused::TooLong { .. }) => Ok(None),
    }
}

/// The tag of which this is the text, or `None` where it is none.
pub fn read_tag(alloc: Global, text: &[u8]) -> Result<Option<Tag>, Memory>
    ensures { IfOk result (λ read. read ≡ tag_in text.now) }
{
    match Tag::read(alloc, text) {
        Ok(tag) => Ok(Some(tag)),
        Err(NameRefused::Memory) => Err(Memory),
        Err(NameRefused::Shape { .. }) => Ok(None),
        Err(NameRefused::TooLong { .. }) => Ok(None),
    }
}

/// The digest of which this is the text, or `None` where it is none, or one under an algorithm that
/// is not known here.
pub fn read_digest(text: &[u8]) -> Option<Digest>
    ensures { result ≡ digest_in text.now }
{
    match Digest::read(text) {
        Ok(digest) => {
            digest_is_whole(&digest);
            Some(digest)
        }
        Err(_) => None,
    }
}

/// The tag or the digest of which this is the text, or `None` where it is neither. No text is both.
pub fn read_reference(alloc: Global, text: &[u8]) -> Result<Option<Reference>, Memory>
    ensures { IfOk result (λ read. read ≡ reference_in text.now) }
{
    if let Some(tag) = read_tag(alloc, text)? {
        return Ok(Some(Reference::Tag(tag)));
    }
    match read_digest(text) {
        Some(digest) => Ok(Some(Reference::Digest(digest))),
        None => Ok(None),
    }
}

/// The text of a tag or of a digest.
pub fn reference_text(alloc: Global, reference: &Reference) -> Result<Bytes, Memory>
    ensures { IfOk result (λ text. text ≡ text_of_reference reference.now) }
{
    match reference {
        Reference::Tag(tag) => Bytes::of(alloc, tag.view()),
        Reference::Digest(digest) => digest.text(alloc),
    }
}
