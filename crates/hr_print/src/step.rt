//! The words of what a step did. (Our own.)
ghost use Rattle.std.specs.Prelude.{◌≡◌, ◌≢◌, ◌++◌, ◌∷◌, codes, OnOk};
ghost use Rattle.std.specs.Fmt.{decimal};
ghost use Rattle.hr_digest.specs.Digest.{text_of_digest};
ghost use Rattle.hr_print.specs.Step.{found_text, how_text, len_text, step_text, TellsStep};

use crate::piece::{push_digest, push_number, push_tag, push_words};
use crate::word::how_word;
use hr_base::Memory;
use hr_digest::Digest;
use hr_event::{How, What};
use hr_name::Tag;
use std::alloc::Global;

/// Adds what a step did, by the entry that tells it.
pub(crate) fn push_step(alloc: Global, text: &mut Vec<u8>, what: &What) -> Result<(), Memory>
    requires { TellsStep what.now }
    ensures { OnOk result (text.new.items ≡ text.old.items ++ step_text what.now) }
{
    match what {
        What::ReadTag { tag, .. } => push_tag(text, "read-tag ", tag),
        What::Looked { tag, found } => push_looked(alloc, text, tag, found),
        What::ReadChild { digest, .. } => push_digest(alloc, text, "read-child ", digest),
        What::HasBlob { digest, len } => push_has_blob(alloc, text, digest, *len),
        What::GotBlob { digest, len } => push_copied(alloc, text, digest, *len),
        What::PutChild { digest, .. } => push_digest(alloc, text, "put-child ", digest),
        What::Show { tag, how, .. } => push_shown(text, tag, *how),
        What::Began | What::PutBlob { .. } | What::Ended { .. } | What::Dropped => unreachable!(),
    }
}

// The destination was asked what the tag names there.
fn push_looked(
    alloc: Global,
    text: &mut Vec<u8>,
    tag: &Tag,
    found: &Option<Digest>,
) -> Result<(), Memory>
    ensures { OnOk result (text.new.items ≡ text.old.items
        ++ codes "looked " ++ tag.now ++ 32 ∷ found_text found.now) }
{
    push_tag(text, "looked ", tag)?;
    match found {
        Some(digest) => push_digest(alloc, text, " ", digest),
        None => push_words(text, " none"),
    }
}

// The destination was asked for a blob.
fn push_has_blob(
    alloc: Global,
    text: &mut Vec<u8>,
    digest: &Digest,
    len: Option<u64>,
) -> Result<(), Memory>
    ensures { OnOk result (text.new.items ≡ text.old.items
        ++ codes "has-blob " ++ text_of_digest digest.now ++ 32 ∷ len_text len) }
{
    push_digest(alloc, text, "has-blob ", digest)?;
    match len {
        Some(len) => push_number(alloc, text, " ", len),
        None => push_words(text, " none"),
    }
}

// A blob was copied.
fn push_copied(alloc: Global, text: &mut Vec<u8>, digest: &Digest, len: u64) -> Result<(), Memory>
    ensures { OnOk result (text.new.items ≡ text.old.items
        ++ codes "copied " ++ text_of_digest digest.now ++ 32 ∷ decimal len) }
{
    push_digest(alloc, text, "copied ", digest)?;
    push_number(alloc, text, " ", len)
}

// The tag shows what it is to show, or what it showed before.
fn push_shown(text: &mut Vec<u8>, tag: &Tag, how: How) -> Result<(), Memory>
    requires { how ≢ How.Unsure }
    ensures { OnOk result (text.new.items ≡ text.old.items
        ++ codes "shown " ++ tag.now ++ 32 ∷ how_text how) }
{
    push_tag(text, "shown ", tag)?;
    push_words(text, " ")?;
    push_words(text, how_word(how))
}
