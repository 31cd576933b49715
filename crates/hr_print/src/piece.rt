//! The pieces that answers are made of: words, numbers, tags and digests. (Our own.)
ghost use Rattle.std.specs.Prelude.{◌≡◌, ◌++◌, OnOk};
ghost use Rattle.std.specs.Fmt.{decimal};
ghost use Rattle.hr_digest.specs.Digest.{text_of_digest};

use hr_base::Memory;
use hr_digest::Digest;
use hr_name::Tag;
use std::alloc::Global;

/// Adds words.
pub(crate) fn push_words(text: &mut Vec<u8>, words: &str) -> Result<(), Memory>
    ensures { OnOk result (text.new.items ≡ text.old.items ++ words.now) }
{
    text.extend_from_slice(words.as_bytes())?;
    Ok(())
}

/// Adds words and a number.
pub(crate) fn push_number(
    alloc: Global,
    text: &mut Vec<u8>,
    before: &str,
    number: u64,
) -> Result<(), Memory>
    ensures { OnOk result (text.new.items ≡ text.old.items ++ before.now ++ decimal number) }
{
    let piece = format!(in alloc; "{before}{number}")?;
    text.extend_from_slice(piece.as_bytes())?;
    Ok(())
}

/// Adds a number between words.
pub(crate) fn push_between(
    alloc: Global,
    text: &mut Vec<u8>,
    before: &str,
    number: u32,
    after: &str,
) -> Result<(), Memory>
    ensures { OnOk result
        (text.new.items ≡ text.old.items ++ before.now ++ decimal number ++ after.now) }
{
    push_number(alloc, text, before, number as u64)?;
    push_words(text, after)
}

/// Adds two numbers, each behind words.
pub(crate) fn push_numbers(
    alloc: Global,
    text: &mut Vec<u8>,
    before: &str,
    number: u64,
    between: &str,
    other: u64,
) -> Result<(), Memory>
    ensures { OnOk result (text.new.items
        ≡ text.old.items ++ before.now ++ decimal number ++ between.now ++ decimal other) }
{
    push_number(alloc, text, before, number)?;
    push_number(alloc, text, between, other)
}

/// Adds words and a tag.
pub(crate) fn push_tag(text: &mut Vec<u8>, before: &str, tag: &Tag) -> Result<(), Memory>
    ensures { OnOk result (text.new.items ≡ text.old.items ++ before.now ++ tag.now) }
{
    text.extend_from_slice(before.as_bytes())?;
    text.extend_from_slice(tag.view())?;
    Ok(())
}

/// Adds words and a digest.
pub(crate) fn push_digest(
    alloc: Global,
    text: &mut Vec<u8>,
    before: &str,
    digest: &Digest,
) -> Result<(), Memory>
    ensures { OnOk result
        (text.new.items ≡ text.old.items ++ before.now ++ text_of_digest digest.now) }
{
    let name = digest.text(alloc)?;
    text.extend_from_slice(before.as_bytes())?;
    text.extend_from_slice(name.view())?;
    Ok(())
}
