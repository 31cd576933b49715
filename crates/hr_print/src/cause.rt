//! The words of causes. (Our own.)
ghost use Rattle.std.specs.Prelude.{◌≡◌, ◌++◌, ◌∷◌, codes, OnOk};
ghost use Rattle.std.specs.Fmt.{decimal};
ghost use Rattle.hr_digest.specs.Digest.{text_of_digest};
ghost use Rattle.hr_print.specs.Cause.{cause_text, reference_text};

use crate::piece::{push_digest, push_number, push_numbers, push_tag, push_words};
use hr_base::{Memory, RegNo};
use hr_digest::Digest;
use hr_event::{Cause, Reference};
use std::alloc::Global;

/// Adds why a revision ended with an error.
pub(crate) fn push_cause(alloc: Global, text: &mut Vec<u8>, cause: &Cause) -> Result<(), Memory>
    ensures { OnOk result (text.new.items ≡ text.old.items ++ cause_text cause.now) }
{
    match cause {
        Cause::Fault { reg, before, after } => push_fault(alloc, text, *reg, *before, *after),
        Cause::Differs { asked, got } => push_differs(alloc, text, asked, got),
        Cause::SizeDiffers { digest, said, got } => push_sizes(alloc, text, digest, *said, *got),
        Cause::Gone { reference } => push_gone(alloc, text, reference),
        Cause::Unreadable { digest } => push_digest(alloc, text, "unreadable ", digest),
        Cause::TooDeep { digest } => push_digest(alloc, text, "deep ", digest),
        Cause::TooMany { count } => push_number(alloc, text, "many ", *count),
        Cause::TooLong { len } => push_number(alloc, text, "long ", *len),
        Cause::Memory => push_words(text, "memory"),
    }
}

// A registry's count of faults rose.
fn push_fault(
    alloc: Global,
    text: &mut Vec<u8>,
    reg: RegNo,
    before: u64,
    after: u64,
) -> Result<(), Memory>
    ensures { OnOk result (text.new.items ≡ text.old.items
        ++ codes "fault " ++ decimal reg.0 ++ 32 ∷ decimal before ++ 32 ∷ decimal after) }
{
    push_numbers(alloc, text, "fault ", reg.0 as u64, " ", before)?;
    push_number(alloc, text, " ", after)
}

// Content has another digest than was asked.
fn push_differs(
    alloc: Global,
    text: &mut Vec<u8>,
    asked: &Digest,
    got: &Digest,
) -> Result<(), Memory>
    ensures { OnOk result (text.new.items ≡ text.old.items
        ++ codes "differs " ++ text_of_digest asked.now ++ 32 ∷ text_of_digest got.now) }
{
    push_digest(alloc, text, "differs ", asked)?;
    push_digest(alloc, text, " ", got)
}

// Content has another length than was said.
fn push_sizes(
    alloc: Global,
    text: &mut Vec<u8>,
    digest: &Digest,
    said: u64,
    got: u64,
) -> Result<(), Memory>
    ensures { OnOk result (text.new.items ≡ text.old.items
        ++ codes "size " ++ text_of_digest digest.now ++ 32 ∷ decimal said ++ 32 ∷ decimal got) }
{
    push_digest(alloc, text, "size ", digest)?;
    push_numbers(alloc, text, " ", said, " ", got)
}

// The source lacks what the reference names.
fn push_gone(alloc: Global, text: &mut Vec<u8>, reference: &Reference) -> Result<(), Memory>
    ensures { OnOk result
        (text.new.items ≡ text.old.items ++ codes "gone " ++ reference_text reference.now) }
{
    match reference {
        Reference::Tag(tag) => push_tag(text, "gone ", tag),
        Reference::Digest(digest) => push_digest(alloc, text, "gone ", digest),
    }
}
