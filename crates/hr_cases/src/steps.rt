//! What happened in copies, a line for each entry of a journal.

use crate::digits::{Named, Perhaps, Plain};
use crate::kept::journal;
use hr_base::{Memory, Status};
use hr_digest::Digest;
use hr_event::{Cause, Entry, How, Reference, What};
use hr_replay::Ending;
use std::fmt;

/// Writes each entry of the journal.
pub fn write_journal(said: &mut String, kept: &Ending) -> Result<(), Memory> {
    write_entries(said, journal(kept))
}

/// Writes these entries.
pub fn write_entries(said: &mut String, entries: &[Entry]) -> Result<(), Memory> {
    for entry in entries {
        writeln!(said, "entry {}", Step(entry))?;
    }
    Ok(())
}

/// Writes the causes of the journal.
pub fn write_causes(said: &mut String, kept: &Ending) -> Result<(), Memory> {
    for cause in journal(kept).iter().filter_map(|entry| cause_of(entry)) {
        writeln!(said, "cause {}", Because(cause))?;
    }
    Ok(())
}

// An entry: the job and the revision, and what happened.
#[derive(Clone, Copy)]
struct Step<'a>(&'a Entry);

impl fmt::Display for Step<'_> {
    fn fmt<W: fmt::Write>(&self, f: &mut fmt::Formatter<W>) -> fmt::Result {
        let Entry { job, rev, what } = self.0;
        write!(f, "{}.{rev} {}", job.0, Happened(what))
    }
}

// What happened in one step: its word, and what it is about.
#[derive(Clone, Copy)]
struct Happened<'a>(&'a What);

impl fmt::Display for Happened<'_> {
    fn fmt<W: fmt::Write>(&self, f: &mut fmt::Formatter<W>) -> fmt::Result {
        match self.0 {
            What::Began => write!(f, "began"),
            What::ReadTag { tag, media, bytes } => {
                let digest = Named(Digest::of(bytes.view()));
                write!(
                    f,
                    "read {} {} {digest}",
                    Plain(tag.view()),
                    Plain(media.view())
                )
            }
            What::Looked { tag, found } => {
                write!(f, "looked {} {}", Plain(tag.view()), Perhaps(*found))
            }
            What::ReadChild {
                digest,
                media,
                bytes,
            } => {
                let own = Named(Digest::of(bytes.view()));
                write!(f, "child {} {} {own}", Named(*digest), Plain(media.view()))
            }
            What::HasBlob { digest, len: None } => write!(f, "lacks {}", Named(*digest)),
            What::HasBlob {
                digest,
                len: Some(len),
            } => write!(f, "has {} {len}", Named(*digest)),
            What::GotBlob { digest, len } => write!(f, "got {} {len}", Named(*digest)),
            What::PutBlob { digest, sure } => write!(f, "put {} {sure}", Named(*digest)),
            What::PutChild { digest, sure } => write!(f, "raised {} {sure}", Named(*digest)),
            What::Show {
                tag,
                digest,
                old,
                how,
            } => {
                let tag = Plain(tag.view());
                write!(
                    f,
                    "{} {tag} {} {}",
                    word_of(*how),
                    Named(*digest),
                    Perhaps(*old)
                )
            }
            What::Ended { status, cause } => write!(f, "{} {}", end_of(*status), Why(cause)),
            What::Dropped => write!(f, "dropped"),
        }
    }
}

fn word_of(how: How) -> &'static str {
    match how {
        How::Put => "shown",
        How::Unsure => "unsure",
        How::Same => "same",
        How::Kept => "kept",
    }
}

fn end_of(status: Status) -> &'static str {
    match status {
        Status::Success => "success",
        Status::Error => "error",
        _ => "other",
    }
}

// The cause that an entry gives, where it gives one.
fn cause_of(entry: &Entry) -> Option<&Cause> {
    match &entry.what {
        What::Ended {
            cause: Some(cause),
            ..
        } => Some(cause),
        _ => None,
    }
}

// A cause in words.
#[derive(Clone, Copy)]
struct Because<'a>(&'a Cause);

impl fmt::Display for Because<'_> {
    fn fmt<W: fmt::Write>(&self, f: &mut fmt::Formatter<W>) -> fmt::Result {
        match self.0 {
            Cause::Fault { reg, before, after } => write!(f, "fault {} {before} {after}", reg.0),
            Cause::Differs { asked, got } => write!(f, "differs {} {}", Named(*asked), Named(*got)),
            Cause::SizeDiffers { digest, said, got } => {
                write!(f, "size {} {said} {got}", Named(*digest))
            }
            Cause::Gone {
                reference: Reference::Tag(tag),
            } => write!(f, "gone {}", Plain(tag.view())),
            Cause::Gone {
                reference: Reference::Digest(digest),
            } => write!(f, "gone {}", Named(*digest)),
            Cause::Unreadable { digest } => write!(f, "unreadable {}", Named(*digest)),
            Cause::TooDeep { digest } => write!(f, "deep {}", Named(*digest)),
            Cause::TooMany { count } => write!(f, "many {count}"),
            Cause::TooLong { len } => write!(f, "long {len}"),
            Cause::Memory => write!(f, "memory"),
        }
    }
}

// A cause in words, or `whole`.
#[derive(Clone, Copy)]
struct Why<'a>(&'a Option<Cause>);

impl fmt::Display for Why<'_> {
    fn fmt<W: fmt::Write>(&self, f: &mut fmt::Formatter<W>) -> fmt::Result {
        match self.0 {
            Some(cause) => write!(f, "{}", Because(cause)),
            None => write!(f, "whole"),
        }
    }
}
