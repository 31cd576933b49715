//! Cases of faults: one operation fails, counts it, and no other does.

use crate::cases::Difference;
use crate::cases::manifests::media;
use crate::pieces::put_blob;
use crate::{RegFault, Registry};
use hr_digest::Digest;
use hr_event::Reference;
use hr_name::{Name, Tag};
use std::alloc::Global;

/// How many operations the cases of faults have.
pub const OPERATIONS: u64 = 8;

// The operations with their numbers.
const ALL: [(u64, Operation); 8] = [
    (1, Operation::Repos),
    (2, Operation::Tags),
    (3, Operation::Head),
    (4, Operation::Manifest),
    (5, Operation::HasBlob),
    (6, Operation::OpenBlob),
    (7, Operation::PutManifest),
    (8, Operation::PutBlob),
];

// An operation of a registry that holds nothing.
#[derive(Clone, Copy)]
enum Operation {
    Repos,
    Tags,
    Head,
    Manifest,
    HasBlob,
    OpenBlob,
    PutManifest,
    PutBlob,
}

impl Operation {
    fn case(self) -> &'static str {
        match self {
            Operation::Repos => "a fault of repos",
            Operation::Tags => "a fault of tags",
            Operation::Head => "a fault of head",
            Operation::Manifest => "a fault of manifest",
            Operation::HasBlob => "a fault of has_blob",
            Operation::OpenBlob => "a fault of open_blob",
            Operation::PutManifest => "a fault of put_manifest",
            Operation::PutBlob => "a fault of a writing",
        }
    }

    // Asks, and answers whether nothing was found, or what was given was taken.
    fn ask<R: Registry>(
        self,
        registry: &mut R,
        repo: &Name,
        tag: &Reference,
    ) -> Result<bool, RegFault> {
        let none = Digest::of(b"no such blob");
        match self {
            Operation::Repos => Ok(registry.repos()?.view().is_empty()),
            Operation::Tags => Ok(registry.tags(repo)?.view().is_empty()),
            Operation::Head => Ok(registry.head(repo, tag)?.is_none()),
            Operation::Manifest => Ok(registry.manifest(repo, tag)?.is_none()),
            Operation::HasBlob => Ok(registry.has_blob(repo, &none)?.is_none()),
            Operation::OpenBlob => Ok(!registry.open_blob(repo, &none)?),
            Operation::PutManifest => {
                let digest = Reference::Digest(Digest::of(b"{}"));
                registry.put_manifest(repo, &digest, media(), b"{}")?;
                Ok(true)
            }
            Operation::PutBlob => {
                put_blob(registry, repo, b"a blob")?;
                Ok(true)
            }
        }
    }
}

/// Asks for `OPERATIONS` operations of a registry that was made for them: it holds nothing, has
/// ample memory, and of its operations fails the one of this number, from 1, alone, or none. That
/// one has to answer `Failed` and to count one fault, and each other neither.
pub fn run_failing<R: Registry>(
    alloc: Global,
    registry: &mut R,
    failing: u64,
) -> Result<(), Difference> {
    let repo = Name::read(alloc, b"library/one")?;
    let tag = Reference::Tag(Tag::read(alloc, b"v1")?);
    for (number, operation) in ALL {
        let before = registry.count();
        let came = operation.ask(registry, &repo, &tag);
        if !is_wanted(came, before, registry.count(), number == failing) {
            return Err(Difference::At(operation.case()));
        }
    }
    Ok(())
}

// Whether an operation that fails, or not, answered so, and counted a fault, or not.
fn is_wanted(came: Result<bool, RegFault>, before: u64, after: u64, fails: bool) -> bool {
    if fails {
        return came == Err(RegFault::Failed) && after == before.saturating_add(1);
    }
    came == Ok(true) && after == before
}
