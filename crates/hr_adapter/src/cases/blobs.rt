//! Cases of blobs, written and read in pieces.
ghost use Rattle.std.specs.Prelude.{IsSome, IsTrue};

use crate::cases::{Difference, wants};
use crate::pieces::{put_blob, reads_as, write_pieces};
use crate::{RegFault, Registry};
use hr_base::PIECE;
use hr_digest::Digest;
use hr_name::Name;
use std::alloc::{AllocError, Global};

const LENGTHS: [usize; 5] = [0, 1, 65_536, 65_537, 200_000];

/// Runs the cases of blobs over a registry that was made for them: it holds no blob, never fails,
/// and has ample memory. It may forget all blobs but the one that was put last.
pub fn run_blobs<R: Registry>(alloc: Global, registry: &mut R) -> Result<(), Difference> {
    let repo = Name::read(alloc, b"library/one")?;
    let none = Digest::of(b"no such blob");
    wants(
        "the length of a blob that is not there",
        registry.has_blob(&repo, &none),
        None,
    )?;
    wants(
        "a blob that is not there is not opened",
        registry.open_blob(&repo, &none),
        false,
    )?;
    for len in LENGTHS {
        put_and_read(alloc, registry, &repo, len)?;
    }
    drop_the_first_of_two(alloc, registry, &repo)
}

// Bytes among which each piece differs from those beside it.
fn patterned(alloc: Global, len: usize) -> Result<Vec<u8>, AllocError> {
    let mut bytes = Vec::with_capacity(alloc, len)?;
    for at in 0..len {
        bytes.push((at % 251) as u8)?;
    }
    Ok(bytes)
}

// Through a buffer of one byte only the short ones are read.
fn put_and_read<R: Registry>(
    alloc: Global,
    registry: &mut R,
    repo: &Name,
    len: usize,
) -> Result<(), Difference> {
    let bytes = patterned(alloc, len)?;
    let bytes = bytes.as_slice();
    wants("a blob is put", put_blob(registry, repo, bytes), ())?;
    let found = registry.has_blob(repo, &Digest::of(bytes));
    wants("the length of a blob", found, Some(bytes.len() as u64))?;
    if len <= 1 {
        read_through(alloc, registry, repo, bytes, 1)?;
    }
    read_through(alloc, registry, repo, bytes, 7)?;
    read_through(alloc, registry, repo, bytes, PIECE)
}

fn read_through<R: Registry>(
    alloc: Global,
    registry: &mut R,
    repo: &Name,
    bytes: &[u8],
    room: usize,
) -> Result<(), Difference> {
    let mut buf = vec![in alloc; 0u8; room]?;
    if !is_opened(registry, repo, bytes) {
        return Err(Difference::At("a blob is opened"));
    }
    wants(
        "the bytes of a blob",
        reads_as(registry, bytes, buf.as_mut_slice()),
        true,
    )
}

fn is_opened<R: Registry>(registry: &mut R, repo: &Name, bytes: &[u8]) -> bool
    ensures { IsTrue result → IsSome (R.seen registry.new).reading }
{
    match registry.open_blob(repo, &Digest::of(bytes)) {
        Ok(true) => true,
        Ok(false) | Err(_) => false,
    }
}

// A writing that is not ended is dropped by the next, also in another repository.
fn drop_the_first_of_two<R: Registry>(
    alloc: Global,
    registry: &mut R,
    repo: &Name,
) -> Result<(), Difference> {
    let other = Name::read(alloc, b"library/two")?;
    let (first, second) = (b"dropped", b"kept");
    wants(
        "a writing is left",
        leave_a_writing(registry, repo, first),
        (),
    )?;
    wants(
        "another blob is put",
        put_blob(registry, &other, second),
        (),
    )?;
    let found = registry.has_blob(&other, &Digest::of(second));
    wants("the second of two writings is stored", found, Some(4))?;
    let found = registry.has_blob(repo, &Digest::of(first));
    wants("the first of two writings is dropped", found, None)?;
    let found = registry.has_blob(&other, &Digest::of(first));
    wants("the first of two writings is in no repository", found, None)
}

fn leave_a_writing<R: Registry>(
    registry: &mut R,
    repo: &Name,
    bytes: &[u8],
) -> Result<(), RegFault> {
    registry.begin_put(repo)?;
    write_pieces(registry, bytes)
}
