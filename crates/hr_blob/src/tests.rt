//! A blob goes from one registry that tells nothing to another, and from there to a third.
ghost use Rattle.std.specs.Prelude.{◌≡◌, ◌<◌, ◌≤◌, IfOk, length, vec_len};

use crate::{Failing, NotCopied, copy_blob};
use hr_adapter::{RegFault, Registry, Silent};
use hr_base::{List, PIECE};
use hr_digest::{Check, Digest};
use hr_name::Name;
use std::alloc::{AllocError, Global};
use std::process::Abort;
use std::test::Fail;

// How many bytes the blob has: more than one piece.
const FRONT: usize = 60_000;

const BACK: usize = 40_000;

const LEN: u64 = 100_000;

// The digest of 60,000 bytes 1 and 40,000 bytes 2, as Python's hashlib gives it.
const DIGEST: [u8; 71] =
    *b"sha256:b6286b786c570102c0b7099e73c81b0863ca4191749a33ad754882abdb767a9d";

// The first fault of a registry.
const FAULT: Failing = Failing {
    fault: RegFault::Failed,
    before: 0,
    after: 1,
};

// So many bytes of one kind.
fn filled(alloc: Global, byte: u8, len: usize) -> Result<Vec<u8>, AllocError>
    ensures { IfOk result (λ bytes. vec_len bytes ≡ len) }
{
    vec![in alloc; byte; len]
}

// A registry whose call of that number, from 1, fails: none where it is 0.
fn failing_at(alloc: Global, call: u64) -> Result<Silent, Fail> {
    Ok(Silent::new(alloc, List::from([call].to_vec(alloc)?)))
}

// Writes a blob in two pieces.
fn put<R: Registry>(
    registry: &mut R,
    repo: &Name,
    front: &[u8],
    back: &[u8],
) -> Result<(), RegFault>
    requires front { (0 < length front.now) × (length front.now ≤ PIECE) }
    requires back { (0 < length back.now) × (length back.now ≤ PIECE) }
{
    let mut check = Check::begin();
    check.feed(front);
    check.feed(back);
    let digest = check.finish();
    registry.begin_put(repo)?;
    registry.write_put(front)?;
    registry.write_put(back)?;
    registry.end_put(&digest)
}

// Copies a blob from a registry to a second, and from there to a third. The first, to which the blob
// was written, and the second fail at the calls of these numbers.
fn copied(
    alloc: Global,
    failing: (u64, u64),
    front: &[u8],
    back: &[u8],
    digest: &Digest,
    said: u64,
    buf: &mut [u8],
) -> Result<Result<u64, NotCopied>, Fail>
    requires front { (0 < length front.now) × (length front.now ≤ PIECE) }
    requires back { (0 < length back.now) × (length back.now ≤ PIECE) }
    requires buffer { length buf.old ≡ PIECE }
{
    let repo = Name::read(alloc, b"library/one").ok().ok_or("a name")?;
    let mut first = failing_at(alloc, failing.0)?;
    let mut second = failing_at(alloc, failing.1)?;
    let mut third = failing_at(alloc, 0)?;
    put(&mut first, &repo, front, back)
        .ok()
        .ok_or("it is written")?;
    let once = copy_blob(&mut first, &mut second, &repo, &repo, digest, said, buf);
    if once.is_err() {
        return Ok(once);
    }
    Ok(copy_blob(&mut second, &mut third, &repo, &repo, digest, said, buf))
}

// The first registry is written by 4 calls, and opens at its fifth. The second begins at its first,
// takes two pieces, and stores at its fourth.
fn cases(
    rt: &impl Abort,
    alloc: Global,
    front: &[u8],
    back: &[u8],
    buf: &mut [u8],
) -> Result<(), Fail>
    requires front { (0 < length front.now) × (length front.now ≤ PIECE) }
    requires back { (0 < length back.now) × (length back.now ≤ PIECE) }
    requires buffer { length buf.old ≡ PIECE }
{
    let blob = Digest::read(&DIGEST).ok().ok_or("a digest")?;
    let other = Digest::of(b"");
    let unsure = NotCopied::Unsure {
        len: LEN,
        failing: FAULT,
    };
    let cases = [
        (0, 0, blob, LEN, Ok(LEN)),
        (0, 0, other, LEN, Err(NotCopied::Gone)),
        (5, 0, blob, LEN, Err(NotCopied::Unopened(FAULT))),
        (0, 1, blob, LEN, Err(NotCopied::Unbegun(FAULT))),
        (9, 0, blob, LEN, Err(NotCopied::Unread(FAULT))),
        (0, 3, blob, LEN, Err(NotCopied::Unwritten(FAULT))),
        (0, 0, blob, 7, Err(NotCopied::SizeDiffers { got: LEN })),
        (0, 4, blob, LEN, Err(unsure)),
    ];
    for (at_first, at_second, digest, said, wanted) in cases {
        let got = copied(
            alloc,
            (at_first, at_second),
            front,
            back,
            &digest,
            said,
            buf,
        )?;
        assert_eq!(rt; got, wanted, "{at_first} {at_second} {said}");
    }
    Ok(())
}

#[test]
fn a_blob_of_two_pieces_is_copied_and_a_fault_ends_the_copy_where_it_came(
    rt: HostRuntime,
) -> Result<(), Fail> {
    let alloc = rt.alloc();
    let front = filled(alloc, 1, FRONT)?;
    let back = filled(alloc, 2, BACK)?;
    let mut buf = filled(alloc, 0, PIECE)?;
    cases(&rt, alloc, &front, &back, &mut buf)
}
