//! The copy of one blob from one connection to another: it is compared before it is stored. (OCI
//! Distribution 1.1, "Pulling blobs" and "Pushing blobs".)
ghost use Rattle.std.specs.Prelude.{◌≡◌, IfErr, length};
ghost use Rattle.hr_adapter.specs.Calls.{BeginsPut, EndsPut, IsReady, OpensBlob};
ghost use Rattle.hr_blob.specs.Copies.{Blames, Copies, uncounted};

use crate::sending::send_all;
use crate::{Failing, NotCopied};
use hr_adapter::Registry;
use hr_base::PIECE;
use hr_digest::{Check, Digest};
use hr_name::Name;

/// Copies a blob through a buffer of `PIECE` bytes, and answers its length in bytes. Its digest is
/// compared when all came, then its length with the one that was said, and only then is it stored.
/// A blob that an error leaves open at either end is closed by the next one that is opened or begun
/// there.
pub fn copy_blob<S: Registry, D: Registry>(
    source: &mut S,
    dest: &mut D,
    from: &Name,
    to: &Name,
    digest: &Digest,
    said: u64,
    buf: &mut [u8],
) -> Result<u64, NotCopied>
    requires { length buf.old ≡ PIECE }
    ensures { Copies from.now to.now digest.now said (S.seen source.old) (S.seen source.new)
        (D.seen dest.old) (D.seen dest.new) result }
{
    let found = match find(source, from, digest) {
        Ok(found) => found,
        Err(failing) => return Err(NotCopied::Unopened(failing)),
    };
    if !found {
        return Err(NotCopied::Gone);
    }
    if let Err(failing) = begin(dest, to) {
        return Err(NotCopied::Unbegun(failing));
    }
    let mut check = Check::begin();
    let len = send_all(source, dest, &mut check, buf)?;
    let got = check.finish();
    if got != *digest {
        return Err(NotCopied::Differs { got });
    }
    if len != said {
        return Err(NotCopied::SizeDiffers { got: len });
    }
    match end(dest, digest) {
        Ok(()) => Ok(len),
        Err(failing) => Err(NotCopied::Unsure { len, failing }),
    }
}

// Opens the blob at the source.
fn find<S: Registry>(source: &mut S, from: &Name, digest: &Digest) -> Result<bool, Failing>
    ensures opens { OpensBlob from.now digest.now (S.seen source.old) (S.seen source.new)
        (uncounted result) }
    ensures blames { IfErr result (λ f. Blames f (S.seen source.old) (S.seen source.new)) }
{
    let before = source.count();
    match source.open_blob(from, digest) {
        Ok(found) => Ok(found),
        Err(fault) => Err(Failing {
            fault,
            before,
            after: source.count(),
        }),
    }
}

// Begins to write at the destination.
fn begin<D: Registry>(dest: &mut D, to: &Name) -> Result<(), Failing>
    ensures begins { BeginsPut to.now (D.seen dest.old) (D.seen dest.new) (uncounted result) }
    ensures blames { IfErr result (λ f. Blames f (D.seen dest.old) (D.seen dest.new)) }
{
    let before = dest.count();
    match dest.begin_put(to) {
        Ok(()) => Ok(()),
        Err(fault) => Err(Failing {
            fault,
            before,
            after: dest.count(),
        }),
    }
}

// Stores what was written at the destination.
fn end<D: Registry>(dest: &mut D, digest: &Digest) -> Result<(), Failing>
    requires { IsReady digest.now (D.seen dest.old).writing }
    ensures ends { EndsPut digest.now (D.seen dest.old) (D.seen dest.new) (uncounted result) }
    ensures blames { IfErr result (λ f. Blames f (D.seen dest.old) (D.seen dest.new)) }
{
    let before = dest.count();
    match dest.end_put(digest) {
        Ok(()) => Ok(()),
        Err(fault) => Err(Failing {
            fault,
            before,
            after: dest.count(),
        }),
    }
}
