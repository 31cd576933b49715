//! A blob is looked for at the destination, and copied where it isn't there. (OCI Distribution 1.1,
//! "Pulling blobs" and "Pushing blobs".)
ghost use Rattle.std.specs.Prelude.{◌≡◌, ◌≤◌, ◌<◌, ◌+◌, length};
ghost use Rattle.hr_adapter.specs.Reg.{Reg};
ghost use Rattle.hr_blob.specs.Copies.{uncounted};
ghost use Rattle.hr_graph.specs.declared.need.Need.TheVariants as need;
ghost use Rattle.hr_line.specs.Line.{BlobAsked, BlobLine, CopyEnds, CopyLine};
ghost use Rattle.hr_lane.specs.Call.{IsCounted};

use crate::call::find;
use crate::cause::of_failing;
use crate::roll::{Roll, write};
use crate::work::go_on;
use hr_adapter::Registry;
use hr_base::PIECE;
use hr_blob::{Failing, NotCopied, copy_blob};
use hr_digest::Digest;
use hr_event::{Cause, Entry, Reference, What};
use hr_graph::Given;
use hr_line::{Admitted, Work};

/// Looks for the blob of that digest at the destination.
pub(crate) fn find_blob<A: Registry>(
    dest: &mut A,
    log: &mut Roll<Entry>,
    by: &Admitted,
    work: Work,
    digest: Digest,
) -> Result<Option<Work>, Cause>
    requires asked { work.walk.need ≡ need.HasBlob digest }
    requires room { 0 < log.old.room }
    ensures line { BlobLine by.now work digest (A.seen dest.old) (A.seen dest.new)
        log.old.newest log.new.newest result }
    ensures room { log.old.room ≤ log.new.room + 1 }
{
    let found = find(dest, &by.spec.to, &digest);
    take_len(log, by, work, digest, found)
}

// What came of the look for the blob.
fn take_len(
    log: &mut Roll<Entry>,
    by: &Admitted,
    work: Work,
    digest: Digest,
    found: Result<Option<u64>, Failing>,
) -> Result<Option<Work>, Cause>
    requires asked { work.walk.need ≡ need.HasBlob digest }
    requires room { 0 < log.old.room }
    ensures line { (p q : Reg) → IsCounted p q found → BlobAsked by.now work digest p q
        log.old.newest log.new.newest result (uncounted found) }
    ensures room { log.old.room ≤ log.new.room + 1 }
{
    match found {
        Ok(len) => {
            write(log, by, What::HasBlob { digest, len });
            go_on(work, Given::Found { len })
        }
        Err(failing) => Err(of_failing(failing, by.spec.dst)),
    }
}

/// Copies the blob of that digest through a buffer of `PIECE` bytes.
pub(crate) fn send_blob<A: Registry>(
    source: &mut A,
    dest: &mut A,
    log: &mut Roll<Entry>,
    buf: &mut [u8],
    by: &Admitted,
    work: Work,
    digest: Digest,
) -> Result<Option<Work>, Cause>
    requires asked { work.walk.need ≡ need.CopyBlob digest }
    requires buffer { length buf.old ≡ PIECE }
    requires room { 2 ≤ log.old.room }
    ensures line { CopyLine by.now work digest (A.seen source.old) (A.seen source.new)
        (A.seen dest.old) (A.seen dest.new) log.old.newest log.new.newest result }
    ensures room { log.old.room ≤ log.new.room + 2 }
{
    work.walk.is_sound();
    let Some(said) = work.walk.size() else {
        unreachable!()
    };
    let copied = copy_blob(source, dest, &by.spec.from, &by.spec.to, &digest, said, buf);
    take_copy(log, by, work, digest, said, copied)
}

// What came of the copy.
fn take_copy(
    log: &mut Roll<Entry>,
    by: &Admitted,
    work: Work,
    digest: Digest,
    said: u64,
    copied: Result<u64, NotCopied>,
) -> Result<Option<Work>, Cause>
    requires asked { work.walk.need ≡ need.CopyBlob digest }
    requires room { 2 ≤ log.old.room }
    ensures line { CopyEnds by.now work digest said log.old.newest log.new.newest result copied }
    ensures room { log.old.room ≤ log.new.room + 2 }
{
    match copied {
        Ok(len) => {
            write(log, by, What::GotBlob { digest, len });
            write(log, by, What::PutBlob { digest, sure: true });
            go_on(work, Given::Copied { len })
        }
        Err(why) => Err(not_copied(log, by, digest, said, why)),
    }
}

// The cause of a blob that isn't copied: what came for it with its digest is written, and a put of
// it that may have taken effect.
fn not_copied(
    log: &mut Roll<Entry>,
    by: &Admitted,
    digest: Digest,
    said: u64,
    why: NotCopied,
) -> Cause
    requires { 2 ≤ log.old.room }
    ensures line { (work : Work) → CopyEnds by.now work digest said
        log.old.newest log.new.newest (Err result) (Err why) }
    ensures room { log.old.room ≤ log.new.room + 2 }
{
    match why {
        NotCopied::Gone => Cause::Gone {
            reference: Reference::Digest(digest),
        },
        NotCopied::Unopened(failing) | NotCopied::Unread(failing) => {
            of_failing(failing, by.spec.src)
        }
        NotCopied::Unbegun(failing) | NotCopied::Unwritten(failing) => {
            of_failing(failing, by.spec.dst)
        }
        NotCopied::TooLong { len } => Cause::TooLong { len },
        NotCopied::Differs { got } => Cause::Differs { asked: digest, got },
        NotCopied::SizeDiffers { got } => {
            write(log, by, What::GotBlob { digest, len: got });
            Cause::SizeDiffers { digest, said, got }
        }
        NotCopied::Unsure { len, failing } => {
            write(log, by, What::GotBlob { digest, len });
            write(
                log,
                by,
                What::PutBlob {
                    digest,
                    sure: false,
                },
            );
            of_failing(failing, by.spec.dst)
        }
    }
}
