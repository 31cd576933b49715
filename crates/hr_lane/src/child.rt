//! A child manifest is read at the source, and put at the destination once all that it lists is
//! there. (OCI Distribution 1.1, "Pulling manifests" and "Pushing Manifests".)
ghost use Rattle.std.specs.Prelude.{◌≡◌, ◌≤◌, ◌<◌, ◌+◌, IfOk};
ghost use Rattle.hr_digest.specs.Digest.{digest_of};
ghost use Rattle.hr_adapter.specs.Reg.{Reg};
ghost use Rattle.hr_blob.specs.Copies.{uncounted};
ghost use Rattle.hr_graph.specs.declared.need.Need.TheVariants as need;
ghost use Rattle.hr_line.specs.Line.{ChildCame, ChildFetched, ChildGoes, ChildLine, ChildStored, PutLine};
ghost use Rattle.hr_lane.specs.Call.{IsCounted};

use crate::call::{fetch, put};
use crate::cause::{of_failing, of_form};
use crate::roll::{Roll, write};
use crate::work::{go_on, read};
use hr_adapter::Registry;
use hr_blob::Failing;
use hr_digest::Digest;
use hr_event::{Cause, Entry, Fetched, Reference, What};
use hr_graph::Given;
use hr_line::{Admitted, Work};
use hr_manifest::{Manifest, Unreadable};
use std::alloc::Global;

/// Reads the child manifest of that digest, which the walk needs.
pub(crate) fn read_child<A: Registry>(
    alloc: Global,
    source: &mut A,
    log: &mut Roll<Entry>,
    by: &Admitted,
    work: Work,
    digest: Digest,
) -> Result<Option<Work>, Cause>
    requires asked { work.walk.need ≡ need.Manifest digest }
    requires room { 0 < log.old.room }
    ensures line { ChildLine by.now work digest (A.seen source.old) (A.seen source.new)
        log.old.newest log.new.newest result }
    ensures room { log.old.room ≤ log.new.room + 1 }
{
    let fetched = fetch(source, &by.spec.from, &Reference::Digest(digest));
    take_child(alloc, log, by, work, digest, fetched)
}

// What came of the look for the child.
fn take_child(
    alloc: Global,
    log: &mut Roll<Entry>,
    by: &Admitted,
    work: Work,
    digest: Digest,
    fetched: Result<Option<Fetched>, Failing>,
) -> Result<Option<Work>, Cause>
    requires asked { work.walk.need ≡ need.Manifest digest }
    requires room { 0 < log.old.room }
    ensures line { (f g : Reg) → IsCounted f g fetched → ChildFetched by.now work digest f g
        log.old.newest log.new.newest result (uncounted fetched) }
    ensures room { log.old.room ≤ log.new.room + 1 }
{
    let fetched = match fetched {
        Ok(Some(fetched)) => fetched,
        Ok(None) => {
            return Err(Cause::Gone {
                reference: Reference::Digest(digest),
            });
        }
        Err(failing) => return Err(of_failing(failing, by.spec.src)),
    };
    let got = Digest::of(fetched.bytes.view());
    if got == digest {
        keep_child(alloc, log, by, work, digest, fetched)
    } else {
        Err(Cause::Differs { asked: digest, got })
    }
}

// The child came, with the digest that was asked for.
fn keep_child(
    alloc: Global,
    log: &mut Roll<Entry>,
    by: &Admitted,
    work: Work,
    digest: Digest,
    fetched: Fetched,
) -> Result<Option<Work>, Cause>
    requires asked { work.walk.need ≡ need.Manifest digest }
    requires own { digest_of fetched.bytes ≡ digest }
    requires room { 0 < log.old.room }
    ensures came { ChildCame by.now work digest fetched log.old.newest log.new.newest result }
    ensures room { log.old.room ≤ log.new.room + 1 }
{
    let manifest = read(alloc, &fetched);
    write(
        log,
        by,
        What::ReadChild {
            digest,
            media: fetched.media,
            bytes: fetched.bytes,
        },
    );
    give_child(work, digest, manifest)
}

// The child is given to the walk, where it was read.
fn give_child(
    work: Work,
    digest: Digest,
    manifest: Result<Manifest, Unreadable>,
) -> Result<Option<Work>, Cause>
    requires asked { work.walk.need ≡ need.Manifest digest }
    requires own { IfOk manifest (λ m. digest_of m.bytes ≡ digest) }
    ensures { ChildGoes work digest manifest result }
{
    match manifest {
        Ok(manifest) => go_on(work, Given::Manifest(manifest)),
        Err(why) => Err(of_form(why, digest)),
    }
}

/// Puts the child manifest that is ready under its digest.
pub(crate) fn put_child<A: Registry>(
    dest: &mut A,
    log: &mut Roll<Entry>,
    by: &Admitted,
    work: Work,
    digest: Digest,
) -> Result<Option<Work>, Cause>
    requires asked { work.walk.need ≡ need.PutManifest digest }
    requires room { 0 < log.old.room }
    ensures line { PutLine by.now work digest (A.seen dest.old) (A.seen dest.new)
        log.old.newest log.new.newest result }
    ensures room { log.old.room ≤ log.new.room + 1 }
{
    work.walk.is_sound();
    let reference = Reference::Digest(digest);
    let stored = put(dest, &by.spec.to, &reference, work.walk.putting());
    keep_put(log, by, work, digest, stored)
}

// The put came out, sure or not.
fn keep_put(
    log: &mut Roll<Entry>,
    by: &Admitted,
    work: Work,
    digest: Digest,
    stored: Result<(), Failing>,
) -> Result<Option<Work>, Cause>
    requires asked { work.walk.need ≡ need.PutManifest digest }
    requires room { 0 < log.old.room }
    ensures line { (p q : Reg) → IsCounted p q stored → ChildStored by.now work digest p q
        log.old.newest log.new.newest result (uncounted stored) }
    ensures room { log.old.room ≤ log.new.room + 1 }
{
    match stored {
        Ok(()) => {
            write(log, by, What::PutChild { digest, sure: true });
            go_on(work, Given::Put)
        }
        Err(failing) => {
            write(
                log,
                by,
                What::PutChild {
                    digest,
                    sure: false,
                },
            );
            Err(of_failing(failing, by.spec.dst))
        }
    }
}
