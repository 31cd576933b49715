//! The manifest of a tag is put under the tag, once its whole graph is at the destination. (OCI
//! Distribution 1.1, "Pushing Manifests".)
ghost use Rattle.std.specs.Prelude.{◌≡◌, ◌≤◌, ◌<◌, ◌+◌};
ghost use Rattle.hr_event.specs.declared.reference.Reference.TheVariants as refer;
ghost use Rattle.hr_adapter.specs.Reg.{Reg};
ghost use Rattle.hr_blob.specs.Copies.{uncounted};
ghost use Rattle.hr_graph.specs.declared.need.Need.TheVariants as need;
ghost use Rattle.hr_line.specs.Line.{PutsRoot, RootDecided, RootLine, RootLooked, RootStored, decide};
ghost use Rattle.hr_lane.specs.Call.{IsCounted};

use crate::call::{head, put};
use crate::cause::of_failing;
use crate::look::decided;
use crate::roll::{Roll, write};
use hr_adapter::Registry;
use hr_blob::Failing;
use hr_digest::Digest;
use hr_event::{Cause, Entry, How, Reference, What};
use hr_line::{Admitted, Work};
use hr_name::Tag;

/// Looks once more at what the tag names at the destination, and puts the root under the tag, where
/// this look doesn't decide.
pub(crate) fn show_root<A: Registry>(
    dest: &mut A,
    log: &mut Roll<Entry>,
    by: &Admitted,
    work: Work,
    reference: &Reference,
    tag: Tag,
) -> Result<Option<Work>, Cause>
    requires asked { work.walk.need ≡ need.PutManifest work.walk.root }
    requires named { reference.now ≡ refer.Tag tag }
    requires room { 0 < log.old.room }
    ensures line { RootLine by.now tag work (A.seen dest.old) (A.seen dest.new)
        log.old.newest log.new.newest result }
    ensures room { log.old.room ≤ log.new.room + 1 }
{
    let found = head(dest, &by.spec.to, reference);
    take_root(dest, log, by, work, reference, tag, found)
}

// What came of the second look.
fn take_root<A: Registry>(
    dest: &mut A,
    log: &mut Roll<Entry>,
    by: &Admitted,
    work: Work,
    reference: &Reference,
    tag: Tag,
    found: Result<Option<Digest>, Failing>,
) -> Result<Option<Work>, Cause>
    requires asked { work.walk.need ≡ need.PutManifest work.walk.root }
    requires named { reference.now ≡ refer.Tag tag }
    requires room { 0 < log.old.room }
    ensures line { (p : Reg) → IsCounted p (A.seen dest.old) found → RootLooked by.now tag work p
        (A.seen dest.old) (A.seen dest.new) log.old.newest log.new.newest result (uncounted found) }
    ensures room { log.old.room ≤ log.new.room + 1 }
{
    match found {
        Ok(found) => settle(dest, log, by, work, reference, tag, found),
        Err(failing) => Err(of_failing(failing, by.spec.dst)),
    }
}

// The second look decides, or leads to the put.
fn settle<A: Registry>(
    dest: &mut A,
    log: &mut Roll<Entry>,
    by: &Admitted,
    work: Work,
    reference: &Reference,
    tag: Tag,
    found: Option<Digest>,
) -> Result<Option<Work>, Cause>
    requires asked { work.walk.need ≡ need.PutManifest work.walk.root }
    requires named { reference.now ≡ refer.Tag tag }
    requires room { 0 < log.old.room }
    ensures line { RootDecided by.now tag work found (A.seen dest.old) (A.seen dest.new)
        log.old.newest log.new.newest result
        (decide found work.walk.root by.now.spec.override_it) }
    ensures room { log.old.room ≤ log.new.room + 1 }
{
    let digest = work.walk.root();
    match decided(found, digest, by.spec.override_it) {
        Some(how) => {
            write(
                log,
                by,
                What::Show {
                    tag,
                    digest,
                    old: found,
                    how,
                },
            );
            Ok(None)
        }
        None => put_root(dest, log, by, work, reference, tag, found),
    }
}

// Puts the manifest of the root under the tag.
fn put_root<A: Registry>(
    dest: &mut A,
    log: &mut Roll<Entry>,
    by: &Admitted,
    work: Work,
    reference: &Reference,
    tag: Tag,
    found: Option<Digest>,
) -> Result<Option<Work>, Cause>
    requires asked { work.walk.need ≡ need.PutManifest work.walk.root }
    requires named { reference.now ≡ refer.Tag tag }
    requires room { 0 < log.old.room }
    ensures line { PutsRoot by.now tag work found (A.seen dest.old) (A.seen dest.new)
        log.old.newest log.new.newest result }
    ensures room { log.old.room ≤ log.new.room + 1 }
{
    let stored = put(dest, &by.spec.to, reference, work.walk.putting());
    keep_show(log, by, work.walk.root(), tag, found, stored)
}

// The put under the tag came out, sure or not.
fn keep_show(
    log: &mut Roll<Entry>,
    by: &Admitted,
    digest: Digest,
    tag: Tag,
    found: Option<Digest>,
    stored: Result<(), Failing>,
) -> Result<Option<Work>, Cause>
    requires { 0 < log.old.room }
    ensures line { (mid q : Reg) → IsCounted mid q stored → RootStored by.now tag digest found mid q
        log.old.newest log.new.newest result (uncounted stored) }
    ensures room { log.old.room ≤ log.new.room + 1 }
{
    match stored {
        Ok(()) => {
            let how = How::Put;
            write(
                log,
                by,
                What::Show {
                    tag,
                    digest,
                    old: found,
                    how,
                },
            );
            Ok(None)
        }
        Err(failing) => {
            let how = How::Unsure;
            write(
                log,
                by,
                What::Show {
                    tag,
                    digest,
                    old: found,
                    how,
                },
            );
            Err(of_failing(failing, by.spec.dst))
        }
    }
}
