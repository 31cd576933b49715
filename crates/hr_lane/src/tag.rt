//! The manifest of a tag is read at the source. (OCI Distribution 1.1, "Pulling manifests".)
ghost use Rattle.std.specs.Prelude.{◌≡◌, ◌≤◌, ◌<◌, ◌+◌, IfOk};
ghost use Rattle.hr_digest.specs.Digest.{digest_of};
ghost use Rattle.hr_event.specs.declared.reference.Reference.TheVariants as refer;
ghost use Rattle.hr_adapter.specs.Reg.{Reg};
ghost use Rattle.hr_blob.specs.Copies.{uncounted};
ghost use Rattle.hr_line.specs.Line.{RootGoes, TagCame, TagFetched, TagLine};
ghost use Rattle.hr_lane.specs.Call.{IsCounted};

use crate::call::fetch;
use crate::cause::{of_failing, of_form};
use crate::roll::{Roll, write};
use crate::work::{begin, read};
use hr_adapter::Registry;
use hr_blob::Failing;
use hr_digest::Digest;
use hr_event::{Cause, Entry, Fetched, Reference, What};
use hr_line::{Admitted, Work};
use hr_manifest::{Manifest, Unreadable};
use hr_name::Tag;
use std::alloc::Global;

/// Reads the tag at the source, and begins its walk.
pub(crate) fn read_tag<A: Registry>(
    alloc: Global,
    source: &mut A,
    log: &mut Roll<Entry>,
    by: &Admitted,
    reference: Reference,
    tag: Tag,
) -> Result<Option<Work>, Cause>
    requires named { reference ≡ refer.Tag tag }
    requires room { 0 < log.old.room }
    ensures line { TagLine by.now tag (A.seen source.old) (A.seen source.new)
        log.old.newest log.new.newest result }
    ensures room { log.old.room ≤ log.new.room + 1 }
{
    let fetched = fetch(source, &by.spec.from, &reference);
    take_root(alloc, log, by, reference, tag, fetched)
}

// What came of the look for the tag's manifest.
fn take_root(
    alloc: Global,
    log: &mut Roll<Entry>,
    by: &Admitted,
    reference: Reference,
    tag: Tag,
    fetched: Result<Option<Fetched>, Failing>,
) -> Result<Option<Work>, Cause>
    requires named { reference ≡ refer.Tag tag }
    requires room { 0 < log.old.room }
    ensures line { (f g : Reg) → IsCounted f g fetched → TagFetched by.now tag f g
        log.old.newest log.new.newest result (uncounted fetched) }
    ensures room { log.old.room ≤ log.new.room + 1 }
{
    match fetched {
        Ok(Some(manifest)) => keep_root(alloc, log, by, tag, manifest),
        Ok(None) => Err(Cause::Gone { reference }),
        Err(failing) => Err(of_failing(failing, by.spec.src)),
    }
}

// The manifest of the tag came: it is written, readable or not.
fn keep_root(
    alloc: Global,
    log: &mut Roll<Entry>,
    by: &Admitted,
    tag: Tag,
    fetched: Fetched,
) -> Result<Option<Work>, Cause>
    requires { 0 < log.old.room }
    ensures came { TagCame by.now tag fetched log.old.newest log.new.newest result }
    ensures room { log.old.room ≤ log.new.room + 1 }
{
    let root = Digest::of(fetched.bytes.view());
    let manifest = read(alloc, &fetched);
    write(
        log,
        by,
        What::ReadTag {
            tag,
            media: fetched.media,
            bytes: fetched.bytes,
        },
    );
    begin_root(alloc, root, manifest)
}

// The walk from the manifest of the tag, where it was read.
fn begin_root(
    alloc: Global,
    root: Digest,
    manifest: Result<Manifest, Unreadable>,
) -> Result<Option<Work>, Cause>
    requires { IfOk manifest (λ m. digest_of m.bytes ≡ root) }
    ensures { RootGoes root manifest result }
{
    match manifest {
        Ok(manifest) => begin(alloc, root, manifest),
        Err(why) => Err(of_form(why, root)),
    }
}
