//! Calls of a registry with the counts of faults around them. (OCI Distribution 1.1, "Pulling
//! manifests" and "Pushing Manifests".)
ghost use Rattle.std.specs.Prelude.{◌≡◌};
ghost use Rattle.hr_adapter.specs.Calls.{Fetches, FindsBlob, Heads, PutsManifest};
ghost use Rattle.hr_adapter.specs.Put.{IsOwn};
ghost use Rattle.hr_adapter.specs.Reg.{IsSound};
ghost use Rattle.hr_blob.specs.Copies.{uncounted};
ghost use Rattle.hr_lane.specs.Call.{IsCounted};

use hr_adapter::Registry;
use hr_blob::Failing;
use hr_digest::Digest;
use hr_event::{Fetched, Reference};
use hr_manifest::Manifest;
use hr_name::Name;

/// The manifest that a reference leads to.
pub(crate) fn fetch<A: Registry>(
    source: &mut A,
    repo: &Name,
    reference: &Reference,
) -> Result<Option<Fetched>, Failing>
    ensures asks { Fetches repo.now reference.now (A.seen source.old) (A.seen source.new)
        (uncounted result) }
    ensures counted { IsCounted (A.seen source.old) (A.seen source.new) result }
{
    let before = source.count();
    match source.manifest(repo, reference) {
        Ok(found) => Ok(found),
        Err(fault) => Err(Failing {
            fault,
            before,
            after: source.count(),
        }),
    }
}

/// The digest of the manifest that a reference leads to.
pub(crate) fn head<A: Registry>(
    dest: &mut A,
    repo: &Name,
    reference: &Reference,
) -> Result<Option<Digest>, Failing>
    ensures asks { Heads repo.now reference.now (A.seen dest.old) (A.seen dest.new)
        (uncounted result) }
    ensures counted { IsCounted (A.seen dest.old) (A.seen dest.new) result }
    ensures sound { IsSound (A.seen dest.new) }
{
    let before = dest.count();
    let found = dest.head(repo, reference);
    let after = dest.count();
    match found {
        Ok(found) => Ok(found),
        Err(fault) => Err(Failing {
            fault,
            before,
            after,
        }),
    }
}

/// The length of a blob in bytes.
pub(crate) fn find<A: Registry>(
    dest: &mut A,
    repo: &Name,
    digest: &Digest,
) -> Result<Option<u64>, Failing>
    ensures asks { FindsBlob repo.now digest.now (A.seen dest.old) (A.seen dest.new)
        (uncounted result) }
    ensures counted { IsCounted (A.seen dest.old) (A.seen dest.new) result }
{
    let before = dest.count();
    match dest.has_blob(repo, digest) {
        Ok(found) => Ok(found),
        Err(fault) => Err(Failing {
            fault,
            before,
            after: dest.count(),
        }),
    }
}

/// Puts a manifest under a reference.
pub(crate) fn put<A: Registry>(
    dest: &mut A,
    repo: &Name,
    reference: &Reference,
    manifest: &Manifest,
) -> Result<(), Failing>
    requires { IsOwn reference.now manifest.now.bytes }
    ensures puts { PutsManifest repo.now reference.now manifest.now.media manifest.now.bytes
        (A.seen dest.old) (A.seen dest.new) (uncounted result) }
    ensures counted { IsCounted (A.seen dest.old) (A.seen dest.new) result }
{
    manifest.is_read();
    let before = dest.count();
    match dest.put_manifest(repo, reference, manifest.media(), manifest.bytes()) {
        Ok(()) => Ok(()),
        Err(fault) => Err(Failing {
            fault,
            before,
            after: dest.count(),
        }),
    }
}
