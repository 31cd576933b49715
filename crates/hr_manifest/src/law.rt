//! What holds of every reading of a manifest. (Our own.)
ghost use Rattle.std.specs.Prelude.{◌≡◌, ◌≤◌, ◌⊎◌, List, length};
ghost use Rattle.hr_manifest.specs.Reading.{IsManifestMedia, Reads, Refuses};
ghost use Rattle.hr_manifest.specs.declared.child.Child.{Child};
ghost use Rattle.hr_manifest.specs.declared.refusal.Unreadable.{Unreadable};

use crate::CHILD_LIMIT;
use hr_base::MANIFEST_LIMIT;

/// Bytes are read under a media type or refused, never both, and in one way.
pub fn bytes_are_read_or_refused(media: &[u8], bytes: &[u8])
    ensures either { ((children : List Child) × Reads media.now bytes.now children)
        ⊎ ((why : Unreadable) × Refuses media.now bytes.now why) }
    ensures not_both { (children : List Child) (why : Unreadable)
        → Reads media.now bytes.now children → Refuses media.now bytes.now why → ⊥ }
    ensures one_fault { (why other : Unreadable)
        → Refuses media.now bytes.now why → Refuses media.now bytes.now other → why ≡ other }
{
    let _ = media;
    let _ = bytes;
}

/// What bytes list depends on them alone, whatever the media type under which they are read.
pub fn children_depend_on_the_bytes_alone(media: &[u8], other: &[u8], bytes: &[u8])
    ensures { (children more : List Child)
        → Reads media.now bytes.now children → Reads other.now bytes.now more → children ≡ more }
{
    let _ = media;
    let _ = other;
    let _ = bytes;
}

/// What is read has one of four media types.
pub fn manifests_have_four_media_types(media: &[u8], bytes: &[u8])
    ensures { (children : List Child) → Reads media.now bytes.now children
        → IsManifestMedia media.now }
{
    let _ = media;
    let _ = bytes;
}

/// What is read is within its limits.
pub fn manifests_are_within_their_limits(media: &[u8], bytes: &[u8])
    ensures bytes { (children : List Child) → Reads media.now bytes.now children
        → length bytes.now ≤ MANIFEST_LIMIT }
    ensures children { (children : List Child) → Reads media.now bytes.now children
        → length children ≤ CHILD_LIMIT }
{
    let _ = media;
    let _ = bytes;
}
