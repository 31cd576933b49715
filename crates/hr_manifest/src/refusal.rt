//! Why bytes are not read as a manifest. (Our own.)

use hr_base::Memory;

/// A member that is missing, or is not what it must be.
#[derive(Clone, Copy, Debug, PartialEq, Eq)]
pub enum ManifestKey {
    /// `schemaVersion` of the manifest is not the number 2.
    SchemaVersion,
    /// `mediaType` of the manifest is there, and is not the media type under which it is read.
    MediaType,
    /// `config` of an image is no object, or an index has one.
    Config,
    /// `layers` of an image is no list, or an index has one.
    Layers,
    /// `manifests` of an index is no list, or an image has one.
    Manifests,
    /// A child is no object with a text as its `mediaType`.
    ChildMedia,
    /// `digest` of a child is no text of a known digest.
    ChildDigest,
    /// `size` of a child is no whole number below 2^63.
    ChildSize,
}

/// Why bytes are not read as a manifest: the first fault that was met.
#[derive(Clone, Copy, Debug, PartialEq, Eq)]
pub enum Unreadable {
    /// There are more than `MANIFEST_LIMIT` bytes. `len` is their number.
    TooLong { len: u64 },
    /// The media type is none of the four that are read.
    Media,
    /// The bytes are no JSON object.
    NotJson,
    /// A member is not as it must be.
    Field { name: ManifestKey },
    /// There are more than `CHILD_LIMIT` children. `count` is their number.
    TooMany { count: u64 },
    /// There was no room for the value or its children.
    Memory,
}

impl From<Memory> for Unreadable {
    ghost use Rattle.std.specs.Prelude.{◌≡◌};
    ghost use Rattle.hr_manifest.specs.declared.refusal.Unreadable.TheVariants as why;

    ghost from_gives = { λ _ made. made ≡ why.Memory };

    fn from(_: Memory) -> Unreadable {
        Unreadable::Memory
    }
}
