//! What a first line asks for, or the status of its refusal.
ghost use Rattle.std.specs.Prelude.{◌≡◌};

use hr_base::{Bytes, Memory};
use hr_digest::Digest;
use hr_event::Reference;
use hr_name::Name;

/// What the first line of a request asks for: a call without what its field lines and its body say.
#[derive(Debug, Drop, PartialEq, Eq)]
pub enum Route {
    Ping,
    Catalog { last: Option<Bytes> },
    Tags { repo: Name, last: Option<Bytes> },
    HeadManifest { repo: Name, reference: Reference },
    GetManifest { repo: Name, reference: Reference },
    HeadBlob { repo: Name, digest: Digest },
    GetBlob { repo: Name, digest: Digest },
    BeginUpload { repo: Name },
    EndUpload { at: Bytes, digest: Digest },
    PutManifest { repo: Name, reference: Reference },
    Chunk { at: Bytes },
    Progress { at: Bytes },
}

/// Why a request is no call.
#[derive(Clone, Copy, Debug, PartialEq, Eq)]
pub enum NoRoute {
    /// It is refused with this status: 404 for an unknown path, 405 for a known path under another
    /// verb, 400 for a name, a reference, a digest, a query, a field line or a body that is bad.
    Status { status: u16 },
    /// There was no memory for the call.
    Memory,
}

impl From<Memory> for NoRoute {
    ghost use Rattle.hr_route.specs.declared.route.NoRoute.TheVariants.{Memory as no_memory};

    ghost from_gives = { λ _ e. e ≡ no_memory };

    fn from(_: Memory) -> NoRoute {
        NoRoute::Memory
    }
}
