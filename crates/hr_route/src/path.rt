//! The paths of the API (OCI Distribution 1.1, "Endpoints"), taken apart at their last slash. The
//! name of a repository may have components that stand in other paths for themselves.
ghost use Rattle.std.specs.Prelude.{◌≡◌, ◌≢◌, ◌++◌, MatchOption, codes};
ghost use Rattle.hr_base.specs.Bytes.{Text};
ghost use Rattle.hr_route.specs.declared.path.Kind.{Kind};
ghost use Rattle.hr_route.specs.Path.{HasNoSlash, IsWay, SplitsAt, Way, kind_text, way_in};

/// What of a repository a path leads to.
#[derive(Clone, Copy, Debug, PartialEq, Eq)]
pub enum Kind {
    /// The tags.
    Tags,
    /// The manifests.
    Manifests,
    /// The blobs.
    Blobs,
    /// The upload sessions.
    Uploads,
}

/// A path, in parts as they stand there.
#[derive(Clone, Copy)]
pub(crate) enum Parts<'a> {
    /// What stands behind `/v2/`, without a slash.
    Top {
        last: &'a [u8],
    },
    /// A repository, what of it, and what stands behind the last slash.
    Within {
        repo: &'a [u8],
        kind: Kind,
        last: &'a [u8],
    },
}

/// The parts of a path, or `None` where it has no such parts.
pub(crate) fn parts_of(path: &[u8]) -> Option<Parts<'_>>
    ensures { MatchOption result ((way : Way) → IsWay path.now way → ⊥)
        (λ parts. IsWay path.now (way_in parts)) }
{
    let Some(at) = last_slash(path) else {
        return None;
    };
    let front = &path[..at];
    let last = &path[at + 1..];
    if front == b"/v2".as_slice() {
        return Some(Parts::Top { last });
    }
    let Some((repo, kind)) = within(front) else {
        return None;
    };
    Some(Parts::Within { repo, kind, last })
}

// Where the last slash stands.
fn last_slash(bytes: &[u8]) -> Option<usize>
    ensures { MatchOption result (HasNoSlash bytes.now) (SplitsAt bytes.now) }
{
    let mut at = bytes.len();
    while at > 0 {
        at -= 1;
        if bytes[at] == b'/' {
            return Some(at);
        }
    }
    None
}

// The repository and what of it, of what stands before the last slash.
fn within(front: &[u8]) -> Option<(&[u8], Kind)>
    ensures { MatchOption result
        ((repo : Text) (kind : Kind) → front.now ≢ codes "/v2/" ++ (repo ++ kind_text kind))
        (λ found. front.now ≡ codes "/v2/" ++ (found.0.now ++ kind_text found.1)) }
{
    let rest = front.strip_prefix(b"/v2/")?;
    kind_of(rest)
}

// What stands before the end that tells the kind.
fn kind_of(rest: &[u8]) -> Option<(&[u8], Kind)>
    ensures { MatchOption result
        ((repo : Text) (kind : Kind) → rest.now ≢ repo ++ kind_text kind)
        (λ found. rest.now ≡ found.0.now ++ kind_text found.1) }
{
    if let Some(repo) = ends_in(rest, Kind::Tags) {
        return Some((repo, Kind::Tags));
    }
    if let Some(repo) = ends_in(rest, Kind::Manifests) {
        return Some((repo, Kind::Manifests));
    }
    if let Some(repo) = ends_in(rest, Kind::Blobs) {
        return Some((repo, Kind::Blobs));
    }
    let repo = ends_in(rest, Kind::Uploads)?;
    Some((repo, Kind::Uploads))
}

// What stands before the end of this kind, where the text ends so.
fn ends_in(rest: &[u8], kind: Kind) -> Option<&[u8]>
    ensures { MatchOption result ((repo : Text) → rest.now ≢ repo ++ kind_text kind)
        (λ repo. rest.now ≡ repo.now ++ kind_text kind) }
{
    let end = kind.text();
    rest.strip_suffix(end)
}

impl Kind {
    /// What stands in paths before the last slash.
    pub(crate) fn text(self) -> &'static [u8]
        ensures { result.now ≡ kind_text self }
    {
        match self {
            Kind::Tags => b"/tags",
            Kind::Manifests => b"/manifests",
            Kind::Blobs => b"/blobs",
            Kind::Uploads => b"/blobs/uploads",
        }
    }
}
