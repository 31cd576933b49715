//! One line of a script. (Our own.)
ghost use Rattle.std.specs.Prelude.{◌≡◌};
ghost use Rattle.hr_script.specs.Progress.{is_event};

use hr_base::{Bytes, List, RegNo};
use hr_event::Event;
use hr_name::{Name, Tag};

/// A line that was read. A registry's number is 1 to 8.
#[derive(Debug, Drop, PartialEq, Eq)]
pub enum Line {
    /// Stores an image with the config `{}` and these layers, each of one byte or more, and its
    /// tag.
    Image {
        reg: RegNo,
        repo: Name,
        tag: Tag,
        layers: List<Bytes>,
    },
    /// Stores the index of the manifests that these tags of the repository name, and its tag.
    Index {
        reg: RegNo,
        repo: Name,
        tag: Tag,
        children: List<Tag>,
    },
    /// Stores the manifest of such an image alone, without its blobs and without a tag.
    Orphan {
        reg: RegNo,
        repo: Name,
        layers: List<Bytes>,
    },
    /// Stores a text of any length as a manifest of this media type, and its tag. The media type,
    /// which may be empty, has no byte that JSON escapes.
    Manifest {
        reg: RegNo,
        repo: Name,
        tag: Tag,
        media: Bytes,
        text: Bytes,
    },
    /// Stores bytes as the blob with the digest of other ones, the honest; both have one byte or
    /// more.
    Break {
        reg: RegNo,
        repo: Name,
        honest: Bytes,
        stored: Bytes,
    },
    /// An operation of a lane's connection to the registry fails; where it lands and is a put, it
    /// takes effect all the same. Operations are counted from 1. Today the lane is 0.
    Fault {
        lane: u32,
        reg: RegNo,
        op: u32,
        lands: bool,
    },
    /// Just before such an operation the first tag, which may be new, is made to name what the
    /// second one names at this line.
    Change {
        lane: u32,
        reg: RegNo,
        op: u32,
        repo: Name,
        tag: Tag,
        to: Tag,
    },
    /// There may be so many jobs, 1 to 262,144.
    Jobs {
        jobs: u32,
    },
    /// An event: today any but `Due`. The number of a revision is 0 to 3, and a wait is of at most
    /// 1,000,000,000 seconds.
    Event(Event),
}

impl Line {
    /// Whether it is an event, and no setup line.
    pub fn is_event(&self) -> bool
        ensures { result ≡ is_event self.now }
    {
        matches!(self, Line::Event(_))
    }
}
