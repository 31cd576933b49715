//! The walk of a tag that is at work: it begins, and goes on by an answer. (Our own.)
ghost use Rattle.std.specs.Prelude.{◌≡◌};
ghost use Rattle.hr_digest.specs.Digest.{digest_of};
ghost use Rattle.hr_graph.specs.Walk.{Answers};
ghost use Rattle.hr_line.specs.Line.{IsReading, WalkBegins, WorkGoes};

use crate::cause::of_walk;
use hr_digest::Digest;
use hr_event::{Cause, Fetched};
use hr_graph::{Given, Walk};
use hr_line::Work;
use hr_manifest::{Manifest, Unreadable};
use std::alloc::Global;

/// Reads a manifest as it came.
pub(crate) fn read(alloc: Global, fetched: &Fetched) -> Result<Manifest, Unreadable>
    ensures { IsReading fetched.now result }
{
    Manifest::read(alloc, fetched.media.view(), fetched.bytes.view())
}

/// Begins the work on a tag, whose manifest was read.
pub(crate) fn begin(alloc: Global, root: Digest, manifest: Manifest) -> Result<Option<Work>, Cause>
    requires { digest_of manifest.bytes ≡ root }
    ensures { WalkBegins root manifest result }
{
    match Walk::begin(alloc, root, manifest) {
        Ok(walk) => Ok(Some(Work {
            looked: false,
            walk,
        })),
        Err(why) => Err(of_walk(why)),
    }
}

/// Gives the walk the answer that it needs.
pub(crate) fn go_on(work: Work, given: Given) -> Result<Option<Work>, Cause>
    requires { Answers work.walk.need given }
    ensures { WorkGoes work given result }
{
    let mut work = work;
    match work.walk.give(given) {
        Ok(()) => Ok(Some(work)),
        Err(why) => Err(of_walk(why)),
    }
}
