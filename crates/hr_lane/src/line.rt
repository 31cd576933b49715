//! One line of the step's table: what a revision needs next. (Our own.)
ghost use Rattle.std.specs.Prelude.{◌≡◌, ◌≤◌, ◌+◌, IfOk, IfSome, IsSome, Some, length, true};
ghost use Rattle.hr_event.specs.declared.reference.Reference.TheVariants as refer;
ghost use Rattle.hr_graph.specs.declared.need.Need.TheVariants as need;
ghost use Rattle.hr_adapter.specs.Reg.{IsSound};
ghost use Rattle.hr_line.specs.State.{link_at};
ghost use Rattle.hr_lane.specs.Conn.{AreDistinct, links_of};
ghost use Rattle.hr_lane.specs.Line.{DoesBetween, IsLive, Stores, Tries};

use crate::blob::{find_blob, send_blob};
use crate::child::{put_child, read_child};
use crate::conn::{Conn, place};
use crate::look::look;
use crate::roll::Roll;
use crate::root::show_root;
use crate::tag::read_tag;
use hr_adapter::Registry;
use hr_base::{Memory, PIECE};
use hr_digest::Digest;
use hr_event::{Cause, Entry, Reference};
use hr_graph::Need;
use hr_line::{Admitted, Work};
use hr_name::Tag;
use std::alloc::Global;

/// Does one line between the connections of the task, for a tag that isn't finished.
pub(crate) fn line_between<A: Registry>(
    alloc: Global,
    sources: &mut [Conn<A>],
    dests: &mut [Conn<A>],
    log: &mut Roll<Entry>,
    buf: &mut [u8],
    by: &Admitted,
    tag: &Tag,
    work: Option<Work>,
) -> Result<Option<Work>, Cause>
    requires source { IsSome (link_at (links_of A.seen sources.old) by.now.spec.src) }
    requires dest { IsSome (link_at (links_of A.seen dests.old) by.now.spec.dst) }
    requires sources { AreDistinct (links_of A.seen sources.old) }
    requires dests { AreDistinct (links_of A.seen dests.old) }
    requires live { IfSome work IsLive }
    requires buffer { length buf.old ≡ PIECE }
    requires room { 2 ≤ log.old.room }
    ensures line { DoesBetween by.now tag.now work
        (links_of A.seen sources.old) (links_of A.seen sources.new)
        (links_of A.seen dests.old) (links_of A.seen dests.new)
        log.old.newest log.new.newest result }
    ensures live { IfOk result (λ next. IfSome next IsLive) }
    ensures room { log.old.room ≤ log.new.room + 2 }
{
    let from = place(sources, by.spec.src);
    let to = place(dests, by.spec.dst);
    let source = &mut sources[from].link;
    let dest = &mut dests[to].link;
    line(alloc, source, dest, log, buf, by, tag, work)
}

// Does one line, or none where there is no room for it. The counts of faults are read after it, as
// after every call, so that both connections are known to be sound.
fn line<A: Registry>(
    alloc: Global,
    source: &mut A,
    dest: &mut A,
    log: &mut Roll<Entry>,
    buf: &mut [u8],
    by: &Admitted,
    tag: &Tag,
    work: Option<Work>,
) -> Result<Option<Work>, Cause>
    requires live { IfSome work IsLive }
    requires buffer { length buf.old ≡ PIECE }
    requires room { 2 ≤ log.old.room }
    ensures line { Tries by.now tag.now work (A.seen source.old) (A.seen source.new)
        (A.seen dest.old) (A.seen dest.new) log.old.newest log.new.newest result }
    ensures source { IsSound (A.seen source.new) }
    ensures dest { IsSound (A.seen dest.new) }
    ensures room { log.old.room ≤ log.new.room + 2 }
{
    let end = next_line(alloc, source, dest, log, buf, by, tag, work);
    let _ = (source.count(), dest.count());
    end
}

// Does one line, or none where there is no room for it.
fn next_line<A: Registry>(
    alloc: Global,
    source: &mut A,
    dest: &mut A,
    log: &mut Roll<Entry>,
    buf: &mut [u8],
    by: &Admitted,
    tag: &Tag,
    work: Option<Work>,
) -> Result<Option<Work>, Cause>
    requires live { IfSome work IsLive }
    requires buffer { length buf.old ≡ PIECE }
    requires room { 2 ≤ log.old.room }
    ensures line { Tries by.now tag.now work (A.seen source.old) (A.seen source.new)
        (A.seen dest.old) (A.seen dest.new) log.old.newest log.new.newest result }
    ensures room { log.old.room ≤ log.new.room + 2 }
{
    let Some(work) = work else {
        let Ok((reference, named)) = names(alloc, tag) else {
            return Err(Cause::Memory);
        };
        return read_tag(alloc, source, log, by, reference, named);
    };
    if work.looked {
        return walk_line(alloc, source, dest, log, buf, by, tag, work);
    }
    let Ok((reference, named)) = names(alloc, tag) else {
        return Err(Cause::Memory);
    };
    let Ok(shown) = tag.copy(alloc) else {
        return Err(Cause::Memory);
    };
    look(dest, log, by, work, &reference, named, shown)
}

// A tag as a reference, and a copy of it.
fn names(alloc: Global, tag: &Tag) -> Result<(Reference, Tag), Memory>
    ensures { IfOk result (λ made. (made.0 ≡ refer.Tag tag.now) × (made.1 ≡ tag.now)) }
{
    Ok((Reference::Tag(tag.copy(alloc)?), tag.copy(alloc)?))
}

// Does what the walk needs.
fn walk_line<A: Registry>(
    alloc: Global,
    source: &mut A,
    dest: &mut A,
    log: &mut Roll<Entry>,
    buf: &mut [u8],
    by: &Admitted,
    tag: &Tag,
    work: Work,
) -> Result<Option<Work>, Cause>
    requires live { IsLive work }
    requires looked { work.looked ≡ true }
    requires buffer { length buf.old ≡ PIECE }
    requires room { 2 ≤ log.old.room }
    ensures line { Tries by.now tag.now (Some work) (A.seen source.old) (A.seen source.new)
        (A.seen dest.old) (A.seen dest.new) log.old.newest log.new.newest result }
    ensures room { log.old.room ≤ log.new.room + 2 }
{
    match work.walk.need() {
        Need::Manifest(digest) => read_child(alloc, source, log, by, work, digest),
        Need::HasBlob(digest) => find_blob(dest, log, by, work, digest),
        Need::CopyBlob(digest) => send_blob(source, dest, log, buf, by, work, digest),
        Need::PutManifest(digest) => store(alloc, dest, log, by, tag, work, digest),
        Need::Done => unreachable!(),
    }
}

// Puts the manifest that is ready: the root under the tag, a child under its digest.
fn store<A: Registry>(
    alloc: Global,
    dest: &mut A,
    log: &mut Roll<Entry>,
    by: &Admitted,
    tag: &Tag,
    work: Work,
    digest: Digest,
) -> Result<Option<Work>, Cause>
    requires asked { work.walk.need ≡ need.PutManifest digest }
    requires room { 2 ≤ log.old.room }
    ensures line { Stores by.now tag.now work digest (A.seen dest.old) (A.seen dest.new)
        log.old.newest log.new.newest result }
    ensures room { log.old.room ≤ log.new.room + 2 }
{
    if digest != work.walk.root() {
        return put_child(dest, log, by, work, digest);
    }
    let Ok((reference, named)) = names(alloc, tag) else {
        return Err(Cause::Memory);
    };
    show_root(dest, log, by, work, &reference, named)
}
