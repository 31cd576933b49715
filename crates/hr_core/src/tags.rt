//! The tags that registries show. (Our own.)
ghost use Rattle.std.specs.Prelude.{◌≡◌, ◌++◌, IfOk, Some, map};
ghost use Rattle.hr_core.specs.Tags.{told_of};
ghost use Rattle.hr_lane.specs.Conn.{links_of};
ghost use Rattle.hr_run.specs.Does as does;
ghost use Rattle.hr_promise.specs.Answer.{tag_told};

use crate::engine::Core;
use hr_adapter::{Registry, TagNow};
use hr_base::{List, Memory, RegNo};
use hr_event::Told;
use hr_lane::{Conn, Lane};
use std::alloc::Global;

impl<A: Registry> Core<A> {
    ghost use Rattle.hr_run.specs.Does.{tags_told};

    /// The tags that a registry shows, or none where there is no connection to it.
    pub(crate) fn tags(&self, alloc: Global, reg: RegNo) -> Result<List<Told>, Memory>
        ensures { IfOk result (λ answers. answers ≡ tags_told self.now reg) }
    {
        if let Some(told) = tell_lanes(alloc, &self.lanes, reg)? {
            return Ok(told);
        }
        match tell_tags(alloc, &self.others, reg)? {
            Some(told) => Ok(told),
            None => Ok(List::new(alloc)),
        }
    }
}

// The tags that the registry shows to which one of the connections of these lanes is.
fn tell_lanes<A: Registry>(
    alloc: Global,
    lanes: &[Lane<A>],
    reg: RegNo,
) -> Result<Option<List<Told>>, Memory>
    ensures { IfOk result (λ told. told ≡ told_of (does.links_of lanes.now) reg) }
{
    for at in 0..lanes.len() {
        if let Some(told) = tell_lane(alloc, &lanes[at], reg)? {
            return Ok(Some(told));
        }
    }
    Ok(None)
}

// The tags that the registry shows to which one of the connections of a lane is.
fn tell_lane<A: Registry>(
    alloc: Global,
    lane: &Lane<A>,
    reg: RegNo,
) -> Result<Option<List<Told>>, Memory>
    ensures { IfOk result (λ told. told ≡ told_of (lane.now.sources ++ lane.now.dests) reg) }
{
    match tell_tags(alloc, lane.sources(), reg)? {
        Some(told) => Ok(Some(told)),
        None => tell_tags(alloc, lane.dests(), reg),
    }
}

// The tags that the registry shows to which one of these connections is, or `None` where none is.
fn tell_tags<A: Registry>(
    alloc: Global,
    conns: &[Conn<A>],
    reg: RegNo,
) -> Result<Option<List<Told>>, Memory>
    ensures { IfOk result (λ told. told ≡ told_of (links_of A.seen conns.now) reg) }
{
    for at in 0..conns.len() {
        let conn = &conns[at];
        if conn.reg == reg {
            return Ok(Some(tell_all(alloc, conn.link.shown()?)?));
        }
    }
    Ok(None)
}

// Tags as answers.
fn tell_all(alloc: Global, tags: List<TagNow>) -> Result<List<Told>, Memory>
    ensures { IfOk result (λ told. told ≡ map tag_told tags) }
{
    let mut told = List::new(alloc);
    for TagNow { repo, tag, digest } in Vec::from(tags) {
        told.push(Told::TagIs { repo, tag, digest })?;
    }
    Ok(told)
}
