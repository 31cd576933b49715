//! What a step does for a revision whose word is at Running: one line, or its end. (Our own.)
ghost use Rattle.std.specs.Prelude.{◌≡◌, ◌≤◌, ◌<◌, ◌+◌, ◌^◌, IfSome, IsSome, None, OnOk, Option, length};
ghost use Rattle.hr_line.specs.State.{held_at, link_at};
ghost use Rattle.hr_line.specs.Step.{goes_on};
ghost use Rattle.hr_line.specs.declared.held.Work.{Work as Going};
ghost use Rattle.hr_lane.specs.Conn.{AreDistinct, links_of};
ghost use Rattle.hr_lane.specs.Line.{IsLive};
ghost use Rattle.hr_lane.specs.Going.{WorksOn};

use crate::conn::Conn;
use crate::holding::Holding;
use crate::line::line_between;
use crate::roll::Roll;
use hr_adapter::Registry;
use hr_base::{Memory, PIECE};
use hr_event::{Cause, Entry};
use hr_line::{Admitted, Held, Work};
use std::alloc::Global;

/// A revision that is to end: by a cause, or with success by none.
#[derive(Drop)]
pub(crate) struct Over {
    pub by: Admitted,
    pub why: Option<Cause>,
}

/// Does one line for a revision that was taken out, and puts it back where it goes on. Room is taken
/// before any call of a registry.
pub(crate) fn work_on<A: Registry>(
    alloc: Global,
    sources: &mut [Conn<A>],
    dests: &mut [Conn<A>],
    log: &mut Roll<Entry>,
    buf: &mut [u8],
    holding: &mut Holding,
    held: Held,
) -> Result<(), Over>
    requires source { IsSome (link_at (links_of A.seen sources.old) held.by.spec.src) }
    requires dest { IsSome (link_at (links_of A.seen dests.old) held.by.spec.dst) }
    requires sources { AreDistinct (links_of A.seen sources.old) }
    requires dests { AreDistinct (links_of A.seen dests.old) }
    requires live { IfSome held.work IsLive }
    requires buffer { length buf.old ≡ PIECE }
    requires free { held_at holding.old.held held.by.job.0 ≡ None }
    requires room { length holding.old.held + 1 ≤ log.old.room }
    ensures works { WorksOn held
        (links_of A.seen sources.old) (links_of A.seen sources.new)
        (links_of A.seen dests.old) (links_of A.seen dests.new)
        log.old.newest log.new.newest holding.old.held holding.new.held result }
    ensures room { length holding.old.held + 1 ≤ log.new.room }
    ensures size { length holding.new.held ≤ length holding.old.held + 1 }
{
    let Held { by, next, work } = held;
    let Some(tag) = by.spec.tags.view().get(next) else {
        return Err(Over { by, why: None });
    };
    if take_room(log, holding).is_err() {
        let why = Some(Cause::Memory);
        return Err(Over { by, why });
    }
    match line_between(alloc, sources, dests, log, buf, &by, tag, work) {
        Ok(work) => {
            holding.put(after_line(by, next, work));
            Ok(())
        }
        Err(why) => Err(Over { by, why: Some(why) }),
    }
}

// Takes room for two entries of a line, for the last entry of each revision, and to put back the one
// that was taken out.
fn take_room(log: &mut Roll<Entry>, holding: &mut Holding) -> Result<(), Memory>
    ensures ok { OnOk result ((length holding.old.held + 3 ≤ log.new.room)
        × (1 ≤ holding.new.room)) }
    ensures held { holding.new.held ≡ holding.old.held }
    ensures log { log.new.newest ≡ log.old.newest }
    ensures room { log.old.room ≤ log.new.room }
{
    log.reserve(holding.len() + 3)?;
    holding.reserve()
}

// How far a revision is after a line that didn't end it.
fn after_line(by: Admitted, next: usize, work: Option<Work>) -> Held
    requires { next + 1 < 2 ^ 64 }
    ensures { (old : Option Going) → result
        ≡ goes_on (record { by = by; next = next; work = old }) work }
{
    let next = match &work {
        Some(_) => next,
        None => next + 1,
    };
    Held { by, next, work }
}
