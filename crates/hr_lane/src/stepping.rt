//! A step of a revision that was taken out of those that are held. (Our own, after Harbor's job
//! service.)
ghost use Rattle.std.specs.Prelude.{◌≡◌, ◌≤◌, ◌<◌, ◌+◌, None, List, [], length};
ghost use Rattle.hr_base.specs.declared.limit.TheConstants.{PIECE};
ghost use Rattle.hr_board.specs.Roles.{ServesLane};
ghost use Rattle.hr_board.specs.View.{Keeps};
ghost use Rattle.hr_line.specs.State.{held_at};
ghost use Rattle.hr_line.specs.declared.held.Admitted.{Admitted};
ghost use Rattle.hr_line.specs.declared.held.Held.{Held as HeldOne};
ghost use Rattle.hr_lane.specs.Conn.{links_of};
ghost use Rattle.hr_lane.specs.State.{AreInOrder, CanStep, state_of};
ghost use Rattle.hr_lane.specs.Stepping.{Finishes, IsOut};
ghost use Rattle.hr_lane.specs.Word.{Steps};

use crate::conn::Conn;
use crate::ending::close;
use crate::going::{Over, work_on};
use crate::holding::Holding;
use crate::roll::{Roll, write};
use hr_adapter::Registry;
use hr_base::{Hook, Mark, Status};
use hr_board::Board;
use hr_event::{Entry, What};
use hr_line::{Held, Stepped};
use std::alloc::Global;

/// Does one step of a revision that was taken out, and puts it back where it goes on.
pub(crate) fn step_held<A: Registry, B: Board>(
    alloc: Global,
    sources: &mut [Conn<A>],
    dests: &mut [Conn<A>],
    log: &mut Roll<Entry>,
    hooks: &mut Roll<Hook>,
    buf: &mut [u8],
    holding: &mut Holding,
    board: &mut B,
    held: Held,
) -> Stepped
    requires can { CanStep (state_of (links_of A.seen sources.old) (links_of A.seen dests.old)
        [] [] [] []) held }
    requires sources { AreInOrder (links_of A.seen sources.old) }
    requires dests { AreInOrder (links_of A.seen dests.old) }
    requires buffer { length buf.old ≡ PIECE }
    requires free { held_at holding.old.held held.by.job.0 ≡ None }
    requires room { (length holding.old.held + 1 ≤ log.old.room)
        × (length holding.old.held + 1 ≤ hooks.old.room) }
    requires job { held.by.job.0 ≤ (B.seen board.old).jobs }
    requires allowed { ServesLane (B.seen board.old) }
    ensures steps { (admitted : List Admitted) (whole : List HeldOne)
        → IsOut held whole holding.old.held
        → Steps (state_of (links_of A.seen sources.old) (links_of A.seen dests.old)
        log.old.newest hooks.old.newest admitted whole)
        (state_of (links_of A.seen sources.new) (links_of A.seen dests.new)
        log.new.newest hooks.new.newest admitted holding.new.held)
        held.by.job (B.seen board.old) (B.seen board.new) result }
    ensures sources { AreInOrder (links_of A.seen sources.new) }
    ensures dests { AreInOrder (links_of A.seen dests.new) }
    ensures room { (length holding.new.held ≤ log.new.room)
        × (length holding.new.held ≤ hooks.new.room) }
    ensures kept { Keeps (B.seen board.old) (B.seen board.new) }
    ensures same { B.same board.old board.new }
{
    let mark = board.look(held.by.job, held.by.rev);
    if mark != Mark::At(Status::Running) {
        write(log, &held.by, What::Dropped);
        return Stepped::Lost(mark);
    }
    match work_on(alloc, sources, dests, log, buf, holding, held) {
        Ok(()) => Stepped::Did,
        Err(over) => finish(board, log, hooks, over),
    }
}

// Ends a revision, and answers for the step.
fn finish<B: Board>(
    board: &mut B,
    log: &mut Roll<Entry>,
    hooks: &mut Roll<Hook>,
    over: Over,
) -> Stepped
    requires job { (1 ≤ over.by.job.0) × (over.by.job.0 ≤ (B.seen board.old).jobs) }
    requires rev { over.by.rev ≤ 3 }
    requires allowed { ServesLane (B.seen board.old) }
    requires room { (0 < log.old.room) × (0 < hooks.old.room) }
    ensures finishes { Finishes over.by over.why log.old.newest log.new.newest
        hooks.old.newest hooks.new.newest (B.seen board.old) (B.seen board.new) result }
    ensures kept { Keeps (B.seen board.old) (B.seen board.new) }
    ensures same { B.same board.old board.new }
    ensures room { (log.old.room ≤ log.new.room + 1) × (hooks.old.room ≤ hooks.new.room + 1) }
{
    let Over { by, why } = over;
    match close(board, log, hooks, by, why) {
        Ok(status) => Stepped::Ended(status),
        Err(mark) => Stepped::Lost(mark),
    }
}
