//! A revision is admitted: its word moves to Running, unless it is found at another mark. (Our own,
//! after Harbor's job service.)
ghost use Rattle.std.specs.Prelude.{◌≡◌, ◌≢◌, ◌≤◌, ◌<◌, ◌+◌, List, None, OnOk, length, reverse};
ghost use Rattle.hr_base.specs.Status.{word_of};
ghost use Rattle.hr_base.specs.declared.limit.TheConstants.{PIECE as piece};
ghost use Rattle.hr_base.specs.declared.status.Mark.TheVariants.{At, Unopened};
ghost use Rattle.hr_base.specs.declared.status.Status.TheVariants.{Running};
ghost use Rattle.hr_board.specs.Moves.{IsMove};
ghost use Rattle.hr_board.specs.Roles.{ServesLane};
ghost use Rattle.hr_board.specs.View.{Keeps};
ghost use Rattle.hr_line.specs.Admission.{Begins};
ghost use Rattle.hr_line.specs.State.{Link, held_at};
ghost use Rattle.hr_line.specs.declared.answer.Admit.TheVariants.{Began};
ghost use Rattle.hr_lane.specs.Admission.{AdmitsWord, AreNoted, waiting};
ghost use Rattle.hr_lane.specs.State.{state_of};

use crate::holding::Holding;
use crate::roll::{Roll, write};
use hr_base::{Hook, Mark, Memory, PIECE, Status, Trace};
use hr_board::Board;
use hr_event::{Entry, What};
use hr_line::{Admit, Admitted, Held};
use std::alloc::Global;

/// Admits a revision. All room that it needs up to its end is taken before its word is moved.
#[tactic(auto, using(crate::proofs::AdmissionLemmas::is_new))]
pub(crate) fn admit_held<B: Board>(
    alloc: Global,
    log: &mut Roll<Entry>,
    hooks: &mut Roll<Hook>,
    buf: &mut Vec<u8>,
    admitted: &mut Trace<Admitted>,
    holding: &mut Holding,
    board: &mut B,
    by: Admitted,
) -> Admit
    requires job { (1 ≤ by.job.0) × (by.job.0 ≤ (B.seen board.old).jobs) }
    requires rev { by.rev ≤ 3 }
    requires free { held_at holding.old.held by.job.0 ≡ None }
    requires allowed { ServesLane (B.seen board.old) }
    requires noted { AreNoted (reverse admitted.old.items) (B.seen board.old) }
    requires room { (length holding.old.held ≤ log.old.room)
        × (length holding.old.held ≤ hooks.old.room) }
    ensures admits { (sources dests : List Link) → AdmitsWord
        (state_of sources dests log.old.newest hooks.old.newest
        (reverse admitted.old.items) holding.old.held)
        (state_of sources dests log.new.newest hooks.new.newest
        (reverse admitted.new.items) holding.new.held)
        by (B.seen board.old) (B.seen board.new) result }
    ensures buffer { result ≡ Began → length buf.new.items ≡ piece }
    ensures whole { length buf.old.items ≡ piece → length buf.new.items ≡ piece }
    ensures room { (length holding.new.held ≤ log.new.room)
        × (length holding.new.held ≤ hooks.new.room) }
    ensures kept { Keeps (B.seen board.old) (B.seen board.new) }
    ensures same { B.same board.old board.new }
{
    if take_room(log, hooks, holding).is_err() || take_buffer(alloc, buf).is_err() {
        return Admit::Memory;
    }
    let running = Mark::At(Status::Running);
    match board.advance(by.job, by.rev, waiting_at(by.rev), running) {
        Ok(()) => {
            begin(log, hooks, admitted, holding, by);
            Admit::Began
        }
        Err(mark) => Admit::Lost(mark),
    }
}

// The mark at which a revision waits for its turn.
fn waiting_at(rev: u8) -> Mark
    ensures value { result ≡ waiting rev }
    ensures moves { IsMove result (At Running) }
    ensures waits { word_of result ≢ word_of Unopened }
    ensures low { word_of result < word_of (At Running) }
{
    if rev == 0 {
        Mark::At(Status::Pending)
    } else {
        Mark::At(Status::Scheduled)
    }
}

// Takes room for the first entry and hook of a revision, for the last ones of each, and for its place.
fn take_room(
    log: &mut Roll<Entry>,
    hooks: &mut Roll<Hook>,
    holding: &mut Holding,
) -> Result<(), Memory>
    ensures log { OnOk result (length holding.old.held + 2 ≤ log.new.room) }
    ensures hooks { OnOk result (length holding.old.held + 2 ≤ hooks.new.room) }
    ensures place { OnOk result (0 < holding.new.room) }
    ensures unchanged { (holding.new.held ≡ holding.old.held) × (log.new.newest ≡ log.old.newest)
        × (hooks.new.newest ≡ hooks.old.newest) }
    ensures room { (log.old.room ≤ log.new.room) × (hooks.old.room ≤ hooks.new.room) }
{
    log.reserve(holding.len() + 2)?;
    hooks.reserve(holding.len() + 2)?;
    holding.reserve()
}

// Makes the buffer where there is none yet.
fn take_buffer(alloc: Global, buf: &mut Vec<u8>) -> Result<(), Memory>
    ensures ok { OnOk result (length buf.new.items ≡ piece) }
    ensures whole { length buf.old.items ≡ piece → length buf.new.items ≡ piece }
{
    if buf.len() != PIECE {
        *buf = vec![in alloc; 0u8; PIECE]?;
    }
    Ok(())
}

// Writes that a revision was begun, and holds it.
fn begin(
    log: &mut Roll<Entry>,
    hooks: &mut Roll<Hook>,
    admitted: &mut Trace<Admitted>,
    holding: &mut Holding,
    by: Admitted,
)
    requires log { 0 < log.old.room }
    requires hooks { 0 < hooks.old.room }
    requires place { 0 < holding.old.room }
    requires free { held_at holding.old.held by.job.0 ≡ None }
    ensures begins { (sources dests : List Link) → Begins
        (state_of sources dests log.old.newest hooks.old.newest
        (reverse admitted.old.items) holding.old.held)
        (state_of sources dests log.new.newest hooks.new.newest
        (reverse admitted.new.items) holding.new.held) by }
    ensures room { (log.old.room ≡ log.new.room + 1) × (hooks.old.room ≡ hooks.new.room + 1) }
    ensures more { length holding.new.held ≡ length holding.old.held + 1 }
{
    write(log, &by, What::Began);
    hooks.write(Hook {
        job: by.job,
        rev: by.rev,
        status: Status::Running,
    });
    *admitted = admitted.then(&by);
    holding.put(Held {
        by,
        next: 0,
        work: None,
    });
}
