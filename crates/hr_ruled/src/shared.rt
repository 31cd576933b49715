//! The words that threads share, and what a seat does with them.
ghost use Rattle.std.specs.Prelude.{◌≡◌, ◌≢◌, ◌*◌, ◌<◌, ◌≤◌, [], IsTrue, IfErr, IfOk, OnOk};
ghost use Rattle.hr_base.specs.Status.{word_of};
ghost use Rattle.hr_board.specs.Moves.{IsMove};
ghost use Rattle.hr_board.specs.View.{place_of, Finds, OpensAfterError};

use crate::held::Held;
use crate::limit::ALL_PARTS;
use crate::naming::Naming;
use crate::rule::{
    BoardRule, ControlSplit, LaneSplit, LookStep, MoveStep, QueueSplit, ReaderSplit, Role,
    SeatJoin, SeatView,
};
use crate::seat::BoardSeat;
use atomic_table::{Closed, Table};
use hr_base::{JobNo, List, Mark, Memory};
use hr_board::{mark_of, place};
use std::alloc::Global;
use std::marker::{Model, PhantomData};

/// The board that `N` names, of which threads share a `&`. Contracts see how many jobs it has.
#[derive(Drop)]
pub struct SharedBoard<N: Naming> {
    table: Table<u8, SeatView, u64, BoardRule, Global>,
    jobs: u32,
    of: PhantomData<N>,
}

impl<N: Naming> Model for SharedBoard<N> {
    ghost use Rattle.std.specs.Prelude.{◌≡◌, ℕ, ◌*◌, ◌<◌};

    ghost Value = { ℕ };

    ghost view = { λ board. board.jobs };

    ghost invariant = { λ board. (board.table.shared.table_id ≡ N.table)
        × (N.table.words ≡ 4 * board.jobs) × (N.table.slots ≡ 0)
        × (board.table.shared.key ≡ 4 * board.jobs) × (0 < board.jobs) };
}

impl<N: Naming> SharedBoard<N> {
    ghost use Rattle.hr_ruled.specs.Rule.{IsClosed};
    ghost use Rattle.hr_ruled.specs.Seats.{view_of_seat, seat_saw, seat_moved, seat_left, seat_given, seats_joined, part_of_role};

    // The board over a table of words.
    pub(crate) fn of(
        table: Table<u8, SeatView, u64, BoardRule, Global>,
        jobs: u32,
    ) -> SharedBoard<N>
        requires table { (table.shared.table_id ≡ N.table) × (N.table.words ≡ 4 * jobs)
            × (N.table.slots ≡ 0) × (table.shared.key ≡ 4 * jobs) }
        requires jobs { 0 < jobs }
        ensures { result ≡ jobs }
    {
        SharedBoard {
            table,
            jobs,
            of: PhantomData,
        }
    }

    /// How many jobs it has.
    pub fn jobs(&self) -> u32
        ensures { result ≡ self.now }
    {
        self.jobs
    }

    /// The board with one of its seats, which is a board as whoever steps, queues or stops jobs
    /// needs it.
    pub fn with<'b>(&'b self, seat: &'b mut BoardSeat<N>) -> Held<'b, N>
        ensures board { result.board.now ≡ self.now }
        ensures seat { result.seat.now ≡ seat.old }
        ensures given_back { result.seat.ghost_name ≡ seat.entry.ghost_name }
    {
        Held { board: self, seat }
    }

    /// Splits a seat of this role off another one, in one load. It knows what the other saw, and
    /// moved nothing. All but a reader take one of the other's parts, and leave it one.
    pub fn split(&self, seat: &mut BoardSeat<N>, role: Role) -> BoardSeat<N>
        requires { 2 * part_of_role role ≤ seat.old.parts }
        ensures left { seat.new ≡ seat_left seat.old role }
        ensures given { result ≡ seat_given seat.old role }
    {
        let shared = &self.table.shared;
        let new = match role {
            Role::Lane => shared.split_seat::<LaneSplit>(&mut seat.seat),
            Role::Queue => shared.split_seat::<QueueSplit>(&mut seat.seat),
            Role::Control => shared.split_seat::<ControlSplit>(&mut seat.seat),
            Role::Reader => shared.split_seat::<ReaderSplit>(&mut seat.seat),
        };
        BoardSeat::of(new)
    }

    /// Joins a seat to another one, in one load: that one then has the parts of both, and knows
    /// what both saw and moved.
    pub fn join(&self, into: &mut BoardSeat<N>, seat: BoardSeat<N>)
        ensures { into.new ≡ seats_joined into.old seat }
    {
        let shared = &self.table.shared;
        let other = seat.into_seat();
        shared.join_seat::<SeatJoin>(&mut into.seat, other);
    }

    /// The words by place, at the end. The seat that has all parts knows all moves.
    pub fn close(self, alloc: Global, seat: BoardSeat<N>) -> Result<List<u64>, Memory>
        requires { seat.parts ≡ ALL_PARTS }
        ensures { IfOk result (λ words. IsClosed self words seat) }
    {
        let SharedBoard { table, jobs, of: _ } = self;
        let count = 4 * jobs as usize;
        let mut words = Vec::with_capacity(alloc, count)?;
        let closed: Closed<u8, Global> = table.close_with(seat.into_seat());
        for at in 0..count {
            words.push_reserved(closed.word(at));
        }
        closed.free();
        Ok(List::from(words))
    }

    // A seat looks at a word, in one load.
    pub(crate) fn look(&self, seat: &mut BoardSeat<N>, job: JobNo, rev: u8) -> Mark
        requires job { (1 ≤ job.0) × (job.0 ≤ self.now) }
        requires rev { rev ≤ 3 }
        ensures found { Finds (view_of_seat self.now seat.old) (place_of job.0 rev) (word_of result) }
        ensures saw { seat.new ≡ seat_saw seat.old (place_of job.0 rev) (word_of result) }
    {
        let at = place(job, rev);
        mark_of(self.table.shared.load::<LookStep>(&mut seat.seat, at))
    }

    // A seat moves a word, in one compare and exchange.
    pub(crate) fn advance(
        &self,
        seat: &mut BoardSeat<N>,
        job: JobNo,
        rev: u8,
        from: Mark,
        to: Mark,
    ) -> Result<(), Mark>
        requires job { (1 ≤ job.0) × (job.0 ≤ self.now) }
        requires rev { rev ≤ 3 }
        requires moves { IsMove from to }
        requires allowed { IsTrue ((view_of_seat self.now seat.old).allows (word_of to)) }
        requires opens { OpensAfterError (view_of_seat self.now seat.old) job.0 rev (word_of from) }
        ensures ok { OnOk result
            (Finds (view_of_seat self.now seat.old) (place_of job.0 rev) (word_of from)) }
        ensures moved { OnOk result (seat.new
            ≡ seat_moved seat.old (place_of job.0 rev) (word_of from) (word_of to)) }
        ensures other { IfErr result (λ found. found ≢ from) }
        ensures found { IfErr result (λ found.
            Finds (view_of_seat self.now seat.old) (place_of job.0 rev) (word_of found)) }
        ensures saw { IfErr result (λ found.
            seat.new ≡ seat_saw seat.old (place_of job.0 rev) (word_of found)) }
    {
        let at = place(job, rev);
        let old = from.word();
        let shared = &self.table.shared;
        let found = shared.compare_exchange::<MoveStep>(&mut seat.seat, at, old, to.word());
        if found == old {
            Ok(())
        } else {
            Err(mark_of(found))
        }
    }
}
