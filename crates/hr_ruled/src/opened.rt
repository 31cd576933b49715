//! A board before it has a name: the table of its words is known only once it is made.
ghost use Rattle.std.specs.Prelude.{◌≡◌, ◌*◌, ◌<◌, ◌≤◌, IfOk};

use crate::limit::JOB_LIMIT;
use crate::naming::Naming;
use crate::rule::{BoardRule, SeatView};
use crate::seat::BoardSeat;
use crate::shared::SharedBoard;
use atomic_table::{Seat, Table};
use hr_base::Memory;
use std::alloc::Global;
use std::marker::Model;

/// A board with its first seat, which nothing names yet. Contracts see it as its table and how many
/// jobs it has.
#[derive(Drop)]
pub struct OpenedBoard {
    table: Table<u8, SeatView, u64, BoardRule, Global>,
    seat: Seat<u8, SeatView>,
    jobs: u32,
}

impl Model for OpenedBoard {
    ghost use Rattle.std.specs.Prelude.{◌≡◌, ◌*◌, ◌<◌, []};
    ghost use Rattle.hr_ruled.specs.Seats.{Opened, first_seat};

    ghost Value = { Opened };

    ghost view = { λ it. record { table = it.table.shared.table_id; jobs = it.jobs } };

    ghost invariant = { λ it. (it.table.shared.table_id ≡ it.seat.table_id)
        × (it.seat.me ≡ (first_seat, []))
        × (it.table.shared.table_id.words ≡ 4 * it.jobs)
        × (it.table.shared.table_id.slots ≡ 0)
        × (it.table.shared.key ≡ 4 * it.jobs) × (0 < it.jobs) };
}

impl OpenedBoard {
    ghost use Rattle.hr_ruled.specs.Seats.{first_seat};

    /// A board of this many jobs, all of whose words are `Unopened`.
    pub fn new(alloc: Global, jobs: u32) -> Result<OpenedBoard, Memory>
        requires { (1 ≤ jobs) × (jobs ≤ JOB_LIMIT) }
        ensures { IfOk result (λ opened. opened.jobs ≡ jobs) }
    {
        let words = vec![in alloc; 0u64; 4 * jobs as usize]?;
        let count = 4 * u64::from(jobs);
        let (table, seat) = Table::of_words(alloc, words.as_slice(), &count)?;
        Ok(OpenedBoard { table, seat, jobs })
    }

    /// The board that `N` names, with its first seat: a reader that has all parts.
    pub fn named<N: Naming>(self) -> (SharedBoard<N>, BoardSeat<N>)
        requires { self.table ≡ N.table }
        ensures board { result.0 ≡ self.jobs }
        ensures seat { result.1 ≡ first_seat }
    {
        let OpenedBoard { table, seat, jobs } = self;
        (SharedBoard::of(table, jobs), BoardSeat::of(seat))
    }
}
