//! A seat of a shared board. It has no bytes.
ghost use Rattle.std.specs.Prelude.{◌≡◌, []};

use crate::naming::Naming;
use crate::rule::SeatView;
use atomic_table::Seat;
use std::marker::{Model, PhantomData};

/// A seat of the board that `N` names. Contracts see it as what it knows.
#[derive(Drop)]
pub struct BoardSeat<N: Naming> {
    pub(crate) seat: Seat<u8, SeatView>,
    of: PhantomData<N>,
}

impl<N: Naming> Model for BoardSeat<N> {
    ghost use Rattle.std.specs.Prelude.{◌≡◌, []};
    ghost use Rattle.hr_ruled.specs.declared.rule.SeatView.{SeatView};

    ghost Value = { SeatView };

    ghost view = { λ it. it.seat.me.0 };

    ghost invariant = { λ it. (it.seat.table_id ≡ N.table) × (it.seat.me.1 ≡ []) };
}

impl<N: Naming> BoardSeat<N> {
    // The seat of the board's table.
    pub(crate) fn of(seat: Seat<u8, SeatView>) -> BoardSeat<N>
        requires { (seat.table_id ≡ N.table) × (seat.me.1 ≡ []) }
        ensures { result ≡ seat.me.0 }
    {
        BoardSeat {
            seat,
            of: PhantomData,
        }
    }

    // The seat at the table.
    pub(crate) fn into_seat(self) -> Seat<u8, SeatView>
        ensures { (result.table_id ≡ N.table) × (result.me ≡ (self, [])) }
    {
        let BoardSeat { seat, of: _ } = self;
        seat
    }
}
