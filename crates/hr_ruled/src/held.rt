//! A shared board with one of its seats, as a board.

use crate::naming::Naming;
use crate::seat::BoardSeat;
use crate::shared::SharedBoard;
use hr_base::{JobNo, Mark};
use hr_board::Board;

/// A shared board with a seat that is lent. It allows the moves of the seat's role.
#[derive(Drop)]
pub struct Held<'b, N: Naming> {
    pub board: &'b SharedBoard<N>,
    pub seat: &'b mut BoardSeat<N>,
}

impl<'b, N: Naming> Board for Held<'b, N> {
    ghost use Rattle.std.proofs.Common.{◌≡◌, refl, ◌∙◌};
    ghost use Rattle.hr_ruled.specs.Seats.{view_of_seat};

    ghost seen = { λ held. view_of_seat held.board.now held.seat.now };

    ghost same = { λ held after. (held.board.now ≡ after.board.now)
        × (held.seat.ghost_name ≡ after.seat.ghost_name)
        × (held.seat.now.role ≡ after.seat.now.role)
        × (held.seat.now.parts ≡ after.seat.now.parts) };

    ghost same_as_itself = { λ _. (refl, refl, refl, refl) };

    ghost same_after = { λ _ _ _ a b. (a.0 ∙ b.0, a.1 ∙ b.1, a.2 ∙ b.2, a.3 ∙ b.3) };

    fn jobs(&self) -> u32 {
        self.board.jobs()
    }

    fn look(&mut self, job: JobNo, rev: u8) -> Mark {
        self.board.look(self.seat, job, rev)
    }

    fn advance(&mut self, job: JobNo, rev: u8, from: Mark, to: Mark) -> Result<(), Mark> {
        self.board.advance(self.seat, job, rev, from, to)
    }
}
