//! The worked cases on a plain board that allows the moves of one user at a time.
ghost use Rattle.std.specs.Prelude.{◌≡◌, ◌||◌, nat_eq};

use crate::cases::{Act, Desk, Told, begin, end, first_difference, open};
use crate::{Board, PlainBoard, StopAnswer, stop};
use hr_base::{JobNo, Mark, Status};
use std::test::Fail;

/// A plain board that allows the moves to these three words alone.
#[derive(Drop)]
struct RoleBoard {
    board: PlainBoard,
    one: u64,
    two: u64,
    three: u64,
}

impl Board for RoleBoard {
    ghost use Rattle.std.specs.Prelude.{⊤};
    ghost use Rattle.hr_board.specs.Plain.{view_of};

    ghost seen = { λ b. record (view_of b.board) {
      allows = λ word. nat_eq word b.one || (nat_eq word b.two || nat_eq word b.three);
    } };

    ghost same = { λ _ _. ⊤ };

    ghost same_as_itself = { λ _. tt };

    ghost same_after = { λ _ _ _ _ _. tt };

    fn jobs(&self) -> u32 {
        self.board.jobs()
    }

    fn look(&mut self, job: JobNo, rev: u8) -> Mark {
        self.board.look(job, rev)
    }

    fn advance(&mut self, job: JobNo, rev: u8, from: Mark, to: Mark) -> Result<(), Mark> {
        match self.board.advance(job, rev, from, to) {
            Ok(()) => Ok(()),
            Err(found) => Err(found),
        }
    }
}

impl RoleBoard {
    // Makes it the board of a user that moves to these words.
    fn serve(&mut self, one: u64, two: u64, three: u64)
        ensures kept { self.new.board ≡ self.old.board }
        ensures words { (self.new.one ≡ one) × (self.new.two ≡ two) × (self.new.three ≡ three) }
    {
        self.one = one;
        self.two = two;
        self.three = three;
    }
}

impl Desk for RoleBoard {
    fn act(&mut self, act: Act) -> Told {
        let (job, rev) = act.place();
        if job == 0 || job > self.jobs() || rev > 3 {
            return Told::Outside;
        }
        let job = JobNo(job);
        match act {
            Act::Open { job: _, rev: _ } => {
                self.serve(1, 2, 2);
                open(self, job, rev)
            }
            Act::Begin { job: _, rev: _ } => {
                self.serve(3, 5, 6);
                begin(self, job, rev)
            }
            Act::Succeed { job: _, rev: _ } => {
                self.serve(3, 5, 6);
                end(self, job, rev, Status::Success)
            }
            Act::Fail { job: _, rev: _ } => {
                self.serve(3, 5, 6);
                end(self, job, rev, Status::Error)
            }
            Act::Stop {
                job: _,
                attempts: _,
            } => {
                self.serve(4, 4, 4);
                Told::Stop(stop(self, job, rev + 1))
            }
            Act::Look { job: _, rev: _ } => {
                self.serve(7, 7, 7);
                Told::Found(self.look(job, rev))
            }
        }
    }
}

#[test]
fn boards_of_one_user_each_move_and_stop_as_worked_by_hand(rt: HostRuntime) -> Result<(), Fail> {
    let board = PlainBoard::new(rt.alloc(), 7)?;
    assert_eq!(rt; board.current(JobNo(7)), (0, Status::Pending));
    let mut boards = RoleBoard {
        board,
        one: 0,
        two: 0,
        three: 0,
    };
    assert_eq!(rt; first_difference(&mut boards), None);
    let rows = [
        (1, (1, Status::Stopped)),
        (2, (1, Status::Stopped)),
        (3, (2, Status::Stopped)),
        (4, (3, Status::Stopped)),
        (5, (3, Status::Error)),
        (6, (0, Status::Stopped)),
        (7, (0, Status::Success)),
    ];
    let RoleBoard {
        board,
        one: _,
        two: _,
        three: _,
    } = boards;
    for (job, row) in rows {
        assert!(rt; 1 <= job && job <= board.jobs());
        assert_eq!(rt; board.current(JobNo(job)), row, "job {job}");
    }
    Ok(())
}

#[test]
fn a_plain_board_keeps_eight_bytes_a_word_and_nothing_else(rt: HostRuntime) -> Result<(), Fail> {
    assert_eq!(rt; size_of::<PlainBoard>(), size_of::<Vec<u64>>());
    let mut board = PlainBoard::new(rt.alloc(), 262_144)?;
    assert_eq!(rt; board.jobs(), 262_144);
    assert_eq!(rt;
        stop(&mut board, JobNo(262_144), 4),
        StopAnswer::Stopped { rev: 0 }
    );
    assert_eq!(rt; board.look(JobNo(262_144), 3), Mark::Unopened);
    assert_eq!(rt; PlainBoard::new(rt.alloc(), 0)?.jobs(), 0);
    Ok(())
}
