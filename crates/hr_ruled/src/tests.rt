//! Seats of a shared board: the worked cases, and one job on both boards.
ghost use Rattle.std.specs.Prelude.{◌≡◌, ◌≤◌, IfOk, length};
ghost use Rattle.hr_board.specs.Moves.{IsMove};
ghost use Rattle.hr_board.specs.Roles.{ServesLane, ServesQueue};
ghost use Rattle.hr_board.specs.View.{Keeps};
ghost use Rattle.hr_ruled.specs.Rule.{HasClosed};

mod race;
mod stress;

use crate::cases::SeatDesk;
use crate::{BoardSeat, Held, JOB_LIMIT, Naming, OpenedBoard, Role};
use hr_base::{JobNo, List, Mark, Memory, Status};
use hr_board::cases::{Act, Told, first_difference};
use hr_board::{Board, PlainBoard, StopAnswer, stop};
use std::alloc::Global;
use std::marker::Brand;
use std::test::Fail;

// Does the worked acts by seats of a new board. Answers the first difference, and the words at the
// end.
fn worked<N: Naming>(
    alloc: Global,
    opened: OpenedBoard,
) -> Result<(Option<(Act, Told)>, List<u64>), Memory>
    requires { opened.table ≡ N.table }
{
    let mut desk = SeatDesk::<N>::new(opened);
    let found = first_difference(&mut desk);
    Ok((found, desk.close(alloc)?))
}

#[test]
fn seats_of_one_user_each_move_and_stop_as_worked_by_hand(rt: HostRuntime) -> Result<(), Fail> {
    let opened = OpenedBoard::new(rt.alloc(), 7)?;
    let (found, words) = worked::<Brand>(rt.alloc(), opened)?;
    assert_eq!(rt; found, None);
    let wanted = [
        5, 4, 0, 0, 5, 4, 0, 0, 5, 5, 4, 0, 5, 5, 5, 4, 5, 5, 5, 5, 4, 0, 0, 0, 6, 0, 0, 0,
    ];
    assert_eq!(rt; words.view(), wanted.as_slice());
    assert_eq!(rt; size_of::<BoardSeat<Brand>>(), 0);
    assert_eq!(rt; size_of::<Held<Brand>>(), 2 * size_of::<usize>());
    let most = OpenedBoard::new(rt.alloc(), JOB_LIMIT)?;
    let (_, words) = worked::<Brand>(rt.alloc(), most)?;
    assert_eq!(rt; words.view().len(), 1_048_576);
    Ok(())
}

// The first job is opened.
fn opens<B: Board>(board: &mut B) -> Result<(), Mark>
    requires jobs { 1 ≤ (B.seen board.old).jobs }
    requires role { ServesQueue (B.seen board.old) }
    ensures kept { Keeps (B.seen board.old) (B.seen board.new) }
    ensures same { B.same board.old board.new }
{
    board.advance(JobNo(1), 0, Mark::Unopened, Mark::At(Status::Pending))
}

// The first job is begun at this revision, where its word is this one.
fn begins<B: Board>(board: &mut B, rev: u8, from: Status) -> Result<(), Mark>
    requires jobs { 1 ≤ (B.seen board.old).jobs }
    requires rev { rev ≤ 1 }
    requires role { ServesLane (B.seen board.old) }
    requires from { IsMove (Mark.At from) (Mark.At Status.Running) }
    ensures kept { Keeps (B.seen board.old) (B.seen board.new) }
    ensures same { B.same board.old board.new }
{
    board.advance(JobNo(1), rev, Mark::At(from), Mark::At(Status::Running))
}

// The first job fails.
fn fails<B: Board>(board: &mut B) -> Result<(), Mark>
    requires jobs { 1 ≤ (B.seen board.old).jobs }
    requires role { ServesLane (B.seen board.old) }
    ensures kept { Keeps (B.seen board.old) (B.seen board.new) }
    ensures same { B.same board.old board.new }
{
    board.advance(
        JobNo(1),
        0,
        Mark::At(Status::Running),
        Mark::At(Status::Error),
    )
}

// What one job's users are told, who move it and stop it in turn.
type Row = ([Result<(), Mark>; 4], [StopAnswer; 2]);

// One job by three seats, and the words at the end.
fn by_seats<N: Naming>(alloc: Global, opened: OpenedBoard) -> Result<(Row, List<u64>), Memory>
    requires table { opened.table ≡ N.table }
    requires jobs { 1 ≤ opened.jobs }
    ensures { IfOk result (λ row. HasClosed opened.jobs row.1) }
{
    let (board, mut first) = opened.named::<N>();
    let mut queue = board.split(&mut first, Role::Queue);
    let mut lane = board.split(&mut first, Role::Lane);
    let mut control = board.split(&mut first, Role::Control);
    let opened = opens(&mut board.with(&mut queue));
    let began = begins(&mut board.with(&mut lane), 0, Status::Pending);
    let failed = fails(&mut board.with(&mut lane));
    let stopped = stop(&mut board.with(&mut control), JobNo(1), 3);
    let late = begins(&mut board.with(&mut lane), 1, Status::Scheduled);
    let again = stop(&mut board.with(&mut control), JobNo(1), 3);
    board.join(&mut first, queue);
    board.join(&mut first, lane);
    board.join(&mut first, control);
    let words = board.close(alloc, first)?;
    Ok((([opened, began, failed, late], [stopped, again]), words))
}

// One job on a plain board, and its words at the end.
fn on_a_plain_board(board: &mut PlainBoard) -> (Row, [u64; 4])
    requires { 4 ≤ length board.old.words }
{
    let opened = opens(board);
    let began = begins(board, 0, Status::Pending);
    let failed = fails(board);
    let stopped = stop(board, JobNo(1), 3);
    let late = begins(board, 1, Status::Scheduled);
    let again = stop(board, JobNo(1), 3);
    let words = [
        board.look(JobNo(1), 0).word(),
        board.look(JobNo(1), 1).word(),
        board.look(JobNo(1), 2).word(),
        board.look(JobNo(1), 3).word(),
    ];
    (([opened, began, failed, late], [stopped, again]), words)
}

#[test]
fn one_job_gets_the_same_answers_on_both_boards(rt: HostRuntime) -> Result<(), Fail> {
    let mut plain = PlainBoard::new(rt.alloc(), 1)?;
    let opened = OpenedBoard::new(rt.alloc(), 1)?;
    let ((moves, stops), plain_words) = on_a_plain_board(&mut plain);
    let ((shared_moves, shared_stops), words) = by_seats::<Brand>(rt.alloc(), opened)?;
    let wanted = [Ok(()), Ok(()), Ok(()), Err(Mark::At(Status::Stopped))];
    let answers = [
        StopAnswer::Stopped { rev: 1 },
        StopAnswer::Final {
            rev: 1,
            status: Status::Stopped,
        },
    ];
    assert_eq!(rt; moves, wanted);
    assert_eq!(rt; shared_moves, wanted);
    assert_eq!(rt; stops, answers);
    assert_eq!(rt; shared_stops, answers);
    assert_eq!(rt; plain_words, [5, 4, 0, 0]);
    assert_eq!(rt; words.view(), [5, 4, 0, 0].as_slice());
    Ok(())
}
