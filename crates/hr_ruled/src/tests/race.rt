//! Two threads that really race for one word.
ghost use Rattle.std.specs.Prelude.{◌≡◌, ◌≤◌, IsTrue, vec_len};
ghost use Rattle.hr_base.specs.Status.{word_of};
ghost use Rattle.hr_board.specs.Moves.{IsMove};
ghost use Rattle.hr_ruled.specs.Seats.{role_allows};
ghost use Rattle.hr_ruled.specs.declared.rule.Role.TheVariants.{Lane, Queue, Control};

use crate::{BoardSeat, Naming, OpenedBoard, Role, SharedBoard};
use hr_base::{JobNo, List, Mark, Memory, Status};
use hr_board::Board;
use hr_board::cases::open;
use std::alloc::Global;
use std::marker::Brand;
use std::sync::{Barrier, Wait};
use std::test::Fail;
use std::thread::{Threads, join};

// How many words they race for, one of each job.
const ROUNDS: u32 = 4_000;

// A seat moves a word from Pending, where it is still there.
fn take<N: Naming>(board: &SharedBoard<N>, seat: &mut BoardSeat<N>, job: JobNo, to: Status) -> bool
    requires job { (1 ≤ job.0) × (job.0 ≤ board.now) }
    requires moves { IsMove (Mark.At Status.Pending) (Mark.At to) }
    requires allowed { IsTrue (role_allows seat.old.role (word_of (Mark.At to))) }
    ensures role { seat.new.role ≡ seat.old.role }
    ensures parts { seat.new.parts ≡ seat.old.parts }
{
    board
        .with(seat)
        .advance(job, 0, Mark::At(Status::Pending), Mark::At(to))
        .is_ok()
}

// A racer takes one word, waits for the other racer, and takes the others, from its own end on.
// Tells which it moved.
fn race<N: Naming, R: Wait>(
    rt: &R,
    gate: &Barrier,
    board: &SharedBoard<N>,
    mut seat: BoardSeat<N>,
    to: Status,
    mut won: Vec<bool>,
) -> (BoardSeat<N>, Vec<bool>)
    requires jobs { board.now ≡ ROUNDS }
    requires won { vec_len won ≡ ROUNDS }
    requires moves { IsMove (Mark.At Status.Pending) (Mark.At to) }
    requires allowed { IsTrue (role_allows seat.role (word_of (Mark.At to))) }
    ensures parts { result.0.parts ≡ seat.parts }
    ensures won { vec_len result.1 ≡ ROUNDS }
{
    for round in 0..ROUNDS {
        let job = match to {
            Status::Stopped => ROUNDS - round,
            _ => round + 1,
        };
        won[job as usize - 1] = take(board, &mut seat, JobNo(job), to);
        if round == 0 {
            gate.wait(rt);
        }
    }
    (seat, won)
}

// Opens each job.
fn open_all<N: Naming>(board: &SharedBoard<N>, seat: &mut BoardSeat<N>)
    requires jobs { board.now ≡ ROUNDS }
    requires role { seat.old.role ≡ Queue }
    ensures { seat.new.parts ≡ seat.old.parts }
{
    for job in 1..=ROUNDS {
        open(&mut board.with(seat), JobNo(job), 0);
    }
}

// A lane starts and a control stops each job. Tells which each of them moved, and the words at the
// end.
fn raced<N: Naming + Send + Sync, R: Threads + Wait + Sync>(
    rt: &R,
    alloc: Global,
    opened: OpenedBoard,
) -> Result<(Vec<bool>, Vec<bool>, List<u64>), Memory>
    requires table { opened.table ≡ N.table }
    requires jobs { opened.jobs ≡ ROUNDS }
{
    let started = vec![in alloc; false; ROUNDS as usize]?;
    let stopped = vec![in alloc; false; ROUNDS as usize]?;
    let (board, mut first) = opened.named::<N>();
    let mut queue = board.split(&mut first, Role::Queue);
    let lane = board.split(&mut first, Role::Lane);
    let control = board.split(&mut first, Role::Control);
    open_all(&board, &mut queue);
    let gate = Barrier::new(2);
    let (shared, wait) = (&board, &gate);
    let ((lane, started), (control, stopped)) = join(
        rt,
        move || -> (BoardSeat<N>, Vec<bool>)
            requires jobs { (shared.now ≡ ROUNDS) × (vec_len started ≡ ROUNDS) }
            requires seat { (lane.role ≡ Lane) × (lane.parts ≡ 1) }
            ensures { result.0.parts ≡ 1 }
        { race(rt, wait, shared, lane, Status::Running, started) },
        move || -> (BoardSeat<N>, Vec<bool>)
            requires jobs { (shared.now ≡ ROUNDS) × (vec_len stopped ≡ ROUNDS) }
            requires seat { (control.role ≡ Control) × (control.parts ≡ 1) }
            ensures { result.0.parts ≡ 1 }
        { race(rt, wait, shared, control, Status::Stopped, stopped) },
    );
    board.join(&mut first, queue);
    board.join(&mut first, lane);
    board.join(&mut first, control);
    let words = board.close(alloc, first)?;
    Ok((started, stopped, words))
}

#[test]
fn of_a_start_and_a_stop_at_one_word_just_one_wins(rt: HostRuntime) -> Result<(), Fail> {
    let opened = OpenedBoard::new(rt.alloc(), ROUNDS)?;
    let (started, stopped, words) = raced::<Brand, HostRuntime>(&rt, rt.alloc(), opened)?;
    assert_eq!(rt; words.view().len(), 4 * ROUNDS as usize);
    for (at, word) in words.view().iter().step_by(4).enumerate() {
        let start = started.get(at) == Some(&true);
        let stop = stopped.get(at) == Some(&true);
        assert!(rt; start != stop, "both or neither won job {}", at + 1);
        assert_eq!(rt; *word, if start { 3 } else { 4 }, "job {}", at + 1);
    }
    assert_eq!(rt; started.first(), Some(&true));
    assert_eq!(rt; stopped.last(), Some(&true));
    Ok(())
}
