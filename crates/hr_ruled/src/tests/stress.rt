//! Opens, starts, ends and stops at once, over some thousand jobs.
ghost use Rattle.std.specs.Prelude.{◌≡◌, ◌*◌, vec_len};
ghost use Rattle.hr_ruled.specs.declared.rule.Role.TheVariants.{Lane, Queue, Control};

use crate::{BoardSeat, Naming, OpenedBoard, Role, SharedBoard};
use hr_base::{JobNo, List, Mark, Memory, Status};
use hr_board::cases::{Told, begin, end, open};
use hr_board::{StopAnswer, place, stop};
use std::alloc::Global;
use std::marker::Brand;
use std::test::Fail;
use std::thread::{Threads, join};

const JOBS: u32 = 3_000;
// Each user goes eight times through all jobs, each time at the next revision.
const TURNS: u32 = 24_000;

// Opens, begins and ends the next revision of each job in turn. Tells by place the words to which
// the queue and the lane were told that they moved, or 0.
fn run_each<N: Naming>(
    board: &SharedBoard<N>,
    mut queue: BoardSeat<N>,
    mut lane: BoardSeat<N>,
    mut opens: Vec<u64>,
    mut ends: Vec<u64>,
) -> (BoardSeat<N>, BoardSeat<N>, Vec<u64>, Vec<u64>)
    requires jobs { board.now ≡ JOBS }
    requires roles { (queue.role ≡ Queue) × (lane.role ≡ Lane) }
    requires told { (vec_len opens ≡ 4 * JOBS) × (vec_len ends ≡ 4 * JOBS) }
    ensures { (result.0.parts ≡ queue.parts) × (result.1.parts ≡ lane.parts) }
{
    for turn in 0..TURNS {
        let (job, rev) = (JobNo(turn % JOBS + 1), (turn / JOBS % 4) as u8);
        let at = place(job, rev);
        if let Told::Moved = open(&mut board.with(&mut queue), job, rev) {
            opens[at] = if rev == 0 { 1 } else { 2 };
        }
        begin(&mut board.with(&mut lane), job, rev);
        let status = if turn % 5 == 0 {
            Status::Success
        } else {
            Status::Error
        };
        if let Told::Moved = end(&mut board.with(&mut lane), job, rev, status) {
            ends[at] = Mark::At(status).word();
        }
    }
    (queue, lane, opens, ends)
}

// Stops an eighth of the jobs each time. Tells by place where it was told that it stopped, or 0.
fn stop_each<N: Naming>(
    board: &SharedBoard<N>,
    mut control: BoardSeat<N>,
    mut stops: Vec<u64>,
) -> (BoardSeat<N>, Vec<u64>)
    requires jobs { board.now ≡ JOBS }
    requires role { control.role ≡ Control }
    requires told { vec_len stops ≡ 4 * JOBS }
    ensures { result.0.parts ≡ control.parts }
{
    for turn in 0..TURNS {
        let job = JobNo(turn % JOBS + 1);
        if turn % 8 == turn / JOBS {
            let answer = stop(&mut board.with(&mut control), job, 4);
            if let StopAnswer::Stopped { rev } = answer {
                stops[place(job, rev)] = 4;
            }
        }
    }
    (control, stops)
}

// Both at once. Tells what the queue, the lane and the control were told, and the words at the end.
fn stressed<N: Naming + Send + Sync, R: Threads + Sync>(
    rt: &R,
    alloc: Global,
    opened: OpenedBoard,
) -> Result<(Vec<u64>, Vec<u64>, Vec<u64>, List<u64>), Memory>
    requires table { opened.table ≡ N.table }
    requires jobs { opened.jobs ≡ JOBS }
{
    let opens = vec![in alloc; 0u64; 4 * JOBS as usize]?;
    let ends = vec![in alloc; 0u64; 4 * JOBS as usize]?;
    let stops = vec![in alloc; 0u64; 4 * JOBS as usize]?;
    let (board, mut first) = opened.named::<N>();
    let queue = board.split(&mut first, Role::Queue);
    let lane = board.split(&mut first, Role::Lane);
    let control = board.split(&mut first, Role::Control);
    let shared = &board;
    let ((queue, lane, opens, ends), (control, stops)) = join(
        rt,
        move || -> (BoardSeat<N>, BoardSeat<N>, Vec<u64>, Vec<u64>)
            requires jobs { shared.now ≡ JOBS }
            requires told { (vec_len opens ≡ 4 * JOBS) × (vec_len ends ≡ 4 * JOBS) }
            requires queue { (queue.role ≡ Queue) × (queue.parts ≡ 1) }
            requires lane { (lane.role ≡ Lane) × (lane.parts ≡ 1) }
            ensures { (result.0.parts ≡ 1) × (result.1.parts ≡ 1) }
        { run_each(shared, queue, lane, opens, ends) },
        move || -> (BoardSeat<N>, Vec<u64>)
            requires jobs { (shared.now ≡ JOBS) × (vec_len stops ≡ 4 * JOBS) }
            requires control { (control.role ≡ Control) × (control.parts ≡ 1) }
            ensures { result.0.parts ≡ 1 }
        { stop_each(shared, control, stops) },
    );
    board.join(&mut first, queue);
    board.join(&mut first, lane);
    board.join(&mut first, control);
    let words = board.close(alloc, first)?;
    Ok((opens, ends, stops, words))
}

// Whether a word is what the queue, the lane and the control were told that they moved it to.
fn agrees(word: u64, opened: Option<&u64>, ended: Option<&u64>, stopped: Option<&u64>) -> bool {
    let (Some(opened), Some(ended), Some(stopped)) = (opened, ended, stopped) else {
        return false;
    };
    match word {
        4 => *stopped == 4 && *ended == 0,
        5 | 6 => *ended == word && *stopped == 0 && *opened != 0,
        3 => *opened != 0 && *ended == 0 && *stopped == 0,
        _ => *opened == word && *ended == 0 && *stopped == 0,
    }
}

#[test]
fn the_words_at_the_end_are_what_each_thread_was_told(rt: HostRuntime) -> Result<(), Fail> {
    let opened = OpenedBoard::new(rt.alloc(), JOBS)?;
    let (opens, ends, stops, words) = stressed::<Brand, HostRuntime>(&rt, rt.alloc(), opened)?;
    assert_eq!(rt; words.view().len(), 4 * JOBS as usize);
    for (at, word) in words.view().iter().enumerate() {
        let told = agrees(*word, opens.get(at), ends.get(at), stops.get(at));
        assert!(rt; told, "place {at} is at {word}");
    }
    Ok(())
}
