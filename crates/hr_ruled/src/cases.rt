//! One seat of a shared board for each of its users, for the worked cases of every board.
ghost use Rattle.std.specs.Prelude.{◌≡◌, ◌+◌, ◌≤◌, IfOk};
ghost use Rattle.hr_ruled.specs.declared.limit.TheConstants.{ALL_PARTS};
ghost use Rattle.hr_ruled.specs.declared.rule.Role.TheVariants.{Lane, Queue, Control};

use crate::naming::Naming;
use crate::opened::OpenedBoard;
use crate::rule::Role;
use crate::seat::BoardSeat;
use crate::shared::SharedBoard;
use hr_base::{JobNo, List, Memory, Status};
use hr_board::cases::{Act, Desk, Told, begin, end, open};
use hr_board::{Board, stop};
use std::alloc::Global;

/// A shared board with a seat for each user, and the first one, which has the other parts.
#[derive(Drop)]
pub struct SeatDesk<N: Naming> {
    board: SharedBoard<N>,
    first: BoardSeat<N>,
    queue: BoardSeat<N>,
    lane: BoardSeat<N>,
    control: BoardSeat<N>,
    reader: BoardSeat<N>,
    ghost roles: { (queue.role ≡ Queue) × (lane.role ≡ Lane) × (control.role ≡ Control) },
    ghost parts: { first.parts + queue.parts + lane.parts + control.parts + reader.parts
        ≡ ALL_PARTS },
}

impl<N: Naming> SeatDesk<N> {
    ghost use Rattle.hr_ruled.specs.Rule.{HasClosed};

    /// The board that `N` names, with its seats.
    pub fn new(opened: OpenedBoard) -> SeatDesk<N>
        requires { opened.table ≡ N.table }
        ensures { result.board ≡ opened.jobs }
    {
        let (board, mut first) = opened.named::<N>();
        let queue = board.split(&mut first, Role::Queue);
        let lane = board.split(&mut first, Role::Lane);
        let control = board.split(&mut first, Role::Control);
        let reader = board.split(&mut first, Role::Reader);
        SeatDesk {
            board,
            first,
            queue,
            lane,
            control,
            reader,
        }
    }

    /// The words by place, at the end: all seats are joined first.
    pub fn close(self, alloc: Global) -> Result<List<u64>, Memory>
        ensures { IfOk result (λ words. HasClosed self.board words) }
    {
        let SeatDesk {
            board,
            mut first,
            queue,
            lane,
            control,
            reader,
        } = self;
        board.join(&mut first, queue);
        board.join(&mut first, lane);
        board.join(&mut first, control);
        board.join(&mut first, reader);
        board.close(alloc, first)
    }
}

impl<N: Naming> SeatDesk<N> {
    ghost use Rattle.std.specs.Prelude.{◌⊎◌};

    // The queue opens a revision.
    fn open(&mut self, job: JobNo, rev: u8) -> Told
        requires { (1 ≤ job.0) × (job.0 ≤ self.old.board) × (rev ≤ 3) }
    {
        open(&mut self.board.with(&mut self.queue), job, rev)
    }

    // The lane begins a revision.
    fn begin(&mut self, job: JobNo, rev: u8) -> Told
        requires { (1 ≤ job.0) × (job.0 ≤ self.old.board) × (rev ≤ 3) }
    {
        begin(&mut self.board.with(&mut self.lane), job, rev)
    }

    // The lane ends a revision.
    fn end(&mut self, job: JobNo, rev: u8, status: Status) -> Told
        requires job { (1 ≤ job.0) × (job.0 ≤ self.old.board) × (rev ≤ 3) }
        requires status { (status ≡ Status.Success) ⊎ (status ≡ Status.Error) }
    {
        end(&mut self.board.with(&mut self.lane), job, rev, status)
    }

    // The control stops a job.
    fn stop(&mut self, job: JobNo, attempts: u8) -> Told
        requires { (1 ≤ job.0) × (job.0 ≤ self.old.board) × (1 ≤ attempts) × (attempts ≤ 4) }
    {
        Told::Stop(stop(&mut self.board.with(&mut self.control), job, attempts))
    }

    // The reader looks.
    fn look(&mut self, job: JobNo, rev: u8) -> Told
        requires { (1 ≤ job.0) × (job.0 ≤ self.old.board) × (rev ≤ 3) }
    {
        Told::Found(self.board.with(&mut self.reader).look(job, rev))
    }
}

impl<N: Naming> Desk for SeatDesk<N> {
    fn act(&mut self, act: Act) -> Told {
        let (job, rev) = act.place();
        if job == 0 || job > self.board.jobs() || rev > 3 {
            return Told::Outside;
        }
        let job = JobNo(job);
        match act {
            Act::Open { job: _, rev: _ } => self.open(job, rev),
            Act::Begin { job: _, rev: _ } => self.begin(job, rev),
            Act::Succeed { job: _, rev: _ } => self.end(job, rev, Status::Success),
            Act::Fail { job: _, rev: _ } => self.end(job, rev, Status::Error),
            Act::Stop {
                job: _,
                attempts: _,
            } => self.stop(job, rev + 1),
            Act::Look { job: _, rev: _ } => self.look(job, rev),
        }
    }
}
