//! What rows and counters come to, worked by hand; and each call, where there is ample memory.

use crate::Store;
use hr_base::{ExecNo, Hook, JobNo, List, Mark, Moment, PolicyNo, RegNo, Status};
use hr_board::{Board, PlainBoard};
use hr_event::{ExecStatus, Received, TaskSpec, Trigger};
use hr_name::Name;
use std::alloc::{AllocError, Global};
use std::test::Fail;

/// One act on a store, or on the word of a revision: by job and revision, or by execution.
#[derive(Clone, Copy, Debug, PartialEq, Eq)]
enum Act {
    /// Opens and begins a revision, and ends it with this status.
    End(u32, u8, Status),
    /// Ends a revision that runs.
    EndLast(u32, u8, Status),
    Receive(u32, u8, Status),
    Row(u32),
    Hooks(u32),
    Exec(u32),
    Fail(u32),
    Sweep(u32),
}

/// What came of an act.
#[derive(Clone, Copy, Debug, PartialEq, Eq)]
enum Told {
    /// The word moved, or the plan is noted as failed.
    Done,
    Received(Received),
    Row(u8, Status),
    Hooks(usize),
    /// Its status, and its rows at success, at error, at none, and at stopped.
    Exec(ExecStatus, (u32, u32, u32, u32)),
    Swept(u32),
    /// There is none, or a word doesn't move so.
    Absent,
}

/// A store and the board of its jobs.
#[derive(Drop)]
struct Desk {
    store: Store,
    board: PlainBoard,
}

impl Desk {
    fn act(&mut self, act: Act) -> Told {
        match act {
            Act::End(job, rev, status) => done_if(begin(&mut self.board, job, rev).and_then(
                |()| end(&mut self.board, job, rev, status),
            )),
            Act::EndLast(job, rev, status) => done_if(end(&mut self.board, job, rev, status)),
            Act::Receive(job, rev, status) => self.receive(hook(job, rev, status)),
            Act::Row(job) => self.row(job),
            Act::Hooks(job) => Told::Hooks(self.store.received(JobNo(job)).len()),
            Act::Exec(exec) => self.exec(exec),
            Act::Fail(exec) => self.fail(exec),
            Act::Sweep(keep) => Told::Swept(self.store.sweep(keep)),
        }
    }

    fn receive(&mut self, hook: Hook) -> Told {
        if hook.rev > 3 || self.store.limit() > self.board.jobs() {
            return Told::Absent;
        }
        Told::Received(self.store.receive(&mut self.board, hook))
    }

    fn row(&self, job: u32) -> Told {
        match self.store.row(JobNo(job)) {
            Some((rev, status)) => Told::Row(rev, status),
            None => Told::Absent,
        }
    }

    fn exec(&self, exec: u32) -> Told {
        let Some(view) = self.store.exec(ExecNo(exec)) else {
            return Told::Absent;
        };
        let rows = (view.succeed, view.failed, view.in_progress, view.stopped);
        Told::Exec(view.status, rows)
    }

    fn fail(&mut self, exec: u32) -> Told {
        let Some(view) = self.store.exec(ExecNo(exec)) else {
            return Told::Absent;
        };
        if view.total != 0 {
            return Told::Absent;
        }
        self.store.mark_failed(ExecNo(exec));
        Told::Done
    }
}

fn done_if(done: Option<()>) -> Told {
    match done {
        Some(()) => Told::Done,
        None => Told::Absent,
    }
}

fn hook(job: u32, rev: u8, status: Status) -> Hook {
    Hook {
        job: JobNo(job),
        rev,
        status,
    }
}

// Opens and begins a revision, where the board has the job and the revision before failed.
fn begin(board: &mut PlainBoard, job: u32, rev: u8) -> Option<()> {
    if job == 0 || job > board.jobs() || rev > 3 {
        return None;
    }
    let job = JobNo(job);
    if rev > 0 && board.look(job, rev - 1) != Mark::At(Status::Error) {
        return None;
    }
    let pending = Mark::At(Status::Pending);
    board.advance(job, rev, Mark::Unopened, pending).ok()?;
    board
        .advance(job, rev, pending, Mark::At(Status::Running))
        .ok()
}

// Ends a revision that runs with a final status, and leaves it running at another one.
fn end(board: &mut PlainBoard, job: u32, rev: u8, status: Status) -> Option<()> {
    if job == 0 || job > board.jobs() || rev > 3 {
        return None;
    }
    let running = Mark::At(Status::Running);
    match status {
        Status::Error | Status::Success | Status::Stopped => board
            .advance(JobNo(job), rev, running, Mark::At(status))
            .ok(),
        _ => Some(()),
    }
}

fn received(job: u32, rev: u8, status: Status, came: Received) -> (Act, Told) {
    (Act::Receive(job, rev, status), Told::Received(came))
}

fn counted(status: ExecStatus, rows: (u32, u32, u32, u32)) -> (Act, Told) {
    (Act::Exec(1), Told::Exec(status, rows))
}

// Job 1 failed and is begun again, job 2 failed twice, job 3 was stopped.
fn revisions() -> [(Act, Told); 6] {
    [
        (Act::End(1, 0, Status::Error), Told::Done),
        (Act::End(1, 1, Status::Running), Told::Done),
        (Act::End(2, 0, Status::Error), Told::Done),
        (Act::End(2, 1, Status::Error), Told::Done),
        (Act::End(3, 0, Status::Stopped), Told::Done),
        counted(ExecStatus::InProgress, (0, 0, 3, 0)),
    ]
}

// Hooks that no word covers, or of no job, change nothing.
fn forged() -> [(Act, Told); 8] {
    let error = Received::Unconfirmed(Mark::At(Status::Error));
    let running = Received::Unconfirmed(Mark::At(Status::Running));
    let unopened = Received::Unconfirmed(Mark::Unopened);
    [
        received(0, 0, Status::Running, Received::Unknown),
        received(4, 0, Status::Running, Received::Unknown),
        received(1, 0, Status::Success, error),
        received(1, 0, Status::Stopped, error),
        received(1, 2, Status::Pending, unopened),
        received(1, 1, Status::Error, running),
        (Act::Hooks(1), Told::Hooks(0)),
        counted(ExecStatus::InProgress, (0, 0, 3, 0)),
    ]
}

// A row rises by each hook that tells more, and the counters follow it.
fn hooks() -> [(Act, Told); 13] {
    [
        received(1, 0, Status::Error, Received::Raised),
        counted(ExecStatus::InProgress, (0, 1, 2, 0)),
        received(1, 0, Status::Running, Received::Known),
        received(1, 1, Status::Running, Received::Raised),
        counted(ExecStatus::InProgress, (0, 0, 3, 0)),
        received(1, 0, Status::Error, Received::Known),
        (Act::Row(1), Told::Row(1, Status::Running)),
        (Act::Hooks(1), Told::Hooks(3)),
        received(2, 1, Status::Error, Received::Raised),
        counted(ExecStatus::InProgress, (0, 1, 2, 0)),
        received(3, 0, Status::Stopped, Received::Raised),
        counted(ExecStatus::InProgress, (0, 1, 1, 1)),
        (Act::Fail(1), Told::Absent),
    ]
}

// Executions 2 to 52 have no tasks, and so have ended: 26 of policy 0, 25 of policy 1. The first one
// ends at last, and a sweep then drops its rows.
fn sweeps() -> [(Act, Told); 14] {
    let none = (0, 0, 0, 0);
    [
        (Act::Sweep(25), Told::Swept(1)),
        (Act::Exec(2), Told::Absent),
        (Act::Exec(3), Told::Exec(ExecStatus::Succeed, none)),
        (Act::Fail(52), Told::Done),
        (Act::Exec(52), Told::Exec(ExecStatus::Failed, none)),
        (Act::EndLast(1, 1, Status::Success), Told::Done),
        received(1, 1, Status::Success, Received::Raised),
        counted(ExecStatus::Failed, (1, 1, 0, 1)),
        (Act::Sweep(25), Told::Swept(0)),
        (Act::Sweep(0), Told::Swept(51)),
        (Act::Exec(1), Told::Absent),
        (Act::Row(1), Told::Absent),
        (Act::Hooks(1), Told::Hooks(0)),
        received(1, 1, Status::Success, Received::Swept),
    ]
}

// The first act of which something else came.
fn difference(desk: &mut Desk, rows: &[(Act, Told)]) -> Option<(Act, Told)> {
    for (act, wanted) in rows {
        let came = desk.act(*act);
        if came != *wanted {
            return Some((*act, came));
        }
    }
    None
}

// So many tasks of two attempts each.
fn tasks(alloc: Global, count: u32) -> Result<List<TaskSpec>, Fail> {
    let mut specs = List::new(alloc);
    for _ in 0..count {
        specs.push(TaskSpec {
            policy: PolicyNo(7),
            src: RegNo(1),
            dst: RegNo(2),
            from: Name::read(alloc, b"a/b").ok().ok_or("a name")?,
            to: Name::read(alloc, b"c").ok().ok_or("a name")?,
            tags: List::new(alloc),
            override_it: true,
            attempts: 2,
        })?;
    }
    Ok(specs)
}

// A store with an execution of so many jobs.
fn filled_desk(alloc: Global, jobs: u32) -> Result<Desk, Fail> {
    let board = PlainBoard::new(alloc, 4)?;
    let mut store = Store::new(alloc, 4);
    let specs = tasks(alloc, jobs)?;
    let made = store.create(alloc, PolicyNo(7), Trigger::Scheduled, specs, Moment(5));
    made.ok().ok_or("an execution")?;
    Ok(Desk { store, board })
}

// Executions without tasks, by turns of two policies. Answers how many were made.
fn add_executions(alloc: Global, store: &mut Store, count: u32) -> u32 {
    let mut made = 0u32;
    for number in 0..count {
        let policy = PolicyNo(number % 2);
        let came = store.create(alloc, policy, Trigger::Manual, List::new(alloc), Moment(9));
        made = made.saturating_add(u32::from(came.is_ok()));
    }
    made
}

#[test]
fn rows_counters_and_sweeps_as_worked_by_hand(rt: HostRuntime) -> Result<(), Fail> {
    let mut desk = filled_desk(rt.alloc(), 3)?;
    assert_eq!(rt; difference(&mut desk, &revisions()), None);
    assert_eq!(rt; difference(&mut desk, &forged()), None);
    assert_eq!(rt; difference(&mut desk, &hooks()), None);
    assert_eq!(rt; add_executions(rt.alloc(), &mut desk.store, 51), 51);
    assert_eq!(rt; difference(&mut desk, &sweeps()), None);
    Ok(())
}

// The order of these hooks that has this number, from 0.
fn order(alloc: Global, hooks: &[Hook], number: usize) -> Result<Vec<Hook>, AllocError> {
    let mut made = Vec::new(alloc);
    let mut rest = number;
    for hook in hooks {
        let places = made.len() + 1;
        made.insert(rest % places, *hook)?;
        rest /= places;
    }
    Ok(made)
}

// Has a desk receive hooks in turn. Answers whether each was taken.
fn receive_all(desk: &mut Desk, hooks: &[Hook]) -> bool {
    for hook in hooks {
        match desk.receive(*hook) {
            Told::Received(Received::Raised | Received::Known) => {}
            _ => return false,
        }
    }
    true
}

// Whether hooks in this order, and then again, give the row that is their greatest, and are kept
// once each and in order.
fn gives_one_row(desk: &mut Desk, hooks: &[Hook]) -> bool {
    receive_all(desk, hooks)
        && receive_all(desk, hooks)
        && desk.row(1) == Told::Row(2, Status::Running)
        && desk.store.received(JobNo(1)) == hooks
}

// The first order of five hooks that gives another row.
fn wrong_order(alloc: Global) -> Result<Option<usize>, Fail> {
    let told = [
        hook(1, 0, Status::Running),
        hook(1, 0, Status::Error),
        hook(1, 1, Status::Running),
        hook(1, 1, Status::Error),
        hook(1, 2, Status::Running),
    ];
    for number in 0..120usize {
        let mut desk = filled_desk(alloc, 1)?;
        desk.act(Act::End(1, 0, Status::Error));
        desk.act(Act::End(1, 1, Status::Error));
        desk.act(Act::End(1, 2, Status::Running));
        let hooks = order(alloc, &told, number)?;
        if !gives_one_row(&mut desk, hooks.as_slice()) {
            return Ok(Some(number));
        }
    }
    Ok(None)
}

#[test]
fn hooks_in_any_order_each_repeated_give_one_row(rt: HostRuntime) -> Result<(), Fail> {
    assert_eq!(rt; wrong_order(rt.alloc())?, None);
    Ok(())
}
