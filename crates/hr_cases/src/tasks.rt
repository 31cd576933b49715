//! Tasks that no script plans: to another repository, or to leave what a tag names.

use crate::kept::registry;
use crate::registries::{write_listed, write_shown};
use crate::steps::write_entries;
use hr_base::{JobNo, List, Mark, Memory, PolicyNo, RegNo, Status};
use hr_board::{Board, PlainBoard};
use hr_event::{TaskSpec, Turn};
use hr_lane::{Conn, Lane};
use hr_line::{Admit, Stepped};
use hr_memreg::{Content, MemRegistry};
use hr_name::{Name, Tag};
use hr_replay::Ending;
use std::alloc::Global;

const JOB: JobNo = JobNo(1);

/// The one revision of job 1.
const TURN: Turn = Turn {
    job: JOB,
    rev: 0,
    attempts: 1,
};

/// How many steps a task has at most.
const STEPS: u32 = 1000;

/// What a line `task FROM TO TAG HOW` says: a tag is copied from one repository to another.
#[derive(Drop)]
pub struct Task {
    from: Name,
    to: Name,
    tag: Tag,
    /// Whether a tag that names another manifest is replaced.
    replaces: bool,
}

/// The task that a line `task FROM TO TAG HOW` says.
pub fn task_of(alloc: Global, rest: &str) -> Option<Task> {
    let (from, rest) = rest.split_once(' ')?;
    let (to, rest) = rest.split_once(' ')?;
    let (tag, how) = rest.split_once(' ')?;
    Some(Task {
        from: Name::read(alloc, from.as_bytes()).ok()?,
        to: Name::read(alloc, to.as_bytes()).ok()?,
        tag: Tag::read(alloc, tag.as_bytes()).ok()?,
        replaces: how == "replace",
    })
}

/// Runs each task between registries with what is kept in 1 and 2, and writes the journal, the tags
/// of registry 2 then and what it lists.
pub fn write_tasks(
    alloc: Global,
    said: &mut String,
    kept: &Ending,
    tasks: &[Task],
) -> Result<(), Memory> {
    for task in tasks {
        let source = registry_of(alloc, kept, RegNo(1))?;
        let dest = registry_of(alloc, kept, RegNo(2))?;
        let lane = run_task(alloc, source, dest, task)?;
        write_lane(alloc, said, &lane)?;
    }
    Ok(())
}

// A registry with what the one of this number holds, or an empty one where there is none.
fn registry_of(alloc: Global, kept: &Ending, reg: RegNo) -> Result<MemRegistry, Memory> {
    let content = match registry(kept, reg) {
        Some(held) => held.content(alloc)?,
        None => Content {
            repos: List::new(alloc),
        },
    };
    MemRegistry::new(alloc, content)
}

// Runs a task from one registry to another to its end, by a lane of its own.
fn run_task(
    alloc: Global,
    source: MemRegistry,
    dest: MemRegistry,
    task: &Task,
) -> Result<Lane<MemRegistry>, Memory> {
    let mut tags = List::new(alloc);
    tags.push(task.tag.copy(alloc)?)?;
    let spec = TaskSpec {
        policy: PolicyNo(1),
        src: RegNo(1),
        dst: RegNo(2),
        from: task.from.copy(alloc)?,
        to: task.to.copy(alloc)?,
        tags,
        override_it: task.replaces,
        attempts: 1,
    };
    let mut board = PlainBoard::new(alloc, 1)?;
    let pending = board.advance(JOB, 0, Mark::Unopened, Mark::At(Status::Pending));
    let mut sources = List::new(alloc);
    sources.push(Conn {
        reg: RegNo(1),
        link: source,
    })?;
    let mut dests = List::new(alloc);
    dests.push(Conn {
        reg: RegNo(2),
        link: dest,
    })?;
    let mut lane = Lane::new(alloc, sources, dests);
    if pending.is_ok() && lane.admit(&mut board, &TURN, spec) == Admit::Began {
        step_to_end(&mut lane, &mut board);
    }
    Ok(lane)
}

// Steps the job until it ends.
fn step_to_end(lane: &mut Lane<MemRegistry>, board: &mut PlainBoard) {
    for _ in 0..STEPS {
        if step(lane, board) != Stepped::Did {
            return;
        }
    }
}

fn step(lane: &mut Lane<MemRegistry>, board: &mut PlainBoard) -> Stepped {
    if board.jobs() == 0 {
        return Stepped::NotHere;
    }
    lane.step(board, JOB)
}

// Writes what a lane did, and the tags of its destination.
fn write_lane(alloc: Global, said: &mut String, lane: &Lane<MemRegistry>) -> Result<(), Memory> {
    write_entries(said, lane.journal())?;
    for conn in lane.dests() {
        write_shown(said, conn.reg.0, &conn.link)?;
        if write_listed(alloc, said, &conn.link).is_err() {
            return Err(Memory);
        }
    }
    Ok(())
}
