//! One of the lanes is asked, and the hooks that it gives are emitted. (Our own, after Harbor's job
//! service.)
ghost use Rattle.std.specs.Prelude.{◌≡◌, ◌≤◌, ◌<◌, Some, None, IfOk, IsSome, OnErr, MatchOption, length, reverse, slice_get};
ghost use Rattle.std.specs.Vec.{vec_len, vec_capacity};
ghost use Rattle.hr_board.specs.Plain.{view_of};
ghost use Rattle.hr_core.specs.Lanes.{CanTake, Emits, HoldsAt, LaneAdmits};
ghost use Rattle.hr_lane.specs.Word.{Steps};
ghost use Rattle.hr_line.specs.State.{held_at};
ghost use Rattle.hr_run.specs.Turning.{NoneHolds};

use hr_adapter::Registry;
use hr_base::{Hook, JobNo, Memory, Status};
use hr_board::PlainBoard;
use hr_event::{TaskSpec, Told, Turn};
use hr_lane::Lane;
use hr_line::{Admit, Stepped};

/// The place of the lane that holds a job; `None` where none does.
pub(crate) fn find_lane<A: Registry>(lanes: &[Lane<A>], job: JobNo) -> Option<usize>
    ensures { MatchOption result (NoneHolds lanes.now job) (λ at. HoldsAt lanes.now job at) }
{
    for at in 0..lanes.len() {
        if lanes[at].holds(job) {
            return Some(at);
        }
    }
    None
}

/// Has a lane admit the revision of a turn, and emits its hook, for which there is room. After an
/// error all is as it was.
pub(crate) fn admit_turn<A: Registry>(
    lane: &mut Lane<A>,
    board: &mut PlainBoard,
    hooks: &mut Vec<Hook>,
    turn: &Turn,
    spec: TaskSpec,
) -> Result<Told, Memory>
    requires can { CanTake lane.old (view_of board.old) turn.now spec }
    requires room { vec_len hooks.old < vec_capacity hooks.old }
    ensures ok { IfOk result (λ answer. LaneAdmits lane.old lane.new turn.now spec
        (view_of board.old) (view_of board.new) hooks.old.items hooks.new.items answer) }
    ensures lane { OnErr result (lane.new ≡ lane.old) }
    ensures board { OnErr result (view_of board.new ≡ view_of board.old) }
    ensures hooks { OnErr result (hooks.new.items ≡ hooks.old.items) }
{
    lane.is_sound();
    let came = lane.admit(board, turn, spec);
    lane.is_sound();
    match came {
        Admit::Began => {
            hooks.push_reserved(Hook {
                job: turn.job,
                rev: turn.rev,
                status: Status::Running,
            });
            Ok(Told::Began {
                job: turn.job,
                rev: turn.rev,
            })
        }
        Admit::Lost(mark) => Ok(Told::Lost {
            job: turn.job,
            mark,
        }),
        Admit::Memory => Err(Memory),
    }
}

/// Has a lane do one step of a job that it holds, and emits the hook of the job's end, for which
/// there is room.
pub(crate) fn step_job<A: Registry>(
    lane: &mut Lane<A>,
    board: &mut PlainBoard,
    hooks: &mut Vec<Hook>,
    job: JobNo,
) -> Stepped
    requires holds { IsSome (held_at lane.old.held job.0) }
    requires job { job.0 ≤ (view_of board.old).jobs }
    requires room { vec_len hooks.old < vec_capacity hooks.old }
    ensures steps { Steps lane.old lane.new job (view_of board.old) (view_of board.new) result }
    ensures emits { Emits lane.old lane.new hooks.old.items hooks.new.items }
{
    lane.is_sound();
    let came = lane.step(board, job);
    lane.is_sound();
    if let Stepped::Ended(_) = came {
        hooks.push_reserved(newest(lane.hooks()));
    }
    came
}

// The newest of some hooks.
fn newest(hooks: &[Hook]) -> Hook
    requires { 1 ≤ length hooks.now }
    ensures { slice_get (reverse hooks.now) 0 ≡ Some result }
{
    hooks[hooks.len() - 1]
}
