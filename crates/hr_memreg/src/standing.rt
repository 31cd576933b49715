//! What stands in a registry in memory, and how an operation begins: with the changes that were
//! planned for it. (Our own.)
ghost use Rattle.std.specs.Prelude.{◌≡◌, OnErr, OnOk};
ghost use Rattle.hr_adapter.specs.Content.{with_tag};
ghost use Rattle.hr_adapter.specs.Plan.{fails_at, lands_at};
ghost use Rattle.hr_memreg.specs.Standing.{GoesOn, MakesChanges, fate_at};

use crate::held::Held;
use hr_adapter::{Change, Planned};
use hr_base::{List, Memory};
use std::alloc::Global;

/// What a registry in memory holds, and the changes that are planned.
#[derive(Drop)]
pub(crate) struct Standing {
    pub(crate) held: Held,
    /// The tags that are moved, each just before its operation.
    pub(crate) moves: List<Change>,
    /// The number of the newest operation, from 0, for none, to `2^64 - 1`, where it stays.
    pub(crate) operations: u64,
}

/// What becomes of an operation.
#[derive(Clone, Copy)]
pub(crate) enum Fate {
    /// It takes effect, and doesn't fail.
    Done,
    /// It fails, and takes no effect.
    Lost,
    /// It fails, and takes effect all the same, where it is a put.
    Landed,
}

impl Standing {
    /// Counts an operation, and makes the changes that were planned for it. Without memory for all
    /// of them some may be made, and it is counted.
    pub(crate) fn go_on(&mut self, alloc: Global) -> Result<(), Memory>
        ensures { GoesOn self.old self.new result }
    {
        let number = self.operations.saturating_add(1);
        let made = make_changes(alloc, &mut self.held, self.moves.view(), number);
        self.operations = number;
        made
    }
}

// Makes the changes of one operation, in their order.
fn make_changes(alloc: Global, held: &mut Held, moves: &[Change], number: u64) -> Result<(), Memory>
    ensures { MakesChanges number moves.now held.old held.new result }
{
    for change in moves {
        if change.op == number {
            held.move_tag(alloc, &change.repo, &change.tag, change.digest)?;
        }
    }
    Ok(())
}

/// What becomes of an operation of this number.
pub(crate) fn fate_at(number: u64, failing: &[Planned]) -> Fate
    ensures { result ≡ fate_at number failing.now }
{
    if !fails(number, failing) {
        Fate::Done
    } else if lands(number, failing) {
        Fate::Landed
    } else {
        Fate::Lost
    }
}

// Whether an operation of this number fails.
fn fails(number: u64, failing: &[Planned]) -> bool
    ensures { result ≡ fails_at number failing.now }
{
    failing.iter().any(|planned| planned.op == number)
}

// Whether an operation of this number takes effect where it fails.
fn lands(number: u64, failing: &[Planned]) -> bool
    ensures { result ≡ lands_at number failing.now }
{
    failing
        .iter()
        .any(|planned| planned.op == number && planned.lands)
}
