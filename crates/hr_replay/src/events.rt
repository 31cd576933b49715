//! The events of a script, one after the other. (Our own.)
ghost use Rattle.std.specs.Prelude.{◌≡◌, ◌++◌, IfOk, OnOk};
ghost use Rattle.std.specs.List.{AllByRecursion};
ghost use Rattle.hr_core.specs.Comes.{IsTaken};
ghost use Rattle.hr_run.specs.Arrives.{RunsThrough};
ghost use Rattle.hr_run.specs.Ready.{IsReady};

use hr_base::{List, Memory};
use hr_core::Core;
use hr_event::{Event, Told};
use hr_memreg::MemRegistry;
use hr_run::core_stays_ready;
use std::alloc::Global;

/// Runs events, and gives their answers.
pub(crate) fn take_events(
    alloc: Global,
    core: &mut Core<MemRegistry>,
    events: &[Event],
) -> Result<List<Told>, Memory>
    requires ready { IsReady core.old }
    requires taken { AllByRecursion IsTaken events.now }
    ensures { IfOk result (λ told. RunsThrough core.old events.now told core.new) }
{
    core.is_sound();
    core_stays_ready();
    let mut told = List::new(alloc);
    for event in events {
        let answers = core.event(alloc, *event)?;
        core.is_sound();
        push_all(&mut told, answers)?;
    }
    Ok(told)
}

// Puts these answers at the end.
fn push_all(told: &mut List<Told>, answers: List<Told>) -> Result<(), Memory>
    ensures ok { OnOk result (told.new ≡ told.old ++ answers) }
{
    for answer in Vec::from(answers) {
        told.push(answer)?;
    }
    Ok(())
}
