//! A script from its text to its answers. (Our own.)
ghost use Rattle.std.specs.Prelude.{◌≡◌, ◌≤◌, ◌⊎◌, ℕ, [], List, IfOk, codes, length};
ghost use Rattle.std.specs.List.{AllByRecursion};
ghost use Rattle.hr_opening.specs.Setup.{Setups, registries_of};
ghost use Rattle.hr_script.specs.declared.refusal.Why.{Why};
ghost use Rattle.hr_core.specs.Comes.{IsTaken};
ghost use Rattle.hr_run.specs.Ready.{IsReady};
ghost use Rattle.hr_run.specs.Sound.{IsSound};
ghost use Rattle.hr_replay.specs.Connect.{first_core};
ghost use Rattle.hr_replay.specs.Replay.{IsReplayed, IsRun};
ghost use Rattle.hr_replay.specs.Script.{IsBad, LacksTag};
ghost use Rattle.hr_replay.specs.Text.{bad_text, why_text};

use crate::connecting::{Connected, connect};
use crate::ending::Ending;
use crate::events::take_events;
use crate::refusal::{bad_line, line_lacks_tag};
use crate::success::all_succeed;
use hr_base::{Bytes, List, Memory};
use hr_copyable::canonical_lines_can_be_copied;
use hr_core::Core;
use hr_event::Event;
use hr_lane::Lane;
use hr_memreg::MemRegistry;
use hr_opening::{OpenRefused, Opened, open_script, plan, some_jobs_may_be, what_is_read_is_fit};
use hr_print::print_all;
use hr_run::{
    answers_have_texts, core_stays_ready, done_after_finish, each_end_has_one_hook,
    hooks_are_covered, one_final_status, revisions_have_sources, rows_tell_words, the_core_holds,
    what_can_be_copied_arrives, what_succeeded_was_copied,
};
use hr_script::{Fault, Lines, SCRIPT_LIMIT, read_lines};
use std::alloc::Global;

/// What running a script gave.
#[derive(Drop)]
pub struct Replayed {
    pub kept: Ending,
    /// The answers of its events.
    pub text: Bytes,
    /// 7 where an execution that is kept did not succeed, else 0.
    pub status: u8,
}

/// Why a script was not run.
#[derive(Debug, Drop)]
pub enum Refused {
    /// A line is bad, which the text says.
    Bad { text: Bytes },
    /// There was no room.
    Memory,
}

/// Runs the script that a text of at most 1,048,576 bytes is.
///
/// Its setup lines store manifests, blobs and tags in the registries 1 to 8, and plan which of their
/// operations fail and which tags move. Its events plan tasks from registry 1 to registry 2, take and
/// step them, give them back, stop them, deliver hooks, let time pass, and ask for words, rows,
/// executions, causes and tags. The first bad line is refused, and nothing is run then.
pub fn replay(alloc: Global, text: &[u8]) -> Result<Replayed, Refused>
    requires { length text.now ≤ SCRIPT_LIMIT }
    ensures ok { IfOk result (λ run. IsReplayed text.now run.kept run.text run.status) }
    ensures bad { (said : List ℕ) → (result ≡ Err (Refused.Bad said))
        → ((number : ℕ) × LacksTag text.now number × (said ≡ bad_text number (codes "reference")))
        ⊎ ((number : ℕ) × (why : Why) × IsBad text.now number why
        × (said ≡ bad_text number (why_text why))) }
{
    the_core_holds();
    one_final_status();
    each_end_has_one_hook();
    hooks_are_covered();
    rows_tell_words();
    done_after_finish();
    revisions_have_sources();
    what_succeeded_was_copied();
    what_can_be_copied_arrives();
    canonical_lines_can_be_copied();
    what_is_read_is_fit();
    some_jobs_may_be();
    let lines = match read_lines(alloc, text) {
        Ok(lines) => lines,
        Err(Memory) => return Err(Refused::Memory),
    };
    let Lines { lines, fault } = lines;
    let opened = match open_script(alloc, lines) {
        Ok(opened) => opened,
        Err(OpenRefused::Reference { line }) => return Err(bad(line_lacks_tag(alloc, line))),
        Err(OpenRefused::Memory) => return Err(Refused::Memory),
    };
    if let Some(Fault { line, why }) = fault {
        return Err(bad(bad_line(alloc, line, why)));
    }
    match run(alloc, opened) {
        Ok(replayed) => Ok(replayed),
        Err(Memory) => Err(Refused::Memory),
    }
}

// Runs the events of a script that was opened.
fn run(alloc: Global, opened: Opened) -> Result<Replayed, Memory>
    requires eight { length opened.regs ≡ 8 }
    requires taken { AllByRecursion IsTaken opened.events }
    requires few { opened.jobs ≤ 262144 }
    ensures run { IfOk result (λ run. (setups : Setups) → opened.regs ≡ registries_of setups
        → IsRun (first_core setups opened.jobs) opened.events run.kept run.text run.status) }
    ensures sound { IfOk result (λ run. (setups : Setups) → opened.regs ≡ registries_of setups
        → IsSound (first_core setups opened.jobs)) }
{
    let Opened { regs, events, jobs } = opened;
    let core = begin(alloc, regs, jobs)?;
    core.is_sound();
    play(alloc, core, events.view())
}

// The core of a script before its first event, with room for so many jobs.
fn begin(alloc: Global, regs: List<MemRegistry>, jobs: u32) -> Result<Core<MemRegistry>, Memory>
    requires eight { length regs ≡ 8 }
    requires few { jobs ≤ 262144 }
    ensures first { IfOk result (λ core. (setups : Setups) → regs ≡ registries_of setups
        → core ≡ first_core setups jobs) }
    ensures ready { IfOk result (λ core. IsReady core) }
{
    let plan = plan(alloc, &regs.view()[0])?;
    let Connected { sources, dests } = connect(alloc, regs)?;
    let mut lanes = List::new(alloc);
    lanes.push(Lane::new(alloc, sources, dests))?;
    let core = Core::new(alloc, lanes, List::new(alloc), plan, jobs)?;
    core.is_sound();
    core_stays_ready();
    Ok(core)
}

// Runs events, and gives their text and what is left.
fn play(alloc: Global, core: Core<MemRegistry>, events: &[Event]) -> Result<Replayed, Memory>
    requires ready { IsReady core }
    requires taken { AllByRecursion IsTaken events.now }
    ensures { IfOk result (λ run. IsRun core events.now run.kept run.text run.status) }
{
    answers_have_texts();
    let mut core = core;
    let told = take_events(alloc, &mut core, events)?;
    let text = print_all(alloc, told.view())?;
    let views = core.store().executions(alloc)?;
    let status = if all_succeed(views.view()) { 0 } else { 7 };
    let kept = Ending { core: Some(core) };
    Ok(Replayed { kept, text, status })
}

// The refusal with this text, where there is room for it.
fn bad(text: Result<Bytes, Memory>) -> Refused
    ensures { (said : List ℕ) → result ≡ Refused.Bad said → text ≡ Ok said }
{
    match text {
        Ok(text) => Refused::Bad { text },
        Err(Memory) => Refused::Memory,
    }
}
