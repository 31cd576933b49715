//! The opening of a script: its registries and its events, from its lines. (Our own.)
ghost use Rattle.std.specs.Prelude.{◌≡◌, ◌++◌, ℕ, OnOk, IfOk, Some, None, length};
ghost use Rattle.hr_opening.specs.Fit.{AreFit, IsFit};
ghost use Rattle.hr_opening.specs.Opening.{Opens, after_line, after_lines, event_in, events_in, jobs_after, jobs_said, jobs_unsaid};
ghost use Rattle.hr_opening.specs.Setup.{ArePlain, no_setups};

use crate::line::take_setup;
use crate::setup::{RegSetup, empty_setups, open_all};
use crate::storing::LineRefused;
use hr_base::{List, Memory};
use hr_event::Event;
use hr_memreg::MemRegistry;
use hr_script::{Line, Numbered};
use std::alloc::Global;

/// What a script opens.
#[derive(Drop)]
pub struct Opened {
    /// The eight registries, from number 1 on.
    pub regs: List<MemRegistry>,
    /// Its events, in order.
    pub events: List<Event>,
    /// How many jobs there may be, 1 to 262,144.
    pub jobs: u32,
}

/// Why a script is not opened.
#[derive(Clone, Copy, Debug, PartialEq, Eq)]
pub enum OpenRefused {
    /// The line of this number, from 1, is the first that leads to a tag that isn't there.
    Reference { line: u32 },
    /// There was no room.
    Memory,
}

/// Opens the registries of a script, and gives its events, from the lines that were read of it.
///
/// The lines work in order. Those of images, indexes, orphans, manifests and broken blobs store in
/// the registry that they name, and a later one replaces what stands at its place; `fault`, `lands`
/// and `change` plan something more for its operations. The children of an index and the second
/// tag of a change must be there at their line. Of several lines `jobs` the last counts, and without
/// one there may be 16,384 jobs. It takes time in proportion to the lines, but for
/// the look-ups.
pub fn open_script(alloc: Global, lines: List<Numbered>) -> Result<Opened, OpenRefused>
    requires { AreFit lines }
    ensures opens { IfOk result (Opens lines) }
    ensures reference { (line : ℕ) → result ≡ Err (OpenRefused.Reference line)
        → after_lines no_setups lines ≡ Err line }
{
    let jobs = find_jobs(lines.view());
    let mut setups = match empty_setups(alloc) {
        Ok(setups) => setups,
        Err(Memory) => return Err(OpenRefused::Memory),
    };
    let events = match take_lines(alloc, &mut setups, lines) {
        Ok(events) => events,
        Err(refused) => return Err(refused),
    };
    match open_all(alloc, setups) {
        Ok(regs) => Ok(Opened { regs, events, jobs }),
        Err(Memory) => Err(OpenRefused::Memory),
    }
}

// How many jobs there may be where no line says so.
const JOBS_UNSAID: u32 = 16_384;

// How many jobs there may be by these lines.
fn find_jobs(lines: &[Numbered]) -> u32
    ensures { result ≡ jobs_said jobs_unsaid lines.now }
{
    let mut jobs = JOBS_UNSAID;
    for numbered in lines {
        jobs = jobs_after(jobs, &numbered.line);
    }
    jobs
}

// How many jobs there may be behind a line, where there might be so many before it.
fn jobs_after(before: u32, line: &Line) -> u32
    ensures { result ≡ jobs_after before line.now }
{
    match line {
        Line::Jobs { jobs } => *jobs,
        _ => before,
    }
}

// Does what the setup lines say, and gives the events.
fn take_lines(
    alloc: Global,
    setups: &mut [RegSetup],
    lines: List<Numbered>,
) -> Result<List<Event>, OpenRefused>
    requires fit { AreFit lines }
    requires eight { length setups.old ≡ 8 }
    requires plain { ArePlain setups.old }
    ensures setups { OnOk result (after_lines setups.old lines ≡ Ok setups.new) }
    ensures events { IfOk result (λ events. events ≡ events_in lines) }
    ensures reference { (line : ℕ) → result ≡ Err (OpenRefused.Reference line)
        → after_lines setups.old lines ≡ Err line }
{
    let mut events = List::new(alloc);
    for Numbered { number, line } in Vec::from(lines) {
        match take_line(alloc, setups, &mut events, line) {
            Ok(()) => {}
            Err(LineRefused::Reference) => return Err(OpenRefused::Reference { line: number }),
            Err(LineRefused::Memory) => return Err(OpenRefused::Memory),
        }
    }
    Ok(events)
}

// Does what a setup line says, or puts an event at the end.
fn take_line(
    alloc: Global,
    setups: &mut [RegSetup],
    events: &mut List<Event>,
    line: Line,
) -> Result<(), LineRefused>
    requires fit { IsFit line }
    requires eight { length setups.old ≡ 8 }
    requires plain { ArePlain setups.old }
    ensures ok { OnOk result (after_line setups.old line ≡ Some setups.new) }
    ensures event { OnOk result (events.new ≡ events.old ++ event_in line) }
    ensures reference { result ≡ Err LineRefused.Reference → after_line setups.old line ≡ None }
{
    match line {
        Line::Event(event) => {
            events.push(event)?;
            Ok(())
        }
        line => take_setup(alloc, setups, line),
    }
}
