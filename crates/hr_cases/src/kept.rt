//! The parts of what a run keeps.

use hr_base::RegNo;
use hr_core::Core;
use hr_event::Entry;
use hr_lane::Lane;
use hr_memreg::MemRegistry;
use hr_replay::Ending;

/// The core, where a script was run.
pub fn core(kept: &Ending) -> Option<&Core<MemRegistry>> {
    match &kept.core {
        Some(core) => Some(core),
        None => None,
    }
}

// Its lane: a script has one.
fn lane(kept: &Ending) -> Option<&Lane<MemRegistry>> {
    core(kept)?.lanes().first()
}

/// The registry of this number, where a script was run.
pub fn registry(kept: &Ending, reg: RegNo) -> Option<&MemRegistry> {
    let lane = lane(kept)?;
    if let Some(conn) = lane.sources().iter().find(|conn| conn.reg == reg) {
        return Some(&conn.link);
    }
    match lane.dests().iter().find(|conn| conn.reg == reg) {
        Some(conn) => Some(&conn.link),
        None => None,
    }
}

/// What happened, the oldest first.
pub fn journal(kept: &Ending) -> &[Entry] {
    match lane(kept) {
        Some(lane) => lane.journal(),
        None => &[],
    }
}
