//! A registry of a script as its setup lines leave it, and its opening. (Our own.)
ghost use Rattle.std.specs.Prelude.{◌≡◌, IfOk};
ghost use Rattle.hr_opening.specs.Setup.{no_setup, no_setups, registries_of, registry_of};

use hr_base::{List, Memory};
use hr_memreg::{Change, MemRegistry, Planned, Setup};
use std::alloc::Global;

/// How many registries a script has.
const REGISTRIES: usize = 8;

/// A registry before it is opened.
#[derive(Drop)]
pub struct RegSetup {
    pub content: Setup,
    /// The operations that fail.
    pub failing: List<Planned>,
    /// The tags that are moved, each just before its operation.
    pub moves: List<Change>,
}

impl RegSetup {
    /// A registry that holds nothing, and for which nothing is planned.
    pub(crate) fn new(alloc: Global) -> RegSetup
        ensures { result ≡ no_setup }
    {
        RegSetup {
            content: Setup::new(alloc),
            failing: List::new(alloc),
            moves: List::new(alloc),
        }
    }

    /// The registry, with what was planned for it.
    pub(crate) fn open(self) -> MemRegistry
        ensures { result ≡ registry_of self }
    {
        let RegSetup {
            content,
            failing,
            moves,
        } = self;
        let mut registry = MemRegistry::of(content);
        registry.with_faults(failing);
        registry.with_changes(moves);
        registry
    }
}

/// Eight registries that hold nothing.
pub(crate) fn empty_setups(alloc: Global) -> Result<Vec<RegSetup>, Memory>
    ensures { IfOk result (λ setups. setups.items ≡ no_setups) }
{
    let mut setups = Vec::with_capacity(alloc, REGISTRIES)?;
    for _reg in 0..REGISTRIES {
        setups.push(RegSetup::new(alloc))?;
    }
    Ok(setups)
}

/// All of these registries, in order, each with what was planned for it.
pub(crate) fn open_all(alloc: Global, setups: Vec<RegSetup>) -> Result<List<MemRegistry>, Memory>
    ensures { IfOk result (λ regs. regs ≡ registries_of setups.items) }
{
    let mut regs = List::new(alloc);
    for setup in setups {
        regs.push(setup.open())?;
    }
    Ok(regs)
}
