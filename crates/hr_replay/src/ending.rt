//! What a script leaves. (Our own.)
ghost use Rattle.hr_replay.specs.Replay.{IsNothing};

use hr_core::Core;
use hr_memreg::MemRegistry;

/// What a call leaves: the core, with its lane, whose connections are the registries, the board, the
/// queue, the task store and the hooks. The lane reads from the registries 1 and 3 to 8, and writes
/// to registry 2. There is none where nothing was run.
#[derive(Drop)]
pub struct Ending {
    pub core: Option<Core<MemRegistry>>,
}

impl Ending {
    /// Nothing was run. It takes no memory.
    pub fn nothing() -> Ending
        ensures { IsNothing result }
    {
        Ending { core: None }
    }
}
