//! What the lines of a script so far leave to those behind them. (Our own.)
ghost use Rattle.std.specs.Prelude.{◌≡◌};
ghost use Rattle.hr_script.specs.Progress.{at_start, is_misplaced, progress_after};

use crate::kind::Kind;
use crate::line::Line;

/// What was read so far, as far as it decides how the lines behind are read.
#[derive(Clone, Copy, Debug, PartialEq, Eq)]
pub(crate) struct Progress {
    /// Whether an event was read, behind which no setup line stands.
    pub(crate) running: bool,
}

impl Progress {
    /// What stands before the first line.
    pub(crate) fn start() -> Progress
        ensures { result ≡ at_start }
    {
        Progress { running: false }
    }

    /// What stands behind one line more.
    pub(crate) fn after(self, line: &Line) -> Progress
        ensures { result ≡ progress_after self line.now }
    {
        Progress {
            running: self.running || line.is_event(),
        }
    }

    /// Whether a line of this kind may not stand there.
    pub(crate) fn is_misplaced(self, kind: Kind) -> bool
        ensures { result ≡ is_misplaced self kind }
    {
        self.running && kind.is_setup()
    }
}
