//! What the bytes of a head end in, so that a head is looked for only where it can end. (Our own.)
ghost use Rattle.std.specs.Prelude.{◌≡◌, ◌≢◌, true, false};
ghost use Rattle.hr_head.specs.Ending.{ending_after};

/// What bytes end in.
#[derive(Clone, Copy, Debug, PartialEq, Eq)]
pub(crate) enum Ending {
    /// There were only carriage returns and line feeds so far.
    Lead,
    /// They end inside a line.
    Within,
    /// They end in the line feed of a line that may not be empty.
    Feed,
    /// They end in a carriage return that follows a line feed.
    Return,
    /// They end in an empty line, behind another line.
    Empty,
}

impl Ending {
    /// What they end in with this byte behind them.
    pub(crate) fn after(self, byte: u8) -> Ending
        ensures { result ≡ ending_after self byte }
    {
        match (self, byte) {
            (Ending::Lead, b'\r' | b'\n') => Ending::Lead,
            (Ending::Within, b'\n') => Ending::Feed,
            (Ending::Feed | Ending::Return | Ending::Empty, b'\n') => Ending::Empty,
            (Ending::Feed | Ending::Empty, b'\r') => Ending::Return,
            _ => Ending::Within,
        }
    }
    /// Whether they end in an empty line behind another line.
    pub(crate) fn is_empty_line(self) -> bool
        ensures yes { result ≡ true → self ≡ Ending.Empty }
        ensures no { result ≡ false → self ≢ Ending.Empty }
    {
        matches!(self, Ending::Empty)
    }
}
