//! How a command came out, before its text is sent. (Our own.)
ghost use Rattle.std.specs.Prelude.{◌≡◌};

use hr_base::Bytes;

/// How a command came out.
#[derive(Debug, Drop, PartialEq, Eq)]
pub enum Outcome {
    /// The script was run.
    Replayed { text: Bytes, status: u8 },
    /// The file is a configuration.
    Checked { text: Bytes },
    /// The words name no command.
    Usage,
    /// A line of the script is bad.
    Bad { text: Bytes },
    /// The input is longer than a script may be.
    TooLong,
    /// No file is there, or the file is no configuration.
    Unfit { text: Bytes },
    /// The input failed.
    Faulted,
    /// The tree failed.
    TreeFaulted,
    /// There was no room.
    Memory,
}

impl Outcome {
    ghost use Rattle.hr_top.specs.Outcome.{sent_status_of, text_of, unsent_status_of};

    /// The text that is sent.
    pub fn text(&self) -> &[u8]
        ensures { result.now ≡ text_of self.now }
    {
        match self {
            Outcome::Replayed { text, .. }
            | Outcome::Checked { text }
            | Outcome::Bad { text }
            | Outcome::Unfit { text } => text.view(),
            Outcome::Usage =>
                b"usage: harborrep replay | check FILE | plan FILE P | once FILE P | gen START REPOS | run FILE WORKERS | serve FILE WORKERS PORT\n",
            Outcome::TooLong => b"line 0 long\n",
            Outcome::Faulted => b"fault input\n",
            Outcome::TreeFaulted => b"fault tree\n",
            Outcome::Memory => b"memory\n",
        }
    }

    /// The program's status, where all of the text was sent.
    pub fn status(&self) -> u8
        ensures { result ≡ sent_status_of self.now }
    {
        match self {
            Outcome::Replayed { status, .. } => *status,
            Outcome::Checked { .. } => 0,
            Outcome::Usage => 1,
            Outcome::Bad { .. } | Outcome::TooLong | Outcome::Unfit { .. } => 2,
            Outcome::Faulted | Outcome::TreeFaulted => 3,
            Outcome::Memory => 5,
        }
    }

    /// The program's status, where the sink failed: want of memory comes first.
    pub fn unsent_status(&self) -> u8
        ensures { result ≡ unsent_status_of self.now }
    {
        match self {
            Outcome::Memory => 5,
            _ => 4,
        }
    }
}
