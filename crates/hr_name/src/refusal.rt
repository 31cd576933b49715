//! Why a text is no name or no tag. (Our own.)
ghost use Rattle.std.specs.Prelude.{◌≡◌};

use hr_base::Memory;

/// The answer to a text that is no name or no tag, or that there is no memory for.
#[derive(Clone, Copy, Debug, PartialEq, Eq)]
pub enum NameRefused {
    /// The grammar refuses the text. The first `at` bytes are the most with which some name, or
    /// some tag, begins; the limit of a name's length does not count here.
    Shape { at: u32 },
    /// A name would have `len` bytes, more than `NAME_LIMIT`. This is looked at first.
    TooLong { len: u64 },
    /// There was no memory for the copy.
    Memory,
}

impl From<Memory> for NameRefused {
    ghost use Rattle.hr_name.specs.declared.refusal.NameRefused.TheVariants.{Memory as no_memory};

    ghost from_gives = { λ _ e. e ≡ no_memory };

    fn from(_: Memory) -> NameRefused {
        NameRefused::Memory
    }
}
