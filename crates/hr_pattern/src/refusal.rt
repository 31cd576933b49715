//! Why a text is no pattern, and where. (Our own.)
ghost use Rattle.std.specs.Prelude.{◌≡◌};

use hr_base::Memory;

/// What is wrong at a place of a pattern's text.
#[derive(Clone, Copy, Debug, PartialEq, Eq)]
pub enum Why {
    /// There are more than `LIMIT` bytes. The place is `LIMIT`; this is looked at first.
    Long,
    /// A `[` without `\` before it: there are no classes.
    Class,
    /// A `{` within a group: groups do not nest.
    Nested,
    /// The `{` of a group that no `}` closes.
    Unclosed,
    /// A `}` outside a group.
    Stray,
    /// A `\` that ends the text.
    Escape,
    /// The `{` of the group with which the expanded forms pass `FORMS_LIMIT`.
    Many,
}

/// The answer to a text that is no pattern.
#[derive(Clone, Copy, Debug, PartialEq, Eq)]
pub enum PatternRefused {
    /// The first fault from the left, and its place in bytes from 0. A group's end is where
    /// `Many` is met, and the text's end where `Unclosed` and `Escape` are.
    At { at: u32, why: Why },
    /// There was no memory for the pattern.
    Memory,
}

impl From<Memory> for PatternRefused {
    ghost use Rattle.hr_pattern.specs.declared.refusal.PatternRefused.TheVariants.{Memory as no_memory};

    ghost from_gives = { λ _ e. e ≡ no_memory };

    fn from(_: Memory) -> PatternRefused {
        PatternRefused::Memory
    }
}
