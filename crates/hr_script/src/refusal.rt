//! Why a line of a script is refused. (Our own.)
ghost use Rattle.std.specs.Prelude.{◌≡◌};

use hr_base::Memory;

/// Why a line is bad: the first of these that holds in it. From `Number` on they are looked for word
/// by word, from the left; `NotYet` of a first word is looked for with `Word`.
#[derive(Clone, Copy, Debug, PartialEq, Eq)]
pub enum Why {
    /// Its first word begins no line of the language.
    Word,
    /// It is a setup line behind an event.
    Order,
    /// It has too few words or too many.
    Count,
    /// A word is no number, or one that is out of its range.
    Number,
    /// A word is no name of a repository, or one that is too long.
    Name,
    /// A word is no tag.
    Tag,
    /// A word is not pairs of lower-case hexadecimal digits, at least one.
    Hex,
    /// A media type has a byte that JSON escapes, or a word names no status.
    Policy,
    /// It has a word of the language for what is not built yet. Today that is a first word, or
    /// another lane than 0.
    NotYet,
}

/// The first bad line of a text, by its number from 1.
#[derive(Clone, Copy, Debug, PartialEq, Eq)]
pub struct Fault {
    pub line: u32,
    pub why: Why,
}

/// Why a line, or a part of it, is not answered.
#[derive(Clone, Copy, Debug, PartialEq, Eq)]
pub(crate) enum Refused {
    /// It is bad.
    Bad(Why),
    /// There was no room for what it gives.
    Memory,
}

impl From<Memory> for Refused {
    ghost use Rattle.hr_script.specs.declared.refusal.Refused.TheVariants.{Memory as no_memory};

    ghost from_gives = { λ _ e. e ≡ no_memory };

    fn from(_: Memory) -> Refused {
        Refused::Memory
    }
}
