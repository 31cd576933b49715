//! What an expanded form of a pattern is made of, and what each item covers. (Our own.)
ghost use Rattle.std.specs.Prelude.{◌≡◌, ◌↔◌, IsTrue};

use crate::component::Separated;

/// One item of an expanded form.
#[derive(Clone, Copy, Debug, PartialEq, Eq)]
pub enum Item {
    /// This byte.
    Byte(u8),
    /// Any run of bytes, also none (`*`).
    Any,
    /// Any one byte (`?`).
    One,
}

impl Item {
    ghost use Rattle.hr_pattern.specs.Item.{MeetsByte, is_any};

    /// Whether it covers any run of bytes.
    pub fn is_any(self) -> bool
        ensures { result ≡ is_any self }
    {
        matches!(self, Item::Any)
    }

    /// Whether it covers this one byte.
    pub fn meets(self, other: u8) -> bool
        ensures { IsTrue result ↔ MeetsByte self other }
    {
        match self {
            Item::Byte(byte) => other == byte,
            Item::One => true,
            Item::Any => false,
        }
    }
}

impl Default for Item {
    fn default() -> Item {
        Item::Any
    }
}

impl Separated for Item {
    ghost use Rattle.hr_pattern.specs.Item.{is_slash};

    ghost is_slash = { is_slash };

    fn is_slash(&self) -> bool {
        matches!(self, Item::Byte(b'/'))
    }
}
