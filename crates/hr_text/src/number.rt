//! Decimal numbers. (Our own.)
ghost use Rattle.std.specs.Prelude.{◌≡◌, ◌↔◌, ℕ, IfNone, IfSome, IsTrue};
ghost use Rattle.hr_text.specs.Number.{IsNumber, begins_number};

use std::str::from_utf8;

/// The number below 2^64 that a word writes: one decimal digit or more, without a sign, and without
/// a zero in front of others.
pub fn read_number(word: &[u8]) -> Option<u64>
    ensures some { IfSome result (IsNumber word.now) }
    ensures none { IfNone result ((number : ℕ) → IsNumber word.now number → ⊥) }
{
    if !begins_number(word) {
        return None;
    }
    let Ok(text) = from_utf8(word) else {
        return None;
    };
    text.parse().ok()
}

// Whether a word is the digit zero, or begins with another digit.
fn begins_number(word: &[u8]) -> bool
    ensures { result ≡ begins_number word.now }
{
    matches!(word, [b'0'] | [b'1'..=b'9', ..])
}
