//! The length that a `Content-Length` says (RFC 9110, section 8.6).
ghost use Rattle.std.specs.Prelude.{◌≡◌, ◌↔◌, IsTrue};
ghost use Rattle.std.specs.List.{AllPass};
ghost use Rattle.std.specs.Char.{is_ascii_digit};
ghost use Rattle.hr_frame.specs.Length.{length_of};

use std::str::from_utf8;

// How many digits a length has at most.
const MOST_DIGITS: usize = 19;

/// The number that a value of 1 to 19 decimal digits writes, where it is below `2^63`; the value may
/// begin with zeros. `None` where it is no such text.
pub fn read_length(value: &[u8]) -> Option<u64>
    ensures { result ≡ length_of value.now }
{
    if value.len() > MOST_DIGITS {
        return None;
    }
    if !are_digits(value) {
        return None;
    }
    let Ok(text) = from_utf8(value) else {
        return None;
    };
    let len: u64 = text.parse().ok()?;
    if len < 1 << 63 { Some(len) } else { None }
}

fn are_digits(value: &[u8]) -> bool
    ensures { IsTrue result ↔ AllPass is_ascii_digit value.now }
{
    value.iter().all(|byte| byte.is_ascii_digit())
}
