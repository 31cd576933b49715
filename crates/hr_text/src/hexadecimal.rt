//! Lower-case hexadecimal. (Our own; RFC 4648, section 8, "Base 16 Encoding", has the upper case.)
ghost use Rattle.std.specs.Prelude.{◌≡◌, ◌*◌, ◌↔◌, IfOk, IfSome, IsSome, IsTrue, length};
ghost use Rattle.std.specs.Bool.{OnFalse, OnTrue};
ghost use Rattle.std.specs.List.{AllPass};
ghost use Rattle.hr_text.specs.Hexadecimal.{IsHexadecimal, Spells, is_lower_hex};

use hex::{decode, decode_to_slice};
use hr_base::{Bytes, Memory};
use std::alloc::Global;

/// Whether a text is pairs of digits of lower-case hexadecimal, which it may have none of.
pub fn is_hexadecimal(text: &[u8]) -> bool
    ensures { IsTrue result ↔ IsHexadecimal text.now }
{
    text.len() % 2 == 0 && are_lower_hex(text)
}

fn are_lower_hex(text: &[u8]) -> bool
    ensures { IsTrue result ↔ AllPass is_lower_hex text.now }
{
    text.iter().all(|b| matches!(b, b'0'..=b'9' | b'a'..=b'f'))
}

/// The bytes that a text spells in lower-case hexadecimal, two digits each, or `None` where it is
/// not such a text.
pub fn read_hex(alloc: Global, text: &[u8]) -> Result<Option<Bytes>, Memory>
    ensures some { IfOk result (λ read. IsSome read ↔ IsHexadecimal text.now) }
    ensures spelled { IfOk result (λ read. IfSome read (Spells text.now)) }
{
    if !is_hexadecimal(text) {
        return Ok(None);
    }
    match decode(alloc, text) {
        Ok(bytes) => Ok(Some(Bytes::from(bytes))),
        // Pairs of digits are decoded where there is room.
        Err(_) => Err(Memory),
    }
}

/// Writes the bytes that a text spells in lower-case hexadecimal, where they are as many as there is
/// room for; else it leaves the room as it was. It takes no memory.
pub fn read_hex_to(text: &[u8], room: &mut [u8]) -> bool
    ensures done { IsTrue result
        ↔ ((length text.now ≡ 2 * length room.old) × AllPass is_lower_hex text.now) }
    ensures spelled { OnTrue result (Spells text.now room.new) }
    ensures same { OnFalse result (room.new ≡ room.old) }
{
    if text.len() != 2 * room.len() || !are_lower_hex(text) {
        return false;
    }
    // Pairs of digits are decoded where there is room for their bytes.
    decode_to_slice(text, room).is_ok()
}
