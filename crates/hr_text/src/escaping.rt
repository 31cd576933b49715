//! Which texts stand in a string of JSON as they are (RFC 8259, section 7, "Strings").
ghost use Rattle.std.specs.Prelude.{◌≡◌, ◌↔◌, IsTrue};
ghost use Rattle.hr_text.specs.Escaping.{IsUnescaped, is_escaped};

/// Whether JSON escapes none of the bytes, as it does 0 to 31, `"` and `\`.
pub fn is_unescaped(text: &[u8]) -> bool
    ensures { IsTrue result ↔ IsUnescaped text.now }
{
    text.iter().all(|b| !is_escaped(*b))
}

// Whether JSON escapes a byte.
fn is_escaped(byte: u8) -> bool
    ensures { result ≡ is_escaped byte }
{
    byte < 32 || byte == b'"' || byte == b'\\'
}
