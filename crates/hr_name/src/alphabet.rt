//! The bytes of names and tags (OCI Distribution 1.1, "Pulling manifests").
ghost use Rattle.std.specs.Prelude.{◌≡◌};
ghost use Rattle.hr_name.specs.Alphabet.{stands_in_run, begins_tag, goes_on_tag};

/// Whether it is a lower-case letter or a digit.
pub fn stands_in_run(byte: u8) -> bool
    ensures { result ≡ stands_in_run byte }
{
    byte.is_ascii_lowercase() || byte.is_ascii_digit()
}

/// Whether it is a letter, a digit or `_`.
pub fn begins_tag(byte: u8) -> bool
    ensures { result ≡ begins_tag byte }
{
    byte.is_ascii_alphabetic() || byte.is_ascii_digit() || byte == b'_'
}

/// Whether it is a letter, a digit, `_`, `.` or `-`.
pub fn goes_on_tag(byte: u8) -> bool
    ensures { result ≡ goes_on_tag byte }
{
    begins_tag(byte) || byte == b'.' || byte == b'-'
}
