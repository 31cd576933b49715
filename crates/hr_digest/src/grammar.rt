//! The parts of a digest's text (OCI Image 1.1, "Descriptors", section "Digests").
ghost use Rattle.std.specs.Prelude.{◌≡◌, ◌↔◌, IsTrue, MatchOption};
ghost use Rattle.hr_base.specs.Bytes.{Text};
ghost use Rattle.hr_digest.specs.Grammar.{HasParts, IsAlgorithm, IsRun, is_component_byte, is_encoded_byte, is_separator};

use hr_text::cut;

// The algorithm and the encoded part of a text, where it has them.
pub(crate) fn split(text: &[u8]) -> Option<(&[u8], &[u8])>
    ensures { MatchOption result
        ((algorithm encoded : Text) → HasParts text.now algorithm encoded → ⊥)
        (λ found. HasParts text.now found.0.now found.1.now) }
{
    let (algorithm, behind) = cut(text, b':');
    let Some(encoded) = behind else {
        return None;
    };
    if is_algorithm(algorithm) && is_encoded(encoded) {
        Some((algorithm, encoded))
    } else {
        None
    }
}

fn is_algorithm(text: &[u8]) -> bool
    ensures { IsTrue result ↔ IsAlgorithm text.now }
{
    // Whether a component begins here.
    let mut begins = true;
    for byte in text {
        if is_of_component(*byte) {
            begins = false;
        } else if begins || !separates(*byte) {
            return false;
        } else {
            begins = true;
        }
    }
    !begins
}

fn is_of_component(byte: u8) -> bool
    ensures { result ≡ is_component_byte byte }
{
    byte.is_ascii_lowercase() || byte.is_ascii_digit()
}

fn separates(byte: u8) -> bool
    ensures { result ≡ is_separator byte }
{
    matches!(byte, b'+' | b'.' | b'_' | b'-')
}

fn is_encoded(text: &[u8]) -> bool
    ensures { IsTrue result ↔ IsRun is_encoded_byte text.now }
{
    !text.is_empty()
        && text.iter().all(|b| b.is_ascii_alphabetic()
            || b.is_ascii_digit()
            || matches!(b, b'=' | b'_' | b'-'))
}
