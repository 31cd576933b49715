//! A text that is cut at a byte. (Our own.)
ghost use Rattle.std.specs.Prelude.{◌≡◌, ◌==◌, ◌+◌, ◌<◌, ◌∷◌, ◌++◌, IfSome, MatchOption, length, option_copied, position};
ghost use Rattle.hr_text.specs.Cutting.{cut_at, pieces_left, split_at_byte};

/// The text before the first such byte, and the text behind that byte, or `None` where the text has
/// no such byte. It takes time in proportion to what stands before the cut.
pub fn cut(text: &[u8], byte: u8) -> (&[u8], Option<&[u8]>)
    ensures before { result.0.now ≡ (cut_at byte text.now).0 }
    ensures behind { option_copied result.1 ≡ (cut_at byte text.now).1 }

    // The pieces of a text are the one before its first cut, and the pieces of the rest.
    ensures pieces { split_at_byte byte text.now
        ≡ result.0.now ∷ pieces_left byte (option_copied result.1) }
    ensures joined { MatchOption result.1 (text.now ≡ result.0.now)
        (λ behind. text.now ≡ result.0.now ++ byte ∷ behind.now) }
    ensures shorter { IfSome result.1 (λ behind. length behind.now < length text.now) }
{
    match find(text, byte) {
        Some(at) => (&text[..at], Some(&text[at + 1..])),
        None => (text, None),
    }
}

// Where the first such byte stands.
fn find(text: &[u8], byte: u8) -> Option<usize>
    ensures { result ≡ position (λ b. b == byte) text.now }
{
    text.iter().position(|b| *b == byte)
}
