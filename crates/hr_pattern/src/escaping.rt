//! A law of patterns, on a text with a `\` before each byte.
ghost use Rattle.std.specs.Prelude.{◌≡◌, ◌≤◌, ◌↔◌, None, length};
ghost use Rattle.hr_base.specs.Bytes.{Text};
ghost use Rattle.hr_pattern.specs.Form.{Fits, fault_of};
ghost use Rattle.hr_pattern.specs.Sign.{escaped};
ghost use Rattle.hr_pattern.specs.declared.pattern.TheConstants.{LIMIT};

/// A law: an escaped text of at most `LIMIT` bytes is a pattern that the text alone fits.
pub fn escaped_texts_are_fitted_alone()
    ensures sound { (text : Text) → length (escaped text) ≤ LIMIT → fault_of (escaped text) ≡ None }
    ensures alone { (text other : Text) → Fits (escaped text) other ↔ (other ≡ text) }
{}
