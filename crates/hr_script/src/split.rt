//! Texts that are cut at a byte: lines at line feeds, words at spaces. (Our own.)
ghost use Rattle.std.specs.Prelude.{◌≡◌, ◌≤◌, ◌<◌, ◌∷◌, [], IfOk, IfErr, IsSome, OnErr, OnOk, length, not};
ghost use Rattle.std.specs.Option.{option_copied};
ghost use Rattle.hr_script.specs.Text.{is_read, length_left, lines_of, words_left, words_of};

use crate::refusal::{Refused, Why};
use hr_text::cut;

/// The first line of a text that is not empty, and the text behind it.
pub(crate) fn split_line(text: &[u8]) -> (&[u8], &[u8])
    requires { 0 < length text.now }
    ensures lines { lines_of text.now ≡ result.0.now ∷ lines_of result.1.now }
    ensures shorter { length result.1.now < length text.now }
{
    let (line, rest) = cut(text, b'\n');
    match rest {
        Some(rest) => (line, rest),
        None => (line, &[]),
    }
}

/// The first word of a line, and what is left behind it.
pub(crate) fn split_word(text: &[u8]) -> (&[u8], Option<&[u8]>)
    ensures words { words_of text.now ≡ result.0.now ∷ words_left (option_copied result.1) }
    ensures shorter { length_left (option_copied result.1) ≤ length text.now }
{
    cut(text, b' ')
}

/// The next word of what is left of a line, and what is left behind it.
pub(crate) fn take_word(left: Option<&[u8]>) -> Result<(&[u8], Option<&[u8]>), Refused>
    ensures ok { IfOk result (λ taken. words_left (option_copied left.entry)
        ≡ taken.0.now ∷ words_left (option_copied taken.1)) }
    ensures err { IfErr result (λ e. e ≡ Refused.Bad Why.Count) }
    ensures none { OnErr result (words_left (option_copied left.entry) ≡ []) }
{
    match left {
        Some(text) => Ok(split_word(text)),
        None => Err(Refused::Bad(Why::Count)),
    }
}

/// That no word is left of a line.
pub(crate) fn end_words(left: Option<&[u8]>) -> Result<(), Refused>
    ensures ok { OnOk result (words_left (option_copied left.entry) ≡ []) }
    ensures err { IfErr result (λ e. e ≡ Refused.Bad Why.Count) }
    ensures some { OnErr result (IsSome left.entry) }
{
    match left {
        Some(_) => Err(Refused::Bad(Why::Count)),
        None => Ok(()),
    }
}

/// Whether a line is empty or begins with `#`.
pub(crate) fn is_passed_over(line: &[u8]) -> bool
    ensures { result ≡ not (is_read line.now) }
{
    match line {
        [] => true,
        [first, ..] => *first == b'#',
    }
}
